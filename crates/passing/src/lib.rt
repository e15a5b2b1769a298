#![tactic(auto)]

// What the writer's files are to the import: theorems alone.
