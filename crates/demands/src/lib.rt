#![tactic(auto)]

// What a provider can know of what became of his file.
