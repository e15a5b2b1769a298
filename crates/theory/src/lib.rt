#![tactic(auto)]

// Laws on lists and tests that know nothing of tolls: all of it is in specs/. No function.
