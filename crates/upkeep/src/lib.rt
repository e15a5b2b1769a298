//! A register in order stays in order: all of it is in specs/. No function.
#![tactic(auto)]
