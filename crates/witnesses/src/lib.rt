#![tactic(auto)]

// The idle builds, shut out.
