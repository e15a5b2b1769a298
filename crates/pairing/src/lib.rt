#![tactic(auto)]

// Which lines of an HGV were taken, read off its HGC.
