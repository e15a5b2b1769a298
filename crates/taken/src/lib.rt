//! A byte for each line of a file: 0 where the line was taken.
#![tactic(auto)]

ghost use Rattle.taken.specs.Promises.{CountTaken};

/// How many lines of a file were taken, and how many rejected.
#[derive(Clone, Copy, Debug, PartialEq, Eq)]
pub struct Counts {
    pub taken: u64,
    pub rejected: u64,
}

/// How many are 0.
pub fn count_taken(verdicts: &[u8]) -> u64
    ensures { CountTaken verdicts.now result }
{
    let mut taken: u64 = 0;
    for &verdict in verdicts {
        // Stays: a verdict is the byte that the definition lends for each line, and an option takes twice the stack.
        taken += u64::from(verdict == 0);
    }
    taken
}
