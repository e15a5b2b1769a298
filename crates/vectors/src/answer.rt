ghost use Rattle.vectors.specs.Promises.{AnswerOfCall, AnswerOfBool, AnswerOfNumber};

use rules::Refusal;
use std::fmt;

/// What a vector is answered with, or with it first.
#[derive(Clone, Copy, Debug, PartialEq, Eq)]
pub enum Answer {
    No,
    Yes,
    Number(u64),
}

impl Answer {
    /// The number that a call answers with: 0, or its refusal's.
    pub fn of_call<T>(outcome: &Result<T, Refusal>) -> Answer
        ensures { AnswerOfCall outcome.now result }
    {
        match outcome {
            Ok(_) => Answer::Number(0),
            Err(refusal) => Answer::Number(refusal.number()),
        }
    }
}

impl From<bool> for Answer {
    ghost from_gives = { AnswerOfBool };

    fn from(holds: bool) -> Answer {
        if holds { Answer::Yes } else { Answer::No }
    }
}

impl From<u64> for Answer {
    ghost from_gives = { AnswerOfNumber };

    fn from(number: u64) -> Answer {
        Answer::Number(number)
    }
}

impl fmt::Display for Answer {
    fn fmt<W: fmt::Write>(&self, f: &mut fmt::Formatter<W>) -> fmt::Result {
        match self {
            Answer::No => f.write_str("no"),
            Answer::Yes => f.write_str("yes"),
            Answer::Number(number) => write!(f, "{number}"),
        }
    }
}
