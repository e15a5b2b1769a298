//! The definition's numbers as types: why a line is rejected, and why a call is refused; and what a call requires.
#![tactic(auto)]

pub mod reason;
pub mod refusal;

ghost use Rattle.rules.specs.Promises.{Require};

pub use reason::Reason;
pub use refusal::Refusal;

/// A condition of a call, or a rule of a line: with `?` behind each, the first that does not hold gives its refusal or reason.
pub fn require<E: Copy>(holds: bool, refusal: E) -> Result<(), E>
    ensures { Require holds refusal result }
{
    if holds { Ok(()) } else { Err(refusal) }
}
