//! The seconds of a time since 00010101000000: 0 and the seconds, or 22 and 0 where it is not real. `each` tells the number
//! alone.
use rules::Refusal;
use vectors::program::Answer;

pub fn number(f: &[u8]) -> Answer {
    Answer::of_call(&times::time_of(f).ok_or(Refusal::Time))
}

/// What stands behind the number.
pub fn tell_behind(rt: &HostRuntime, f: &[u8]) {
    printing::write_all(rt, b" ");
    printing::print_decimal(rt, times::time_of(f).unwrap_or(0));
}
