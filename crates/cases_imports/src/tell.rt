//! What is written behind a vector.
use imports::Confirmed;
use provider::Counts;
use rules::Refusal;
use sizes::SLOT;
use vectors::program::Answer;

/// The first of a vector's answers.
pub fn first(rt: &HostRuntime, answer: Answer) {
    printing::write_all(rt, b" -> ");
    printing::print(rt, &answer);
}

pub fn number(rt: &HostRuntime, n: u64) {
    printing::write_all(rt, b" ");
    printing::print_decimal(rt, n);
}

/// The number of a read back or an update, and both counts.
pub fn counts(rt: &HostRuntime, outcome: Result<Counts, Refusal>) {
    let counts = outcome.unwrap_or(Counts {
        taken: 0,
        rejected: 0,
    });
    first(rt, Answer::of_call(&outcome));
    number(rt, counts.taken);
    number(rt, counts.rejected);
}

/// The four numbers of an import.
pub fn confirmed(rt: &HostRuntime, outcome: Result<Confirmed, Refusal>) {
    let confirmed = outcome.unwrap_or(Confirmed {
        taken: 0,
        rejected: 0,
        length: 0,
    });
    first(rt, Answer::of_call(&outcome));
    number(rt, confirmed.taken);
    number(rt, confirmed.rejected);
    number(rt, confirmed.length);
}

/// A slot that is used has two lines: its record, which ends with LF, and its stamp.
fn slot(rt: &HostRuntime, slot: &[u8]) {
    if slot.iter().all(|&b| b == 0) {
        printing::write_all(rt, b"free\n");
        return;
    }
    printing::write_all(rt, slot);
    printing::write_all(rt, b"\n");
}

pub fn slots(rt: &HostRuntime, register: &[u8]) {
    for part in register.chunks_exact(SLOT) {
        slot(rt, part);
    }
}

pub fn kept(rt: &HostRuntime, holds: bool) {
    let word: &[u8] = if holds { b"kept" } else { b"changed" };
    printing::write_all(rt, word);
}
