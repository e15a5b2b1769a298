//! A register of four slots, a letter for each, and what is asked of it. The answer's number is handed back; where there is an
//! `out`, all of it is told.
use crate::blocks::{REGISTER, lay_slots};
use rules::Refusal;
use sizes::SLOT;
use vectors::SAMPLES;
use vectors::program::Answer;

/// Where the part stands in the register.
fn place_of(register: &[u8], part: &[u8]) -> usize {
    let mut slots = register.chunks_exact(SLOT);
    match slots.position(|slot| slot == part) {
        Some(place) => place,
        None => register.len() / SLOT,
    }
}

/// The number, and where it is 0 the place and the length of the slot.
fn tell_found(rt: &HostRuntime, register: &[u8], found: Result<&[u8], Refusal>) {
    crate::tell::first(rt, Answer::of_call(&found));
    if let Ok(part) = found {
        printing::write_all(rt, b" at");
        crate::tell::number(rt, place_of(register, part) as u64);
        printing::write_all(rt, b" length");
        crate::tell::number(rt, part.len() as u64);
    }
}

fn of_lookup(out: Option<&HostRuntime>, register: &[u8], found: Result<&[u8], Refusal>) -> Answer {
    if let Some(rt) = out {
        tell_found(rt, register, found);
    }
    Answer::of_call(&found)
}

pub fn in_order(out: Option<&HostRuntime>, register: &[u8]) -> Answer {
    let answer = Answer::from(register::in_order(register));
    if let Some(rt) = out {
        crate::tell::first(rt, answer);
    }
    answer
}

/// In order or not is asked of a register with one place changed too.
pub fn of_register(
    out: Option<&HostRuntime>,
    asked: &[u8],
    f: &[u8],
    samples: &[u8; SAMPLES],
) -> Answer {
    let mut register = [0u8; REGISTER];
    let end = lay_slots(&mut register, samples, texts::field(f, 1, 4));
    if asked == b"ordered ".as_slice() {
        vectors::change(&mut register, texts::field(f, 6, 65536));
        return in_order(out, &register[..end]);
    }
    let slots = &register[..end];
    if asked == b"by pan  ".as_slice() {
        return of_lookup(
            out,
            slots,
            lookups::by_pan(slots, texts::field(f, 6, 65536)),
        );
    }
    let found = lookups::by_plate(
        slots,
        texts::field(f, 6, 15),
        texts::field(f, 16, 18),
        texts::field(f, 19, 65536),
    );
    of_lookup(out, slots, found)
}
