//! An HGV and its HGC, by their letters: the length of each where it is not its own, and a place of the HGV (V) or of the HGC
//! (C) changed. An HGC is read back into a block of so many bytes, or a copy is updated in a mode. The first number of the
//! answer is handed back; where there is an `out`, all is told. `utc` has the offset in front of the same fields as an update,
//! and a blank.
ghost use Rattle.std.specs.Prelude.{◌≤◌, length};

use crate::blocks::{
    FILE, REGISTER, is_laid, lay_file, lay_hgc, lay_slots, number_in, offset_in, sent_length,
};
use provider::Counts;
use rules::Refusal;
use vectors::SAMPLES;
use vectors::program::Answer;

/// No verdict.
const UNWRITTEN: u8 = 238;

fn change_in(to: &mut [u8], pair: &[u8], file: &[u8]) {
    if texts::has_text(pair, 23, 23, file) {
        vectors::change(to, texts::field(pair, 25, 65536));
    }
}

/// The HGV of a pair; how many bytes of it are sent.
fn lay_sent(to: &mut [u8; FILE], samples: &[u8; SAMPLES], pair: &[u8]) -> usize
    ensures { 1 ≤ result }
{
    let own = lay_file(to, samples, texts::field(pair, 1, 5));
    change_in(to, pair, b"V");
    sent_length(texts::field(pair, 13, 16), own)
}

/// The HGC of a pair; how many bytes of it come back.
fn lay_back(to: &mut [u8; FILE], samples: &[u8; SAMPLES], pair: &[u8]) -> usize
    ensures { 1 ≤ result }
{
    let own = lay_hgc(to, samples, texts::field(pair, 7, 11));
    change_in(to, pair, b"C");
    sent_length(texts::field(pair, 18, 21), own)
}

fn tell_verdicts(rt: &HostRuntime, block: &[u8]) {
    printing::write_all(rt, b", block");
    for &v in block {
        if v == UNWRITTEN {
            printing::write_all(rt, b" kept");
        } else {
            crate::tell::number(rt, u64::from(v));
        }
    }
}

pub fn of_read(out: Option<&HostRuntime>, f: &[u8], samples: &[u8; SAMPLES]) -> Answer {
    let mut hgv = [0u8; FILE];
    let mut hgc = [0u8; FILE];
    let pair = texts::field(f, 3, 65536);
    let sent = lay_sent(&mut hgv, samples, pair);
    let back = lay_back(&mut hgc, samples, pair);
    let mut block = [UNWRITTEN; 9];
    let n = number_in(texts::field(f, 1, 1)).min(9);
    let read = reading::read_back(
        texts::field(&hgv, 1, sent),
        texts::field(&hgc, 1, back),
        &mut block[..n],
    );
    if let Some(rt) = out {
        crate::tell::counts(rt, read);
        tell_verdicts(rt, &block[..n]);
    }
    Answer::of_call(&read)
}

/// The numbers, and the copy after it; at a stop, whether it is as it was.
fn tell_copy(
    rt: &HostRuntime,
    updated: Result<Counts, Refusal>,
    f: &[u8],
    samples: &[u8; SAMPLES],
    copy: &[u8],
) {
    crate::tell::counts(rt, updated);
    if updated.is_ok() {
        printing::write_all(rt, b"\n");
        crate::tell::slots(rt, copy);
        return;
    }
    printing::write_all(rt, b" ");
    crate::tell::kept(rt, is_laid(copy, samples, texts::field(f, 3, 6)));
}

fn update_at(out: Option<&HostRuntime>, offset: i64, f: &[u8], samples: &[u8; SAMPLES]) -> Answer {
    let mut hgv = [0u8; FILE];
    let mut hgc = [0u8; FILE];
    let pair = texts::field(f, 8, 65536);
    let sent = lay_sent(&mut hgv, samples, pair);
    let back = lay_back(&mut hgc, samples, pair);
    let mut copy = [0u8; REGISTER];
    let end = lay_slots(&mut copy, samples, texts::field(f, 3, 6));
    let updated = updating::update(
        number_in(texts::field(f, 1, 1)) as u64,
        offset,
        &mut copy[..end],
        texts::field(&hgv, 1, sent),
        texts::field(&hgc, 1, back),
    );
    if let Some(rt) = out {
        tell_copy(rt, updated, f, samples, &copy[..end]);
    }
    Answer::of_call(&updated)
}

pub fn of_update(out: Option<&HostRuntime>, f: &[u8], samples: &[u8; SAMPLES]) -> Answer {
    update_at(out, 0, f, samples)
}

pub fn of_utc(out: Option<&HostRuntime>, f: &[u8], samples: &[u8; SAMPLES]) -> Answer {
    update_at(out, offset_in(f), texts::field(f, 7, 65536), samples)
}
