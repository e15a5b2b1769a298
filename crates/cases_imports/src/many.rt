//! Blocks of the largest size. The first number of the answer is handed back; where there is an `out`, all is told.
ghost use Rattle.std.specs.Prelude.{◌+◌, ◌*◌, ◌≤◌, length};

use crate::blocks::number_in;
use sizes::{FOOTER, HEADER, LINE, SLOT};
use vectors::SAMPLES;
use vectors::program::Answer;

/// One more than a file may have.
const LINES: usize = sizes::LINES_MOST + 1;

/// The bytes of one slot more than a register may have.
const ROOM: usize = (sizes::SLOTS_MOST + 1) * SLOT;

fn in_order(out: Option<&HostRuntime>, room: &[u8], n: usize) -> Answer {
    if room.len() < n {
        return Answer::Number(0);
    }
    crate::found::in_order(out, &room[..n])
}

// Its own function, and so below, so that no proof is about so long an array and a slice of it at once.
fn with_room(out: Option<&HostRuntime>, f: &[u8], room: &[u8; ROOM]) -> Answer {
    in_order(out, room, number_in(f))
}

/// So many zero bytes as a register.
pub fn of_slots(out: Option<&HostRuntime>, f: &[u8]) -> Answer {
    let room = [0u8; ROOM];
    with_room(out, f, &room)
}

/// A file with a line for each letter.
pub fn lay_lines(hgv: &mut [u8], samples: &[u8; SAMPLES], letters: &[u8])
    requires { 192 + length letters.now * 128 ≤ length hgv.old }
{
    let n = letters.len();
    vectors::lay(hgv, 1, HEADER, samples, b"0");
    vectors::lay(hgv, HEADER + 1, LINE, samples, letters);
    vectors::lay(hgv, HEADER + n * LINE + 1, FOOTER, samples, b"T");
    numbers::put_number(hgv, 66, 15, n as u64);
}

/// So many lines B, of which each is to be rejected.
fn import_lines(
    out: Option<&HostRuntime>,
    f: &[u8],
    samples: &[u8; SAMPLES],
    hgv: &mut [u8],
    hgc: &mut [u8],
) -> Answer
    requires { 1048896 ≤ length hgv.old }
{
    let n = number_in(f).min(LINES);
    let mut register = [0u8; SLOT];
    let letters = [b'B'; LINES];
    lay_lines(hgv, samples, &letters[..n]);
    let outcome = importer::import(
        1,
        b"20250310050000",
        0,
        &mut register,
        b"97990012      0816900123",
        texts::field(hgv, 1, HEADER + n * LINE + FOOTER),
        hgc,
    );
    if let Some(rt) = out {
        crate::tell::confirmed(rt, outcome);
    }
    Answer::of_call(&outcome)
}

fn with_blocks(
    out: Option<&HostRuntime>,
    f: &[u8],
    samples: &[u8; SAMPLES],
    hgv: &mut [u8; 1048896],
    hgc: &mut [u8; 1065134],
) -> Answer {
    import_lines(out, f, samples, hgv, hgc)
}

/// Into the largest HGC.
pub fn of_lines(out: Option<&HostRuntime>, f: &[u8], samples: &[u8; SAMPLES]) -> Answer {
    let mut hgv = [0u8; 1048896];
    let mut hgc = [0u8; 1065134];
    with_blocks(out, f, samples, &mut hgv, &mut hgc)
}
