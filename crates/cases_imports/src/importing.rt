//! An import, from one line: mode, reception, rows, register and HGV by their letters, the length of the HGC's buffer, the
//! HGV's where it is not its own, and a place of the HGV changed. Answered are the four numbers and, where the first is 0,
//! the register after it and the HGC. The first number is handed back; where there is an `out`, all is told. `local` has the
//! offset in front of the same fields, and a blank; `indexed` the index in front of that: its length, a blank, the number that
//! each of its places holds at first, and a blank.
ghost use Rattle.std.specs.Prelude.{◌≤◌, length};

use crate::blocks::{
    FILE, REGISTER, is_laid, lay_file, lay_slots, number_in, offset_in, sent_length,
};
use imports::Confirmed;
use rules::Refusal;
use sizes::ROW;
use vectors::SAMPLES;
use vectors::program::Answer;

/// A byte that stands in none of these HGCs.
const UNWRITTEN: u8 = 238;

/// The longest index.
const INDEX: usize = 16;

/// An index that is lent: how long it is, and the number in each of its places.
#[derive(Clone, Copy)]
struct Index {
    length: usize,
    number: u16,
}

/// How an import is called: by an index or not, and the offset.
#[derive(Clone, Copy)]
struct Call {
    index: Option<Index>,
    offset: i64,
}

/// Has nothing been written from byte `from` on, counted from 0.
fn is_kept(buffer: &[u8], from: usize) -> bool {
    buffer.iter().skip(from).all(|&b| b == UNWRITTEN)
}

/// The row of a letter, and none for -; how many bytes it has.
fn lay_rows(to: &mut [u8], samples: &[u8; SAMPLES], letters: &[u8]) -> usize
    requires { 24 ≤ length to.old }
    ensures { result ≤ 24 }
{
    let k = vectors::before(letters, b'-').min(1);
    vectors::lay(to, 1, ROW, samples, &letters[..k]);
    k * ROW
}

/// The import, by an index where one is called for.
fn import_by(
    call: Call,
    mode: u64,
    reception: &[u8],
    register: &mut [u8],
    rows: &[u8],
    hgv: &[u8],
    hgc: &mut [u8],
) -> Result<Confirmed, Refusal> {
    let offset = call.offset;
    match call.index {
        None => importer::import(mode, reception, offset, register, rows, hgv, hgc),
        Some(index) => {
            let mut numbers = [index.number; INDEX];
            let n = index.length.min(INDEX);
            let lent = &mut numbers[..n];
            indexed::import_indexed(mode, reception, offset, register, rows, hgv, hgc, lent)
        }
    }
}

fn imported(
    call: Call,
    f: &[u8],
    samples: &[u8; SAMPLES],
    register: &mut [u8],
    hgv: &[u8],
    hgc: &mut [u8],
) -> Result<Confirmed, Refusal> {
    let mut rows = [0u8; 24];
    let end = lay_rows(&mut rows, samples, texts::field(f, 18, 18));
    import_by(
        call,
        number_in(texts::field(f, 1, 1)) as u64,
        texts::field(f, 3, 16),
        register,
        &rows[..end],
        hgv,
        hgc,
    )
}

/// The register, the HGC, and whether the buffer behind it is as it was.
fn tell_blocks(rt: &HostRuntime, register: &[u8], hgc: &[u8], length: usize)
    requires { 1 ≤ length }
{
    printing::write_all(rt, b"\n");
    crate::tell::slots(rt, register);
    printing::write_all(rt, texts::field(hgc, 1, length));
    crate::tell::kept(rt, is_kept(hgc, length));
}

fn tell_import(
    rt: &HostRuntime,
    f: &[u8],
    samples: &[u8; SAMPLES],
    outcome: Result<Confirmed, Refusal>,
    register: &[u8],
    hgc: &[u8],
) {
    crate::tell::confirmed(rt, outcome);
    match outcome {
        Ok(done) if done.length != 0 => tell_blocks(rt, register, hgc, done.length as usize),
        _ => {
            let stays = is_laid(register, samples, texts::field(f, 20, 23)) && is_kept(hgc, 0);
            printing::write_all(rt, b" ");
            crate::tell::kept(rt, stays);
        }
    }
}

fn with_file(
    out: Option<&HostRuntime>,
    call: Call,
    f: &[u8],
    samples: &[u8; SAMPLES],
    hgv: &[u8],
) -> Answer {
    let mut register = [0u8; REGISTER];
    let mut hgc = [UNWRITTEN; FILE];
    let end = lay_slots(&mut register, samples, texts::field(f, 20, 23));
    let room = number_in(texts::field(f, 31, 34)).min(FILE);
    let outcome = imported(
        call,
        f,
        samples,
        &mut register[..end],
        hgv,
        &mut hgc[..room],
    );
    if let Some(rt) = out {
        tell_import(rt, f, samples, outcome, &register[..end], &hgc[..room]);
    }
    Answer::of_call(&outcome)
}

fn import_as(out: Option<&HostRuntime>, call: Call, f: &[u8], samples: &[u8; SAMPLES]) -> Answer {
    let mut hgv = [0u8; FILE];
    let own = lay_file(&mut hgv, samples, texts::field(f, 25, 29));
    vectors::change(&mut hgv, texts::field(f, 41, 65536));
    let length = sent_length(texts::field(f, 36, 39), own);
    with_file(out, call, f, samples, texts::field(&hgv, 1, length))
}

/// Without an index.
fn plain(offset: i64) -> Call {
    Call {
        index: None,
        offset,
    }
}

pub fn of_import(out: Option<&HostRuntime>, f: &[u8], samples: &[u8; SAMPLES]) -> Answer {
    import_as(out, plain(0), f, samples)
}

pub fn of_local(out: Option<&HostRuntime>, f: &[u8], samples: &[u8; SAMPLES]) -> Answer {
    import_as(out, plain(offset_in(f)), texts::field(f, 7, 65536), samples)
}

pub fn of_indexed(out: Option<&HostRuntime>, f: &[u8], samples: &[u8; SAMPLES]) -> Answer {
    let index = Index {
        length: number_in(texts::field(f, 1, 4)),
        number: number_in(texts::field(f, 6, 10)).min(65535) as u16,
    };
    let call = Call {
        index: Some(index),
        offset: offset_in(texts::field(f, 12, 16)),
    };
    import_as(out, call, texts::field(f, 18, 65536), samples)
}
