//! An import by an index, of more slots and lines than letters name. From one line: the length of the index, the number that each
//! of its places holds at first, the mode, how many slots there are; a series of records in front of them, and a series of lines.
//! A series is four letters that are laid in turn, how many it has, the number of its first PAN, the step to the next number, and
//! at which number it begins at 0 again, 000 for 1000. The reception is 20250310050000, the sender 900123.
//! Answered are the four numbers and, where the first is 0, each used slot by its PAN's last eight digits, its plate and the day of
//! its list, and each answer of the HGC by the same two and its reason. The first number is handed back; where there is an `out`, all is told.
ghost use Rattle.std.specs.Prelude.{◌+◌, ◌*◌, ◌≤◌, length};
ghost use Rattle.sizes.specs.Sizes.{slot_length};

use crate::blocks::{number_in, sent_length};
use imports::Confirmed;
use rules::Refusal;
use sizes::{FOOTER, HEADER, HGC_HEADER, LINE, SLOT};
use vectors::SAMPLES;
use vectors::program::Answer;

/// The most that a series has, and the most slots.
const MOST: usize = 400;

/// An answer in an HGC.
const ANSWER: usize = LINE + sizes::REASON;

/// The last eight digits of the PAN with a number of three digits: each of these behind a 0, and behind another the digit that
/// makes the Luhn sum right.
fn digits_of(n: usize) -> u64 {
    let hundreds = n / 100 % 10;
    let tens = n / 10 % 10;
    let ones = n % 10;
    let last = (2 + 9 * (hundreds + tens + ones)) % 10;
    (hundreds * 1000000 + tens * 10000 + ones * 100 + last) as u64
}

/// Numbers the PANs of the parts of a block.
fn number_pans(block: &mut [u8], width: usize, series: &[u8])
    requires { (29 ≤ width) × (width ≤ slot_length) }
{
    let step = number_in(texts::field(series, 14, 16)).min(999);
    let round = sent_length(texts::field(series, 18, 20), 1000);
    let mut n = number_in(texts::field(series, 10, 12)).min(999);
    for part in block.chunks_exact_mut(width) {
        numbers::put_number(part, 22, 8, digits_of(n));
        n = ((n % 1000 + step) % round).min(999);
    }
}

fn letter_at(series: &[u8], i: usize) -> u8 {
    series.get(i).copied().unwrap_or(0)
}

/// The letters of a series in turn, over the whole of a text; how many the series has.
fn letters_of(letters: &mut [u8], series: &[u8]) -> usize
    ensures { result ≤ 400 }
{
    for (i, letter) in letters.iter_mut().enumerate() {
        *letter = letter_at(series, i % 4);
    }
    number_in(texts::field(series, 6, 8)).min(MOST)
}

fn lay_slots(register: &mut [u8], samples: &[u8; SAMPLES], series: &[u8])
    requires { 400 * slot_length ≤ length register.old }
{
    let mut letters = [0u8; MOST];
    let n = letters_of(&mut letters, series);
    vectors::lay(register, 1, SLOT, samples, &letters[..n]);
    number_pans(&mut register[..n * SLOT], SLOT, series);
}

/// The file of a series; how many bytes it has.
fn lay_file(hgv: &mut [u8], samples: &[u8; SAMPLES], series: &[u8]) -> usize
    requires { 51392 ≤ length hgv.old }
    ensures { (1 ≤ result) × (result ≤ 51392) }
{
    let mut letters = [0u8; MOST];
    let n = letters_of(&mut letters, series);
    crate::many::lay_lines(hgv, samples, &letters[..n]);
    let end = HEADER + n * LINE;
    number_pans(&mut hgv[HEADER..end], LINE, series);
    end + FOOTER
}

fn imported(
    f: &[u8],
    register: &mut [u8],
    hgv: &[u8],
    hgc: &mut [u8],
) -> Result<Confirmed, Refusal> {
    let mut index = [number_in(texts::field(f, 6, 10)).min(65535) as u16; MOST];
    let n = number_in(texts::field(f, 1, 4)).min(MOST);
    indexed::import_indexed(
        number_in(texts::field(f, 12, 12)) as u64,
        b"20250310050000",
        0,
        register,
        b"97990012      0816900123",
        hgv,
        hgc,
        &mut index[..n],
    )
}

/// Of a used slot or an answer the digits of its PAN, its plate, and two positions from `from` on.
fn tell_part(rt: &HostRuntime, part: &[u8], from: usize)
    requires { (1 ≤ from) × (from ≤ slot_length) }
{
    if texts::has_text(part, 1, 1, b"1") {
        printing::write_all(rt, b" ");
        printing::write_all(rt, texts::field(part, 22, 29));
        printing::write_all(rt, b"/");
        printing::write_all(rt, texts::field(part, 33, 38));
        printing::write_all(rt, b"/");
        printing::write_all(rt, texts::field(part, from, from + 1));
    }
}

fn tell_parts(rt: &HostRuntime, block: &[u8], width: usize, from: usize)
    requires { ((1 ≤ width) × (width ≤ slot_length)) × ((1 ≤ from) × (from ≤ slot_length)) }
{
    for part in block.chunks_exact(width) {
        tell_part(rt, part, from);
    }
}

fn tell(rt: &HostRuntime, outcome: Result<Confirmed, Refusal>, register: &[u8], hgc: &[u8]) {
    crate::tell::confirmed(rt, outcome);
    if outcome.is_ok() {
        printing::write_all(rt, b"\nslots");
        tell_parts(rt, register, SLOT, 144);
        printing::write_all(rt, b"\nanswers");
        tell_parts(rt, texts::field(hgc, HGC_HEADER + 1, 65536), ANSWER, 128);
    }
}

pub fn of_series(out: Option<&HostRuntime>, f: &[u8], samples: &[u8; SAMPLES]) -> Answer {
    let mut register = [0u8; 67200];
    let mut hgv = [0u8; 51392];
    let mut hgc = [0u8; 52174];
    lay_slots(&mut register, samples, texts::field(f, 18, 37));
    let sent = lay_file(&mut hgv, samples, texts::field(f, 39, 58));
    let end = number_in(texts::field(f, 14, 16)).min(MOST) * SLOT;
    let outcome = imported(
        f,
        &mut register[..end],
        texts::field(&hgv, 1, sent),
        &mut hgc,
    );
    if let Some(rt) = out {
        tell(rt, outcome, &register[..end], &hgc);
    }
    Answer::of_call(&outcome)
}
