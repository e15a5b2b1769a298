//! Registers and files, laid out by their letters.
ghost use Rattle.std.specs.Prelude.{◌*◌, ◌≤◌, length};
ghost use Rattle.sizes.specs.Sizes.{slot_length};

use sizes::{FOOTER, HGC_HEADER, LINE, SLOT};
use vectors::SAMPLES;

/// The most letters of a register, and of an HGV: its header and lines.
const LETTERS: usize = 5;

/// The bytes of so many slots.
pub const REGISTER: usize = LETTERS * SLOT;

/// The bytes of an HGV of so many letters, and room for an HGC.
pub const FILE: usize = LETTERS * LINE + FOOTER;

/// An answer in an HGC.
const ANSWER: usize = LINE + sizes::REASON;

/// The number that digits write, 15 of them at most.
pub fn number_in(f: &[u8]) -> usize {
    numbers::number(texts::field(f, 1, 15)) as usize
}

/// The offset that stands in front of a vector: a sign, + or -, and four digits of minutes.
pub fn offset_in(f: &[u8]) -> i64 {
    let minutes = number_in(texts::field(f, 2, 5)).min(9999) as i64;
    if texts::has_text(f, 1, 1, b"-") {
        -minutes
    } else {
        minutes
    }
}

/// The slot of each letter before the first -, one behind the other; how many bytes they have.
pub fn lay_slots(to: &mut [u8], samples: &[u8; SAMPLES], letters: &[u8]) -> usize
    requires { 5 * slot_length ≤ length to.old }
    ensures { result ≤ 5 * slot_length }
{
    let k = vectors::before(letters, b'-').min(LETTERS);
    vectors::lay(to, 1, SLOT, samples, &letters[..k]);
    k * SLOT
}

/// The header and the lines of an HGV likewise, and a footer; how many bytes they have.
pub fn lay_file(to: &mut [u8; FILE], samples: &[u8; SAMPLES], letters: &[u8]) -> usize
    ensures { 1 ≤ result }
{
    let k = vectors::before(letters, b'-').min(LETTERS);
    vectors::lay(to, 1, LINE, samples, &letters[..k]);
    vectors::lay(to, k * LINE + 1, FOOTER, samples, b"T");
    k * LINE + FOOTER
}

/// The header of an HGC by its letter, an answer for each letter behind it before the first -, and a footer; how many bytes.
pub fn lay_hgc(to: &mut [u8; FILE], samples: &[u8; SAMPLES], letters: &[u8]) -> usize
    ensures { 1 ≤ result }
{
    let answers = texts::field(letters, 2, 5);
    let k = vectors::before(answers, b'-').min(4);
    let head = vectors::before(letters, b'-').min(1);
    vectors::lay(to, 1, HGC_HEADER, samples, &letters[..head]);
    vectors::lay(to, HGC_HEADER + 1, ANSWER, samples, &answers[..k]);
    let end = HGC_HEADER + k * ANSWER;
    vectors::lay(to, end + 1, FOOTER, samples, b"T");
    end + FOOTER
}

/// Is the register as its letters say.
pub fn is_laid(register: &[u8], samples: &[u8; SAMPLES], letters: &[u8]) -> bool {
    let mut laid = [0u8; REGISTER];
    let end = lay_slots(&mut laid, samples, letters);
    register == &laid[..end]
}

/// The length that is asked for, or where that is 0, the file's own.
pub fn sent_length(asked: &[u8], own: usize) -> usize
    requires { 1 ≤ own }
    ensures { 1 ≤ result }
{
    match number_in(asked) {
        0 => own,
        n => n,
    }
}
