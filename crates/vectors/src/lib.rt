//! The files of vectors: where a part of a line ends, marks in it, texts laid out by the letters that name them, and a place
//! changed; and the program that answers one.
#![tactic(auto)]

pub mod answer;
mod each;
pub mod program;

ghost use Rattle.std.specs.Prelude.{◌≡◌, ◌+◌, ◌-◌, ◌*◌, ◌≤◌, length, get_or};
ghost use Rattle.writing.specs.Put.{put_field};
ghost use Rattle.vectors.specs.Vectors.{text_most, samples_length, marked, fits, put_text, sample};
ghost use Rattle.vectors.specs.Promises.{Before, Mark, Change, Keep, Lay};

/// The most bytes that a text with a letter has.
pub const WIDTH: usize = 168;

/// Its last position, behind its letter and a blank.
const TEXT_TO: usize = WIDTH + 2;

/// The bytes of the texts of all letters.
pub const SAMPLES: usize = 256 * WIDTH;

/// How many bytes stand in front of the first `end`.
pub fn before(s: &[u8], end: u8) -> usize
    ensures { Before s.now end result }
{
    for (i, &b) in s.iter().enumerate() {
        if b == end {
            return i;
        }
    }
    s.len()
}

/// What a byte of a vector stands for: ~ for LF, ^ for CR.
#[tactic(auto, unfolding(crate::specs::Vectors::marked))]
fn marked(b: u8) -> u8
    ensures { result ≡ marked b }
{
    match b {
        b'~' => b'\n',
        b'^' => b'\r',
        _ => b,
    }
}

/// The bytes of a line turned into those that they stand for, once, when it is read.
pub fn mark(line: &mut [u8])
    ensures { Mark line.old line.new }
{
    for i in 0..line.len() {
        line[i] = marked(line[i]);
    }
}

/// Do n bytes from a position on lie within so many.
#[tactic(auto, unfolding(crate::specs::Vectors::fits))]
fn fits(from: usize, n: usize, room: usize) -> bool
    ensures { result ≡ fits from n room }
{
    1 <= from && n <= room && from - 1 <= room - n
}

/// A text over a block from a position on, where it lies within it.
fn put_text(to: &mut [u8], from: usize, text: &[u8])
    ensures { to.new ≡ put_text from text.now to.old }
{
    if fits(from, text.len(), to.len()) {
        writing::put_field(to, from, text);
    }
}

/// A change of a block: a position in three digits, a blank, and the text that goes there.
pub fn change(to: &mut [u8], f: &[u8])
    ensures { Change to.old f.now to.new }
{
    let from = numbers::number(texts::field(f, 1, 3)) as usize;
    put_text(to, from, texts::field(f, 5, 65536));
}

/// The byte in front, and 0 where there is none.
fn letter_of(f: &[u8]) -> u8
    ensures { result ≡ get_or f.now 0 0 }
{
    f.first().copied().unwrap_or(0)
}

/// A text with its letter: the letter, a blank, the text, of which no byte comes under another letter.
pub fn keep(samples: &mut [u8], f: &[u8])
    ensures { Keep samples.old f.now samples.new }
{
    let letter = letter_of(f);
    put_text(
        samples,
        letter as usize * WIDTH + 1,
        texts::field(f, 3, TEXT_TO),
    );
}

/// The first bytes of the text that a letter names, from a position on.
fn lay_one(to: &mut [u8], from: usize, width: usize, samples: &[u8], letter: u8)
    requires { ((1 ≤ from) × (from - 1 + width ≤ length to.old)) × ((width ≤ text_most) × (length samples.now ≡ samples_length)) }
    ensures { to.new ≡ put_field from (sample width samples.now letter) to.old }
{
    let text = texts::part(samples, WIDTH, letter as usize);
    writing::put_field(to, from, &text[0..width]);
}

/// The texts that the letters name, each by its first bytes, one behind the other from a position on.
pub fn lay(to: &mut [u8], from: usize, width: usize, samples: &[u8], letters: &[u8])
    requires { ((1 ≤ from) × (from - 1 + length letters.now * width ≤ length to.old)) × ((width ≤ text_most) × (length samples.now ≡ samples_length)) }
    ensures { Lay to.old from width samples.now letters.now to.new }
{
    let mut at = from;
    for &letter in letters {
        lay_one(to, at, width, samples, letter);
        at += width;
    }
}
