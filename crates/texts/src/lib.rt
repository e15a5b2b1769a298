//! Where a text stands in another: fields by their positions, parts of a block, entries of a table; two texts compared.
#![tactic(auto)]

pub mod columns;
pub mod parts;

ghost use Rattle.std.specs.Prelude.{◌+◌, ◌*◌, ◌≤◌, ◌<◌, length};
ghost use Rattle.texts.specs.Promises.{Field, Part, Same, HasText, Listed};

pub use columns::Columns;
pub use parts::Parts;

/// Positions `from` to `to` of a text, counted from 1 as in the document. A text that is too short has a shorter field.
pub fn field<'a>(text: &'a [u8], from: usize, to: usize) -> &'a [u8]
    requires { (1 ≤ from) × (from ≤ to) }
    ensures { Field text.now from to result.now }
{
    if text.len() < from {
        return &text[0..0];
    }
    let start = from - 1;
    if text.len() < to {
        return &text[start..];
    }
    &text[start..to]
}

/// The part at place `i`, counted from 0, of a block whose parts are `width` bytes long.
pub fn part<'a>(block: &'a [u8], width: usize, i: usize) -> &'a [u8]
    requires { i * width + width ≤ length block.now }
    ensures { Part block.now width i result.now }
{
    let at = i * width;
    let end = at + width;
    &block[at..end]
}

/// Are two texts the same. From the last byte to the first: numbers that are counted on differ at their end, and `==` on
/// slices, which begins in front, takes twice the time there.
pub fn same(a: &[u8], b: &[u8]) -> bool
    ensures { Same a.now b.now result }
{
    if a.len() != b.len() {
        return false;
    }
    for i in (0..a.len()).rev() {
        if a[i] != b[i] {
            return false;
        }
    }
    true
}

/// Does `text` stand at positions `from` to `to` of `s`.
pub fn has_text(s: &[u8], from: usize, to: usize, text: &[u8]) -> bool
    requires { (1 ≤ from) × (from ≤ to) }
    ensures { HasText s.now from to text.now result }
{
    same(field(s, from, to), text)
}

/// Is `f` an entry of a table whose entries are `width` bytes long.
pub fn listed(f: &[u8], width: usize, table: &[u8]) -> bool
    requires { 0 < width }
    ensures { Listed f.now width table.now result }
{
    for i in 0..table.len() / width {
        if same(f, part(table, width, i)) {
            return true;
        }
    }
    false
}
