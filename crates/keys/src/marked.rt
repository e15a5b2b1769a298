ghost use Rattle.std.specs.Prelude.{◌≤◌, length};

use crate::KeyedParts;

/// Parts with their keys, and a mark for each of the first.
#[derive(Clone, Copy, Debug)]
pub struct Marked<'a> {
    pub parts: KeyedParts<'a>,
    pub marks: &'a [u8],
    ghost each: { length marks.now ≤ parts.count },
}
