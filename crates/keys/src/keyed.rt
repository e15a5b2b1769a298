ghost use Rattle.std.specs.Prelude.{◌*◌, ◌≤◌, length};

use crate::Keys;

/// The first `count` parts of a block, each with a key.
#[derive(Clone, Copy, Debug)]
pub struct KeyedParts<'a> {
    pub block: &'a [u8],
    pub keys: Keys,
    pub count: usize,
    ghost whole: { count * keys.width ≤ length block.now },
    ghost forward: { (1 ≤ keys.from) × (keys.from ≤ keys.to) },
}
