//! Keys of the parts of a block: where the key of a part stands, and which of two texts comes first.
#![tactic(auto)]

pub mod keyed;
pub mod marked;

ghost use Rattle.std.specs.Prelude.{◌*◌, ◌+◌, ◌<◌, ◌≤◌, length};
ghost use Rattle.keys.specs.Keys.{Forward};
ghost use Rattle.keys.specs.Promises.{Key, KeyedPartsBy, KeyedPartsKey, IsLess};

pub use keyed::KeyedParts;
pub use marked::Marked;
use texts::{Columns, Parts};

/// The width of the parts, and the first and the last position of a part's key.
#[derive(Clone, Copy, Debug, PartialEq, Eq)]
pub struct Keys {
    pub width: usize,
    pub from: usize,
    pub to: usize,
}

impl<'a> KeyedParts<'a> {
    /// The parts by what stands in these columns of each.
    pub fn by(parts: &Parts<'a>, at: Columns) -> KeyedParts<'a>
        ensures { KeyedPartsBy parts.now at result }
    {
        KeyedParts {
            block: parts.block,
            keys: Keys {
                width: parts.width,
                from: at.from,
                to: at.to,
            },
            count: parts.count,
        }
    }

    /// The key of the part at place `i`.
    #[tactic(auto, using(theory::specs::laws::Parts::part_fits))]
    pub fn key(&self, i: usize) -> &'a [u8]
        requires { i < self.now.count }
        ensures { KeyedPartsKey self.now i result.now }
    {
        key(self.block, self.keys, i)
    }
}

/// The key of the part at place i.
#[tactic(auto, unfolding(crate::specs::Keys::key_at))]
pub fn key<'a>(b: &'a [u8], keys: Keys, i: usize) -> &'a [u8]
    requires { (i * keys.width + keys.width ≤ length b.now) × Forward keys }
    ensures { Key b.now keys i result.now }
{
    texts::field(texts::part(b, keys.width, i), keys.from, keys.to)
}

/// Is the first byte in which `s` and `t` differ lower in `s`. Unlike `<`, it asks only of bytes that both have: a text is not
/// less than one that it begins.
pub fn is_less(s: &[u8], t: &[u8]) -> bool
    ensures { IsLess s.now t.now result }
{
    for i in 0..t.len() {
        if i == s.len() {
            return false;
        }
        if s[i] != t[i] {
            return s[i] < t[i];
        }
    }
    false
}
