//! Have no two parts of a block one key, where every part is asked.
#![tactic(auto)]

ghost use Rattle.std.specs.Prelude.{◌≤◌};
ghost use Rattle.sizes.specs.Sizes.{parts_most};
ghost use Rattle.apart.specs.Promises.{AllApart};

use keys::{KeyedParts, Marked};

/// Have no two of the parts one key.
pub fn all_apart(parts: &KeyedParts) -> bool
    requires { parts.now.count ≤ parts_most }
    ensures { AllApart parts.now.block.now parts.now.keys parts.now.count result }
{
    let asked = [0u8; sizes::PARTS_MOST];
    ordering::are_apart(&Marked {
        parts: *parts,
        marks: &asked[..parts.count],
    })
}
