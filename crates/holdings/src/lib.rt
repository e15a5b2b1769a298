//! What the register then holds: where the taken lines' PANs stand among its records, and how many slots are used when the
//! lines have been applied (stop 33).
#![tactic(auto)]

pub mod placed;

ghost use Rattle.std.specs.Prelude.{◌≡◌, ◌&&◌, ◌≤◌, ◌<◌, length};
ghost use Rattle.theory.specs.Keep.{sift};
ghost use Rattle.theory.specs.Pick.{good, pick};
ghost use Rattle.sizes.specs.Sizes.{slots_most};
ghost use Rattle.slots.specs.Slots.{used_in};
ghost use Rattle.holdings.specs.Room.{is_behind};
ghost use Rattle.holdings.specs.Promises.{PlaceAt, FindPlaces, UsedAfter};

use keys::{KeyedParts, Marked};
pub use placed::Placed;
use texts::Parts;

/// The place that was found for line i.
pub fn place_at(found: &[u16], i: usize) -> usize
    requires { i < length found.now }
    ensures { PlaceAt found.now i result }
{
    usize::from(found[i])
}

/// Where the PANs of the taken lines stand among the used slots, in mode 1; mode 2 looks for none.
pub fn find_places(mode: u64, register: &[u8], lines: &Parts, verdicts: &[u8], found: &mut [u16])
    requires lined { length verdicts.now ≤ lines.now.count }
    requires judged { length found.old ≡ length verdicts.now }
    requires few { used_in register.now ≤ slots_most }
    ensures { FindPlaces mode register.now lines.now.block.now lines.now.width verdicts.now found.old found.new }
{
    if mode == sizes::FULL {
        return;
    }
    let held = slots::by_pan(slots::used_part(register));
    let sought = Marked {
        parts: KeyedParts::by(lines, columns::PAN),
        marks: verdicts,
    };
    finding::places(&held, &sought, found);
}

// Is a line taken, and its place none of the slots.
#[tactic(auto, using(crate::proofs::Laws::good_is, crate::proofs::Laws::new_is))]
fn is_new(slots: usize, verdict: u8, place: usize) -> bool
    ensures { result ≡ good verdict && is_behind slots place }
{
    // Stays: a verdict is a byte of the lent block, and 0 there says that the line was taken.
    verdict == 0 && slots <= place
}

// How many of the taken lines are new to so many slots, by the places told.
fn count_new(slots: usize, placed: &Placed<'_>) -> usize
    ensures { (result ≡ length (sift (is_behind slots) (pick good placed.now.verdicts.now placed.now.found.now))) × (result ≤ length placed.now.verdicts.now) }
{
    let mut k = 0;
    for i in 0..placed.verdicts.len() {
        if is_new(slots, placed.verdicts[i], place_at(placed.found, i)) {
            k += 1;
        }
    }
    k
}

/// How many slots are used when the taken lines have been applied; the places that were found tell in mode 1 where their PANs
/// stand.
pub fn used_after(mode: u64, register: &[u8], who: &[u8], placed: &Placed<'_>) -> usize
    ensures { UsedAfter mode register.now who.now placed.now.verdicts.now placed.now.found.now result }
{
    let held = slots::used_part(register);
    let used = held.len() / sizes::SLOT;
    if mode != sizes::FULL {
        return used + count_new(used, placed);
    }
    let others = used - slots::count_of(held, who);
    others + taken::count_taken(placed.verdicts) as usize
}
