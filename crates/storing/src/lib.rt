//! The taken lines of a file stored in a register in place, each under its PAN: in the slot that has it, or in the next free
//! one.
#![tactic(auto)]

ghost use Rattle.std.specs.Prelude.{◌≡◌, true, cond, ◌≤◌, eqb, ltb, length};
ghost use Rattle.theory.specs.Count.{bump};
ghost use Rattle.theory.specs.Pick.{good};
ghost use Rattle.sizes.specs.Sizes.{slots_most};
ghost use Rattle.columns.specs.Columns.{pan_of};
ghost use Rattle.records.specs.Slot.{slot_of};
ghost use Rattle.slots.specs.Slots.{slots_in, records};
ghost use Rattle.holdings.specs.Holdings.{stored};
ghost use Rattle.upkeep.specs.Holds.{Left};
ghost use Rattle.storing.specs.CanStore.{Stands, CanStore};
ghost use Rattle.storing.specs.laws.Steps.{stored_if, Ready};
ghost use Rattle.storing.specs.Promises.{StoreAll};

use holdings::Placed;
use texts::Parts;

// How many slots are used once slot i is: one more where that was the next free one.
#[tactic(auto, using(crate::proofs::Storing::one_more, crate::proofs::Storing::as_many))]
fn next_used(used: usize, i: usize) -> usize
    requires { used ≤ slots_most }
    ensures { result ≡ bump (eqb i used) used }
{
    if i == used { used + 1 } else { used }
}

// The place that was found where it is told, or that behind the used slots.
fn place_or_next(place: usize, told: usize, used: usize) -> usize
    ensures { result ≡ cond (ltb place told) place used }
{
    if place < told { place } else { used }
}

// A line's record in the slot that has its PAN, or in the next free one; how many slots are used then. A place below `told`
// is where the PAN stood before any line was stored.
fn store(
    register: &mut [u8],
    used: usize,
    told: usize,
    line: &[u8],
    stamp: &[u8],
    place: usize,
) -> usize
    requires ready { Ready true stamp.now line.now register.old used }
    requires placed { Stands told (records register.old) (pan_of line.now) place }
    ensures { Left (slots_in register.old) (stored (slot_of stamp.now line.now) (records register.old)) register.new result }
{
    let slot = place_or_next(place, told, used);
    records::put_record(register, slot, line, stamp);
    next_used(used, slot)
}

// The same where the line's verdict is 0; any other line is left.
// Stays: what changes from line to line beside what does not; `store` asks for the same without the verdict.
fn take_line(
    register: &mut [u8],
    used: usize,
    told: usize,
    verdict: u8,
    line: &[u8],
    stamp: &[u8],
    place: usize,
) -> usize
    requires ready { Ready (good verdict) stamp.now line.now register.old used }
    requires placed { good verdict ≡ true → Stands told (records register.old) (pan_of line.now) place }
    ensures { Left (slots_in register.old) (stored_if (good verdict) (slot_of stamp.now line.now) (records register.old)) register.new result }
{
    // Stays: a verdict is a byte of the lent block, and 0 there says that the line was taken.
    if verdict != 0 {
        return used;
    }
    store(register, used, told, line, stamp, place)
}

/// The lines whose verdict is 0, one after the other, in a register of which the first slots are used. A place that was found
/// and is below `told` is where the line's PAN stands; a line with any other is new.
pub fn store_all(
    register: &mut [u8],
    first: usize,
    told: usize,
    lines: &Parts,
    placed: &Placed<'_>,
    stamp: &[u8],
)
    requires lined { length placed.now.verdicts.now ≤ lines.now.count }
    requires storing { CanStore stamp.now register.old first told lines.now.width lines.now.block.now placed.now.verdicts.now placed.now.found.now }
    ensures { StoreAll register.old lines.now.block.now lines.now.width placed.now.verdicts.now stamp.now register.new }
{
    let mut used = first;
    for i in 0..placed.verdicts.len() {
        let line = lines.part(i);
        let place = holdings::place_at(placed.found, i);
        used = take_line(register, used, told, placed.verdicts[i], line, stamp, place);
    }
}
