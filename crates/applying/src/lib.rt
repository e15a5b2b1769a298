//! The taken lines of a file applied to a register in place: in mode 2 the sender's records first go, then each line is
//! stored under its PAN.
#![tactic(auto)]

ghost use Rattle.std.specs.Prelude.{◌≡◌, true, cond, ◌≤◌, length};
ghost use Rattle.theory.specs.Each.{Each};
ghost use Rattle.sizes.specs.Sizes.{time_length};
ghost use Rattle.sizes.specs.Modes.{is_full};
ghost use Rattle.sequences.specs.Sequence.{list_length};
ghost use Rattle.stamps.specs.Stamp.{stamp};
ghost use Rattle.records.specs.Slot.{slot_of, storable};
ghost use Rattle.slots.specs.Slots.{slots_in, records};
ghost use Rattle.register.specs.Register.{in_order};
ghost use Rattle.taken.specs.Taken.{taken_in};
ghost use Rattle.upkeep.specs.Holds.{Left};
ghost use Rattle.applying.specs.Fit.{Fit, Sought};
ghost use Rattle.applying.specs.laws.Prepared.{prepared};
ghost use Rattle.applying.specs.Promises.{Apply};

use holdings::Placed;
use texts::Parts;

// What the lines are stored into; how many slots are used in it.
fn prepare(mode: u64, register: &mut [u8], who: &[u8]) -> usize
    requires { in_order register.old ≡ true }
    ensures { Left (slots_in register.old) (prepared mode who.now (records register.old)) register.new result }
{
    if mode == sizes::FULL {
        return removing::remove_of(register, who);
    }
    slots::used_slots(register)
}

// Below which place those that were found tell where a PAN stands: in mode 2 below none, since the sender's records went.
#[tactic(auto, unfolding(sizes::specs::Modes::is_full))]
fn told_below(mode: u64, used: usize) -> usize
    ensures { result ≡ cond (is_full mode) 0 used }
{
    if mode == sizes::FULL { 0 } else { used }
}

/// The lines whose verdict is 0, of this sender's list that was received at `reception`, applied to a register in order under
/// one stamp; the places that were found tell in mode 1 where their PANs stand in it.
// Stays: an import and an update have these from different files, the sender, the list and the reception one by one.
pub fn apply(
    mode: u64,
    register: &mut [u8],
    who: &[u8],
    list: &[u8],
    reception: &[u8],
    lines: &Parts,
    placed: &Placed<'_>,
)
    requires lined { length placed.now.verdicts.now ≤ lines.now.count }
    requires ordered { in_order register.old ≡ true }
    requires listed { length list.now ≡ list_length }
    requires received { length reception.now ≡ time_length }
    requires kept { Each (λ l. storable (stamp list.now reception.now) l ≡ true) (taken_in lines.now.width placed.now.verdicts.now lines.now.block.now) }
    requires fit { Fit mode who.now (slot_of (stamp list.now reception.now)) (slots_in register.old) (records register.old) (taken_in lines.now.width placed.now.verdicts.now lines.now.block.now) }
    requires sought { Sought mode (records register.old) lines.now.width lines.now.block.now placed.now.verdicts.now placed.now.found.now }
    ensures { Apply mode register.old who.now list.now reception.now lines.now.block.now lines.now.width placed.now.verdicts.now register.new }
{
    let mut stamp = [0u8; sizes::STAMP];
    stamps::write_stamp(&mut stamp, list, reception);
    let used = prepare(mode, register, who);
    let told = told_below(mode, used);
    storing::store_all(register, used, told, lines, placed, &stamp);
}
