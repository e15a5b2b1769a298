//! The verdicts of lines whose places are known: where each line's PAN stands in the register, and which of the lines is the
//! first that has it. L11 looks at one slot, and L12 at one flag.
#![tactic(auto)]

ghost use Rattle.std.specs.Prelude.{◌≡◌, true, false, ◌||◌, map, ◌≤◌, length, replicate};
ghost use Rattle.theory.specs.First.{first, choose};
ghost use Rattle.theory.specs.laws.First.{otherwise};
ghost use Rattle.theory.specs.Pick.{good};
ghost use Rattle.theory.specs.Distinct.{distinct};
ghost use Rattle.rules.specs.Numbers.{verdict_number};
ghost use Rattle.sizes.specs.Sizes.{lines_most};
ghost use Rattle.columns.specs.Columns.{pan_of};
ghost use Rattle.slots.specs.Slots.{slots_of};
ghost use Rattle.slots.specs.Search.{place_of};
ghost use Rattle.verdicts.specs.Verdict.{own_rules};
ghost use Rattle.flagging.specs.Places.{places_of, firsts_of};
ghost use Rattle.flagging.specs.laws.Held.{foreign_at};
ghost use Rattle.flagging.specs.Promises.{JudgePlaced};

use rules::{Reason, require};
use texts::Parts;
use verdicts::{Basis, byte};

// Is there a slot at this place, and is it another actor's.
#[tactic(auto, using(crate::proofs::Laws::foreign_none, crate::proofs::Laws::foreign_slot))]
fn is_foreign(held: &[u8], at: usize, who: &[u8]) -> bool
    ensures { result ≡ foreign_at who.now (slots_of held.now) at }
{
    at < held.len() / sizes::SLOT && !slots::is_of(texts::part(held, sizes::SLOT, at), who)
}

// The verdict of a line whose PAN stands at this place of the slots. The flag is set where a line that was taken before it
// has its PAN.
#[tactic(auto, using(verdicts::proofs::Laws::own_line, crate::proofs::Laws::own_placed, crate::proofs::Laws::stands, crate::proofs::Laws::next), unfolding(theory::specs::First::choose))]
fn verdict_by(l: &[u8], basis: &Basis, at: usize, flag: bool) -> Result<(), Reason>
    requires apart { distinct (map pan_of (slots_of basis.now.held.now)) ≡ true }
    requires placed { at ≡ place_of (pan_of l.now) (slots_of basis.now.held.now) }
    ensures { verdict_number result ≡ otherwise (first (own_rules basis.now.rows.now basis.now.sender.now (slots_of basis.now.held.now) l.now)) (choose flag 1 0) }
{
    lines::line_fault(l, basis.sender, basis.rows)?;
    require(!is_foreign(basis.held, at, basis.sender), Reason::Range)?;
    require(!flag, Reason::Duplicate)
}

// The flag of a PAN, after a line that has it got this verdict.
#[tactic(auto, using(crate::proofs::Laws::good_ok))]
fn flag_after(flag: bool, verdict: Result<(), Reason>) -> bool
    ensures { result ≡ flag || good (verdict_number verdict) }
{
    flag || verdict.is_ok()
}

// What `judge_placed` promises, with flags. The flag of a PAN stands at the first line that has it.
fn judge_flagged(
    lines: &Parts,
    basis: &Basis,
    found: &[u16],
    firsts: &[u16],
    flags: &mut [bool],
    verdicts: &mut [u8],
)
    requires lined { length verdicts.old ≤ lines.now.count }
    requires apart { distinct (map pan_of (slots_of basis.now.held.now)) ≡ true }
    requires placed { found.now ≡ places_of (slots_of basis.now.held.now) lines.now.width lines.now.block.now (length verdicts.old) }
    requires first { firsts.now ≡ firsts_of lines.now.width lines.now.block.now (length verdicts.old) }
    requires unflagged { flags.old ≡ replicate (length verdicts.old) false }
    ensures { JudgePlaced lines.now.block.now lines.now.width basis.now.sender.now basis.now.rows.now basis.now.held.now verdicts.old verdicts.new }
{
    for i in 0..verdicts.len() {
        let first = usize::from(firsts[i]);
        let at = usize::from(found[i]);
        let flag = flags[first];
        let v = verdict_by(lines.part(i), basis, at, flag);
        verdicts[i] = byte(v);
        flags[first] = flag_after(flag, v);
    }
}

/// A verdict for each of the lines, by the places of their PANs among the slots and by the first lines that have them.
// Stays: the two tables and what they tell of; a type for them would be made by one function and taken apart by the next.
pub fn judge_placed(
    lines: &Parts,
    basis: &Basis,
    found: &[u16],
    firsts: &[u16],
    verdicts: &mut [u8],
)
    requires lined { length verdicts.old ≤ lines.now.count }
    requires few { length verdicts.old ≤ lines_most }
    requires apart { distinct (map pan_of (slots_of basis.now.held.now)) ≡ true }
    requires placed { found.now ≡ places_of (slots_of basis.now.held.now) lines.now.width lines.now.block.now (length verdicts.old) }
    requires first { firsts.now ≡ firsts_of lines.now.width lines.now.block.now (length verdicts.old) }
    ensures { JudgePlaced lines.now.block.now lines.now.width basis.now.sender.now basis.now.rows.now basis.now.held.now verdicts.old verdicts.new }
{
    let n = verdicts.len();
    let mut flags = [false; sizes::LINES_MOST];
    judge_flagged(lines, basis, found, firsts, &mut flags[..n], verdicts);
}
