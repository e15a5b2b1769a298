//! The verdicts of a file, as `verdicts` gives them, in near-linear time: where each line's PAN stands in the register, and
//! which line of the file is the first that has it, is found for all lines at once; `flagging` judges the lines by both.
#![tactic(auto)]

ghost use Rattle.std.specs.Prelude.{◌≡◌, true, map, ◌≤◌, length, replicate};
ghost use Rattle.theory.specs.Parts.{chop};
ghost use Rattle.theory.specs.Distinct.{distinct};
ghost use Rattle.sizes.specs.Sizes.{lines_most, slots_most};
ghost use Rattle.columns.specs.Columns.{pan_of};
ghost use Rattle.hgv.specs.Layout.{lines_in, length_holds};
ghost use Rattle.slots.specs.Slots.{slots_in, slots_of};
ghost use Rattle.register.specs.Register.{in_order};
ghost use Rattle.verdicts.specs.Verdict.{verdicts_of};
ghost use Rattle.flagging.specs.Places.{places_of, firsts_of};
ghost use Rattle.judging.specs.Promises.{Judge};

use keys::{KeyedParts, Marked};
use texts::Parts;
use verdicts::Basis;

// Where the PAN of each line stands among the slots, and the first line that has it. No line is marked, so each is looked
// for.
fn find_both(
    held: &[u8],
    lines: &Parts,
    marks: &[u8],
    index: &mut [u16],
    found: &mut [u16],
    firsts: &mut [u16],
)
    requires lined { length found.old ≤ lines.now.count }
    requires few { length found.old ≤ lines_most }
    requires few_slots { slots_in held.now ≤ slots_most }
    requires indexed { slots_in held.now ≤ length index.old }
    requires unmarked { marks.now ≡ replicate (length found.old) 0 }
    requires many { length firsts.old ≡ length found.old }
    ensures placed { found.new ≡ places_of (slots_of held.now) lines.now.width lines.now.block.now (length found.old) }
    ensures first { firsts.new ≡ firsts_of lines.now.width lines.now.block.now (length found.old) }
{
    let slots = slots::by_pan(held);
    let parts = KeyedParts::by(lines, columns::PAN);
    let sought = Marked { parts, marks };
    finding::places_by(&slots, &sought, index, found);
    finding::firsts(&parts, firsts);
}

// Finds the places of the lines' PANs, and judges the lines by them.
// Stays: four tables, each lent to be written or read by another of two calls.
fn judge_found(
    lines: &Parts,
    basis: &Basis,
    marks: &[u8],
    index: &mut [u16],
    firsts: &mut [u16],
    verdicts: &mut [u8],
    found: &mut [u16],
)
    requires lined { length verdicts.old ≤ lines.now.count }
    requires few { length verdicts.old ≤ lines_most }
    requires few_slots { slots_in basis.now.held.now ≤ slots_most }
    requires apart { distinct (map pan_of (slots_of basis.now.held.now)) ≡ true }
    requires indexed { slots_in basis.now.held.now ≤ length index.old }
    requires many { length found.old ≡ length verdicts.old }
    requires many_firsts { length firsts.old ≡ length verdicts.old }
    requires unmarked { marks.now ≡ replicate (length verdicts.old) 0 }
    ensures judged { verdicts.new ≡ verdicts_of basis.now.rows.now basis.now.sender.now (slots_of basis.now.held.now) (chop lines.now.width (length verdicts.old) lines.now.block.now) }
    ensures placed { found.new ≡ places_of (slots_of basis.now.held.now) lines.now.width lines.now.block.now (length verdicts.old) }
{
    find_both(basis.held, lines, marks, index, found, firsts);
    flagging::judge_placed(lines, basis, found, firsts, verdicts);
}

/// The verdicts of a file, a byte for each of its lines, and where each line's PAN stands among the records of the register.
/// The index that the caller lends has a number for each slot; what it holds afterwards means nothing.
pub fn judge(
    hgv: &[u8],
    rows: &[u8],
    register: &[u8],
    index: &mut [u16],
    verdicts: &mut [u8],
    found: &mut [u16],
)
    requires sized { length_holds hgv.now ≡ true }
    requires ordered { in_order register.now ≡ true }
    requires each { length verdicts.old ≡ lines_in hgv.now }
    requires many { length found.old ≡ lines_in hgv.now }
    requires indexed { slots_in register.now ≤ length index.old }
    ensures { Judge hgv.now rows.now register.now verdicts.new found.new }
{
    let basis = Basis {
        sender: header::sender(hgv),
        rows,
        held: slots::used_part(register),
    };
    let n = verdicts.len();
    let mut firsts = [0u16; sizes::LINES_MOST];
    let marks = [0u8; sizes::LINES_MOST];
    judge_found(
        &hgv::lines(hgv),
        &basis,
        &marks[..n],
        index,
        &mut firsts[..n],
        verdicts,
        found,
    );
}
