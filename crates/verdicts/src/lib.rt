//! The verdicts of a file: each line by L1 to L10, by the register as it was (L11), and by the lines taken before it
//! (L12). In the block of verdicts 0 is taken, any other byte the reason's number.
#![tactic(auto)]

ghost use Rattle.std.specs.Prelude.{◌≡◌, ◌&&◌, eqb, ◌≤◌, ◌<◌, length};
ghost use Rattle.theory.specs.Parts.{chop, part_at};
ghost use Rattle.theory.specs.Walk.{some};
ghost use Rattle.theory.specs.Pick.{good, pick};
ghost use Rattle.slots.specs.Slots.{slots_of};
ghost use Rattle.slots.specs.Search.{holds_pan};
ghost use Rattle.hgv.specs.Layout.{lines_in};
ghost use Rattle.rules.specs.Numbers.{verdict_number};
ghost use Rattle.verdicts.specs.Verdict.{verdict, verdicts_of};
ghost use Rattle.verdicts.specs.Promises.{Byte, Judge};

use rules::{Reason, require};
use texts::Parts;

/// What the lines of a file are judged by: their sender, the issuer rows, and the slots that the register uses.
#[derive(Clone, Copy)]
pub struct Basis<'a> {
    pub sender: &'a [u8],
    pub rows: &'a [u8],
    pub held: &'a [u8],
}

/// A verdict as the byte that stands for it in a block.
pub fn byte(verdict: Result<(), Reason>) -> u8
    ensures { Byte verdict result }
{
    match verdict {
        Ok(()) => 0,
        Err(reason) => reason.number(),
    }
}

// Was this line taken, and has it this PAN.
#[tactic(auto, unfolding(slots::specs::Search::holds_pan))]
fn is_entry(l: &[u8], verdict: u8, pan: &[u8]) -> bool
    ensures { result ≡ eqb verdict 0 && holds_pan pan.now l.now }
{
    // Stays: a verdict is the byte that the definition lends for each line, and an option takes twice the stack. It is asked
    // last: nearly every line has another PAN, which the last digits tell at once, in the one loop of the import that is a square.
    columns::PAN.has(l, pan) && verdict == 0
}

// Has one of the taken lines, among those that have a verdict, this PAN.
fn is_named(lines: &Parts, verdicts: &[u8], pan: &[u8]) -> bool
    requires { length verdicts.now ≤ lines.now.count }
    ensures { result ≡ some (holds_pan pan.now) (pick good verdicts.now (chop lines.now.width (length verdicts.now) lines.now.block.now)) }
{
    for (i, &verdict) in verdicts.iter().enumerate() {
        if is_entry(lines.part(i), verdict, pan) {
            return true;
        }
    }
    false
}

// The verdict of the line behind those that have one.
#[tactic(auto, using(crate::proofs::Laws::own_line, crate::proofs::Laws::own_held, crate::proofs::Laws::verdict_own, crate::proofs::Laws::verdict_named), unfolding(theory::specs::First::choose))]
fn verdict_next(lines: &Parts, verdicts: &[u8], basis: &Basis) -> Result<(), Reason>
    requires { length verdicts.now < lines.now.count }
    ensures { verdict_number result ≡ verdict basis.now.rows.now basis.now.sender.now (slots_of basis.now.held.now) (pick good verdicts.now (chop lines.now.width (length verdicts.now) lines.now.block.now)) (part_at lines.now.width (length verdicts.now) lines.now.block.now) }
{
    let l = lines.part(verdicts.len());
    lines::line_fault(l, basis.sender, basis.rows)?;
    let pan = columns::PAN.of(l);
    let held = slots::is_held_by_another(basis.held, pan, basis.sender);
    require(!held, Reason::Range)?;
    require(!is_named(lines, verdicts, pan), Reason::Duplicate)
}

// A verdict for each of the lines, as many as `verdicts` has room for.
fn judge_lines(lines: &Parts, basis: &Basis, verdicts: &mut [u8])
    requires { length verdicts.old ≤ lines.now.count }
    ensures { verdicts.new ≡ verdicts_of basis.now.rows.now basis.now.sender.now (slots_of basis.now.held.now) (chop lines.now.width (length verdicts.old) lines.now.block.now) }
{
    for i in 0..verdicts.len() {
        let v = verdict_next(lines, &verdicts[..i], basis);
        verdicts[i] = byte(v);
    }
}

/// The verdicts of a file, a byte for each of its lines.
pub fn judge(hgv: &[u8], rows: &[u8], register: &[u8], verdicts: &mut [u8])
    requires { length verdicts.old ≡ lines_in hgv.now }
    ensures { Judge hgv.now rows.now register.now verdicts.old verdicts.new }
{
    let basis = Basis {
        sender: header::sender(hgv),
        rows,
        held: slots::used_part(register),
    };
    judge_lines(&hgv::lines(hgv), &basis, verdicts);
}
