//! The lines of an HGV beside those of its HGC (the second half of 52): which were taken, and whether the HGC may say so.
#![tactic(auto)]

ghost use Rattle.std.specs.Prelude.{◌≡◌, not, ◌&&◌, map, ◌-◌, ◌≤◌, eqb, length};
ghost use Rattle.theory.specs.Same.{eqs};
ghost use Rattle.theory.specs.Count.{bump};
ghost use Rattle.theory.specs.Walk.{each};
ghost use Rattle.theory.specs.Pick.{good, pick};
ghost use Rattle.theory.specs.Distinct.{distinct};
ghost use Rattle.numbers.specs.Number.{number};
ghost use Rattle.columns.specs.Columns.{text, pan_of};
ghost use Rattle.hgv.specs.Layout.{lines_in};
ghost use Rattle.hgv.specs.laws.Layout.{IsWidth};
ghost use Rattle.theory.specs.Firsts.{firsts};
ghost use Rattle.pairing.specs.Backwards.{is_last, waiting, paired};
ghost use Rattle.answers.specs.Layout.{taken_of, rejected_of};
ghost use Rattle.receipts.specs.Receipt.{texts_of, copies_of, marks_of, copies_hold, counts_hold, line_holds, taken_hold};
ghost use Rattle.matching.specs.laws.Texts.{all_of, part_texts};
ghost use Rattle.matching.specs.Promises.{LinesHold};

use keys::{KeyedParts, Marked};
use texts::{Columns, Parts};

// Where the text of a line of this width stands.
// Stays: a width is a number of the file's own (`hgv::width`), and its bounds are a law.
fn text_columns(width: usize) -> Columns
    requires { IsWidth width }
    ensures { (result.from ≡ 2) × (result.to ≡ width - 1) }
{
    Columns {
        from: columns::TEXT_FROM,
        to: width - 1,
    }
}

// Have two lines, of either file, one text. Nearly all lines differ in the PAN, and few bytes behind it tell them apart.
fn have_same_text(a: &[u8], b: &[u8], width: usize) -> bool
    requires { IsWidth width }
    ensures { result ≡ eqs (text width a.now) (text width b.now) }
{
    if !columns::PAN.has(a, columns::PAN.of(b)) {
        return false;
    }
    let text = text_columns(width);
    text.has(a, text.of(b))
}

// Has a line the text of the last of the first k copies.
fn is_last(answers: &Parts, k: usize, l: &[u8], width: usize) -> bool
    requires { IsWidth width × (k ≤ answers.now.count) }
    ensures { result ≡ is_last (part_texts width answers.now) k (text width l.now) }
{
    if k == 0 {
        return false;
    }
    have_same_text(l, answers.part(k - 1), width)
}

// 1 where that line is paired with that copy, else 0.
#[tactic(auto, unfolding(theory::specs::Count::bump))]
fn mark(answers: &Parts, k: usize, l: &[u8], width: usize) -> u8
    requires { IsWidth width × (k ≤ answers.now.count) }
    ensures { result ≡ bump (is_last (part_texts width answers.now) k (text width l.now)) 0 }
{
    if is_last(answers, k, l, width) { 1 } else { 0 }
}

// From the last line to the first: a line that is the last copy not paired yet is paired with it, any other is not. How
// many of the copies wait at the end.
fn pair(lines: &Parts, answers: &Parts, marks: &mut [u8]) -> usize
    requires { IsWidth lines.now.width × (length marks.old ≡ lines.now.count) }
    ensures left { result ≡ waiting (part_texts lines.now.width lines.now) (part_texts lines.now.width answers.now) }
    ensures marked { marks.new ≡ paired (part_texts lines.now.width lines.now) (part_texts lines.now.width answers.now) }
{
    let mut k = answers.count;
    for i in (0..marks.len()).rev() {
        let m = mark(answers, k, lines.part(i), lines.width);
        marks[i] = m;
        k -= m as usize;
    }
    k
}

// Is each line marked 0 the first of its text.
#[tactic(auto, unfolding(crate::specs::laws::Texts::texts_in))]
fn are_firsts(lines: &Parts, marks: &[u8]) -> bool
    requires { IsWidth lines.now.width × (length marks.now ≡ lines.now.count) }
    ensures { result ≡ firsts (part_texts lines.now.width lines.now) marks.now }
{
    let parts = KeyedParts::by(lines, text_columns(lines.width));
    ordering::are_firsts(&Marked { parts, marks })
}

// Have no two lines marked 0 one PAN.
fn are_apart(lines: &Parts, marks: &[u8]) -> bool
    requires { length marks.now ≡ lines.now.count }
    ensures { result ≡ distinct (map pan_of (pick good marks.now (all_of lines.now))) }
{
    let parts = KeyedParts::by(lines, columns::PAN);
    ordering::are_apart(&Marked { parts, marks })
}

// Has a line the sender for its actor, and keeps it the rules of a record.
#[tactic(auto, unfolding(receipts::specs::Receipt::line_holds))]
fn line_holds(hgv: &[u8], l: &[u8]) -> bool
    ensures { result ≡ line_holds hgv.now l.now }
{
    let sender = header::sender(hgv);
    slots::is_of(l, sender) && lines::is_record(l)
}

// Is a line marked 0 that does not hold.
// Stays: a mark is a byte of the block of marks, which is read as a block of verdicts is: 0 for a line that was taken.
fn is_wrong(hgv: &[u8], l: &[u8], mark: u8) -> bool
    ensures { result ≡ (eqb mark 0 && not (line_holds hgv.now l.now)) }
{
    mark == 0 && !line_holds(hgv, l)
}

// Does each line marked 0 hold.
fn each_holds(hgv: &[u8], lines: &Parts, marks: &[u8]) -> bool
    requires { length marks.now ≡ lines.now.count }
    ensures { result ≡ each (line_holds hgv.now) (pick good marks.now (all_of lines.now)) }
{
    for (i, &mark) in marks.iter().enumerate() {
        if is_wrong(hgv, lines.part(i), mark) {
            return false;
        }
    }
    true
}

// Are the counts in the header these.
fn has_counts(hgc: &[u8], taken: u64, rejected: usize) -> bool
    ensures { result ≡ (eqb (number (taken_of hgc.now)) taken && eqb (number (rejected_of hgc.now)) rejected) }
{
    let said_taken = hgc::places::TAKEN.of(hgc);
    let said_rejected = hgc::places::REJECTED.of(hgc);
    numbers::number(said_taken) == taken && numbers::number(said_rejected) == rejected as u64
}

// Are the HGC's copies the lines left, in order. `marks` has 0 for each line that was taken, where they are.
#[tactic(auto, using(hgv::specs::laws::Layout::is_width, crate::proofs::Laws::marked_each))]
fn copies_hold(hgv: &[u8], hgc: &[u8], marks: &mut [u8]) -> bool
    requires { length marks.old ≡ lines_in hgv.now }
    ensures holding { result ≡ copies_hold hgv.now hgc.now }
    ensures marked { marks.new ≡ paired (texts_of hgv.now) (copies_of hgv.now hgc.now) }
{
    let lines = hgv::lines(hgv);
    let answers = answers::lines(hgv, hgc);
    let waiting = pair(&lines, &answers, marks);
    waiting == 0 && are_firsts(&lines, marks)
}

// Are the counts those of the lines, and do the lines hold that were taken; `marks` has 0 for each of them.
#[tactic(auto, unfolding(receipts::specs::Receipt::counts_hold, receipts::specs::Receipt::taken_hold), using(crate::proofs::Laws::are_taken, crate::proofs::Laws::count_is, crate::proofs::Laws::marks_each))]
fn taken_hold(hgv: &[u8], hgc: &[u8], marks: &[u8]) -> bool
    requires { marks.now ≡ marks_of hgv.now hgc.now }
    ensures { result ≡ (counts_hold hgv.now hgc.now && taken_hold hgv.now hgc.now) }
{
    let lines = hgv::lines(hgv);
    let counted = has_counts(
        hgc,
        taken::count_taken(marks),
        answers::answers_in(hgv, hgc),
    );
    counted && are_apart(&lines, marks) && each_holds(hgv, &lines, marks)
}

/// Do the HGC's lines hold beside the HGV's. `marks` has 0 for each line that was taken, where they do.
// Stays: the marks are lent to be filled, beside the files that they tell of.
#[tactic(auto, unfolding(receipts::specs::Receipt::lines_hold), using(crate::proofs::Laws::are_marks))]
pub fn lines_hold(hgv: &[u8], hgc: &[u8], marks: &mut [u8]) -> bool
    requires { length marks.old ≡ lines_in hgv.now }
    ensures { LinesHold hgv.now hgc.now marks.old result marks.new }
{
    copies_hold(hgv, hgc, marks) && taken_hold(hgv, hgc, marks)
}
