//! The confirmation (HGC) of an HGV, written into a block that has room for it.
#![tactic(auto)]

pub mod places;

ghost use Rattle.std.specs.Prelude.{◌≡◌, true, ◌+◌, ◌*◌, ◌-◌, ◌≤◌, length};
ghost use Rattle.theory.specs.Parts.{chop};
ghost use Rattle.theory.specs.Pick.{good, bad};
ghost use Rattle.theory.specs.Tally.{tally};
ghost use Rattle.theory.specs.Join.{flat};
ghost use Rattle.writing.specs.Put.{put_field};
ghost use Rattle.writing.specs.laws.Laid.{Laid};
ghost use Rattle.hgv.specs.Layout.{width_of, lines_in, length_holds};
ghost use Rattle.sizes.specs.Sizes.{header_length, line_most, lines_most, hgc_header_length};
ghost use Rattle.hgc.specs.Confirmation.{answer_length, confirmation_length, outcome, name_texts, count_texts, answer, answers};
ghost use Rattle.hgc.specs.laws.Confirmation.{said, Holding};
ghost use Rattle.hgc.specs.Promises.{Write, LengthFor};

use taken::Counts;
use texts::Parts;

// The digits of a count.
const COUNT: usize = 15;

// The zeros of the header.
const HEADER_ZEROS: usize = 25;

// The header up to reception.
fn put_names(hgc: &mut [u8], reception: &[u8], hgv: &[u8])
    requires { (46 ≤ length hgc.old) × ((length reception.now ≡ 14) × (header_length ≤ length hgv.now)) }
    ensures { hgc.new ≡ put_field 1 (flat (name_texts reception.now hgv.now)) hgc.old }
{
    let sender = header::sender(hgv);
    let sequence = header::list_sequence(hgv);
    writing::put_field(hgc, places::HEADER_TYPE.from, b"0");
    writing::put_field(hgc, places::SENDER.from, b"000002");
    writing::put_field(hgc, places::RECEIVER.from, sender);
    writing::put_field(hgc, places::SEQUENCE.from, sequence);
    writing::put_field(hgc, places::RECEPTION.from, reception);
}

fn put_outcome(hgc: &mut [u8], rejected: u64)
    requires { 109 ≤ length hgc.old }
    ensures { hgc.new ≡ put_field 108 (outcome rejected) hgc.old }
{
    if rejected == 0 {
        writing::put_field(hgc, places::OUTCOME.from, b"00");
    } else {
        writing::put_field(hgc, places::OUTCOME.from, b"01");
    }
}

// The header from the counts on.
fn put_counts(hgc: &mut [u8], counts: Counts)
    requires { hgc_header_length ≤ length hgc.old }
    ensures { hgc.new ≡ put_field 47 (flat (count_texts counts.taken counts.rejected)) hgc.old }
{
    numbers::put_number(hgc, places::TAKEN.from, COUNT, counts.taken);
    numbers::put_number(hgc, places::REJECTED.from, COUNT, counts.rejected);
    writing::put_field(hgc, places::VERSION.from, b"120001");
    numbers::put_zeros(hgc, places::FILLER.from, HEADER_ZEROS);
    put_outcome(hgc, counts.rejected);
    writing::put_field(hgc, places::HEADER_END.from, b"\n");
}

fn put_answer(hgc: &mut [u8], from: usize, line: &[u8], width: usize, reason: u8)
    requires { (1 ≤ from) × ((from - 1 + answer_length width ≤ length hgc.old) × Holding width line.now) }
    ensures { hgc.new ≡ put_field from (answer width reason line.now) hgc.old }
{
    let at = from - 1;
    let text = texts::field(line, columns::TEXT_FROM, width - 1);
    writing::put_field(hgc, at + places::LINE_TYPE.from, b"1");
    writing::put_field(hgc, at + columns::TEXT_FROM, text);
    numbers::put_number(hgc, at + width, sizes::REASON, u64::from(reason));
    writing::put_field(hgc, at + width + sizes::REASON, b"\n");
}

// The answer to a line, where its verdict rejects it; the position behind.
fn answer_line(hgc: &mut [u8], from: usize, line: &[u8], width: usize, verdict: u8) -> usize
    requires { (1 ≤ from) × ((from - 1 + length (said width verdict line.now) ≤ length hgc.old) × Holding width line.now) }
    ensures { Laid from result (said width verdict line.now) hgc.old hgc.new }
{
    // Stays: a verdict is the byte that the definition lends for each line, and an option takes twice the stack.
    if verdict == 0 {
        from
    } else {
        put_answer(hgc, from, line, width, verdict);
        from + width + sizes::REASON
    }
}

// The answers behind the header; the position behind them.
fn put_answers(hgc: &mut [u8], lines: &Parts, verdicts: &[u8]) -> usize
    requires wide { 3 ≤ lines.now.width }
    requires lined { length verdicts.now ≤ lines.now.count }
    requires room { hgc_header_length + tally bad verdicts.now * answer_length lines.now.width ≤ length hgc.old }
    ensures { Laid 111 result (flat (answers lines.now.width verdicts.now (chop lines.now.width (length verdicts.now) lines.now.block.now))) hgc.old hgc.new }
{
    let mut behind = sizes::HGC_HEADER + 1;
    for (i, &verdict) in verdicts.iter().enumerate() {
        behind = answer_line(hgc, behind, lines.part(i), lines.width, verdict);
    }
    behind
}

/// The confirmation in front of the block; what lies behind it stays as it was.
pub fn write(hgc: &mut [u8], reception: &[u8], hgv: &[u8], verdicts: &[u8], counts: Counts)
    requires dated { length reception.now ≡ 14 }
    requires sized { length_holds hgv.now ≡ true }
    requires judged { length verdicts.now ≡ lines_in hgv.now }
    requires counted { counts.taken ≡ tally good verdicts.now }
    requires answered { counts.rejected ≡ tally bad verdicts.now }
    requires room { confirmation_length (width_of hgv.now) counts.rejected ≤ length hgc.old }
    ensures { Write hgc.old reception.now hgv.now verdicts.now counts.taken counts.rejected hgc.new }
{
    put_names(hgc, reception, hgv);
    put_counts(hgc, counts);
    let behind = put_answers(hgc, &hgv::lines(hgv), verdicts);
    frames::put_foot(hgc, behind);
}

/// How long the confirmation is, in bytes, with so many rejected lines of this width; a line of it is longer by its reason.
pub fn length_for(width: usize, rejected: usize) -> usize
    requires { (width ≤ line_most) × (rejected ≤ lines_most) }
    ensures { LengthFor width rejected result }
{
    sizes::HGC_HEADER + rejected * (width + sizes::REASON) + sizes::FOOTER
}
