//! An HGC read back beside its HGV: which lines were taken, and the reasons of the others.
#![tactic(auto)]

ghost use Rattle.std.specs.Prelude.{◌≡◌, true, ◌++◌, ◌≤◌, ◌<◌, length, drop};
ghost use Rattle.theory.specs.First.{first};
ghost use Rattle.theory.specs.Count.{bump};
ghost use Rattle.theory.specs.Walk.{each};
ghost use Rattle.theory.specs.Pick.{bad};
ghost use Rattle.theory.specs.Tally.{tally};
ghost use Rattle.rules.specs.Numbers.{answer_number};
ghost use Rattle.hgv.specs.Layout.{width_of, lines_in};
ghost use Rattle.pairing.specs.Backwards.{paired};
ghost use Rattle.pairing.specs.Pairing.{told};
ghost use Rattle.pairing.specs.laws.Telling.{told_at};
ghost use Rattle.answers.specs.Layout.{answers_in, answers_of};
ghost use Rattle.receipts.specs.Receipt.{texts_of, copies_of, reason_holds};
ghost use Rattle.provider.specs.Counted.{told as counted};
ghost use Rattle.reading.specs.ReadBack.{reasons_of, hgv_stops, block_stops};
ghost use Rattle.reading.specs.Promises.{ReadBack};

use provider::Counts;
use rules::{Refusal, require};

// The stops that look at the HGV alone.
#[tactic(auto, unfolding(crate::specs::ReadBack::hgv_stops, theory::specs::First::first, theory::specs::First::choose))]
fn file_stop(hgv: &[u8]) -> Result<(), Refusal>
    ensures { answer_number result ≡ first (hgv_stops hgv.now) }
{
    require(hgv::has_length(hgv), Refusal::HgvLength)?;
    require(header::has_header(hgv), Refusal::Header)?;
    require(claims::has_version(hgv), Refusal::Version)?;
    require(claims::has_receiver(hgv), Refusal::Parties)?;
    require(claims::has_count(hgv), Refusal::Count)?;
    require(frames::has_footer(hgv), Refusal::Footer)?;
    require(frames::has_frames(hgv), Refusal::Frame)
}

// The stops that look at the HGC and at the verdict block; `marks` then says which lines were taken.
#[tactic(auto, unfolding(crate::specs::ReadBack::block_stops, theory::specs::First::first, theory::specs::First::choose))]
fn block_stop(hgv: &[u8], hgc: &[u8], verdicts: &[u8], marks: &mut [u8]) -> Result<(), Refusal>
    requires { length marks.old ≡ lines_in hgv.now }
    ensures stopped { answer_number result ≡ first (block_stops hgv.now hgc.now verdicts.now) }
    ensures marked { marks.new ≡ paired (texts_of hgv.now) (copies_of hgv.now hgc.now) }
{
    require(provider::is_receipt(hgv, hgc, marks), Refusal::Hgc)?;
    require(hgv::lines_in(hgv) <= verdicts.len(), Refusal::VerdictBlock)
}

// 1 for a line that is left.
// Stays: a mark is a byte of the block of marks, from which the block of verdicts is told.
#[tactic(auto, using(crate::proofs::Laws::left_none, crate::proofs::Laws::left_one))]
fn left(mark: u8) -> usize
    ensures { (result ≡ bump (bad mark) 0) × (result ≤ 1) }
{
    if mark == 0 { 0 } else { 1 }
}

// The verdict of a line with this mark, in front of which k lines are left.
fn verdict_at(hgv: &[u8], hgc: &[u8], k: usize, mark: u8) -> u8
    requires { (each (reason_holds (width_of hgv.now)) (answers_of hgv.now hgc.now) ≡ true) × ((mark ≡ 0 → ⊥) → k < answers_in hgv.now hgc.now) }
    ensures { result ≡ told_at mark (reasons_of hgv.now hgc.now) k }
{
    if mark == 0 {
        return 0;
    }
    let lines = answers::lines(hgv, hgc);
    let from = hgv::width(hgv);
    let reason = texts::field(lines.part(k), from, from + sizes::REASON - 1);
    numbers::number(reason) as u8
}

// A verdict for each line, in front of the block; what lies behind them stays as it was.
fn tell(hgv: &[u8], hgc: &[u8], marks: &[u8], verdicts: &mut [u8])
    requires room { length marks.now ≤ length verdicts.old }
    requires reasoned { each (reason_holds (width_of hgv.now)) (answers_of hgv.now hgc.now) ≡ true }
    requires answered { tally bad marks.now ≤ answers_in hgv.now hgc.now }
    ensures { verdicts.new ≡ told marks.now (reasons_of hgv.now hgc.now) ++ drop (length marks.now) verdicts.old }
{
    let mut k: usize = 0;
    for (i, &mark) in marks.iter().enumerate() {
        verdicts[i] = verdict_at(hgv, hgc, k, mark);
        k += left(mark);
    }
}

// What is read beside an HGV whose form is right; `marks` has a byte for each of its lines.
fn read_lines(
    hgv: &[u8],
    hgc: &[u8],
    verdicts: &mut [u8],
    marks: &mut [u8],
) -> Result<Counts, Refusal>
    requires { (0 ≡ first (hgv_stops hgv.now)) × (length marks.old ≡ lines_in hgv.now) }
    ensures { ReadBack hgv.now hgc.now verdicts.old (counted result) verdicts.new }
{
    block_stop(hgv, hgc, verdicts, marks)?;
    tell(hgv, hgc, marks, verdicts);
    Ok(provider::count(hgv, hgc, marks))
}

/// An HGC read back: how many lines were taken and rejected; a byte for each HGV line goes into `verdicts`, 0 where it was
/// taken, else the reason.
pub fn read_back(hgv: &[u8], hgc: &[u8], verdicts: &mut [u8]) -> Result<Counts, Refusal>
    ensures { ReadBack hgv.now hgc.now verdicts.old (counted result) verdicts.new }
{
    file_stop(hgv)?;
    let mut marks = [0u8; sizes::LINES_MOST];
    let n = hgv::lines_in(hgv);
    read_lines(hgv, hgc, verdicts, &mut marks[..n])
}
