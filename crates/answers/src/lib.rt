//! The HGC's layout, as a provider reads it beside its HGV. Every public function takes texts of any length.
#![tactic(auto)]

ghost use Rattle.answers.specs.Promises.{Width, AnswersIn, Answers, Lines, ListSequence, Reception};

use hgc::places;
use texts::Parts;

/// Header and footer.
pub const BARE: usize = sizes::HGC_HEADER + sizes::FOOTER;

/// How wide its lines are: wider than the HGV's by the reason.
#[tactic(auto, using(hgv::specs::laws::Layout::is_width))]
pub fn width(hgv: &[u8]) -> usize
    ensures { Width hgv.now result }
{
    hgv::width(hgv) + sizes::REASON
}

/// How many lines it has.
#[tactic(auto, unfolding(crate::specs::Layout::answers_in))]
pub fn answers_in(hgv: &[u8], hgc: &[u8]) -> usize
    ensures { AnswersIn hgv.now hgc.now result }
{
    hgc.len().saturating_sub(BARE) / width(hgv)
}

/// Its lines, and what stands behind them.
#[tactic(auto, using(crate::proofs::Laws::lines_none, crate::proofs::Laws::lines_lent))]
pub fn answers<'a>(hgc: &'a [u8]) -> &'a [u8]
    ensures { Answers hgc.now result.now }
{
    if hgc.len() < sizes::HGC_HEADER {
        return &hgc[0..0];
    }
    &hgc[sizes::HGC_HEADER..]
}

/// Its lines, in file order.
#[tactic(auto, using(crate::specs::laws::Layout::lines_room))]
pub fn lines<'a>(hgv: &[u8], hgc: &'a [u8]) -> Parts<'a>
    ensures { Lines hgv.now hgc.now result }
{
    Parts {
        block: answers(hgc),
        width: width(hgv),
        count: answers_in(hgv, hgc),
    }
}

/// The list that it names.
pub fn list_sequence<'a>(hgc: &'a [u8]) -> &'a [u8]
    ensures { ListSequence hgc.now result.now }
{
    places::SEQUENCE.of(hgc)
}

/// When the file was received, in the sender's local time.
pub fn reception<'a>(hgc: &'a [u8]) -> &'a [u8]
    ensures { Reception hgc.now result.now }
{
    places::RECEPTION.of(hgc)
}
