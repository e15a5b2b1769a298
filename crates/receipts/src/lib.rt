//! The HGC as a provider reads it: what it says by itself and of its HGV (the first half of 52), for texts of any length.
#![tactic(auto)]

ghost use Rattle.std.specs.Prelude.{◌≡◌, ◌&&◌};
ghost use Rattle.hgv.specs.Layout.{width_of};
ghost use Rattle.hgv.specs.laws.Layout.{IsWidth};
ghost use Rattle.theory.specs.Walk.{each};
ghost use Rattle.answers.specs.Layout.{answers_of};
ghost use Rattle.receipts.specs.Receipt.{length_form, head_form, answer_form, form_holds, names_hold, outcome_holds, reason_holds};
ghost use Rattle.receipts.specs.Promises.{Says};

use hgc::places;

#[tactic(auto, unfolding(crate::specs::Receipt::length_form))]
fn has_length(hgv: &[u8], hgc: &[u8]) -> bool
    ensures { result ≡ length_form hgv.now hgc.now }
{
    answers::BARE <= hgc.len() && (hgc.len() - answers::BARE) % answers::width(hgv) == 0
}

#[tactic(auto, unfolding(crate::specs::Receipt::head_form))]
fn has_head(hgc: &[u8]) -> bool
    ensures { result ≡ head_form hgc.now }
{
    places::HEADER_TYPE.has(hgc, b"0")
        && places::SENDER.has(hgc, b"000002")
        && fields::is_digits(places::TAKEN.of(hgc), 15)
        && fields::is_digits(places::REJECTED.of(hgc), 15)
        && places::VERSION.has(hgc, b"120001")
        && fields::is_zeros(places::FILLER.of(hgc), 25)
        && places::HEADER_END.has(hgc, b"\n")
}

// Has the answer to a line of this width its two ends, and a reason that an HGC may name.
#[tactic(auto, unfolding(crate::specs::Receipt::answer_form, crate::specs::Receipt::reason_holds))]
fn is_answer(a: &[u8], width: usize) -> bool
    requires { IsWidth width }
    ensures { result ≡ (answer_form width a.now && reason_holds width a.now) }
{
    let end = width + sizes::REASON;
    places::LINE_TYPE.has(a, b"1")
        && texts::has_text(a, end, end, b"\n")
        && texts::listed(
            texts::field(a, width, end - 1),
            sizes::REASON,
            b"010203040506080912",
        )
}

#[tactic(auto, using(hgv::specs::laws::Layout::is_width))]
fn each_is_answer(hgv: &[u8], hgc: &[u8]) -> bool
    ensures { result ≡ (each (answer_form (width_of hgv.now)) (answers_of hgv.now hgc.now) && each (reason_holds (width_of hgv.now)) (answers_of hgv.now hgc.now)) }
{
    let lines = answers::lines(hgv, hgc);
    let width = hgv::width(hgv);
    for i in 0..lines.count {
        if !is_answer(lines.part(i), width) {
            return false;
        }
    }
    true
}

#[tactic(auto, unfolding(crate::specs::Receipt::names_hold))]
fn has_names(hgv: &[u8], hgc: &[u8]) -> bool
    ensures { result ≡ names_hold hgv.now hgc.now }
{
    let sender = header::sender(hgv);
    let sequence = header::list_sequence(hgv);
    places::RECEIVER.has(hgc, sender) && texts::same(answers::list_sequence(hgc), sequence)
}

#[tactic(auto, using(crate::proofs::Laws::outcome_none, crate::proofs::Laws::outcome_some))]
fn has_outcome(hgv: &[u8], hgc: &[u8]) -> bool
    ensures { result ≡ outcome_holds hgv.now hgc.now }
{
    if answers::answers_in(hgv, hgc) == 0 {
        return places::OUTCOME.has(hgc, b"00");
    }
    places::OUTCOME.has(hgc, b"01")
}

// Has it its form, and each of its lines a reason that an HGC may name.
#[tactic(auto, unfolding(crate::specs::Receipt::form_holds))]
fn has_form(hgv: &[u8], hgc: &[u8]) -> bool
    ensures { result ≡ (form_holds hgv.now hgc.now && each (reason_holds (width_of hgv.now)) (answers_of hgv.now hgc.now)) }
{
    has_length(hgv, hgc) && has_head(hgc) && each_is_answer(hgv, hgc) && frames::has_footer(hgc)
}

/// Does what it says by itself, and of the HGV, hold.
#[tactic(auto, unfolding(crate::specs::Receipt::says_hold))]
pub fn says(hgv: &[u8], hgc: &[u8]) -> bool
    ensures { Says hgv.now hgc.now result }
{
    has_form(hgv, hgc)
        && has_names(hgv, hgc)
        && times::is_real_time(answers::reception(hgc))
        && has_outcome(hgv, hgc)
}
