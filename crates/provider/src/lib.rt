//! What the provider's functions answer, and whether an HGC holds beside its HGV (52).
#![tactic(auto)]

ghost use Rattle.std.specs.Prelude.{◌≡◌, Ok, length};
ghost use Rattle.hgv.specs.Layout.{lines_in};
ghost use Rattle.receipts.specs.Receipt.{marks_of};
ghost use Rattle.provider.specs.Counted.{told};
ghost use Rattle.provider.specs.Promises.{Count, IsReceipt};

pub use taken::Counts;

/// The counts of an HGC that holds; `marks` says which lines were taken.
#[tactic(auto, unfolding(crate::specs::Answer::success_counts), using(crate::specs::laws::Held::taken_count))]
pub fn count(hgv: &[u8], hgc: &[u8], marks: &[u8]) -> Counts
    requires { marks.now ≡ marks_of hgv.now hgc.now }
    ensures { Count hgv.now hgc.now marks.now (told (Ok result)) }
{
    let taken = taken::count_taken(marks);
    let rejected = answers::answers_in(hgv, hgc) as u64;
    Counts { taken, rejected }
}

/// Does the HGC hold beside its HGV (52); `marks` then says which lines were taken.
#[tactic(auto, unfolding(receipts::specs::Receipt::receipt_holds))]
pub fn is_receipt(hgv: &[u8], hgc: &[u8], marks: &mut [u8]) -> bool
    requires { length marks.old ≡ lines_in hgv.now }
    ensures { IsReceipt hgv.now hgc.now marks.old result marks.new }
{
    let lines = matching::lines_hold(hgv, hgc, marks);
    receipts::says(hgv, hgc) && lines
}
