//! The update of a provider's copy of the records held for him, by an import of his.
#![tactic(auto)]

ghost use Rattle.std.specs.Prelude.{◌≡◌, true, length};
ghost use Rattle.theory.specs.First.{first};
ghost use Rattle.hgv.specs.Layout.{lines_in};
ghost use Rattle.pairing.specs.Backwards.{paired};
ghost use Rattle.receipts.specs.Receipt.{texts_of, copies_of, marks_of};
ghost use Rattle.provider.specs.Counted.{told};
ghost use Rattle.updating.specs.Sent.{sent};
ghost use Rattle.updating.specs.laws.Call.{sent_by};
ghost use Rattle.copies.specs.Copy.{copy_stops};
ghost use Rattle.updating.specs.Update.{sent_holds};
ghost use Rattle.updating.specs.Promises.{Update};

use holdings::Placed;
use offsets::Offset;
use provider::Counts;
use rules::{Refusal, require};

// What is handed over beside the copy, and only read: the mode; the provider's offset when the HGV was imported; his HGV; the
// HGC.
#[derive(Clone, Copy, Debug)]
struct Call<'a> {
    mode: u64,
    offset: Offset,
    hgv: &'a [u8],
    hgc: &'a [u8],
}

// The update by an HGC that holds: `marks` says which lines were taken, and `found` has a number for each.
fn update_marked(
    call: &Call,
    copy: &mut [u8],
    marks: &[u8],
    found: &mut [u16],
) -> Result<Counts, Refusal>
    requires clear { first (copy_stops call.now.mode copy.old call.now.hgv.now) ≡ 0 }
    requires said { sent_holds (sent_by call.now) ≡ true }
    requires marked { marks.now ≡ marks_of call.now.hgv.now call.now.hgc.now }
    requires many { length found.old ≡ lines_in call.now.hgv.now }
    ensures { Update (sent_by call.now) copy.old (told result) copy.new }
{
    let sender = header::sender(call.hgv);
    let lines = hgv::lines(call.hgv);
    holdings::find_places(call.mode, copy, &lines, marks, found);
    let placed = Placed {
        verdicts: marks,
        found,
    };
    let used = holdings::used_after(call.mode, copy, sender, &placed);
    require(used <= copy.len() / sizes::SLOT, Refusal::Slots)?;
    let list = answers::list_sequence(call.hgc);
    let mut reception = [0u8; sizes::TIME];
    offsets::write_utc(&mut reception, answers::reception(call.hgc), call.offset);
    applying::apply(call.mode, copy, sender, list, &reception, &lines, &placed);
    Ok(provider::count(call.hgv, call.hgc, marks))
}

// Does the HGC answer the HGV, and has its reception a UTC time; `marks` then says which lines were taken.
#[tactic(auto, using(crate::proofs::Steps::utc_is), unfolding(crate::specs::Update::sent_holds))]
fn is_sent(call: &Call, marks: &mut [u8]) -> bool
    requires { length marks.old ≡ lines_in call.now.hgv.now }
    ensures said { result ≡ sent_holds (sent_by call.now) }
    ensures marked { marks.new ≡ paired (texts_of call.now.hgv.now) (copies_of call.now.hgv.now call.now.hgc.now) }
{
    provider::is_receipt(call.hgv, call.hgc, marks)
        && offsets::has_utc(answers::reception(call.hgc), call.offset)
}

// The update by an HGV whose form is right; `marks` has a byte for each of its lines, and `found` a number.
fn update_lines(
    call: &Call,
    copy: &mut [u8],
    marks: &mut [u8],
    found: &mut [u16],
) -> Result<Counts, Refusal>
    requires clear { first (copy_stops call.now.mode copy.old call.now.hgv.now) ≡ 0 }
    requires each { length marks.old ≡ lines_in call.now.hgv.now }
    requires many { length found.old ≡ lines_in call.now.hgv.now }
    ensures { Update (sent_by call.now) copy.old (told result) copy.new }
{
    require(is_sent(call, marks), Refusal::Hgc)?;
    update_marked(call, copy, marks, found)
}

/// The update of a provider's copy by an import of his: how many lines were taken and rejected. `offset` is local time minus UTC,
/// in minutes, when it was imported.
pub fn update(
    mode: u64,
    offset: i64,
    copy: &mut [u8],
    hgv: &[u8],
    hgc: &[u8],
) -> Result<Counts, Refusal>
    ensures { Update (sent mode offset hgv.now hgc.now) copy.old (told result) copy.new }
{
    copies::copy_stop(mode, copy, hgv)?;
    require(offsets::is_offset(offset), Refusal::Hgc)?;
    let call = Call {
        mode,
        offset: offsets::ahead(offset),
        hgv,
        hgc,
    };
    let mut marks = [0u8; sizes::LINES_MOST];
    let mut found = [0u16; sizes::LINES_MOST];
    let n = hgv::lines_in(hgv);
    update_lines(&call, copy, &mut marks[..n], &mut found[..n])
}
