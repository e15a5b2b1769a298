//! What an update asks of the mode, of the provider's copy and of the HGV, before it looks at the HGC.
#![tactic(auto)]

ghost use Rattle.std.specs.Prelude.{◌≡◌};
ghost use Rattle.rules.specs.Numbers.{answer_number};
ghost use Rattle.copies.specs.Copy.{own_holds};
ghost use Rattle.copies.specs.Promises.{CopyStop};

use rules::{Refusal, require};

// Is every record in the copy the sender's.
#[tactic(auto, using(crate::proofs::Laws::own_is))]
fn is_own(copy: &[u8], hgv: &[u8]) -> bool
    ensures { result ≡ own_holds copy.now hgv.now }
{
    let held = slots::used_part(copy);
    slots::count_of(held, header::sender(hgv)) == held.len() / sizes::SLOT
}

/// The first of the stops that look at the mode, the copy and the HGV.
#[tactic(auto, unfolding(crate::specs::Copy::copy_stops, theory::specs::First::first, theory::specs::First::choose))]
pub fn copy_stop(mode: u64, copy: &[u8], hgv: &[u8]) -> Result<(), Refusal>
    ensures { CopyStop mode copy.now hgv.now (answer_number result) }
{
    require(stops::is_mode(mode), Refusal::Mode)?;
    require(register::in_order(copy), Refusal::Order)?;
    require(hgv::has_length(hgv), Refusal::HgvLength)?;
    require(header::has_header(hgv), Refusal::Header)?;
    require(claims::has_version(hgv), Refusal::Version)?;
    require(!stops::is_full_with_220001(mode, hgv), Refusal::FullVersion)?;
    require(claims::has_receiver(hgv), Refusal::Parties)?;
    require(is_own(copy, hgv), Refusal::OtherActor)?;
    require(claims::has_count(hgv), Refusal::Count)?;
    require(frames::has_footer(hgv), Refusal::Footer)?;
    require(frames::has_frames(hgv), Refusal::Frame)
}
