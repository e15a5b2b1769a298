//! The stops of an import that look at what was handed over, before any line is judged. Each function goes down the definition's
//! list, and refuses by the first stop that holds.
#![tactic(auto)]

ghost use Rattle.std.specs.Prelude.{◌≡◌};
ghost use Rattle.theory.specs.First.{first};
ghost use Rattle.rules.specs.Numbers.{answer_number};
ghost use Rattle.stops.specs.Stops.{addressed, call_stops, file_stops};
ghost use Rattle.stops.specs.Promises.{IsMode, IsFullWith220001, FormStop, IndexedFormStop};

use rules::{Refusal, require};

/// Incremental (1) or full (2)? A mode stays a number: any other is answered too, by 21.
#[tactic(auto, unfolding(crate::specs::Stops::mode_holds, sizes::specs::Modes::is_full))]
pub fn is_mode(mode: u64) -> bool
    ensures { IsMode mode result }
{
    mode == sizes::INCREMENTAL || mode == sizes::FULL
}

/// A full list of version 220001, which is incremental only (28).
#[tactic(auto, unfolding(crate::specs::Stops::full_with220001, sizes::specs::Modes::is_full))]
pub fn is_full_with_220001(mode: u64, hgv: &[u8]) -> bool
    ensures { IsFullWith220001 mode hgv.now result }
{
    mode == sizes::FULL && claims::is_incremental_only(hgv)
}

#[tactic(auto, unfolding(crate::specs::Stops::addressed))]
fn is_addressed(rows: &[u8], hgv: &[u8]) -> bool
    ensures { result ≡ addressed rows.now hgv.now }
{
    let sender = header::sender(hgv);
    claims::has_receiver(hgv) && issuers::is_known(rows, sender)
}

// 21 to 24: what is handed over beside the file.
#[tactic(auto, unfolding(crate::specs::Stops::call_stops, theory::specs::First::first, theory::specs::First::choose))]
fn call_stop(mode: u64, timed: bool, register: &[u8], rows: &[u8]) -> Result<(), Refusal>
    ensures { answer_number result ≡ first (call_stops mode timed register.now rows.now) }
{
    require(is_mode(mode), Refusal::Mode)?;
    require(timed, Refusal::Time)?;
    require(register::in_order(register), Refusal::Order)?;
    require(issuers::are_rows(rows), Refusal::Rows)
}

// 25 to 32: the file.
#[tactic(auto, unfolding(crate::specs::Stops::file_stops, theory::specs::First::first, theory::specs::First::choose))]
fn file_stop(mode: u64, rows: &[u8], hgv: &[u8]) -> Result<(), Refusal>
    ensures { answer_number result ≡ first (file_stops mode rows.now hgv.now) }
{
    require(hgv::has_length(hgv), Refusal::HgvLength)?;
    require(header::has_header(hgv), Refusal::Header)?;
    require(claims::has_version(hgv), Refusal::Version)?;
    require(!is_full_with_220001(mode, hgv), Refusal::FullVersion)?;
    require(is_addressed(rows, hgv), Refusal::Parties)?;
    require(claims::has_count(hgv), Refusal::Count)?;
    require(frames::has_footer(hgv), Refusal::Footer)?;
    require(frames::has_frames(hgv), Refusal::Frame)
}

/// The stops 21 to 32. `timed` is the answer to 22, which the caller asks of the reception and the offset.
#[tactic(auto, unfolding(crate::specs::Stops::form_stop, crate::specs::Stops::form_stops, crate::specs::Stops::call_stops, theory::specs::First::first, theory::specs::First::choose))]
pub fn form_stop(
    mode: u64,
    timed: bool,
    register: &[u8],
    rows: &[u8],
    hgv: &[u8],
) -> Result<(), Refusal>
    ensures { FormStop mode timed register.now rows.now hgv.now (answer_number result) }
{
    call_stop(mode, timed, register, rows)?;
    file_stop(mode, rows, hgv)
}

/// The same of the indexed import, whose index has so many numbers: 36 stands behind 24 and in front of 25.
#[tactic(auto, unfolding(crate::specs::Stops::indexed_form_stop, crate::specs::Stops::indexed_form_stops, crate::specs::Stops::index_short, crate::specs::Stops::call_stops, theory::specs::First::first, theory::specs::First::choose))]
pub fn indexed_form_stop(
    mode: u64,
    timed: bool,
    register: &[u8],
    rows: &[u8],
    index: usize,
    hgv: &[u8],
) -> Result<(), Refusal>
    ensures { IndexedFormStop mode timed register.now rows.now index hgv.now (answer_number result) }
{
    call_stop(mode, timed, register, rows)?;
    require(register.len() / sizes::SLOT <= index, Refusal::Index)?;
    file_stop(mode, rows, hgv)
}
