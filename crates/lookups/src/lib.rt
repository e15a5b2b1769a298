//! The lookups by PAN and by plate: each searches once, and answers with the slot itself, the caller's own bytes, or with
//! its refusal. A key breaks its form before it is looked for: the refusals stand in the order of their rules.
#![tactic(auto)]

ghost use Rattle.std.specs.Prelude.{◌≡◌, ◌+◌, ◌*◌, ◌≤◌, Option, length};
ghost use Rattle.std.specs.List.{list_any, position};
ghost use Rattle.theory.specs.Parts.{part_at};
ghost use Rattle.sizes.specs.Sizes.{slot_length};
ghost use Rattle.rules.specs.Numbers.{answer_number};
ghost use Rattle.lookups.specs.Lookup.{told, lent, fits_plate};
ghost use Rattle.lookups.specs.laws.Only.{only};
ghost use Rattle.lookups.specs.Promises.{FindByPan, ByPan, FindByPlate, ByPlate};

use rules::{Refusal, require};

/// The place of the one record with this PAN, counted from 0.
#[tactic(auto, using(crate::proofs::Laws::pan_told), unfolding(crate::specs::Lookup::found_at, crate::specs::Lookup::pan_number, crate::specs::Lookup::pan_rules, theory::specs::First::first, theory::specs::First::choose))]
pub fn find_by_pan(b: &[u8], key: &[u8]) -> Result<usize, Refusal>
    ensures { FindByPan b.now key.now (told result) }
{
    require(register::in_order(b), Refusal::Order)?;
    require(pans::is_pan(key), Refusal::Key)?;
    slots::find(slots::used_part(b), key).ok_or(Refusal::NoRecord)
}

fn slot_at(b: &[u8], place: usize) -> &[u8]
    requires { place * slot_length + slot_length ≤ length b.now }
    ensures { result.now ≡ part_at slot_length place b.now }
{
    texts::part(b, sizes::SLOT, place)
}

/// The slot of the one record with this PAN.
#[tactic(auto, using(crate::proofs::Laws::pan_kept))]
pub fn by_pan<'a>(b: &'a [u8], key: &[u8]) -> Result<&'a [u8], Refusal>
    ensures { ByPan b.now key.now (lent result) (answer_number result) }
{
    let place = find_by_pan(b, key)?;
    Ok(slot_at(b, place))
}

#[tactic(auto, unfolding(crate::specs::Lookup::fits_plate))]
fn fits_plate(r: &[u8], p: &[u8], n: &[u8], t: &[u8]) -> bool
    ensures { result ≡ fits_plate p.now n.now t.now r.now }
{
    columns::PLATE.has(r, p) && columns::NATIONALITY.has(r, n) && activity::is_active(r, t)
}

fn first_fit(slots: &[[u8; sizes::SLOT]], p: &[u8], n: &[u8], t: &[u8]) -> Option<usize>
    ensures { result ≡ position (fits_plate p.now n.now t.now) slots.now }
{
    slots.iter().position(|r| fits_plate(r, p, n, t))
}

fn some_fits(slots: &[[u8; sizes::SLOT]], p: &[u8], n: &[u8], t: &[u8]) -> bool
    ensures { result ≡ list_any (fits_plate p.now n.now t.now) slots.now }
{
    slots.iter().any(|r| fits_plate(r, p, n, t))
}

/// The place of the one that fits.
fn only_fit(slots: &[[u8; sizes::SLOT]], p: &[u8], n: &[u8], t: &[u8]) -> Result<usize, Refusal>
    ensures { told result ≡ only (fits_plate p.now n.now t.now) slots.now (position (fits_plate p.now n.now t.now) slots.now) }
{
    let Some(place) = first_fit(slots, p, n, t) else {
        return Err(Refusal::NoRecord);
    };
    require(
        !some_fits(&slots[place + 1..], p, n, t),
        Refusal::SeveralRecords,
    )?;
    Ok(place)
}

/// The place of the one record with this plate and nationality that is active at the time t, counted from 0.
#[tactic(auto, using(crate::proofs::Laws::plate_only), unfolding(crate::specs::Lookup::found_at, crate::specs::Lookup::plate_number, crate::specs::Lookup::plate_rules, theory::specs::First::first, theory::specs::First::choose))]
pub fn find_by_plate(b: &[u8], p: &[u8], n: &[u8], t: &[u8]) -> Result<usize, Refusal>
    ensures { FindByPlate b.now p.now n.now t.now (told result) }
{
    require(times::is_real_time(t), Refusal::Time)?;
    require(register::in_order(b), Refusal::Order)?;
    require(
        plates::is_plate(p) && plates::is_nationality(n),
        Refusal::Key,
    )?;
    only_fit(slots::slots(slots::used_part(b)), p, n, t)
}

/// The slot of that record.
#[tactic(auto, using(crate::proofs::Laws::plate_kept))]
pub fn by_plate<'a>(b: &'a [u8], p: &[u8], n: &[u8], t: &[u8]) -> Result<&'a [u8], Refusal>
    ensures { ByPlate b.now p.now n.now t.now (lent result) (answer_number result) }
{
    let place = find_by_plate(b, p, n, t)?;
    Ok(slot_at(b, place))
}
