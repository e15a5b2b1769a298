//! The register in order (stop 23): whole slots, the used ones first, each a record, all PANs different.
#![tactic(auto)]

ghost use Rattle.std.specs.Prelude.{◌≡◌, true, map};
ghost use Rattle.std.specs.List.{list_all};
ghost use Rattle.theory.specs.Distinct.{distinct};
ghost use Rattle.columns.specs.Columns.{actor, pan_of};
ghost use Rattle.stamps.specs.Stamp.{stamp_in, stamp_holds};
ghost use Rattle.slots.specs.Slots.{records};
ghost use Rattle.register.specs.Register.{whole, used_form, free_form};
ghost use Rattle.register.specs.Promises.{InOrder};

fn is_stamped(s: &[u8]) -> bool
    ensures { result ≡ stamp_holds (actor s.now) (stamp_in s.now) }
{
    let stamp = texts::field(s, sizes::STAMP_FROM, sizes::SLOT);
    stamps::is_stamp(stamp, columns::ACTOR.of(s))
}

#[tactic(auto, unfolding(crate::specs::Register::used_form))]
fn is_used(s: &[u8]) -> bool
    ensures { result ≡ used_form s.now }
{
    slots::is_marked(s)
        && lines::is_record(s)
        && texts::has_text(s, sizes::SLOT_END, sizes::SLOT_END, b"\n")
        && is_stamped(s)
}

#[tactic(auto, unfolding(crate::specs::Register::free_form))]
fn is_free(s: &[u8]) -> bool
    ensures { result ≡ free_form s.now }
{
    fields::is_zero_bytes(s, sizes::SLOT)
}

fn are_used(slots: &[[u8; sizes::SLOT]]) -> bool
    ensures { result ≡ list_all used_form slots.now }
{
    slots.iter().all(|s| is_used(s))
}

fn are_free(slots: &[[u8; sizes::SLOT]]) -> bool
    ensures { result ≡ list_all free_form slots.now }
{
    slots.iter().all(|s| is_free(s))
}

fn are_whole(b: &[u8]) -> bool
    ensures { result ≡ whole b.now }
{
    b.len() % sizes::SLOT == 0 && b.len() / sizes::SLOT <= sizes::SLOTS_MOST
}

// Have no two of the used slots one PAN.
#[tactic(auto, using(crate::proofs::Laws::apart_asked))]
fn are_apart(b: &[u8]) -> bool
    requires { whole b.now ≡ true }
    ensures { result ≡ distinct (map pan_of (records b.now)) }
{
    let used = slots::by_pan(slots::used_part(b));
    apart::all_apart(&used)
}

/// Has a block 0 to 8,192 whole slots, the used ones first and in form, all their PANs different, and zero bytes behind
/// them.
#[tactic(auto, using(crate::proofs::Laws::asked, crate::proofs::Laws::not_whole))]
pub fn in_order(b: &[u8]) -> bool
    ensures { InOrder b.now result }
{
    if !are_whole(b) {
        return false;
    }
    let (used, free) = slots::split(b);
    are_used(used) && are_free(free) && are_apart(b)
}
