//! A block of slots, of which the used ones come first: how many they are, and what is looked for in them.
#![tactic(auto)]

ghost use Rattle.std.specs.Prelude.{◌≡◌};
ghost use Rattle.std.specs.List.{list_any, prefix_len};
ghost use Rattle.slots.specs.Slots.{marked};
ghost use Rattle.slots.specs.Search.{holds_pan, holds_foreign};
ghost use Rattle.slots.specs.Promises.{Slots, Split, IsMarked, UsedSlots, UsedPart, Find, IsOf, IsHeldByAnother, CountOf, ByPan};

use keys::KeyedParts;
use texts::Parts;

/// The whole slots of a block; bytes behind the last are none.
#[tactic(auto, using(theory::specs::laws::Words::chop_is), unfolding(crate::specs::Slots::slots_of))]
pub fn slots(b: &[u8]) -> &[[u8; sizes::SLOT]]
    ensures { Slots b.now result.now }
{
    b.as_chunks::<{ sizes::SLOT }>().0
}

/// The whole slots by their PANs.
pub fn by_pan<'a>(b: &'a [u8]) -> KeyedParts<'a>
    ensures { ByPan b.now result }
{
    let slots = Parts {
        block: b,
        width: sizes::SLOT,
        count: b.len() / sizes::SLOT,
    };
    KeyedParts::by(&slots, columns::PAN)
}

/// Has a slot `1` in front, as a used one has.
#[tactic(auto, unfolding(crate::specs::Slots::marked))]
pub fn is_marked(s: &[u8]) -> bool
    ensures { IsMarked s.now result }
{
    texts::has_text(s, 1, 1, b"1")
}

fn marked_in_front(slots: &[[u8; sizes::SLOT]]) -> usize
    ensures { result ≡ prefix_len marked slots.now }
{
    slots.iter().take_while(|s| is_marked(*s)).count()
}

/// How many slots are used: those in front of the first without `1`.
#[tactic(auto, using(crate::specs::laws::Slots::used_prefix))]
pub fn used_slots(b: &[u8]) -> usize
    ensures { UsedSlots b.now result }
{
    marked_in_front(slots(b))
}

/// The used slots, and those behind them.
#[tactic(auto, using(crate::specs::laws::Slots::used_among, crate::specs::laws::Slots::records_take))]
pub fn split(b: &[u8]) -> (&[[u8; sizes::SLOT]], &[[u8; sizes::SLOT]])
    ensures { Split b.now result.0.now result.1.now }
{
    slots(b).split_at(used_slots(b))
}

/// The used slots themselves: what a search over the records looks at.
#[tactic(auto, using(crate::specs::laws::Slots::used_fits), unfolding(crate::specs::Slots::used_part))]
pub fn used_part(b: &[u8]) -> &[u8]
    ensures { UsedPart b.now result.now }
{
    &b[..used_slots(b) * sizes::SLOT]
}

#[tactic(auto, unfolding(crate::specs::Search::holds_pan))]
fn holds_pan(r: &[u8], pan: &[u8]) -> bool
    ensures { result ≡ holds_pan pan.now r.now }
{
    columns::PAN.has(r, pan)
}

/// The place of the first slot that has this PAN, counted from 0.
pub fn find(b: &[u8], pan: &[u8]) -> Option<usize>
    ensures { Find b.now pan.now result }
{
    slots(b).iter().position(|r| holds_pan(r, pan))
}

/// Is this record, or this line, the actor's.
#[tactic(auto, unfolding(crate::specs::Search::of_actor))]
pub fn is_of(r: &[u8], who: &[u8]) -> bool
    ensures { IsOf r.now who.now result }
{
    columns::ACTOR.has(r, who)
}

#[tactic(auto, unfolding(crate::specs::Search::holds_foreign))]
fn holds_foreign(r: &[u8], pan: &[u8], who: &[u8]) -> bool
    ensures { result ≡ holds_foreign pan.now who.now r.now }
{
    holds_pan(r, pan) && !is_of(r, who)
}

fn some_foreign(slots: &[[u8; sizes::SLOT]], pan: &[u8], who: &[u8]) -> bool
    ensures { result ≡ list_any (holds_foreign pan.now who.now) slots.now }
{
    slots.iter().any(|r| holds_foreign(r, pan, who))
}

/// Has one of the slots this PAN under another actor than `who` (L11).
#[tactic(auto, using(theory::specs::laws::Words::some_is), unfolding(crate::specs::Search::held_by_another))]
pub fn is_held_by_another(b: &[u8], pan: &[u8], who: &[u8]) -> bool
    ensures { IsHeldByAnother b.now pan.now who.now result }
{
    some_foreign(slots(b), pan, who)
}

/// How many of the slots are this actor's.
pub fn count_of(b: &[u8], who: &[u8]) -> usize
    ensures { CountOf b.now who.now result }
{
    let mut k = 0;
    for r in slots(b) {
        if is_of(r, who) {
            k += 1;
        }
    }
    k
}
