//! Records removed from a register in place: those that are marked go, the others close up in order.
#![tactic(auto)]

ghost use Rattle.std.specs.Prelude.{◌≡◌, Bool, List, ℕ, true, map, ◌*◌, ◌≤◌, length};
ghost use Rattle.theory.specs.Parts.{chop};
ghost use Rattle.sizes.specs.Sizes.{slot_length};
ghost use Rattle.slots.specs.Slots.{used_in};
ghost use Rattle.slots.specs.Search.{of_actor};
ghost use Rattle.register.specs.Register.{in_order};
ghost use Rattle.removing.specs.laws.Marks.{mark_by};
ghost use Rattle.removing.specs.Promises.{RemoveMarked, RemoveWhere, RemoveOf};

/// Which records go.
pub trait Removal {
    ghost removes: { Self → List ℕ → Bool };

    fn removes(&self, slot: &[u8]) -> bool
        ensures { result ≡ removes self.now slot.now };
}

/// The records of one actor.
#[derive(Clone, Copy)]
struct Of<'a> {
    who: &'a [u8],
}

impl<'a> Removal for Of<'a> {
    ghost removes = { λ of. of_actor of.who.now };

    fn removes(&self, slot: &[u8]) -> bool {
        slots::is_of(slot, self.who)
    }
}

/// The records that are marked, with a mark for each; how many stay.
// Stays: the register that is asked to be in order is lent to be written, and a struct that holds such a block has no model.
pub fn remove_marked(register: &mut [u8], marks: &[u8]) -> usize
    requires { (in_order register.old ≡ true) × (length marks.now ≡ used_in register.old) }
    ensures { RemoveMarked register.old marks.now result register.new }
{
    let behind = marks.len() * sizes::SLOT;
    closing::close_up(&mut register[..behind], marks)
}

// A mark for each of the slots, as many as `marks` has room for.
fn mark<T: Removal>(register: &[u8], removal: &T, marks: &mut [u8])
    requires { length marks.old * slot_length ≤ length register.now }
    ensures { marks.new ≡ map (mark_by (T.removes removal.now)) (chop slot_length (length marks.old) register.now) }
{
    for i in 0..marks.len() {
        let goes = removal.removes(texts::part(register, sizes::SLOT, i));
        // Stays: a mark is a byte, and 0 says that the slot stays, as 0 in a verdict says that the line was taken.
        marks[i] = u8::from(goes);
    }
}

fn mark_and_remove<T: Removal>(register: &mut [u8], removal: &T, marks: &mut [u8]) -> usize
    requires { (in_order register.old ≡ true) × (length marks.old ≡ used_in register.old) }
    ensures { RemoveWhere (T.removes removal.now) register.old result register.new }
{
    mark(register, removal, marks);
    remove_marked(register, marks)
}

/// The records that the removal takes; how many stay.
pub fn remove_where<T: Removal>(register: &mut [u8], removal: &T) -> usize
    requires { in_order register.old ≡ true }
    ensures { RemoveWhere (T.removes removal.now) register.old result register.new }
{
    let used = slots::used_slots(register);
    let mut marks = [0u8; sizes::SLOTS_MOST];
    mark_and_remove(register, removal, &mut marks[..used])
}

/// The records of this actor; how many stay.
pub fn remove_of(register: &mut [u8], who: &[u8]) -> usize
    requires { in_order register.old ≡ true }
    ensures { RemoveOf register.old who.now result register.new }
{
    remove_where(register, &Of { who })
}
