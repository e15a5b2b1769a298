//! A block of slots closed up in place over a block of marks: a slot stays where it has a mark and that is 0.
#![tactic(auto)]

ghost use Rattle.std.specs.Prelude.{◌≡◌, ◌+◌, ◌*◌, ◌≤◌, length};
ghost use Rattle.sizes.specs.Sizes.{slot_length};
ghost use Rattle.theory.specs.Parts.{chop, part_at};
ghost use Rattle.theory.specs.Pick.{good, pick};
ghost use Rattle.theory.specs.Put.{put_part};
ghost use Rattle.theory.specs.laws.CloseUp.{Closing};
ghost use Rattle.closing.specs.laws.Closing.{stays};
ghost use Rattle.closing.specs.Promises.{CloseUp};

// The bytes of slot i into slot k. A slot that is there already is not copied over itself: that would go byte by byte.
#[tactic(auto, using(crate::proofs::Laws::moved_within, crate::proofs::Laws::moved_nowhere))]
fn move_slot(block: &mut [u8], i: usize, k: usize)
    requires { (i * slot_length + slot_length ≤ length block.old) × (k ≤ i) }
    ensures { block.new ≡ put_part slot_length k (part_at slot_length i block.old) block.old }
{
    if k == i {
        return;
    }
    let from = i * sizes::SLOT;
    block.copy_within(from..from + sizes::SLOT, k * sizes::SLOT);
}

// Does slot i stay: it has a mark, and that is 0.
#[tactic(auto, using(crate::proofs::Laws::good_is), unfolding(crate::specs::laws::Closing::stays))]
fn stays(marks: &[u8], i: usize) -> bool
    ensures { result ≡ stays marks.now i }
{
    // Stays: a mark is a byte of the block of marks, and 0 there says that the slot stays.
    i < marks.len() && marks[i] == 0
}

// Those of the first n slots that stay moved to the front; how many they are.
fn move_up(block: &mut [u8], marks: &[u8], n: usize) -> usize
    requires { n * slot_length ≤ length block.old }
    ensures { Closing slot_length (pick good marks.now (chop slot_length n block.old)) block.old block.new n result }
{
    let mut k = 0;
    for i in 0..n {
        if stays(marks, i) {
            move_slot(block, i, k);
            k += 1;
        }
    }
    k
}

/// The slots that are marked, or have no mark, go, and those behind those that stay become free; how many stay.
pub fn close_up(block: &mut [u8], marks: &[u8]) -> usize
    ensures { CloseUp block.old marks.now result block.new }
{
    let n = block.len() / sizes::SLOT;
    let k = move_up(block, marks, n);
    block[k * sizes::SLOT..n * sizes::SLOT].fill(0);
    k
}
