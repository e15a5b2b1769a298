//! What Rust calls for the lookups, on numbers and byte slices: each function hands on to the crate that does the work, and
//! writes both numbers that it is lent, in bytes; zeros at a refusal.
#![tactic(auto)]

ghost use Rattle.std.specs.Prelude.{◌≡◌, ◌*◌, ◌≤◌, eqb};
ghost use Rattle.theory.specs.First.{choose};
ghost use Rattle.sizes.specs.Sizes.{slot_length};
ghost use Rattle.lookups.specs.Lookup.{told};
ghost use Rattle.service_lookups.specs.Promises.{GraftspindleByPan, GraftspindleByPlate};

use rules::Refusal;

/// Where the slot starts that was found, and how long it is, and the number 0; at a refusal zeros and its number.
#[tactic(auto, unfolding(theory::specs::First::choose), using(rules::specs::laws::Numbers::refusal_some))]
fn hand_back(found: Result<usize, Refusal>, start: &mut u64, length: &mut u64) -> u64
    requires { (told found).place * slot_length ≤ 9223372036854775807 }
    ensures number { result ≡ (told found).number }
    ensures start { start.new ≡ (told found).place * slot_length }
    ensures length { length.new ≡ choose (eqb (told found).number 0) slot_length 0 }
{
    match found {
        Ok(place) => {
            *start = (place * sizes::SLOT) as u64;
            *length = sizes::SLOT as u64;
            0
        }
        Err(refusal) => {
            *start = 0;
            *length = 0;
            refusal.number()
        }
    }
}

/// The lookup by PAN: 0 or its number; where the slot starts in the register, and how long it is.
#[unsafe(no_mangle)]
pub extern "C" fn graftspindle_by_pan(
    register: &[u8],
    pan: &[u8],
    start: &mut u64,
    length: &mut u64,
) -> u64
    ensures { GraftspindleByPan register.now pan.now result start.new length.new }
{
    hand_back(lookups::find_by_pan(register, pan), start, length)
}

/// The lookup by plate, nationality and time, the same way.
#[unsafe(no_mangle)]
pub extern "C" fn graftspindle_by_plate(
    register: &[u8],
    plate: &[u8],
    nationality: &[u8],
    time: &[u8],
    start: &mut u64,
    length: &mut u64,
) -> u64
    ensures { GraftspindleByPlate register.now plate.now nationality.now time.now result start.new length.new }
{
    hand_back(
        lookups::find_by_plate(register, plate, nationality, time),
        start,
        length,
    )
}
