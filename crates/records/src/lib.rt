//! What a taken line becomes, written into its slot: its record and its stamp.
#![tactic(auto)]

ghost use Rattle.std.specs.Prelude.{◌≡◌, ◌≤◌, length};
ghost use Rattle.sizes.specs.Sizes.{slot_length, slot_end, stamp_length, time_length};
ghost use Rattle.writing.specs.Put.{put_field};
ghost use Rattle.lines.specs.End.{end_of, record_of};
ghost use Rattle.records.specs.Slot.{line_least, slot_of};
ghost use Rattle.records.specs.Promises.{WriteRecord, PutRecord};

const IDENTIFIER: usize = 1;

// What a Valid to becomes at a reception.
// Stays: a reception is read as a part of a text, of which its length is known by a law; only one that is written is an array.
#[tactic(auto, unfolding(lines::specs::End::end_of))]
fn put_end(to: &mut [u8], given: &[u8], reception: &[u8])
    requires { (length to.old ≡ slot_end) × ((length given.now ≡ time_length) × (length reception.now ≡ time_length)) }
    ensures { to.new ≡ put_field 101 (end_of reception.now given.now) to.old }
{
    if fields::is_zeros(given, sizes::TIME) || times::is_earlier(reception, given) {
        writing::put_field(to, columns::VALID_TO.from, given);
    } else {
        writing::put_field(to, columns::VALID_TO.from, reception);
    }
}

// Every byte of the record is written.
fn fill_record(to: &mut [u8], line: &[u8], reception: &[u8])
    requires { (length to.old ≡ slot_end) × ((line_least ≤ length line.now) × (length reception.now ≡ time_length)) }
    ensures { to.new ≡ record_of reception.now line.now }
{
    let front = texts::field(line, columns::ACTOR.from, columns::WEIGHT.to);
    let given = columns::VALID_TO.of(line);
    let rest = texts::field(line, columns::SEPARATOR.from, columns::FILLER.to);
    writing::put_field(to, IDENTIFIER, b"1");
    writing::put_field(to, columns::ACTOR.from, front);
    put_end(to, given, reception);
    writing::put_field(to, columns::SEPARATOR.from, rest);
    writing::put_field(to, sizes::SLOT_END, b"\n");
}

// Every byte of the slot is written.
fn fill_slot(slot: &mut [u8], line: &[u8], stamp: &[u8])
    requires { (length slot.old ≡ slot_length) × ((line_least ≤ length line.now) × (length stamp.now ≡ stamp_length)) }
    ensures { slot.new ≡ slot_of stamp.now line.now }
{
    let reception = stamps::reception(stamp);
    fill_record(&mut slot[0..sizes::SLOT_END], line, reception);
    writing::put_field(slot, sizes::STAMP_FROM, stamp);
}

/// The record of a line and its stamp written into a slot; a slot or a stamp of another length, or a line that is too short,
/// leaves the slot as it was.
#[tactic(auto, unfolding(crate::specs::Slot::written, crate::specs::Slot::fits))]
pub fn write_record(slot: &mut [u8], line: &[u8], stamp: &[u8])
    ensures { WriteRecord slot.old line.now stamp.now slot.new }
{
    if slot.len() == sizes::SLOT
        && columns::FILLER.to <= line.len()
        && stamp.len() == sizes::STAMP
    {
        fill_slot(slot, line, stamp);
    }
}

/// The same in slot i of a register; a place that is not there leaves the register as it was.
pub fn put_record(register: &mut [u8], i: usize, line: &[u8], stamp: &[u8])
    ensures { PutRecord register.old i line.now stamp.now register.new }
{
    if register.len() / sizes::SLOT <= i {
        return;
    }
    let at = i * sizes::SLOT;
    write_record(&mut register[at..at + sizes::SLOT], line, stamp);
}
