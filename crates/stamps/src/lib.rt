//! The stamp of a slot: the list that touched its account last, and when that was received. Every public function but the
//! writer takes texts of any length.
#![tactic(auto)]

ghost use Rattle.std.specs.Prelude.{◌≡◌, length};
ghost use Rattle.sizes.specs.Sizes.{stamp_length, time_length};
ghost use Rattle.sequences.specs.Sequence.{list_length};
ghost use Rattle.stamps.specs.Promises.{IsStamp, Reception, WriteStamp};

use texts::Columns;

// Its columns, the first and the last position of each.
const LIST: Columns = Columns { from: 1, to: 19 };

const RECEPTION: Columns = Columns { from: 20, to: 33 };

const ZEROS: Columns = Columns { from: 34, to: 40 };

/// When the list was received.
pub fn reception(s: &[u8]) -> &[u8]
    ensures { Reception s.now result.now }
{
    RECEPTION.of(s)
}

/// Is `s` a stamp for a record of the actor `who`.
#[tactic(auto, unfolding(crate::specs::Stamp::stamp_holds))]
pub fn is_stamp(s: &[u8], who: &[u8]) -> bool
    ensures { IsStamp s.now who.now result }
{
    s.len() == sizes::STAMP
        && sequences::is_sequence(LIST.of(s), who)
        && times::is_real_time(reception(s))
        && fields::is_zeros(ZEROS.of(s), 7)
}

/// The stamp of a list that was received at `reception`: every byte of `s` is written.
pub fn write_stamp(s: &mut [u8], list: &[u8], reception: &[u8])
    requires sized { length s.old ≡ stamp_length }
    requires listed { length list.now ≡ list_length }
    requires dated { length reception.now ≡ time_length }
    ensures { WriteStamp s.old list.now reception.now s.new }
{
    writing::put_field(s, LIST.from, list);
    writing::put_field(s, RECEPTION.from, reception);
    writing::put_field(s, ZEROS.from, b"0000000");
}
