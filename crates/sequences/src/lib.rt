//! The sequence of a list: `HGV`, its sender, a date and a number. Every public function takes texts of any length.
#![tactic(auto)]

ghost use Rattle.sequences.specs.Promises.{IsSequence};

use texts::Columns;

const SEQUENCE: usize = 19;

// Its columns, the first and the last position of each.
pub const FILE: Columns = Columns { from: 1, to: 3 };

pub const OWNER: Columns = Columns { from: 4, to: 9 };

pub const DATE: Columns = Columns { from: 10, to: 17 };

pub const NUMBER: Columns = Columns { from: 18, to: 19 };

/// Is `f` a sequence of the sender `from`.
#[tactic(auto, unfolding(crate::specs::Sequence::sequence), using(texts::specs::laws::Field::field_most))]
pub fn is_sequence(f: &[u8], from: &[u8]) -> bool
    ensures { IsSequence f.now from.now result }
{
    let digits = NUMBER.of(f);
    let number = numbers::number(digits);
    f.len() == SEQUENCE
        && FILE.has(f, b"HGV")
        && OWNER.has(f, from)
        && times::is_real_date(DATE.of(f))
        && fields::is_digits(digits, 2)
        && 1 <= number
}
