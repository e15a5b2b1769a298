//! The license plate: its characters (L6), its nationality (L7), its separators (L10).
#![tactic(auto)]

ghost use Rattle.std.specs.Prelude.{◌≡◌, ◌+◌, leb};
ghost use Rattle.theory.specs.Every.{leading};
ghost use Rattle.plates.specs.Plate.{allowed, separated};
ghost use Rattle.plates.specs.laws.Plate.{allowed_table};
ghost use Rattle.plates.specs.Promises.{PlateCharacters, IsPlate, IsNationality, IsSeparator};

const PLATE_LENGTH: usize = 10;

// '1' for each byte that a plate may hold, a row for each sixteen of the code table.
// Stays: as text, since 256 words true and false show no row of the code table.
const ALLOWED: [u8; 256] = *b"\
0000000000000000\
0000000000000000\
0000000000000000\
1111111111000000\
0111111111111111\
1111111111100000\
0111111111111111\
1111111111100000\
0000000000000000\
0000000000000000\
0000000000000000\
0000000000000000\
0000100000000000\
0000001000001000\
0000100000000000\
0000000000001000";

fn admits(table: &[u8; 256], b: u8) -> bool
    requires { table.now ≡ allowed_table }
    ensures { result ≡ allowed b }
{
    table[usize::from(b)] == b'1'
}

// The table is lent, since a constant that is read in a loop is made anew in each turn.
fn admitted(table: &[u8; 256], f: &[u8]) -> usize
    requires { table.now ≡ allowed_table }
    ensures { result ≡ leading allowed f.now }
{
    for (i, &b) in f.iter().enumerate() {
        if !admits(table, b) {
            return i;
        }
    }
    f.len()
}

/// How many characters stand in front that a plate may hold.
pub fn plate_characters(f: &[u8]) -> usize
    ensures { PlateCharacters f.now result }
{
    admitted(&ALLOWED, f)
}

/// 1 to 10 such characters, then blanks, over the whole field (L6).
#[tactic(auto, unfolding(crate::specs::Plate::plate, characters::specs::Characters::filled))]
pub fn is_plate(f: &[u8]) -> bool
    ensures { IsPlate f.now result }
{
    f.len() == PLATE_LENGTH && characters::is_filled(f, plate_characters(f))
}

/// Two capitals and a blank (L7).
#[tactic(auto, unfolding(crate::specs::Plate::nationality))]
pub fn is_nationality(f: &[u8]) -> bool
    ensures { IsNationality f.now result }
{
    f.len() == 3
        && fields::is_capitals(texts::field(f, 1, 2), 2)
        && fields::is_blanks(texts::field(f, 3, 3), 1)
}

// q <= k + 1, for every k.
fn at_most_next(q: u64, k: usize) -> bool
    ensures { result ≡ leb q (k + 1) }
{
    q == 0 || q - 1 <= k as u64
}

// q >= p + 2, for every p.
fn two_apart(p: u64, q: u64) -> bool
    ensures { result ≡ leb (p + 2) q }
{
    2 <= q && p <= q - 2
}

#[tactic(auto, unfolding(crate::specs::Plate::separated))]
fn is_separated(p: u64, q: u64, k: usize) -> bool
    ensures { result ≡ separated p q k }
{
    (p == 0 && q == 0)
        || (q == 0 && 2 <= p && p <= k as u64)
        || (2 <= p && two_apart(p, q) && at_most_next(q, k))
}

/// May a plate of k characters have these two separators (L10).
#[tactic(auto, unfolding(crate::specs::Plate::separator), using(texts::specs::laws::Field::field_most))]
pub fn is_separator(f: &[u8], k: usize) -> bool
    ensures { IsSeparator f.now k result }
{
    let p = numbers::number(texts::field(f, 1, 1));
    let q = numbers::number(texts::field(f, 2, 2));
    fields::is_digits(f, 2) && is_separated(p, q, k)
}
