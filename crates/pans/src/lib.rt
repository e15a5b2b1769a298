//! The personal account number: its form (L1) and its Luhn sum (L5).
#![tactic(auto)]

ghost use Rattle.std.specs.Prelude.{◌≡◌, true, ◌<◌, ◌%◌};
ghost use Rattle.theory.specs.Every.{all};
ghost use Rattle.fields.specs.Field.{digit};
ghost use Rattle.pans.specs.Pan.{doubled, addend, luhn_sum};
ghost use Rattle.pans.specs.laws.Pan.{doubled_table};
ghost use Rattle.pans.specs.Promises.{IsPan, IsLuhn};

const PAN_LENGTH: usize = 19;

// What a digit from 0 to 9 counts where it is doubled.
struct Doubling {
    table: [u64; 10],
    ghost listed: { table ≡ doubled_table },
}

// As a card manual lists it.
const DOUBLED: Doubling = Doubling {
    table: [0, 2, 4, 6, 8, 1, 3, 5, 7, 9],
};

/// 1 to 19 digits, then blanks, over the whole field (L1).
#[tactic(auto, unfolding(crate::specs::Pan::pan, characters::specs::Characters::filled))]
pub fn is_pan(f: &[u8]) -> bool
    ensures { IsPan f.now result }
{
    f.len() == PAN_LENGTH && characters::is_filled(f, characters::digits_in(f))
}

fn doubled(by: &Doubling, d: u64) -> u64
    requires { d < 10 }
    ensures { result ≡ doubled d }
{
    by.table[d as usize]
}

fn addend(by: &Doubling, d: u64, behind: usize) -> u64
    requires { d < 10 }
    ensures { (result ≡ addend d behind) × (result < 10) }
{
    if behind % 2 == 1 { doubled(by, d) } else { d }
}

// The last digit of a sum of two digits, without a division.
fn last_digit(sum: u64) -> u64
    requires { sum < 20 }
    ensures { result ≡ sum % 10 }
{
    if sum < 10 { sum } else { sum - 10 }
}

// The Luhn sum, of which only the last digit is kept. The table is lent, since a constant that is read in a loop is made
// anew in each turn.
fn luhn_sum(by: &Doubling, digits: &[u8]) -> u64
    requires { all digit digits.now ≡ true }
    ensures { result ≡ luhn_sum digits.now % 10 }
{
    let mut sum: u64 = 0;
    for (i, &digit) in digits.iter().enumerate() {
        let d = u64::from(digit - b'0');
        sum = last_digit(sum + addend(by, d, digits.len() - 1 - i));
    }
    sum
}

/// Is the Luhn sum of the digits in front a multiple of ten (L5); their check digit stands last.
pub fn is_luhn(f: &[u8]) -> bool
    ensures { IsLuhn f.now result }
{
    let k = characters::digits_in(f);
    luhn_sum(&DOUBLED, &f[..k]) == 0
}
