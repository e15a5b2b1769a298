//! The number that digits write, and the digits that a number is written in.
#![tactic(auto)]

ghost use Rattle.std.specs.Prelude.{◌≡◌, ◌+◌, ◌-◌, ◌≤◌, length};
ghost use Rattle.theory.specs.Text.{byte};
ghost use Rattle.numbers.specs.Number.{decimal};
ghost use Rattle.numbers.specs.Promises.{Number, PutNumber, PutZeros};

/// What a byte counts as a digit: 0 below '0'.
fn value(b: u8) -> u64
    ensures { (result ≡ b - byte "0") × (result ≤ 207) }
{
    u64::from(b.saturating_sub(b'0'))
}

/// The number that digits write. The longest number in the files, a count, has 15.
pub fn number(f: &[u8]) -> u64
    requires { length f.now ≤ 15 }
    ensures { Number f.now result }
{
    let mut n: u64 = 0;
    for &b in f {
        n = n * 10 + value(b);
    }
    n
}

/// The digits of `v` over a whole text.
fn put_digits(to: &mut [u8], v: u64)
    ensures { to.new ≡ decimal (length to.old) v }
{
    let mut left = v;
    for i in (0..to.len()).rev() {
        to[i] = b'0' + (left % 10) as u8;
        left /= 10;
    }
}

/// A number written in `width` digits from a position on, counted from 1.
pub fn put_number(text: &mut [u8], from: usize, width: usize, v: u64)
    requires { (1 ≤ from) × (from - 1 + width ≤ length text.old) }
    ensures { PutNumber text.old from width v text.new }
{
    let at = from - 1;
    let behind = at + width;
    put_digits(&mut text[at..behind], v);
}

/// So many zeros written from a position on, counted from 1.
pub fn put_zeros(text: &mut [u8], from: usize, n: usize)
    requires { (1 ≤ from) × (from - 1 + n ≤ length text.old) }
    ensures { PutZeros text.old from n text.new }
{
    put_number(text, from, n, 0);
}
