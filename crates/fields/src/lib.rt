//! What one field may hold. Every function takes a slice of any length: a field of another length than asked is
//! simply not in form.
#![tactic(auto)]

ghost use Rattle.std.specs.Prelude.{◌≡◌};
ghost use Rattle.std.specs.List.{list_all};
ghost use Rattle.theory.specs.Every.{run};
ghost use Rattle.fields.specs.Field.{between};
ghost use Rattle.fields.specs.Promises.{IsDigits, IsZeros, IsZeroBytes, IsBlanks, IsCapitals};

fn is_between(b: u8, lo: u8, hi: u8) -> bool
    ensures { result ≡ between lo hi b }
{
    lo <= b && b <= hi
}

fn all_between(s: &[u8], lo: u8, hi: u8) -> bool
    ensures { result ≡ list_all (between lo hi) s.now }
{
    s.iter().all(|&b| is_between(b, lo, hi))
}

/// `n` bytes, each from `lo` to `hi`.
#[tactic(auto, using(theory::specs::laws::Words::all_is), unfolding(theory::specs::Every::run))]
fn is_run(f: &[u8], n: usize, lo: u8, hi: u8) -> bool
    ensures { result ≡ run (between lo hi) n f.now }
{
    f.len() == n && all_between(f, lo, hi)
}

/// `n` digits.
pub fn is_digits(f: &[u8], n: usize) -> bool
    ensures { IsDigits f.now n result }
{
    is_run(f, n, b'0', b'9')
}

/// `n` times the digit 0.
pub fn is_zeros(f: &[u8], n: usize) -> bool
    ensures { IsZeros f.now n result }
{
    is_run(f, n, b'0', b'0')
}

/// `n` bytes of the value 0, as a free slot has them.
pub fn is_zero_bytes(f: &[u8], n: usize) -> bool
    ensures { IsZeroBytes f.now n result }
{
    is_run(f, n, 0, 0)
}

/// `n` blanks.
pub fn is_blanks(f: &[u8], n: usize) -> bool
    ensures { IsBlanks f.now n result }
{
    is_run(f, n, b' ', b' ')
}

/// `n` capitals from A to Z.
pub fn is_capitals(f: &[u8], n: usize) -> bool
    ensures { IsCapitals f.now n result }
{
    is_run(f, n, b'A', b'Z')
}
