//! The characters of a field: hexadecimal digits, how many digits stand in front, and blanks behind them. Every function
//! takes a slice of any length.
#![tactic(auto)]

ghost use Rattle.std.specs.Prelude.{◌≡◌};
ghost use Rattle.std.specs.List.{list_all, prefix_len};
ghost use Rattle.fields.specs.Field.{digit};
ghost use Rattle.characters.specs.Characters.{hex};
ghost use Rattle.characters.specs.Promises.{IsHex, DigitsIn, IsFilled};

fn is_digit(b: u8) -> bool
    ensures { result ≡ digit b }
{
    b'0' <= b && b <= b'9'
}

fn is_hex_digit(b: u8) -> bool
    ensures { result ≡ hex b }
{
    is_digit(b) || b'A' <= b && b <= b'F'
}

fn all_hex(s: &[u8]) -> bool
    ensures { result ≡ list_all hex s.now }
{
    s.iter().all(|&b| is_hex_digit(b))
}

/// `n` hexadecimal digits, those above 9 in capitals.
#[tactic(auto, using(theory::specs::laws::Words::all_is), unfolding(theory::specs::Every::run))]
pub fn is_hex(f: &[u8], n: usize) -> bool
    ensures { IsHex f.now n result }
{
    f.len() == n && all_hex(f)
}

fn leading_digits(f: &[u8]) -> usize
    ensures { result ≡ prefix_len digit f.now }
{
    f.iter().take_while(|&&b| is_digit(b)).count()
}

/// How many digits stand in front.
#[tactic(auto, using(theory::specs::laws::Words::leading_is))]
pub fn digits_in(f: &[u8]) -> usize
    ensures { DigitsIn f.now result }
{
    leading_digits(f)
}

/// At least one character, `k` in all, and blanks behind them.
pub fn is_filled(f: &[u8], k: usize) -> bool
    ensures { IsFilled f.now k result }
{
    if f.len() < k {
        return false;
    }
    0 < k && fields::is_blanks(&f[k..], f.len() - k)
}
