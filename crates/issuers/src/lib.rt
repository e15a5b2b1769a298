//! The issuer rows: their form (stop 24), whether one has the sender (stop 29), and what a PAN finds among the
//! sender's (L3, L4).
#![tactic(auto)]

ghost use Rattle.std.specs.Prelude.{◌≡◌, eqb, take};
ghost use Rattle.std.specs.List.{list_all, list_any, position};
ghost use Rattle.theory.specs.Same.{eqs};
ghost use Rattle.theory.specs.Every.{leading};
ghost use Rattle.fields.specs.Field.{digit};
ghost use Rattle.issuers.specs.Rows.{bin, length_of_bin_id, rows_of, row_holds, sent_by, length_of_pan, row_begins};
ghost use Rattle.issuers.specs.laws.Issued.{fits_with, issued_in};
ghost use Rattle.issuers.specs.Promises.{AreRows, IsKnown, IssuedTo};

use texts::Columns;

/// What a PAN finds among the sender's rows: one whose BIN ID digits begin it (L3), and such a one that has its number
/// of digits (L4).
// Stays: two flags, since two rules ask one each.
#[derive(Clone, Copy, Debug, PartialEq, Eq)]
pub struct Issued {
    pub begins: bool,
    pub fits: bool,
}

const BIN: Columns = Columns { from: 1, to: 14 };

const BIN_ID_LENGTH: Columns = Columns { from: 15, to: 16 };

const PAN_LENGTH: Columns = Columns { from: 17, to: 18 };

const ACTOR: Columns = Columns { from: 19, to: 24 };

// Its rows; what is left behind the last whole one is no row.
#[tactic(auto, using(theory::specs::laws::Words::chop_is))]
fn rows(b: &[u8]) -> &[[u8; sizes::ROW]]
    ensures { result.now ≡ rows_of b.now }
{
    b.as_chunks::<{ sizes::ROW }>().0
}

#[tactic(auto, unfolding(crate::specs::Rows::row_holds, characters::specs::Characters::filled), using(texts::specs::laws::Field::field_most))]
fn is_row(r: &[u8]) -> bool
    ensures { result ≡ row_holds r.now }
{
    let bin = BIN.of(r);
    let given = characters::digits_in(bin);
    let bin_length = BIN_ID_LENGTH.of(r);
    let used = numbers::number(bin_length);
    let pan_length = PAN_LENGTH.of(r);
    let digits = numbers::number(pan_length);
    6 <= given
        && characters::is_filled(bin, given)
        && fields::is_digits(bin_length, 2)
        && 6 <= used
        && used <= 14
        && used <= given as u64
        && fields::is_digits(pan_length, 2)
        && used < digits
        && digits <= 19
        && fields::is_digits(ACTOR.of(r), 6)
}

fn each_row(rows: &[[u8; sizes::ROW]]) -> bool
    ensures { result ≡ list_all row_holds rows.now }
{
    rows.iter().all(|r| is_row(r))
}

/// Are these bytes 0 to 64 rows, each in form.
#[tactic(auto, unfolding(crate::specs::Rows::rows_hold), using(theory::specs::laws::Words::each_is))]
pub fn are_rows(b: &[u8]) -> bool
    ensures { AreRows b.now result }
{
    b.len() % sizes::ROW == 0 && b.len() / sizes::ROW <= sizes::ROWS_MOST && each_row(rows(b))
}

#[tactic(auto, unfolding(crate::specs::Rows::sent_by))]
fn is_sent_by(sender: &[u8], r: &[u8]) -> bool
    ensures { result ≡ sent_by sender.now r.now }
{
    texts::same(ACTOR.of(r), sender)
}

fn has_sender(rows: &[[u8; sizes::ROW]], sender: &[u8]) -> bool
    ensures { result ≡ list_any (sent_by sender.now) rows.now }
{
    rows.iter().any(|r| is_sent_by(sender, r))
}

/// Does a row have the sender.
#[tactic(auto, unfolding(crate::specs::Rows::known), using(theory::specs::laws::Words::some_is))]
pub fn is_known(b: &[u8], sender: &[u8]) -> bool
    ensures { IsKnown b.now sender.now result }
{
    has_sender(rows(b), sender)
}

// The first n bytes, or all where there are fewer.
fn head(s: &[u8], n: u64) -> &[u8]
    ensures { result.now ≡ take n s.now }
{
    if (s.len() as u64) < n {
        s
    } else {
        &s[..n as usize]
    }
}

// The row's BIN ID digits begin the PAN.
#[tactic(auto, using(texts::specs::laws::Field::field_most))]
fn has_bin(pan: &[u8], r: &[u8]) -> bool
    ensures { result ≡ eqs (take (length_of_bin_id r.now) (bin r.now)) (take (length_of_bin_id r.now) pan.now) }
{
    let used = numbers::number(BIN_ID_LENGTH.of(r));
    texts::same(head(BIN.of(r), used), head(pan, used))
}

#[tactic(auto, unfolding(crate::specs::Rows::row_begins))]
fn row_begins(sender: &[u8], pan: &[u8], r: &[u8]) -> bool
    ensures { result ≡ row_begins sender.now pan.now r.now }
{
    is_sent_by(sender, r) && has_bin(pan, r)
}

// The row has this number of digits.
#[tactic(auto, using(texts::specs::laws::Field::field_most))]
fn has_digits(digits: u64, r: &[u8]) -> bool
    ensures { result ≡ eqb (length_of_pan r.now) digits }
{
    numbers::number(PAN_LENGTH.of(r)) == digits
}

// The row begins the PAN, of so many digits, and has this number of digits.
#[tactic(auto, unfolding(crate::specs::laws::Issued::fits_with))]
fn row_fits(sender: &[u8], pan: &[u8], digits: u64, r: &[u8]) -> bool
    ensures { result ≡ fits_with sender.now pan.now digits r.now }
{
    row_begins(sender, pan, r) && has_digits(digits, r)
}

fn first_begins(rows: &[[u8; sizes::ROW]], sender: &[u8], pan: &[u8]) -> Option<usize>
    ensures { result ≡ position (row_begins sender.now pan.now) rows.now }
{
    rows.iter().position(|r| row_begins(sender, pan, r))
}

fn some_fits(rows: &[[u8; sizes::ROW]], sender: &[u8], pan: &[u8], digits: u64) -> bool
    ensures { result ≡ list_any (fits_with sender.now pan.now digits) rows.now }
{
    rows.iter().any(|r| row_fits(sender, pan, digits, r))
}

// Each row is read once: no row in front of the first that begins the PAN fits it.
#[tactic(auto, using(crate::proofs::Laws::none_found))]
fn issued_by(rows: &[[u8; sizes::ROW]], sender: &[u8], pan: &[u8]) -> Issued
    ensures { result ≡ issued_in sender.now pan.now rows.now }
{
    let Some(first) = first_begins(rows, sender, pan) else {
        return Issued {
            begins: false,
            fits: false,
        };
    };
    let digits = characters::digits_in(pan) as u64;
    Issued {
        begins: true,
        fits: has_digits(digits, &rows[first])
            || some_fits(&rows[first + 1..], sender, pan, digits),
    }
}

/// What this PAN finds among the sender's rows.
#[tactic(auto, unfolding(crate::specs::Rows::issued_of, crate::specs::Rows::some_row_begins, crate::specs::Rows::some_row_fits), using(theory::specs::laws::Words::some_is))]
pub fn issued_to(b: &[u8], sender: &[u8], pan: &[u8]) -> Issued
    ensures { IssuedTo b.now sender.now pan.now result }
{
    issued_by(rows(b), sender, pan)
}
