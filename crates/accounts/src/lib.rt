//! An account, as a provider gives it, and the line that an HGV has for it.
#![tactic(auto)]

ghost use Rattle.std.specs.Prelude.{◌≡◌, ◌+◌, ◌-◌, ◌≤◌, length};
ghost use Rattle.theory.specs.Join.{flat};
ghost use Rattle.sizes.specs.Sizes.{line_length};
ghost use Rattle.texts.specs.Field.{field};
ghost use Rattle.writing.specs.Put.{put_field};
ghost use Rattle.accounts.specs.Account.{key_texts, tag_texts, product_texts, measure_texts, end_texts};
ghost use Rattle.accounts.specs.Promises.{PutLine};

use texts::Columns;

/// An account, in bytes.
pub const ACCOUNT: usize = 100;

/// A sender, in bytes.
pub const SENDER: usize = 6;

// Its columns: the first and the last position of each, counted from 1.

/// Its PAN.
pub const PAN: Columns = Columns { from: 1, to: 19 };

const PLATE: Columns = Columns { from: 20, to: 29 };

const NATIONALITY: Columns = Columns { from: 30, to: 32 };

const TARIFF: Columns = Columns { from: 33, to: 34 };

const CLASS: Columns = Columns { from: 35, to: 35 };

const AXLES: Columns = Columns { from: 36, to: 36 };

const CONTEXT_MARK: Columns = Columns { from: 37, to: 48 };

const OBE_ID: Columns = Columns { from: 49, to: 66 };

const EMISSION: Columns = Columns { from: 67, to: 72 };

const FUEL: Columns = Columns { from: 73, to: 74 };

const CHARGEABLE: Columns = Columns { from: 75, to: 75 };

const ENGINE: Columns = Columns { from: 76, to: 78 };

const CO2: Columns = Columns { from: 79, to: 80 };

const WEIGHT: Columns = Columns { from: 81, to: 84 };

const VALID_TO: Columns = Columns { from: 85, to: 98 };

const SEPARATOR: Columns = Columns { from: 99, to: 100 };

// A column of an account, written into a text at a position.
#[tactic(auto, using(crate::proofs::Laws::column_length))]
fn put_column(text: &mut [u8], at: usize, a: &[u8; ACCOUNT], column: Columns)
    requires placed { 1 ≤ at }
    requires held { column.to ≤ length a.now }
    requires room { at + (column.to - column.from) ≤ length text.old }
    ensures { text.new ≡ put_field at (field column.from column.to a.now) text.old }
{
    writing::put_field(text, at, column.of(a));
}

// The line from its type to the nationality; `at` is the position before it.
// Stays: a text and the position before the line: what is written is told as one field of the whole text.
#[tactic(auto, using(crate::proofs::Laws::keys_written))]
fn put_keys(text: &mut [u8], at: usize, sender: &[u8; SENDER], a: &[u8; ACCOUNT])
    requires { at + line_length ≤ length text.old }
    ensures { text.new ≡ put_field (at + 1) (flat (key_texts sender.now a.now)) text.old }
{
    writing::put_field(text, at + 1, b"1");
    writing::put_field(text, at + columns::ACTOR.from, sender);
    writing::put_field(text, at + columns::SHADOW.from, b"      ");
    put_column(text, at + columns::PAN.from, a, PAN);
    put_column(text, at + columns::PLATE.from, a, PLATE);
    put_column(text, at + columns::NATIONALITY.from, a, NATIONALITY);
}

// From the tariff to the OBE ID.
#[tactic(auto, using(crate::proofs::Laws::tag_written))]
fn put_tag(text: &mut [u8], at: usize, a: &[u8; ACCOUNT])
    requires { at + line_length ≤ length text.old }
    ensures { text.new ≡ put_field (at + 46) (flat (tag_texts a.now)) text.old }
{
    put_column(text, at + columns::TARIFF.from, a, TARIFF);
    put_column(text, at + columns::CLASS.from, a, CLASS);
    put_column(text, at + columns::AXLES.from, a, AXLES);
    put_column(text, at + columns::CONTEXT_MARK.from, a, CONTEXT_MARK);
    put_column(text, at + columns::OBE_ID.from, a, OBE_ID);
}

// The emission class and the product code.
#[tactic(auto, using(crate::proofs::Laws::product_written))]
fn put_product(text: &mut [u8], at: usize, a: &[u8; ACCOUNT])
    requires { at + line_length ≤ length text.old }
    ensures { text.new ≡ put_field (at + 80) (flat (product_texts a.now)) text.old }
{
    put_column(text, at + columns::EMISSION.from, a, EMISSION);
    put_column(text, at + columns::FUEL.from, a, FUEL);
    put_column(text, at + columns::CHARGEABLE.from, a, CHARGEABLE);
    writing::put_field(text, at + columns::PRODUCT_REST.from, b"   ");
}

// From the engine to the weight.
#[tactic(auto, using(crate::proofs::Laws::measures_written))]
fn put_measures(text: &mut [u8], at: usize, a: &[u8; ACCOUNT])
    requires { at + line_length ≤ length text.old }
    ensures { text.new ≡ put_field (at + 92) (flat (measure_texts a.now)) text.old }
{
    put_column(text, at + columns::ENGINE.from, a, ENGINE);
    put_column(text, at + columns::CO2.from, a, CO2);
    put_column(text, at + columns::WEIGHT.from, a, WEIGHT);
}

// From Valid to to the line's end.
fn put_end(text: &mut [u8], at: usize, a: &[u8; ACCOUNT])
    requires { at + line_length ≤ length text.old }
    ensures { text.new ≡ put_field (at + 101) (flat (end_texts a.now)) text.old }
{
    put_column(text, at + columns::VALID_TO.from, a, VALID_TO);
    put_column(text, at + columns::SEPARATOR.from, a, SEPARATOR);
    writing::put_field(text, at + columns::FILLER.from, b"00000000000");
    writing::put_field(text, at + sizes::LINE, b"\n");
}

/// The line that this sender's account has, written from a position on.
#[tactic(auto, using(crate::proofs::Laws::line_written))]
pub fn put_line(text: &mut [u8], from: usize, sender: &[u8; SENDER], a: &[u8; ACCOUNT])
    requires { (1 ≤ from) × (from - 1 + line_length ≤ length text.old) }
    ensures { PutLine text.old from sender.now a.now text.new }
{
    let at = from - 1;
    put_keys(text, at, sender, a);
    put_tag(text, at, a);
    put_product(text, at, a);
    put_measures(text, at, a);
    put_end(text, at, a);
}
