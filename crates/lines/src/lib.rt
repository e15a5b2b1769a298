//! The rules of a line (L1 to L10) and of a record. A line comes as a part of the lent body, or of the register; one of
//! any length is judged.
#![tactic(auto)]

ghost use Rattle.std.specs.Prelude.{◌≡◌};
ghost use Rattle.rules.specs.Numbers.{verdict_number};
ghost use Rattle.lines.specs.Rules.{nationality_blank, L1, L2, L5, L6, L7, L8, L9, L10};
ghost use Rattle.lines.specs.Promises.{LineFault, IsRecord};

use rules::{Reason, require};

#[tactic(auto, unfolding(crate::specs::Rules::L1))]
fn holds_l1(l: &[u8]) -> bool
    ensures { result ≡ L1 l.now }
{
    pans::is_pan(columns::PAN.of(l))
}

#[tactic(auto, unfolding(crate::specs::Rules::L2))]
fn holds_l2(l: &[u8], sender: &[u8]) -> bool
    ensures { result ≡ L2 sender.now l.now }
{
    texts::same(columns::ACTOR.of(l), sender)
}

#[tactic(auto, unfolding(crate::specs::Rules::L5))]
fn holds_l5(l: &[u8]) -> bool
    ensures { result ≡ L5 l.now }
{
    pans::is_luhn(columns::PAN.of(l))
}

#[tactic(auto, unfolding(crate::specs::Rules::L6))]
fn holds_l6(l: &[u8]) -> bool
    ensures { result ≡ L6 l.now }
{
    plates::is_plate(columns::PLATE.of(l))
}

#[tactic(auto, unfolding(crate::specs::Rules::nationality_blank))]
fn is_nationality_blank(l: &[u8]) -> bool
    ensures { result ≡ nationality_blank l.now }
{
    fields::is_blanks(columns::NATIONALITY.of(l), 3)
}

#[tactic(auto, unfolding(crate::specs::Rules::L7))]
fn holds_l7(l: &[u8]) -> bool
    ensures { result ≡ L7 l.now }
{
    plates::is_nationality(columns::NATIONALITY.of(l))
}

#[tactic(auto, unfolding(crate::specs::Rules::L8))]
fn holds_l8(l: &[u8]) -> bool
    ensures { result ≡ L8 l.now }
{
    characters::is_hex(columns::CONTEXT_MARK.of(l), 12)
}

#[tactic(auto, unfolding(crate::specs::Rules::L9))]
fn holds_l9(l: &[u8]) -> bool
    ensures { result ≡ L9 l.now }
{
    characters::is_hex(columns::OBE_ID.of(l), 18)
}

#[tactic(auto, unfolding(crate::specs::Rules::L10))]
fn holds_l10(l: &[u8]) -> bool
    ensures { result ≡ L10 l.now }
{
    vehicles::holds_vehicle(l) && weights::holds_weight(l)
}

/// The first of L1 to L10 that a line of this sender breaks gives its reason. A nationality that is all blank has a
/// reason of its own, in front of L7.
#[tactic(auto, unfolding(crate::specs::Rules::line_fault, crate::specs::Rules::line_rules, crate::specs::Rules::rules_by, crate::specs::Rules::L3, crate::specs::Rules::L4, issuers::specs::Rows::issued_of, theory::specs::First::first, theory::specs::First::choose))]
pub fn line_fault(l: &[u8], sender: &[u8], rows: &[u8]) -> Result<(), Reason>
    ensures { LineFault l.now sender.now rows.now (verdict_number result) }
{
    require(holds_l1(l), Reason::Digits)?;
    require(holds_l2(l, sender), Reason::Range)?;
    let issued = issuers::issued_to(rows, sender, columns::PAN.of(l));
    require(issued.begins, Reason::Range)?;
    require(issued.fits, Reason::Digits)?;
    require(holds_l5(l), Reason::Luhn)?;
    require(holds_l6(l), Reason::Plate)?;
    require(!is_nationality_blank(l), Reason::NationalityMissing)?;
    require(holds_l7(l), Reason::Plate)?;
    require(holds_l8(l), Reason::ContextMark)?;
    require(holds_l9(l), Reason::Obe)?;
    require(holds_l10(l), Reason::Miscellaneous)
}

/// Do a six-digit actor, and L1, L5 to L10 hold, but for the limits of weight: a record is not judged by them.
#[tactic(auto, unfolding(crate::specs::Rules::record_holds))]
pub fn is_record(l: &[u8]) -> bool
    ensures { IsRecord l.now result }
{
    fields::is_digits(columns::ACTOR.of(l), 6)
        && holds_l1(l)
        && holds_l5(l)
        && holds_l6(l)
        && holds_l7(l)
        && holds_l8(l)
        && holds_l9(l)
        && vehicles::holds_vehicle(l)
}
