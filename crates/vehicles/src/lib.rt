//! What L10 asks of a line's fields: what it says of the vehicle, its end and its separators. A weight is four digits here; its
//! limits stand in `weights`.
#![tactic(auto)]

ghost use Rattle.std.specs.Prelude.{◌≡◌, ◌||◌};
ghost use Rattle.theory.specs.Every.{run};
ghost use Rattle.fields.specs.Field.{digit, blank};
ghost use Rattle.vehicles.specs.Vehicle.{tariff_holds, class_holds, emission_holds, product_holds, engine_holds, valid_to_holds, separator_holds, fields_hold};
ghost use Rattle.vehicles.specs.Promises.{HoldsVehicle};

#[tactic(auto, unfolding(crate::specs::Vehicle::tariff_holds))]
fn has_tariff(l: &[u8]) -> bool
    ensures { result ≡ tariff_holds l.now }
{
    texts::listed(columns::TARIFF.of(l), 2, b"1222313241516371")
}

fn is_digit_or_blank(f: &[u8]) -> bool
    ensures { result ≡ run digit 1 f.now || run blank 1 f.now }
{
    fields::is_digits(f, 1) || fields::is_blanks(f, 1)
}

#[tactic(auto, unfolding(crate::specs::Vehicle::class_holds))]
fn has_class(l: &[u8]) -> bool
    ensures { result ≡ class_holds l.now }
{
    is_digit_or_blank(columns::CLASS.of(l)) && is_digit_or_blank(columns::AXLES.of(l))
}

#[tactic(auto, unfolding(crate::specs::Vehicle::emission_holds))]
fn has_emission(l: &[u8]) -> bool
    ensures { result ≡ emission_holds l.now }
{
    texts::listed(
        columns::EMISSION.of(l),
        6,
        b"0     EEV   Euro1 Euro2 Euro3 Euro4 Euro5 Euro6 Euro7 ",
    )
}

#[tactic(auto, unfolding(crate::specs::Vehicle::product_holds))]
fn has_product(l: &[u8]) -> bool
    ensures { result ≡ product_holds l.now }
{
    texts::listed(columns::FUEL.of(l), 2, b"01020304050609101112131415202122")
        && texts::listed(columns::CHARGEABLE.of(l), 1, b"YN")
        && fields::is_blanks(columns::PRODUCT_REST.of(l), 3)
}

#[tactic(auto, unfolding(crate::specs::Vehicle::engine_holds), using(texts::specs::laws::Field::field_most))]
fn has_engine(l: &[u8]) -> bool
    ensures { result ≡ engine_holds l.now }
{
    let engine = columns::ENGINE.of(l);
    let n = numbers::number(engine);
    fields::is_digits(engine, 3) && (n <= 52 || n == 255)
}

#[tactic(auto, unfolding(crate::specs::Vehicle::valid_to_holds))]
fn has_valid_to(l: &[u8]) -> bool
    ensures { result ≡ valid_to_holds l.now }
{
    let valid_to = columns::VALID_TO.of(l);
    fields::is_zeros(valid_to, sizes::TIME) || times::is_real_time(valid_to)
}

#[tactic(auto, unfolding(crate::specs::Vehicle::separator_holds))]
fn has_separator(l: &[u8]) -> bool
    ensures { result ≡ separator_holds l.now }
{
    let plate = columns::PLATE.of(l);
    plates::is_separator(columns::SEPARATOR.of(l), plates::plate_characters(plate))
}

#[tactic(auto, unfolding(crate::specs::Vehicle::fields_hold))]
fn has_fields(l: &[u8]) -> bool
    ensures { result ≡ fields_hold l.now }
{
    fields::is_blanks(columns::SHADOW.of(l), 6)
        && has_tariff(l)
        && has_class(l)
        && has_product(l)
        && has_engine(l)
        && fields::is_digits(columns::CO2.of(l), 2)
        && fields::is_digits(columns::WEIGHT.of(l), 4)
        && has_valid_to(l)
        && has_separator(l)
        && fields::is_zeros(columns::FILLER.of(l), 11)
}

/// What L10 asks of the fields: of the weight that it has four digits, and not its limits.
#[tactic(auto, unfolding(crate::specs::Vehicle::vehicle_holds))]
pub fn holds_vehicle(l: &[u8]) -> bool
    ensures { HoldsVehicle l.now result }
{
    has_emission(l) && has_fields(l)
}
