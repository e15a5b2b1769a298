//! The limits that L10 sets a line's weight by its tariff.
#![tactic(auto)]

ghost use Rattle.std.specs.Prelude.{◌≡◌};
ghost use Rattle.weights.specs.Weights.{◌from◌to◌, limits, meets, meets_each};
ghost use Rattle.weights.specs.Promises.{HoldsWeight};

// The code of a weight that is missing.
const MISSING: u64 = 0;

// The highest code of four digits: no limit above.
const HIGHEST: u64 = 9999;

// A limit asks something of its own tariff alone.
#[tactic(auto, unfolding(crate::specs::Weights::meets))]
fn meets(of: u64, least: u64, most: u64, tariff: u64, weight: u64) -> bool
    ensures { result ≡ meets (of from least to most) tariff weight }
{
    tariff != of || (least <= weight && weight <= most)
}

// Row by row, a tariff and the least and the most code that it allows.
#[tactic(auto, unfolding(crate::specs::Weights::limits, crate::specs::Weights::meets_each))]
fn meets_each(tariff: u64, weight: u64) -> bool
    ensures { result ≡ meets_each limits tariff weight }
{
    meets(12, 0, 349, tariff, weight)
        && meets(22, 0, 349, tariff, weight)
        && meets(31, 350, HIGHEST, tariff, weight)
        && meets(32, 350, HIGHEST, tariff, weight)
        && meets(41, 350, 1199, tariff, weight)
        && meets(51, 1200, HIGHEST, tariff, weight)
}

/// Does the tariff of the line allow its weight; a missing one meets every limit.
#[tactic(auto, unfolding(crate::specs::Weights::weight_holds, crate::specs::Weights::allows, crate::specs::Weights::missing), using(texts::specs::laws::Field::field_most))]
pub fn holds_weight(l: &[u8]) -> bool
    ensures { HoldsWeight l.now result }
{
    let tariff = numbers::number(columns::TARIFF.of(l));
    let weight = numbers::number(columns::WEIGHT.of(l));
    weight == MISSING || meets_each(tariff, weight)
}
