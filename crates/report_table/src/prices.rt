//! The price of a row at a node.
use crate::table::Table;
use frac128::Frac;
use report_values::{Amount, are_of_ray};

/// The quotient of two numbers; none where the second one is 0.
fn quotient(a: Frac, b: Frac) -> Amount {
    if b.is_zero() {
        return Amount::Absent;
    }
    match a.div(b) {
        Ok(value) => Amount::Known(value),
        Err(_) => Amount::Passed,
    }
}

/// The quotient of two numbers, where both are known.
fn over(number: &Amount, chance: &Amount) -> Amount {
    match (number, chance) {
        (Amount::Known(a), Amount::Known(b)) => quotient(*a, *b),
        (Amount::Absent, _) | (_, Amount::Absent) => Amount::Absent,
        _ => Amount::Passed,
    }
}

/// What one more unit of a row is worth at a node once the node has come: its multiplier over the node's probability. Multipliers of a ray
/// are no prices.
pub fn row_price(table: &Table<'_>, node: u32, multiplier: Amount) -> Amount {
    if are_of_ray(table.report) {
        return Amount::Absent;
    }
    let chance = table.values.probability(node);
    over(&multiplier, &chance)
}
