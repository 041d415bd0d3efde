//! Numbers of a table.
use frac128::{Frac, Passed};

/// A number of a table.
#[derive(Clone, Copy, Debug)]
pub enum Amount {
    /// The number.
    Known(Frac),
    /// There is none: a bound or an end that is none, or what a report has no list for.
    Absent,
    /// An operation of its sum passes 128 bits.
    Passed,
}

/// A column at a node.
#[derive(Clone, Copy, Debug)]
pub struct ColumnCells {
    /// The place of the column in `Program::columns`.
    pub column: u32,
    /// What it costs at the node, without the node's probability.
    pub cost: Frac,
    /// Its value in the policy.
    pub value: Amount,
    /// Its value in the direction.
    pub direction: Amount,
    pub lower: Amount,
    pub upper: Amount,
    pub reduced: Amount,
}

/// A row at a node.
#[derive(Clone, Copy, Debug)]
pub struct RowCells {
    /// The place of the row in `Program::rows`.
    pub row: u32,
    /// What its entries make of the policy.
    pub activity: Amount,
    pub low: Amount,
    pub high: Amount,
    /// How far the activity is from the nearer end.
    pub slack: Amount,
    pub multiplier: Amount,
}

impl Amount {
    /// An end or a bound.
    pub fn of_end(end: Option<Frac>) -> Amount {
        match end {
            Some(value) => Amount::Known(value),
            None => Amount::Absent,
        }
    }

    /// What an operation gave.
    pub(crate) fn of(outcome: Result<Frac, Passed>) -> Amount {
        match outcome {
            Ok(value) => Amount::Known(value),
            Err(_) => Amount::Passed,
        }
    }

    /// The number, where it is known.
    pub fn known(&self) -> Option<Frac> {
        match self {
            Amount::Known(value) => Some(*value),
            Amount::Absent | Amount::Passed => None,
        }
    }

    /// The sum of two numbers.
    pub fn plus(&self, other: &Amount) -> Amount {
        match (self, other) {
            (Amount::Known(a), Amount::Known(b)) => Amount::of(a.add(*b)),
            (Amount::Absent, _) | (_, Amount::Absent) => Amount::Absent,
            _ => Amount::Passed,
        }
    }

    /// The number less another one.
    pub fn less(&self, other: &Amount) -> Amount {
        match (self, other) {
            (Amount::Known(a), Amount::Known(b)) => Amount::of(a.sub(*b)),
            (Amount::Absent, _) | (_, Amount::Absent) => Amount::Absent,
            _ => Amount::Passed,
        }
    }

    /// The product of two numbers.
    pub fn times(&self, other: &Amount) -> Amount {
        match (self, other) {
            (Amount::Known(a), Amount::Known(b)) => Amount::of(a.mul(*b)),
            (Amount::Absent, _) | (_, Amount::Absent) => Amount::Absent,
            _ => Amount::Passed,
        }
    }

    /// The number and a product.
    pub(crate) fn plus_product(&self, a: Frac, b: Frac) -> Amount {
        match self {
            Amount::Known(sum) => Amount::of(sum.add_product(a, b)),
            Amount::Absent => Amount::Absent,
            Amount::Passed => Amount::Passed,
        }
    }

    /// The number less a product.
    pub(crate) fn less_product(&self, a: Frac, b: Frac) -> Amount {
        match self {
            Amount::Known(sum) => Amount::of(sum.less_product(a, b)),
            Amount::Absent => Amount::Absent,
            Amount::Passed => Amount::Passed,
        }
    }

    /// The smaller one of two numbers; an absent one is left out.
    pub(crate) fn least(&self, other: &Amount) -> Amount {
        match (self, other) {
            (Amount::Known(a), Amount::Known(b)) => Amount::Known(smaller(*a, *b)),
            (Amount::Absent, Amount::Absent) => Amount::Absent,
            (Amount::Known(a), Amount::Absent) | (Amount::Absent, Amount::Known(a)) => {
                Amount::Known(*a)
            }
            _ => Amount::Passed,
        }
    }
}

/// The smaller one of two numbers.
fn smaller(a: Frac, b: Frac) -> Frac {
    if b < a { b } else { a }
}
