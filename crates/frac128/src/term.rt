// A term of a sparse form.
use crate::fraction::Frac;
use std::marker::Model;

/// The value of one column of a sparse form.
#[derive(Clone, Copy, Debug)]
pub struct Term {
    /// The number of the column.
    pub column: u64,
    /// What stands there.
    pub value: Frac,
}

impl Model for Term {
    ghost use Rattle.rationals.specs.Sparse.{Entry};

    ghost Value = { Entry };

    ghost view = { λ t. record { column = t.column; value = t.value } };

    ghost inverse = { λ t. record { column = t.column; value = t.value } };
}
