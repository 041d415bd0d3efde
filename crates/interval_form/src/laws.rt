//! What rows of three kinds mean.
ghost use Rattle.interval_form.specs.Laws.{PlainLaws, RowLaws};

/// The rows that are made of own rows at a trial, and of bounds, are those of the definitions.
pub fn rows_mean()
    ensures { RowLaws }
{}

/// An optimum of the standard form makes a point and multipliers of equal value; an infeasible end makes
/// multipliers that exclude every point; an unbounded end makes a point and a direction in which the cost falls.
pub fn plain_ends_mean()
    ensures { PlainLaws }
{}
