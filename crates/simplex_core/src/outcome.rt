//! What a solve tells.
use frac128::{Form, Frac, Passed};

/// How the path of the simplex method ends.
#[derive(Drop)]
pub enum Outcome {
    /// A point of least cost, and a dual for each row.
    Optimal { point: Form, duals: Vec<Frac> },
    /// No point meets all rows: a multiplier for each row that shows it.
    Infeasible { duals: Vec<Frac> },
    /// A point, and a direction in which the cost falls without end.
    Unbounded { point: Form, ray: Form },
    /// The path has more pivots than were allowed.
    PivotsEnded,
    /// The first operation that passes 128 bits, and the number of the pivot in which it stands; 0 is
    /// before the first pivot.
    Passed(u64, Passed),
}
