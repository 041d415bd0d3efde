// The ends of a row by its right-hand side.
ghost use Rattle.std.specs.Prelude.{◌≡◌, ◌<◌, length, IfOk};
ghost use Rattle.scen_defs.specs.Valid.{row_at};
ghost use Rattle.edit_defs.specs.Intervals.{right_side, right_walk};

use frac128::{Frac, Passed};
use scen_defs::Row;
use smps_build::interval;

/// The low and the high end of a row of the program with this right-hand side, or the operation of theirs that passes.
pub fn right_ends(rows: &[Row], row: u32, rhs: Frac) -> Result<(Option<Frac>, Option<Frac>), Passed>
    requires { row < length rows.now }
    ensures walk { result ≡ right_walk (row_at rows.now row) rhs }
    ensures ends { IfOk result (λ ends. ends ≡ right_side (row_at rows.now row) rhs) }
{
    let found = &rows[row as usize];
    interval(found.kind, rhs, found.range)
}
