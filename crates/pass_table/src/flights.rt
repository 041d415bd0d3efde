//! The solves in flight.
ghost use Rattle.std.specs.Prelude.{◌↔◌, IsTrue};
ghost use Rattle.pass_table.specs.Fits.{IsUnderWay};

use crate::table::Underway;

/// Whether a worker has a solve of this run in flight.
pub fn is_under_way(flights: &[Option<Underway>], run: u64) -> bool
    ensures { IsTrue result ↔ IsUnderWay flights.now run }
{
    for flight in flights {
        if let Some(solve) = flight {
            if solve.run == run {
                return true;
            }
        }
    }
    false
}
