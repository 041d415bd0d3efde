// What the multipliers of all rows are worth.
ghost use Rattle.std.specs.Prelude.{◌≡◌};
ghost use Rattle.scen_defs.specs.Values.{at};
ghost use Rattle.scen_defs.specs.Program.{content, view_of};
ghost use Rattle.scen_model.specs.Walks.{rows_from, all_rows};

use crate::ends::add_worth;
use crate::stop::Stop;
use frac128::Frac;
use scen_defs::{NodeRow, Program, Values};

/// The sum, and row by row the multiplier times the end that it uses.
fn add_rows(
    rows: &[NodeRow],
    values: &Values,
    node: u64,
    near: &mut usize,
    start: Frac,
) -> Result<Frac, Stop>
    ensures { result ≡ rows_from (at values.now node) start rows.now }
{
    let mut sum = start;
    for row in rows {
        let multiplier = values.get_near(node, row.row as u64, near);
        sum = add_worth(row.low, row.high, multiplier, sum)?;
    }
    Ok(sum)
}

/// The rows of all nodes.
pub(crate) fn add_all_rows(program: &Program, values: &Values) -> Result<Frac, Stop>
    ensures { result ≡ all_rows (view_of (content program.now)) (at values.now) }
{
    let mut sum = Frac::zero();
    let mut near = 0;
    for (place, slot) in program.nodes.iter().enumerate() {
        if let Some(node) = slot {
            sum = add_rows(&node.rows, values, place as u64, &mut near, sum)?;
        }
    }
    Ok(sum)
}
