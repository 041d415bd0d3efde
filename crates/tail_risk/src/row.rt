// The row TAIL_R at a node of the last stage.
ghost use Rattle.std.specs.Prelude.{◌≡◌, IfOk};
ghost use Rattle.scen_defs.specs.Program.{content};
ghost use Rattle.scen_defs.specs.Valid.{Lives};
ghost use Rattle.tail_risk.specs.TailRow.{tail_row, with_other_signs};

use crate::path::path_costs;
use frac128::{Form, Frac, Memory, Term};
use scen_defs::{NodeRow, Program};
use std::alloc::Global;

/// Terms with the other signs.
fn turned_terms(alloc: Global, terms: &[Term]) -> Result<Vec<Term>, Memory>
    ensures { IfOk result (λ all. all.items ≡ with_other_signs terms.now) }
{
    let mut all = Vec::with_capacity(alloc, terms.len())?;
    for term in terms {
        all.push(Term {
            column: term.column,
            value: term.value.neg(),
        })?;
    }
    Ok(all)
}

/// A form with the other signs.
fn with_other_signs(alloc: Global, form: &Form) -> Result<Form, Memory>
    ensures { IfOk result (λ turned. turned ≡ with_other_signs form.now) }
{
    form.keeps_order();
    let terms = turned_terms(alloc, form.terms())?;
    Ok(Form::from_terms(alloc, terms))
}

/// The row TAIL_R at a live node.
pub(crate) fn tail_row(alloc: Global, program: &Program, node: u64) -> Result<NodeRow, Memory>
    requires { Lives (content program.now) node }
    ensures { IfOk result (λ row. row ≡ tail_row (content program.now) node) }
{
    let costs = path_costs(alloc, program, node)?;
    let mut entries = with_other_signs(alloc, &costs)?;
    let behind = program.columns.len() as u64;
    entries.push(behind, Frac::one())?;
    entries.push(behind + 1, Frac::one())?;
    Ok(NodeRow {
        row: program.rows.len() as u32,
        entries,
        low: Some(Frac::zero()),
        high: None,
    })
}
