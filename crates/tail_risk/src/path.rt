// The costs along the path of a node.
ghost use Rattle.std.specs.Prelude.{◌≡◌, IfOk};
ghost use Rattle.scen_defs.specs.Program.{content, node_at};
ghost use Rattle.scen_defs.specs.Valid.{Lives};
ghost use Rattle.tail_risk.specs.TailRow.{merged, path_costs};
ghost use Rattle.tail_risk.specs.Paths.{HaveNoCommonColumn};

use frac128::{Form, Memory, Term};
use scen_defs::Program;
use scen_nodes::{find, parent, stage};
use std::alloc::Global;

/// The terms of both, by column.
fn merged_terms(alloc: Global, xs: &[Term], ys: &[Term]) -> Result<Vec<Term>, Memory>
    ensures { IfOk result (λ all. all.items ≡ merged xs.now ys.now) }
{
    let mut all = Vec::with_capacity(alloc, xs.len() + ys.len())?;
    let mut i = 0;
    let mut j = 0;
    'both: while i < xs.len() && j < ys.len() {
        let x = xs[i];
        let y = ys[j];
        if x.column < y.column {
            all.push(x)?;
            i += 1;
        } else {
            all.push(y)?;
            j += 1;
        }
    }
    all.extend_from_slice(&xs[i..])?;
    all.extend_from_slice(&ys[j..])?;
    Ok(all)
}

/// The entries of both, which have no column in common.
fn merged_form(alloc: Global, one: &Form, other: &Form) -> Result<Form, Memory>
    requires { HaveNoCommonColumn one.now other.now }
    ensures { IfOk result (λ form. form ≡ merged one.now other.now) }
{
    one.keeps_order();
    other.keeps_order();
    let terms = merged_terms(alloc, one.terms(), other.terms())?;
    Ok(Form::from_terms(alloc, terms))
}

/// A form and the costs of a node.
fn with_costs(alloc: Global, program: &Program, form: &Form, node: u64) -> Result<Form, Memory>
    requires { HaveNoCommonColumn (node_at (content program.now).nodes node).cost form.now }
    ensures { IfOk result (λ all. all ≡ merged (node_at (content program.now).nodes node).cost form.now) }
{
    match find(&program.nodes, node) {
        Some(found) => merged_form(alloc, &found.cost, form),
        None => form.copy(alloc),
    }
}

/// The costs of a live node and of all nodes above it.
pub(crate) fn path_costs(alloc: Global, program: &Program, node: u64) -> Result<Form, Memory>
    requires { Lives (content program.now) node }
    ensures { IfOk result (λ form. form ≡ path_costs (content program.now).nodes node) }
{
    let mut form = Form::empty(alloc);
    let mut at = node;
    let count = stage(program, node) as u64 + 1;
    for _up in 0..count {
        form = with_costs(alloc, program, &form, at)?;
        at = parent(program, at);
    }
    Ok(form)
}
