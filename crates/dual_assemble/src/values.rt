// Forms by node as numbers at nodes.
ghost use Rattle.std.specs.Prelude.{◌≡◌, ◌≢◌, ℕ, ◌+◌, ◌<◌, ◌^◌, ◌++◌, [], IfOk, OnOk, Ok, MatchResult, map};
ghost use Rattle.rationals.specs.Forms.{IsForm};
ghost use Rattle.rationals.specs.Rational.{zero_ℚ};
ghost use Rattle.rationals.specs.Sparse.{coefficient};
ghost use Rattle.frac128.specs.Faults.{FaultOf};
ghost use Rattle.scen_defs.specs.Lists.{Each};
ghost use Rattle.scen_defs.specs.Values.{EndsBefore, at};
ghost use Rattle.cut_defs.specs.Current.{stored_flat};
ghost use Rattle.dual_assemble.specs.Walks.{form_at};
ghost use Rattle.dual_assemble.specs.Values.{is_place, number_at, node_values, numbers_by_node, assembled, point_entries};

use crate::flat::flat_forms;
use cut_proof::Cut;
use frac128::{ArithmeticFault, Form, Frac, Memory};
use scen_defs::Values;
use std::alloc::Global;

/// Whether a place and a column have 32 bits.
fn is_place(place: usize, column: u64) -> bool
    ensures { result ≡ is_place place column }
{
    (place as u64) < 4294967296 && column < 4294967296
}

/// Pushes a number; nothing where the place or the column has more than 32 bits.
fn push_at(values: &mut Values, place: usize, column: u64, value: Frac) -> Result<(), Memory>
    requires rises { EndsBefore values.old place column }
    requires nonzero { value ≢ zero_ℚ }
    ensures { OnOk result (values.new ≡ values.old ++ number_at place column value) }
{
    if is_place(place, column) {
        values.push(place as u32, column as u32, value)?;
    }
    Ok(())
}

/// Pushes the numbers of a form at a node.
fn push_form(values: &mut Values, place: usize, form: &Form) -> Result<(), Memory>
    requires { EndsBefore values.old place 0 }
    ensures numbers { OnOk result (values.new ≡ values.old ++ node_values place form.now) }
    ensures ends { OnOk result (EndsBefore values.new (place + 1) 0) }
    ensures form { IsForm form.now }
{
    form.keeps_order();
    for term in form.terms() {
        push_at(values, place, term.column, term.value)?;
    }
    Ok(())
}

/// The numbers of forms by node.
fn values_of(alloc: Global, forms: &[Form]) -> Result<Values, Memory>
    ensures values { IfOk result (λ v. v ≡ numbers_by_node 0 forms.now) }
    ensures forms { IfOk result (λ _. Each IsForm forms.now) }
{
    let mut values = Values::empty(alloc);
    for (place, form) in forms.iter().enumerate() {
        push_form(&mut values, place, form)?;
    }
    Ok(values)
}

/// The flat dual of a cut by node and row: the multipliers of all records below it, each times the weights on the
/// way down. `Passed` names the first operation that passes. A multiplier at a place above 32 bits, where no row is,
/// is left out.
pub fn assemble(alloc: Global, cut: &Cut) -> Result<Values, ArithmeticFault>
    ensures numbers { IfOk result (λ v. (n i : ℕ) → n < 2 ^ 32 → i < 2 ^ 32 → at v n i ≡ stored_flat cut.now n i) }
    ensures walk { MatchResult result (λ v. assembled cut.now ≡ Ok v) (FaultOf (assembled cut.now)) }
{
    let forms = flat_forms(alloc, cut)?;
    let values = values_of(alloc, &forms)?;
    Ok(values)
}

/// Pushes the numbers of a point, where there is one.
fn push_point(values: &mut Values, place: usize, point: &Option<Form>) -> Result<(), Memory>
    requires { EndsBefore values.old place 0 }
    ensures numbers { OnOk result (values.new ≡ values.old ++ node_values place (point_entries point.now)) }
    ensures ends { OnOk result (EndsBefore values.new (place + 1) 0) }
    ensures form { IsForm (point_entries point.now) }
{
    match point {
        None => Ok(()),
        Some(form) => push_form(values, place, form),
    }
}

/// The numbers of points by node.
fn points_of(alloc: Global, points: &[Option<Form>]) -> Result<Values, Memory>
    ensures values { IfOk result (λ v. v ≡ numbers_by_node 0 (map point_entries points.now)) }
    ensures forms { IfOk result (λ _. Each IsForm (map point_entries points.now)) }
{
    let mut values = Values::empty(alloc);
    for (place, point) in points.iter().enumerate() {
        push_point(&mut values, place, point)?;
    }
    Ok(values)
}

/// The points of all nodes by node and column. The place of a point is its node's number; a node without a point has
/// no numbers. A number at a node or a column above 32 bits is left out.
pub fn join_policy(alloc: Global, points: &[Option<Form>]) -> Result<Values, Memory>
    ensures numbers { IfOk result (λ v. (n j : ℕ) → n < 2 ^ 32 → j < 2 ^ 32 → at v n j ≡
        coefficient (form_at (map point_entries points.now) n) j) }
    ensures values { IfOk result (λ v. v ≡ numbers_by_node 0 (map point_entries points.now)) }
{
    let values = points_of(alloc, points)?;
    Ok(values)
}
