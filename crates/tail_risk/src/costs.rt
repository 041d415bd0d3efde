// The costs of a node.
ghost use Rattle.std.specs.Prelude.{◌≡◌, ◌++◌, [], IfOk, OnOk, MatchResult, Ok};
ghost use Rattle.rationals.specs.Choices.{pick};
ghost use Rattle.rationals.specs.Forms.{EndsBelow, put};
ghost use Rattle.frac128.specs.Faults.{FaultOf, IfNotMemory};
ghost use Rattle.scen_defs.specs.Program.{content};
ghost use Rattle.tail_risk.specs.TailProgram.{added_costs, last_stage};
ghost use Rattle.tail_risk.specs.TailRow.{h_column};
ghost use Rattle.tail_risk.specs.TailWalk.{scaled_form_walk};

use crate::rates::Rates;
use frac128::{ArithmeticFault, Form, Frac, Memory, Term};
use scen_defs::Program;
use std::alloc::Global;

/// Pushes a value, unless it is 0.
fn push_nonzero(all: &mut Vec<Term>, column: u64, value: Frac) -> Result<(), Memory>
    ensures { OnOk result (all.new.items ≡ all.old.items ++ put column value []) }
{
    if !value.is_zero() {
        all.push(Term { column, value })?;
    }
    Ok(())
}

/// Terms times a number.
fn scaled_terms(alloc: Global, factor: Frac, terms: &[Term]) -> Result<Vec<Term>, ArithmeticFault>
    ensures { MatchResult result (λ all. scaled_form_walk factor terms.now ≡ Ok all.items) (FaultOf (scaled_form_walk factor terms.now)) }
{
    let mut all = Vec::with_capacity(alloc, terms.len())?;
    for term in terms {
        let value = term.value.mul(factor)?;
        push_nonzero(&mut all, term.column, value)?;
    }
    Ok(all)
}

/// A form times a number.
pub(crate) fn scaled_form(alloc: Global, factor: Frac, form: &Form) -> Result<Form, ArithmeticFault>
    ensures { IfNotMemory result (scaled_form_walk factor form.now) }
{
    form.keeps_order();
    let terms = scaled_terms(alloc, factor, form.terms())?;
    Ok(Form::from_terms(alloc, terms))
}

/// A form with a cost behind it, unless that is 0.
fn with_nonzero(form: Form, column: u64, cost: Frac) -> Result<Form, Memory>
    requires { EndsBelow column form }
    ensures { IfOk result (λ all. all ≡ form ++ put column cost []) }
{
    if cost.is_zero() {
        return Ok(form);
    }
    let mut all = form;
    all.push(column, cost)?;
    Ok(all)
}

/// A form with a cost behind it, where there is one.
fn with_cost(form: Form, is_there: bool, column: u64, cost: Frac) -> Result<Form, Memory>
    requires { EndsBelow column form }
    ensures { IfOk result (λ all. all ≡ form ++ pick is_there (put column cost []) []) }
{
    if is_there {
        with_nonzero(form, column, cost)
    } else {
        Ok(form)
    }
}

/// The last stage.
pub(crate) fn last_stage(program: &Program) -> usize
    ensures { result ≡ last_stage (content program.now) }
{
    program.periods.len().saturating_sub(1)
}

/// The costs of a node of a stage, with those of the columns that are added.
#[tactic(auto, using(crate::proofs::Steps::ends_behind, crate::proofs::Steps::costs_joined))]
pub(crate) fn with_added_costs(
    program: &Program,
    rates: &Rates,
    stage: u32,
    costs: Form,
) -> Result<Form, Memory>
    requires { EndsBelow (h_column (content program.now)) costs }
    ensures { IfOk result (λ all. all ≡ costs ++ added_costs (content program.now) rates.now stage) }
{
    let behind = program.columns.len() as u64;
    let first = with_cost(costs, 0 == stage, behind, rates.h)?;
    with_cost(
        first,
        last_stage(program) == stage as usize,
        behind + 1,
        rates.u,
    )
}
