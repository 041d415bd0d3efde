//! Four rows, worked by hand.
ghost use Rattle.std.specs.Prelude.{◌≡◌, ◌<◌, IfOk, length};
ghost use Rattle.lp_defs.specs.Program.{IsFormBelow};
ghost use Rattle.slack_form.specs.Limits.{IsLimits};

use frac128::{Form, Frac, Memory, parse, print};
use simplex_core::Standard;
use slack_form::{Limit, Limits, own_duals, standard};
use smps_words::RowKind;
use std::alloc::Global;
use std::process::Abort;
use std::test::Fail;

/// The equations of `limits`: the entries by column, and the right side.
const EQUATIONS: &str = " 2 0 1 0 0= 4; 0 -3 0 1 0= 5; 1 0 0 0 0= 6; 0 1 0 0 -1= 1;";

/// Multipliers of the equations, and of the rows.
const MULTIPLIERS: &str = "-3 -2 7 5= -3 2 -7 5";

/// A row with one entry over two columns.
fn limit(
    rt: &impl Abort,
    alloc: Global,
    column: u64,
    value: i64,
    kind: RowKind,
    right: i64,
) -> Result<Limit, Memory>
    requires { column < 2 }
    ensures { IfOk result (λ limit. IsFormBelow 2 limit.entries) }
{
    let value = Frac::from_int(value);
    assert!(rt; !value.is_zero());
    let mut entries = Form::empty(alloc);
    entries.push(column, value)?;
    Ok(Limit {
        entries,
        kind,
        right: Frac::from_int(right),
    })
}

/// 2 x is at most 4, 3 y at least -5, -x is -6, and y at least 1.
fn limits(rt: &impl Abort, alloc: Global) -> Result<Limits, Memory>
    ensures { IfOk result IsLimits }
{
    let mut rows = Vec::new(alloc);
    rows.push(limit(rt, alloc, 0, 2, RowKind::Less, 4)?)?;
    rows.push(limit(rt, alloc, 1, 3, RowKind::Greater, -5)?)?;
    rows.push(limit(rt, alloc, 0, -1, RowKind::Equal, -6)?)?;
    rows.push(limit(rt, alloc, 1, 1, RowKind::Greater, 1)?)?;
    Ok(Limits {
        columns: 2,
        rows,
        cost: Form::empty(alloc),
    })
}

/// Appends numbers, each behind a blank.
fn write_values(alloc: Global, values: &[Frac], out: &mut Vec<u8>) -> Result<(), Memory> {
    for value in values {
        out.extend_from_slice(b" ")?;
        print(alloc, *value, out)?;
    }
    Ok(())
}

/// Appends an equation.
fn write_equation(
    alloc: Global,
    form: &Form,
    right: Frac,
    columns: u64,
    out: &mut Vec<u8>,
) -> Result<(), Memory> {
    for column in 0..columns {
        write_values(alloc, &[form.get(column)], out)?;
    }
    out.extend_from_slice(b"=")?;
    write_values(alloc, &[right], out)?;
    out.extend_from_slice(b";")?;
    Ok(())
}

/// All equations.
fn text(alloc: Global, standard: &Standard) -> Result<Vec<u8>, Memory> {
    let mut out = Vec::new(alloc);
    for (form, right) in standard.rows().iter().zip(standard.right()) {
        write_equation(alloc, form, *right, standard.columns(), &mut out)?;
    }
    Ok(out)
}

/// The numbers of a text, with blanks between them.
fn numbers(alloc: Global, text: &str) -> Result<Vec<Frac>, Fail> {
    let mut all = Vec::new(alloc);
    for word in text.split(' ') {
        all.push(parse(word.as_bytes())?)?;
    }
    Ok(all)
}

/// The multipliers of the rows, from those of their equations.
fn own(rt: &impl Abort, alloc: Global, limits: &Limits, words: &str) -> Result<Vec<u8>, Fail> {
    let duals = numbers(alloc, words)?;
    assert_eq!(rt; duals.len(), limits.rows.len());
    let own = own_duals(alloc, limits, &duals)?;
    let mut out = Vec::new(alloc);
    write_values(alloc, &own, &mut out)?;
    Ok(out)
}

/// The equations are as stated.
fn has_equations(rt: &impl Abort, alloc: Global, limits: &Limits) -> Result<(), Fail>
    requires { IsLimits limits.now }
{
    let standard = standard(alloc, limits)?;
    let equations = text(alloc, &standard)?;
    assert_eq!(rt; equations.as_slice(), EQUATIONS.as_bytes());
    Ok(())
}

/// The multipliers of the rows are as stated.
fn has_multipliers(rt: &impl Abort, alloc: Global, limits: &Limits) -> Result<(), Fail> {
    let (words, expected) = MULTIPLIERS.split_once('=').ok_or("no multipliers")?;
    let own = own(rt, alloc, limits, words)?;
    assert_eq!(rt; own.as_slice(), expected.as_bytes());
    Ok(())
}

#[test]
fn four_rows(rt: HostRuntime) -> Result<(), Fail> {
    let limits = limits(&rt, rt.alloc())?;
    has_equations(&rt, rt.alloc(), &limits)?;
    has_multipliers(&rt, rt.alloc(), &limits)
}
