//! The multipliers of x = 1 and x = 2, which no point meets, and others that show nothing.
use farkas_ray::is_ray;
use frac128::{Form, Frac, Memory, parse};
use simplex_core::Standard;
use std::alloc::Global;
use std::process::Abort;
use std::test::Fail;

/// Multipliers of the two rows, and what `is_ray` finds.
const MULTIPLIERS: &str = "\
-1 1=shows
1 1=none
1 -1=none
-2 1=none
0 0=none
-170141183460469231731687303715884105727 170141183460469231731687303715884105727=shows
170141183460469231731687303715884105727 170141183460469231731687303715884105727=passes
-85070591730234615865843651857942052863 170141183460469231731687303715884105727=passes
";

/// The form with one value.
fn single(rt: &impl Abort, alloc: Global, value: Frac) -> Result<Form, Memory> {
    assert!(rt; !value.is_zero());
    let mut form = Form::empty(alloc);
    form.push(0, value)?;
    Ok(form)
}

/// x = 1 and x = 2.
fn program(rt: &impl Abort, alloc: Global) -> Result<Option<Standard>, Memory> {
    let mut rows = Vec::new(alloc);
    let mut right = Vec::new(alloc);
    for end in 1..3 {
        rows.push(single(rt, alloc, Frac::one())?)?;
        right.push(Frac::from_int(end))?;
    }
    Ok(Standard::checked(1, rows, right, Form::empty(alloc)))
}

/// What `is_ray` finds.
fn found(rt: &impl Abort, program: &Standard, duals: &[Frac]) -> &'static str {
    assert_eq!(rt; duals.len(), program.rows().len());
    match is_ray(program, duals) {
        Ok(true) => "shows",
        Ok(false) => "none",
        Err(_passed) => "passes",
    }
}

/// A row of the table holds.
fn is_found(rt: &impl Abort, program: &Standard, row: &str) -> Result<(), Fail> {
    let (words, expected) = row.split_once('=').ok_or("no answer")?;
    let (first, second) = words.split_once(' ').ok_or("one multiplier")?;
    let duals = [parse(first.as_bytes())?, parse(second.as_bytes())?];
    assert_eq!(rt; found(rt, program, &duals), expected, "{row}");
    Ok(())
}

#[test]
fn multipliers(rt: HostRuntime) -> Result<(), Fail> {
    let program = program(&rt, rt.alloc())?.ok_or("no program")?;
    for row in MULTIPLIERS.lines() {
        is_found(&rt, &program, row)?;
    }
    Ok(())
}
