//! Small programs with their outcomes, worked by hand, and two of twelve rows, worked by another exact solver
//! (greatest reduced cost first, on a full table of Python's integers): of their path no number is kept that
//! doesn't fit, but products are on the way that don't. The table is a text, since each member of an array is a
//! step of the proof.
use frac128::{Form, Frac, Memory, Passed, parse, print};
use rationals::Op;
use simplex_core::{Outcome, Standard, solve};
use std::alloc::Global;
use std::process::Abort;
use std::test::Fail;

/// The rows with their right sides, the costs, the pivots that are allowed, and the outcome: by column the
/// point and the ray, by row the duals.
const PROGRAMS: &str = "\
1 1 1 0=4;1 3 0 1=6|-3 -2 0 0|100|optimal 4 0 0 2; -3 0
1 1 1 0=4;1 3 0 1=6|-3 -2 0 0|2|pivots ended
1 1 1 0=4;1 3 0 1=6|-3 -2 0 0|3|optimal 4 0 0 2; -3 0
-1 1=0|-1 0|100|unbounded 0 0; 1 1
1 -1=1|0 -1|100|unbounded 1 0; 1 1
1=1;1=2|0|100|infeasible -1 1
1 1=2;1 1=2|1 3|100|optimal 2 0; 1 0
1 1=1;1 -1=1|0 5|100|optimal 1 0; 5/2 -5/2
1 1=1;1 -1=1|0 5|2|optimal 1 0; 5/2 -5/2
1 1=1;1 -1=1|0 5|1|pivots ended
1 1=1;1 -1=1|0 5|0|pivots ended
1 1 1=1|-1 -2 0|1|pivots ended
1 1 1=1|-1 -2 0|2|optimal 0 1 0; -2
1 0 0 1/4 -8 -1 9=0;0 1 0 1/2 -12 -1/2 3=0;0 0 1 0 0 1 0=1|0 0 0 -3/4 20 -1/2 6|100|optimal 3/4 0 0 1 0 1 0; 0 -3/2 \
    -5/4
1 0 0 1/4 -8 -1 9=0;0 0 1 0 0 1 0=1;0 1 0 1/2 -12 -1/2 3=0|0 0 0 -3/4 20 -1/2 6|100|optimal 3/4 0 0 1 0 1 0; 0 -5/4 \
    -3/2
0 1 0 1/2 -12 -1/2 3=0;1 0 0 1/4 -8 -1 9=0;0 0 1 0 0 1 0=1|0 0 0 -3/4 20 -1/2 6|100|optimal 3/4 0 0 1 0 1 0; -3/2 0 \
    -5/4
0 1 0 1/2 -12 -1/2 3=0;0 0 1 0 0 1 0=1;1 0 0 1/4 -8 -1 9=0|0 0 0 -3/4 20 -1/2 6|100|optimal 3/4 0 0 1 0 1 0; -3/2 \
    -5/4 0
0 0 1 0 0 1 0=1;1 0 0 1/4 -8 -1 9=0;0 1 0 1/2 -12 -1/2 3=0|0 0 0 -3/4 20 -1/2 6|100|optimal 3/4 0 0 1 0 1 0; -5/4 0 \
    -3/2
0 0 1 0 0 1 0=1;0 1 0 1/2 -12 -1/2 3=0;1 0 0 1/4 -8 -1 9=0|0 0 0 -3/4 20 -1/2 6|100|optimal 3/4 0 0 1 0 1 0; -5/4 \
    -3/2 0
1 0 0 1/4 -8 -1 9=0;1 0 0 1/4 -8 -1 9=0;0 1 0 1/2 -12 -1/2 3=0;0 1 0 1/2 -12 -1/2 3=0;0 0 1 0 0 1 0=1;0 0 1 0 0 1 \
    0=1|0 0 0 -3/4 20 -1/2 6|100|optimal 3/4 0 0 1 0 1 0; 0 0 -3/2 0 -5/4 0
|1|100|optimal 0;
|-1|100|unbounded 0; 1
0=0|1|100|optimal 0; 0
0=1|1|100|infeasible 1
170141183460469231731687303715884105727=0;170141183460469231731687303715884105727=0|0|100|passed 0 Sub \
    -170141183460469231731687303715884105727 170141183460469231731687303715884105727
1/2=170141183460469231731687303715884105727|0|100|passed 1 Div 170141183460469231731687303715884105727 1/2
1/2=170141183460469231731687303715884105727|0|0|pivots ended
1 170141183460469231731687303715884105727=1|2 0|100|passed 1 Mul 2 170141183460469231731687303715884105727
1=-1|0|100|not a program
1.25 0.25 1.28 0.80 1.24 0.19 3.64 2.10 4.97 1 0 0 0 0 0 0 0 0 0 0 0=82.17;3.61 2.30 0.96 0.23 3.82 4.08 4.87 1.94 \
    1.34 0 1 0 0 0 0 0 0 0 0 0 0=53.07;0.57 4.59 0 0 0.50 2.72 3.61 3.75 3.58 0 0 1 0 0 0 0 0 0 0 0 0=26.85;3.97 1.77 \
    3.31 2.83 0 2.53 4.34 1.51 3.24 0 0 0 1 0 0 0 0 0 0 0 0=60.60;2.30 0.11 4.83 3.10 3.63 0.44 1.12 4.19 2.04 0 0 0 0 1 \
    0 0 0 0 0 0 0=85.16;4.25 1.31 0 4.72 2.93 3.95 4.11 0.42 3.18 0 0 0 0 0 1 0 0 0 0 0 0=73.89;4.83 2.94 4.86 0.15 2.49 \
    0 0.46 1.77 0 0 0 0 0 0 0 1 0 0 0 0 0=81.02;1.85 0.70 0.71 0 1.23 0 4.02 0.31 1.31 0 0 0 0 0 0 0 1 0 0 0 0=96.81;0 \
    1.86 2.52 3.10 2.73 3.71 4.64 3.23 0.13 0 0 0 0 0 0 0 0 1 0 0 0=65.26;4.39 4.76 2 1.20 0.24 4 0.47 3.20 1.60 0 0 0 0 \
    0 0 0 0 0 1 0 0=36.11;2.59 0.91 0 2.39 3.70 4.89 1.64 1.66 3.81 0 0 0 0 0 0 0 0 0 0 1 0=73.67;1.33 4.95 0.81 0.37 \
    3.60 0.23 2.59 1.09 1.54 0 0 0 0 0 0 0 0 0 0 0 1=95.58|-8.06 -6.84 -6.96 -9.08 -7.24 -5.43 -8.89 -2.17 -5.96 0 0 0 0 \
    0 0 0 0 0 0 0 0|100|optimal 4290833528433741800/5346023378207464873 6177157501887832220/5346023378207464873 \
    31350312980617398054/5346023378207464873 34626009439499118260/5346023378207464873 \
    38952734856385490914/5346023378207464873 0 9164265725516209861/5346023378207464873 0 \
    16810735464439046388/5346023378207464873 19933702781344461601653/534602337820746487300 0 0 0 0 0 \
    1354849505766208531963/53460233782074648730 37625347320075794861907/534602337820746487300 0 0 \
    7114749066879405867819/534602337820746487300 24662997292768219803049/534602337820746487300; 0 \
    -64328653794693541/5346023378207464873 -1224510888367346083/5346023378207464873 \
    -249188290340951161/5346023378207464873 -3845241786728780015/5346023378207464873 \
    -3930475175056054649/5346023378207464873 0 0 -4219307164175577718/5346023378207464873 \
    -3558291040015019026/5346023378207464873 0 0
2.22 4.05 0.65 0.71 0 1.83 2.36 2.41 3.56 1 0 0 0 0 0 0 0 0 0 0 0=24.83;4.05 0.61 1.92 1.59 0 0.66 3.37 3.16 4.06 0 1 \
    0 0 0 0 0 0 0 0 0 0=34.05;0.12 1.49 0 0.70 3.95 0.44 4.53 2.74 1.34 0 0 1 0 0 0 0 0 0 0 0 0=31.99;4.27 2.27 4.06 4.52 \
    0.72 2.17 0 1.75 0 0 0 0 1 0 0 0 0 0 0 0 0=52.26;1.48 1.57 2.75 3.99 2.70 4.97 2.53 0.13 4.06 0 0 0 0 1 0 0 0 0 0 0 \
    0=38.15;1.58 2.61 0.24 3.28 4.89 4.09 3.67 0.77 0.36 0 0 0 0 0 1 0 0 0 0 0 0=28.10;0.16 3.13 2.17 0 1.17 2.76 0.31 \
    3.23 4.87 0 0 0 0 0 0 1 0 0 0 0 0=45.64;1.02 0.40 3.03 4.02 2.40 3.67 2.88 4.56 0 0 0 0 0 0 0 0 1 0 0 0 0=56.04;3.30 \
    4.28 3.05 2.65 4.64 4.54 0 4.45 4.88 0 0 0 0 0 0 0 0 1 0 0 0=47.80;0.12 0.25 1.41 0 2.23 2.52 1.94 4.73 4.01 0 0 0 0 \
    0 0 0 0 0 1 0 0=24.93;3.42 4.01 1.27 3.23 3.45 4.23 3.84 0 3.53 0 0 0 0 0 0 0 0 0 0 1 0=71.56;0 1.49 4.21 4.48 3.96 0 \
    0.99 3 0 0 0 0 0 0 0 0 0 0 0 0 1=38.58|-9.84 -8.30 -1.41 -2.49 -8.88 -3.51 -3.71 -6.91 -4.34 0 0 0 0 0 0 0 0 0 0 0 \
    0|100|optimal 1227562/150483 83235/50161 0 0 163729429/73586187 0 0 0 0 0 0 145331997937/7358618700 \
    29578753991/2452872900 21418773091/1226436450 0 44811245167/1226436450 25580780146/613218225 6354645001/1839654675 \
    136682724083/7358618700 35972780611/1226436450 22318322173/817624300; -16572706/24528729 -11044724/8176243 0 0 0 \
    -296/163 0 0 0 0 0 0
";

/// The numbers of a text, with blanks between them.
fn numbers(alloc: Global, text: &str) -> Result<Vec<Frac>, Fail> {
    let mut all = Vec::new(alloc);
    if !text.is_empty() {
        for word in text.split(' ') {
            all.push(parse(word.as_bytes())?)?;
        }
    }
    Ok(all)
}

/// The form with these values by column.
fn form(alloc: Global, text: &str) -> Result<Form, Fail> {
    let mut form = Form::empty(alloc);
    let values = numbers(alloc, text)?;
    for column in 0..values.len() {
        let value = values[column];
        if !value.is_zero() {
            form.push(column as u64, value)?;
        }
    }
    Ok(form)
}

/// Adds the row of a text to those of a program.
fn add_row(
    alloc: Global,
    row: &str,
    forms: &mut Vec<Form>,
    right: &mut Vec<Frac>,
) -> Result<(), Fail> {
    let (entries, end) = row.split_once('=').ok_or("no right side")?;
    forms.push(form(alloc, entries)?)?;
    right.push(parse(end.as_bytes())?)?;
    Ok(())
}

/// How many numbers a text has.
fn count(alloc: Global, text: &str) -> Result<u64, Fail> {
    Ok(numbers(alloc, text)?.len() as u64)
}

/// The program of a row of the table.
fn program(alloc: Global, rows: &str, cost: &str) -> Result<Option<Standard>, Fail> {
    let mut forms = Vec::new(alloc);
    let mut right = Vec::new(alloc);
    if !rows.is_empty() {
        for row in rows.split(';') {
            add_row(alloc, row, &mut forms, &mut right)?;
        }
    }
    let columns = count(alloc, cost)?;
    Ok(Standard::checked(columns, forms, right, form(alloc, cost)?))
}

/// Appends numbers, each behind a blank.
fn write_values(alloc: Global, values: &[Frac], out: &mut Vec<u8>) -> Result<(), Memory> {
    for value in values {
        out.extend_from_slice(b" ")?;
        print(alloc, *value, out)?;
    }
    Ok(())
}

/// Appends the values of the columns, each behind a blank.
fn write_form(alloc: Global, form: &Form, columns: u64, out: &mut Vec<u8>) -> Result<(), Memory> {
    for column in 0..columns {
        out.extend_from_slice(b" ")?;
        print(alloc, form.get(column), out)?;
    }
    Ok(())
}

fn write_op(op: Op, out: &mut Vec<u8>) -> Result<(), Memory> {
    let name: &[u8] = match op {
        Op::Add => b" Add",
        Op::Sub => b" Sub",
        Op::Mul => b" Mul",
        Op::Div => b" Div",
    };
    out.extend_from_slice(name)?;
    Ok(())
}

/// Appends an operation that passes, and behind how many pivots.
fn write_passed(
    rt: &impl Abort,
    alloc: Global,
    pivots: u64,
    passed: &Passed,
    out: &mut Vec<u8>,
) -> Result<(), Memory> {
    assert!(rt; pivots < 1000);
    print(alloc, Frac::from_int(pivots as i64), out)?;
    write_op(passed.op, out)?;
    write_values(alloc, &[passed.a, passed.b], out)
}

/// The word of an outcome.
fn word(outcome: &Outcome) -> &'static [u8] {
    match outcome {
        Outcome::Optimal { .. } => b"optimal",
        Outcome::Infeasible { .. } => b"infeasible",
        Outcome::Unbounded { .. } => b"unbounded",
        Outcome::PivotsEnded => b"pivots ended",
        Outcome::Passed(_pivots, _passed) => b"passed ",
    }
}

/// Appends what stands behind the word of an outcome.
fn write_parts(
    rt: &impl Abort,
    alloc: Global,
    outcome: &Outcome,
    columns: u64,
    out: &mut Vec<u8>,
) -> Result<(), Memory> {
    match outcome {
        Outcome::Optimal { point, duals } => {
            write_form(alloc, point, columns, out)?;
            out.extend_from_slice(b";")?;
            write_values(alloc, duals, out)
        }
        Outcome::Infeasible { duals } => write_values(alloc, duals, out),
        Outcome::Unbounded { point, ray } => {
            write_form(alloc, point, columns, out)?;
            out.extend_from_slice(b";")?;
            write_form(alloc, ray, columns, out)
        }
        Outcome::PivotsEnded => Ok(()),
        Outcome::Passed(pivots, passed) => write_passed(rt, alloc, *pivots, passed, out),
    }
}

/// An outcome as the table writes it.
fn text(
    rt: &impl Abort,
    alloc: Global,
    outcome: &Outcome,
    columns: u64,
) -> Result<Vec<u8>, Memory> {
    let mut out = Vec::new(alloc);
    out.extend_from_slice(word(outcome))?;
    write_parts(rt, alloc, outcome, columns, &mut out)?;
    Ok(out)
}

/// The outcome of a row of the table.
fn outcome_of(
    rt: &impl Abort,
    alloc: Global,
    rows: &str,
    cost: &str,
    pivots: &str,
) -> Result<Vec<u8>, Fail> {
    let Some(program) = program(alloc, rows, cost)? else {
        return Ok(Vec::from_slice(alloc, b"not a program")?);
    };
    let allowed = pivots.parse::<u64>()?;
    let outcome = solve(alloc, &program, allowed)?;
    Ok(text(rt, alloc, &outcome, program.columns())?)
}

/// A row of the table holds.
fn is_solved_so(rt: &impl Abort, alloc: Global, line: &str) -> Result<(), Fail> {
    let (rows, rest) = line.split_once('|').ok_or("no costs")?;
    let (cost, rest) = rest.split_once('|').ok_or("no pivots")?;
    let (pivots, expected) = rest.split_once('|').ok_or("no outcome")?;
    let found = outcome_of(rt, alloc, rows, cost, pivots)?;
    assert_eq!(rt; found.as_slice(), expected.as_bytes(), "{line}");
    Ok(())
}

#[test]
fn small_programs(rt: HostRuntime) -> Result<(), Fail> {
    for line in PROGRAMS.lines() {
        is_solved_so(&rt, rt.alloc(), line)?;
    }
    Ok(())
}
