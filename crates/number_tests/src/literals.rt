//! Literals, in a table that is a text, since each member of an array is a step of the proof, and forms.
use frac128::{Form, Frac, Memory, NumFault, parse, print};
use std::alloc::Global;
use std::process::Abort;
use std::test::Fail;

/// A text, a bar, and the number that it is or why it is none.
const LITERALS: &str = "\
0|0
7|7
+7|7
-7|-7
007|7
-0|0
12.5|25/2
-12.50|-25/2
.5|1/2
+.5|1/2
-.125|-1/8
7.|7
-7.|-7
0.000|0
1E3|1000
1e3|1000
1D3|1000
1d3|1000
1E+3|1000
1E-3|1/1000
25d-2|1/4
12.50e-3|1/80
.5D+2|50
7.E1|70
1E-0|1
5E-1|1/2
50E-1|5
-2.5e1|-25
1E0038|100000000000000000000000000000000000000
1E38|100000000000000000000000000000000000000
1E39|Wide
1E-38|1/100000000000000000000000000000000000000
1E-39|Wide
1E-300|Wide
1E9999|Wide
-1E-9999|Wide
0E9999|0
0E-9999|0
-0.00E9999|0
17E37|170000000000000000000000000000000000000
171E36|Wide
12E-38|3/25000000000000000000000000000000000000
120E-39|3/25000000000000000000000000000000000000
10E-39|1/100000000000000000000000000000000000000
12E-39|Wide
170141183460469231731687303715884105727|170141183460469231731687303715884105727
-170141183460469231731687303715884105727|-170141183460469231731687303715884105727
170141183460469231731687303715884105726|170141183460469231731687303715884105726
170141183460469231731687303715884105728|Wide
-170141183460469231731687303715884105728|Wide
17014118346046923173168730371588410572.7|170141183460469231731687303715884105727/10
17014118346046923173168730371588410572.8|Wide
170141183460469231731687303715884105727E-38|170141183460469231731687303715884105727/100000000000000000000000000000000000000
1701411834604692317316873037158841057270|Wide
1701411834604692317316873037158841057270E-1|170141183460469231731687303715884105727
100000000000000000000000000000000000000|100000000000000000000000000000000000000
1000000000000000000000000000000000000000|Wide
1000000000000000000000000000000000000000E-39|1
1700000000000000000000000000000000000000E-1|170000000000000000000000000000000000000
1700000000000000000000000000000000000000|Wide
0.0000000000000000000000000000000000000000|0
1.0000000000000000000000000000000000000000|1
0000000000000000000000000000000000000000000000001|1
0.00000000000000000000000000000000000001|1/100000000000000000000000000000000000000
0.000000000000000000000000000000000000001|Wide
85070591730234615865843651857942052864E1|Wide
3/4|3/4
-3/4|-3/4
+6/4|3/2
6/3|2
0/5|0
003/004|3/4
0/170141183460469231731687303715884105728|Wide
0/170141183460469231731687303715884105727|0
170141183460469231731687303715884105727/170141183460469231731687303715884105727|1
170141183460469231731687303715884105728/2|Wide
2/170141183460469231731687303715884105728|Wide
-170141183460469231731687303715884105727/170141183460469231731687303715884105726\
|-170141183460469231731687303715884105727/170141183460469231731687303715884105726
1/0|Bad
0/0|Bad
1/000|Bad
170141183460469231731687303715884105728/0|Bad
1/-2|Bad
1/2E1|Bad
1.5/2|Bad
1e3/2|Bad
/2|Bad
1/|Bad
1//2|Bad
1/2/3|Bad
|Bad
+|Bad
-|Bad
.|Bad
+.|Bad
.E1|Bad
E5|Bad
1E|Bad
1E+|Bad
1E12345|Bad
0E00000|Bad
1E+00001|Bad
1E1.5|Bad
1E1E1|Bad
1F3|Bad
 1|Bad
1 |Bad
1 2|Bad
1 /2|Bad
1E 2|Bad
1.2.3|Bad
+-1|Bad
1-|Bad
0x10|Bad
1,5|Bad
Infinity|Bad
";

/// The number that a text is, in lowest terms, or why it is none.
fn read(alloc: Global, text: &str) -> Result<Vec<u8>, Memory> {
    let mut answer = Vec::new(alloc);
    match parse(text.as_bytes()) {
        Ok(value) => print(alloc, value, &mut answer)?,
        Err(NumFault::Bad) => answer.extend_from_slice(b"Bad")?,
        Err(NumFault::Wide) => answer.extend_from_slice(b"Wide")?,
    }
    Ok(answer)
}

/// A row of the table holds.
fn is_read_so(rt: &impl Abort, alloc: Global, row: &str) -> Result<(), Fail> {
    let (text, expected) = row.split_once('|').ok_or("no bar")?;
    let found = read(alloc, text)?;
    assert_eq!(rt; found.as_slice(), expected.as_bytes(), "{row}");
    Ok(())
}

#[test]
fn literals_are_read(rt: HostRuntime) -> Result<(), Fail> {
    for row in LITERALS.lines() {
        is_read_so(&rt, rt.alloc(), row)?;
    }
    Ok(())
}

/// The form with one value.
fn single(rt: &impl Abort, alloc: Global, column: u64, value: Frac) -> Result<Form, Memory> {
    assert!(rt; !value.is_zero());
    let mut form = Form::empty(alloc);
    form.push(column, value)?;
    Ok(form)
}

/// 1/2 in column 1 and 6 in column 4.
fn has_sum(rt: &impl Abort, sum: &Form) {
    assert_eq!(rt; sum.get(4), Frac::from_int(6));
    assert_eq!(rt; sum.get(2), Frac::zero());
}

/// The products with 1 in column 1 and 3 in column 4: 1/2 and 18, and 2 more.
fn has_products(rt: &impl Abort, sum: &Form, other: &Form) -> Result<(), Fail> {
    assert_eq!(rt; sum.dot_from(Frac::from_int(2), other)?, parse(b"41/2")?);
    assert_eq!(rt; sum.dot(other)?, parse(b"37/2")?);
    Ok(())
}

/// A copy has both terms, and taken away from itself nothing is left.
fn is_copied(rt: &impl Abort, alloc: Global, sum: &Form) -> Result<(), Fail> {
    assert_eq!(rt; sum.copy(alloc)?.terms().len(), 2);
    let none = sum.add_scaled(Frac::from_int(-1), sum)?;
    assert_eq!(rt; none.len(), 0);
    Ok(())
}

/// Looks at the sums of two forms, each with twice the other.
fn are_added(rt: &impl Abort, alloc: Global, first: &Form, second: &Form) -> Result<(), Fail> {
    let sum = first.add_scaled(Frac::from_int(2), second)?;
    let other = second.add_scaled(Frac::from_int(2), first)?;
    has_sum(rt, &sum);
    has_products(rt, &sum, &other)?;
    is_copied(rt, alloc, &sum)
}

#[test]
fn forms_are_added_and_multiplied(rt: HostRuntime) -> Result<(), Fail> {
    let first = single(&rt, rt.alloc(), 1, parse(b"1/2")?)?;
    let second = single(&rt, rt.alloc(), 4, parse(b"3")?)?;
    are_added(&rt, rt.alloc(), &first, &second)
}
