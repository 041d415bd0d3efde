//! How far two ends lie apart.
use decimals::put_apart;
use frac128::parse;
use std::alloc::Global;
use std::process::Abort;
use std::test::Fail;

/// In each line two ends, and after the bar what is said of them.
const ENDS: &str = "\
1 2|50 percent
0 0|less than 0.001 percent
5 5|less than 0.001 percent
199 200|0.500 percent
-1 1|200 percent
-4 -3|25 percent
-3 0|100 percent
0 1/3|100 percent
1 3|66.666 percent
999999999 1000000000|less than 0.001 percent
-170141183460469231731687303715884105727 170141183460469231731687303715884105727|200 percent
1/170141183460469231731687303715884105727 2/170141183460469231731687303715884105727|50 percent
";

/// What is said of the ends of a row is what stands there.
fn lie_so(rt: &impl Abort, alloc: Global, row: &str) -> Result<(), Fail> {
    let (ends, expected) = row.split_once('|').ok_or("no bar")?;
    let (lower, upper) = ends.split_once(' ').ok_or("no blank")?;
    let mut said = String::new(alloc);
    put_apart(
        alloc,
        parse(lower.as_bytes())?,
        parse(upper.as_bytes())?,
        &mut said,
    )?;
    assert_eq!(rt; said.as_str(), expected, "{row}");
    Ok(())
}

#[test]
fn distances_of_ends(rt: HostRuntime) -> Result<(), Fail> {
    for row in ENDS.lines() {
        lie_so(&rt, rt.alloc(), row)?;
    }
    Ok(())
}
