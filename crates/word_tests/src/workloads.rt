//! Texts by hand.
use std::test::Fail;
use workload_maker::make;

const CORE: &str = "\
NAME MAKE
ROWS
 N COST
 L C1
 E D2_1
COLUMNS
 X1_1 COST 5
 X1_1 C1 1
 X1_1 D2_1 1
 Y2_1 COST 19
 Y2_1 D2_1 1
 Z2_1 COST 1
 Z2_1 D2_1 -1
RHS
 RHS C1 20
ENDATA
";

const TIME: &str = "\
TIME MAKE
PERIODS
 X1_1 COST P1
 Y2_1 D2_1 P2
ENDATA
";

const STOCH: &str = "\
STOCH MAKE
BLOCKS DISCRETE
 BL B2 P2 1/2
 RHS D2_1 5
 BL B2 P2 1/2
 RHS D2_1 4
ENDATA
";

/// The numbers drawn are 149, 11249, 57305 and 38044: 149 mod 5 is 4, 11249 mod 10 is 9, 57305 mod 20 is 5 and 38044 mod 20 is 4.
#[test]
fn the_least_workload_is_made(rt: HostRuntime) -> Result<(), Fail> {
    let made = make(rt.alloc(), 1, 2, 2, 1)?;
    assert!(rt; made.core.as_slice() == CORE.as_bytes());
    assert!(rt; made.time.as_slice() == TIME.as_bytes());
    assert!(rt; made.stoch.as_slice() == STOCH.as_bytes());
    Ok(())
}
