//! Programs that calls are tried on.

/// A core, a time file and a stoch file; a core alone where the others are empty.
#[derive(Clone, Copy)]
pub struct Source<'a> {
    pub core: &'a str,
    pub time: &'a str,
    pub stoch: &'a str,
}

const COVER_CORE: &str = "\
NAME COVER
ROWS
 N COST
 G DEMAND
COLUMNS
 X COST 1 DEMAND 1
 Y COST 3/2 DEMAND 1
RHS
 RHS DEMAND 2
ENDATA
";

const COVER_TIME: &str = "\
TIME COVER
PERIODS
 X COST P1
 Y DEMAND P2
ENDATA
";

/// A demand of 2 or 6 in the second period.
pub const COVER: Source<'static> = Source {
    core: COVER_CORE,
    time: COVER_TIME,
    stoch: "\
STOCH COVER
INDEP DISCRETE
 RHS DEMAND 2 P2 0.5
 RHS DEMAND 6 P2 0.5
ENDATA
",
};

const FARMER_CORE: &str = "\
NAME FARMER
ROWS
 N COST
 L LAND
 G REQW
 G REQC
 L SUPB
COLUMNS
 WHEAT COST 150 LAND 1
 WHEAT REQW 2.5
 CORN COST 230 LAND 1
 CORN REQC 3
 BEETS COST 260 LAND 1
 BEETS SUPB -20
 WBUY COST 238 REQW 1
 WSELL COST -170 REQW -1
 CBUY COST 210 REQC 1
 CSELL COST -150 REQC -1
 BSELL COST -36 SUPB 1
 BLOW COST -10 SUPB 1
RHS
 RHS LAND 500 REQW 200
 RHS REQC 240
BOUNDS
 UP BND BSELL 6000
ENDATA
";

const FARMER_TIME: &str = "\
TIME FARMER
PERIODS LP
 WHEAT LAND P1
 WBUY REQW P2
ENDATA
";

const FARMER_STOCH: &str = "\
STOCH FARMER
BLOCKS DISCRETE
 BL YIELD P2 .333333
 WHEAT REQW 3.0
 CORN REQC 3.6
 BEETS SUPB -24
 BL YIELD P2 .333333
 WHEAT REQW 2.5
 CORN REQC 3.0
 BEETS SUPB -20
 BL YIELD P2 .333333
 WHEAT REQW 2.0
 CORN REQC 2.4
 BEETS SUPB -16
ENDATA
";

/// The farmer's problem of Birge and Louveaux: wheat, corn and beets are sown, then yields are seen.
pub const FARMER: Source<'static> = Source {
    core: FARMER_CORE,
    time: FARMER_TIME,
    stoch: FARMER_STOCH,
};
