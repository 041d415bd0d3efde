//! Texts, limits and operations that pass, by hand.
use crate::meant::meant;
use flat_write::{FlatFault, FlatLimits, write_flat};
use scen_defs::Program;
use std::alloc::Global;
use std::process::Abort;
use std::test::Fail;
use test_programs::{COVER, Source};

/// X stands at the root alone, and in the rows of both nodes below it; Y costs 3/2 with probability 1/2 at each of them.
const COVER_TEXT: &str = "\
NAME FLAT
ROWS
 N COST
 G R1_0
 G R2_0
COLUMNS
 C0_0 COST 1
 C0_0 R1_0 1
 C0_0 R2_0 1
 C1_1 COST 3/4
 C1_1 R1_0 1
 C2_1 COST 3/4
 C2_1 R2_0 1
RHS
 RHS R1_0 2
 RHS R2_0 6
ENDATA
";

/// Without the first scenario the second is certain, and node 1 is gone.
const DROPPED_TEXT: &str = "\
NAME FLAT
ROWS
 N COST
 G R2_0
COLUMNS
 C0_0 COST 1
 C0_0 R2_0 1
 C2_1 COST 3/2
 C2_1 R2_0 1
RHS
 RHS R2_0 6
ENDATA
";

/// Rows with each kind of ends, and columns with each kind of bounds.
const KINDS: Source<'static> = Source {
    core: "\
NAME KINDS
ROWS
 N COST
 E EQUAL
 G LOW
 L HIGH
 G UP
 L DOWN
 E AHEAD
 E BEHIND
 L NARROW
 G ZERO
COLUMNS
 A COST 1 EQUAL 1
 A ZERO 1/3
 B EQUAL -1/2
 C COST -2
 D LOW 1
 E HIGH 1
 F UP 1
 G DOWN 1
 H AHEAD 1
 I BEHIND 1
 J NARROW 1 ZERO -1
RHS
 RHS EQUAL 4 LOW -2
 RHS HIGH 3 UP 1
 RHS AHEAD 5 BEHIND 6
 RHS NARROW 8
RANGES
 RNG UP 4 DOWN 3
 RNG AHEAD 2 BEHIND -2
 RNG NARROW 0
BOUNDS
 FR BND B
 LO BND C 5
 FX BND D -1E30
 PL BND D
 MI BND E
 UP BND E -7
 FX BND F 1E30
 MI BND F
 FX BND G 3
 LO BND H -1
 UP BND H 2
 FX BND I -1E31
 UP BND I 4
 FX BND J 1E31
 LO BND J 6
ENDATA
",
    time: "",
    stoch: "",
};

const KINDS_TEXT: &str = "\
NAME FLAT
ROWS
 N COST
 E R0_0
 G R0_1
 L R0_2
 G R0_3
 G R0_4
 G R0_5
 G R0_6
 E R0_7
 G R0_8
COLUMNS
 C0_0 COST 1
 C0_0 R0_0 1
 C0_0 R0_8 1/3
 C0_1 COST 0
 C0_1 R0_0 -1/2
 C0_2 COST -2
 C0_3 COST 0
 C0_3 R0_1 1
 C0_4 COST 0
 C0_4 R0_2 1
 C0_5 COST 0
 C0_5 R0_3 1
 C0_6 COST 0
 C0_6 R0_4 1
 C0_7 COST 0
 C0_7 R0_5 1
 C0_8 COST 0
 C0_8 R0_6 1
 C0_9 COST 0
 C0_9 R0_7 1
 C0_9 R0_8 -1
RHS
 RHS R0_0 4
 RHS R0_1 -2
 RHS R0_2 3
 RHS R0_3 1
 RHS R0_4 -3
 RHS R0_5 5
 RHS R0_6 4
 RHS R0_7 8
RANGES
 RNG R0_3 4
 RNG R0_4 3
 RNG R0_5 2
 RNG R0_6 2
BOUNDS
 FR BND C0_1
 LO BND C0_2 5
 FX BND C0_3 -1000000000000000000000000000000
 PL BND C0_3
 MI BND C0_4
 UP BND C0_4 -7
 FX BND C0_5 1000000000000000000000000000000
 MI BND C0_5
 FX BND C0_6 3
 LO BND C0_7 -1
 UP BND C0_7 2
 FX BND C0_8 -10000000000000000000000000000000
 UP BND C0_8 4
 FX BND C0_9 10000000000000000000000000000000
 LO BND C0_9 6
ENDATA
";

/// Three periods of one scenario; X and Y stand in rows of later periods.
const THREE: Source<'static> = Source {
    core: "\
NAME THREE
ROWS
 N COST
 G R2
 G R3
 G R4
COLUMNS
 X COST 1.875 R2 1
 X R3 1
 Y COST 2 R2 1
 Y R3 1
 V COST 3 R3 1
 W COST 1 R4 1
ENDATA
",
    time: "\
TIME THREE
PERIODS
 X COST P1
 Y R2 P2
 V R3 P3
ENDATA
",
    stoch: "",
};

const THREE_TEXT: &str = "\
NAME FLAT
ROWS
 N COST
 G R1_0
 G R2_1
 G R2_2
COLUMNS
 C0_0 COST 15/8
 C0_0 R1_0 1
 C0_0 R2_1 1
 C1_1 COST 2
 C1_1 R1_0 1
 C1_1 R2_1 1
 C2_2 COST 3
 C2_2 R2_1 1
 C2_3 COST 1
 C2_3 R2_2 1
ENDATA
";

/// The program that texts mean behind edits.
fn program(alloc: Global, source: Source<'_>, edits: &str) -> Result<Program, Fail> {
    let read = meant(alloc, source, edits)?;
    Ok(read.ok_or("texts that are refused")?)
}

/// The text of a program.
fn text_of(alloc: Global, source: Source<'_>, edits: &str) -> Result<Vec<u8>, Fail> {
    let program = program(alloc, source, edits)?;
    match write_flat(alloc, &program, FlatLimits::CORE) {
        Ok(text) => Ok(text),
        Err(_) => Err("no text".into()),
    }
}

/// The limits are two rows, three columns and four entries, less these.
fn limits(rows: u32, columns: u32, entries: u32) -> FlatLimits {
    FlatLimits {
        rows: 2_u32.saturating_sub(rows),
        columns: 3_u32.saturating_sub(columns),
        entries: 4_u32.saturating_sub(entries),
    }
}

/// Whether the limits alone refuse a program.
fn is_beyond(alloc: Global, program: &Program, limits: FlatLimits) -> Result<bool, Fail> {
    match write_flat(alloc, program, limits) {
        Ok(_text) => Ok(false),
        Err(FlatFault::Limit) => Ok(true),
        Err(FlatFault::Passed(_)) => Err("an operation that passes".into()),
        Err(FlatFault::Memory) => Err("want of memory".into()),
    }
}

#[test]
fn cover(rt: HostRuntime) -> Result<(), Fail> {
    let text = text_of(rt.alloc(), COVER, "")?;
    assert_eq!(rt; text.as_slice(), COVER_TEXT.as_bytes());
    Ok(())
}

#[test]
fn dropped(rt: HostRuntime) -> Result<(), Fail> {
    let text = text_of(rt.alloc(), COVER, "DROP S1\nSOLVE\n")?;
    assert_eq!(rt; text.as_slice(), DROPPED_TEXT.as_bytes());
    Ok(())
}

#[test]
fn kinds(rt: HostRuntime) -> Result<(), Fail> {
    let text = text_of(rt.alloc(), KINDS, "")?;
    assert_eq!(rt; text.as_slice(), KINDS_TEXT.as_bytes());
    Ok(())
}

#[test]
fn three(rt: HostRuntime) -> Result<(), Fail> {
    let text = text_of(rt.alloc(), THREE, "")?;
    assert_eq!(rt; text.as_slice(), THREE_TEXT.as_bytes());
    Ok(())
}

/// The same text again means a program whose text has the same lines: what is read is what was written.
#[test]
fn read_again(rt: HostRuntime) -> Result<(), Fail> {
    let again = Source {
        core: KINDS_TEXT,
        time: "",
        stoch: "",
    };
    let text = text_of(rt.alloc(), again, "")?;
    assert_eq!(rt; text.as_slice(), KINDS_TEXT.as_bytes());
    Ok(())
}

#[test]
fn beyond(rt: HostRuntime) -> Result<(), Fail> {
    let cover = program(rt.alloc(), COVER, "")?;
    assert!(rt; !is_beyond(rt.alloc(), &cover, limits(0, 0, 0))?);
    assert!(rt; is_beyond(rt.alloc(), &cover, limits(1, 0, 0))?);
    assert!(rt; is_beyond(rt.alloc(), &cover, limits(0, 1, 0))?);
    assert!(rt; is_beyond(rt.alloc(), &cover, limits(0, 0, 1))?);
    Ok(())
}
