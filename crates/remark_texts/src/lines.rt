//! What is said of a run while it goes on.
use frac128::{Frac, parse};
use run_watch::Seen;
use scen_defs::Kind;
use std::test::Fail;
use watch_lines::{ended_line, seen_line, whole_line};

fn seen(kind: Kind, lower: Option<Frac>, upper: Option<Frac>) -> Seen {
    Seen {
        kind,
        round: 17,
        waiting: 340,
        solves: 1203,
        lower,
        upper,
    }
}

#[test]
fn lines_of_a_run(rt: HostRuntime) -> Result<(), Fail> {
    let alloc = rt.alloc();
    let low = parse(b"-25/2")?;
    let high = parse(b"-12")?;
    let line = seen_line(alloc, 4, seen(Kind::Feasible, None, None), 1)?;
    assert_eq!(rt;
        line.as_str(),
        "tidzgheba: 4 s: looking for a policy (round 17, 340 nodes wait, 1203 solves)\n"
    );
    let line = seen_line(alloc, 6, seen(Kind::Recession, None, Some(high)), 1)?;
    assert_eq!(rt;
        line.as_str(),
        "tidzgheba: 6 s: testing whether the cost can fall for ever (round 17, 340 nodes wait, 1203 solves); a policy costs -12\n"
    );
    let line = seen_line(alloc, 8, seen(Kind::Cost, Some(low), None), 1)?;
    assert_eq!(rt;
        line.as_str(),
        "tidzgheba: 8 s: looking for the least cost (round 17, 340 nodes wait, 1203 solves); it is at least -12.5\n"
    );
    let line = seen_line(alloc, 10, seen(Kind::Cost, Some(low), Some(high)), 1)?;
    assert_eq!(rt;
        line.as_str(),
        "tidzgheba: 10 s: looking for the least cost (round 17, 340 nodes wait, 1203 solves); it lies from -12.5 to -12, 4 percent apart\n"
    );
    Ok(())
}

#[test]
fn lines_of_workers(rt: HostRuntime) -> Result<(), Fail> {
    let alloc = rt.alloc();
    let last = Seen {
        waiting: 1,
        ..seen(Kind::Feasible, None, None)
    };
    let line = seen_line(alloc, 4, last, 2)?;
    assert_eq!(rt;
        line.as_str(),
        "tidzgheba: 4 s: looking for a policy (round 17, 1 node waits, 1203 solves, 2 workers)\n"
    );
    let low = parse(b"7/2")?;
    let line = seen_line(alloc, 6, seen(Kind::Cost, Some(low), None), 64)?;
    assert_eq!(rt;
        line.as_str(),
        "tidzgheba: 6 s: looking for the least cost (round 17, 340 nodes wait, 1203 solves, 64 workers); it is at least 3.5\n"
    );
    Ok(())
}

#[test]
fn last_lines_of_a_run(rt: HostRuntime) -> Result<(), Fail> {
    let alloc = rt.alloc();
    let line = whole_line(alloc, 12)?;
    assert_eq!(rt;
        line.as_str(),
        "tidzgheba: 12 s: solving all nodes together\n"
    );
    let line = ended_line(alloc, 13)?;
    assert_eq!(rt; line.as_str(), "tidzgheba: 13 s: done\n");
    Ok(())
}
