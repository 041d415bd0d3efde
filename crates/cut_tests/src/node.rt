//! A node with one child, worked by hand: the child's column y costs 1, and x + y is at least 5.
use crate::fixtures::{is_text, leaf, root, single, write};
use cut_proof::{ChildCuts, SharedCut};
use frac128::{Form, Frac, Memory};
use node_lp::{Solved, Task, fits, solve_node};
use scen_defs::Kind;
use std::alloc::Global;
use std::process::Abort;
use std::test::Fail;

/// Solves a node's program.
fn solved(rt: &impl Abort, alloc: Global, task: &Task) -> Result<Solved, Fail> {
    assert!(rt; fits(task));
    Ok(solve_node(alloc, task, None)?)
}

/// The solve of node 1 at x = 2, where y lies between 0 and `upper`.
fn child_solved(rt: &impl Abort, alloc: Global, upper: i64) -> Result<Solved, Fail> {
    let trial = single(rt, alloc, 0, Frac::from_int(2))?;
    let upper = Some(Frac::from_int(upper));
    let datum = leaf(rt, alloc, 1, Frac::from_int(5), Frac::one(), upper)?;
    let task = Task {
        kind: Kind::Cost,
        datum,
        trial,
        children: Vec::new(alloc),
        pivots: 100,
    };
    solved(rt, alloc, &task)
}

/// The solve of node 0 in a run of this kind: x lies between 1 and 4 and costs 2; its child is certain.
fn root_solved(rt: &impl Abort, alloc: Global, kind: Kind) -> Result<Solved, Fail> {
    let datum = root(rt, alloc, 2, 1, 4)?;
    let children = children(rt, alloc)?;
    let task = Task {
        kind,
        datum,
        trial: Form::empty(alloc),
        children,
        pivots: 100,
    };
    solved(rt, alloc, &task)
}

/// The cut that is told.
fn cut_of(solved: Solved) -> Option<SharedCut> {
    match solved {
        Solved::Point {
            point: _point,
            value: _value,
            cut,
        } => cut,
        Solved::NoPoint { cut } => Some(cut),
        _ => None,
    }
}

/// Appends a form over two columns.
fn write_form(alloc: Global, form: &Form, out: &mut Vec<u8>) -> Result<(), Memory> {
    write(alloc, form.get(0), out)?;
    write(alloc, form.get(1), out)
}

/// Appends a cut.
fn write_cut(alloc: Global, cut: &SharedCut, out: &mut Vec<u8>) -> Result<(), Memory> {
    out.extend_from_slice(b" cut")?;
    write(alloc, cut.cut().constant(), out)?;
    write_form(alloc, cut.cut().form(), out)
}

/// Appends what is told of a solve.
fn write_solved(alloc: Global, solved: &Solved, out: &mut Vec<u8>) -> Result<(), Memory> {
    match solved {
        Solved::Point { point, value, cut } => {
            out.extend_from_slice(b"point")?;
            write_form(alloc, point, out)?;
            write(alloc, *value, out)?;
            if let Some(cut) = cut {
                write_cut(alloc, cut, out)?;
            }
        }
        Solved::NoPoint { cut } => write_cut(alloc, cut, out)?,
        _ => out.extend_from_slice(b"another end")?,
    }
    Ok(())
}

/// What is told of a solve.
pub fn is_told(
    rt: &impl Abort,
    alloc: Global,
    solved: &Solved,
    expected: &str,
) -> Result<(), Fail> {
    let mut told = Vec::new(alloc);
    write_solved(alloc, solved, &mut told)?;
    is_text(rt, &told, expected, expected);
    Ok(())
}

/// The cut that node 1 makes at x = 2 where y is at most `upper`, after a look at what is told of its solve.
fn child_cut(
    rt: &impl Abort,
    alloc: Global,
    upper: i64,
    expected: &str,
) -> Result<SharedCut, Fail> {
    let found = child_solved(rt, alloc, upper)?;
    is_told(rt, alloc, &found, expected)?;
    Ok(cut_of(found).ok_or("no cut")?)
}

/// Puts the cuts that node 1 makes at x = 2 last, where y is at most 10 and where it is at most 1.
fn push_child_cuts(rt: &impl Abort, alloc: Global, cuts: &mut Vec<SharedCut>) -> Result<(), Fail> {
    cuts.push(child_cut(rt, alloc, 10, "point 0 3 3 cut 5 -1 0")?)?;
    cuts.push(child_cut(rt, alloc, 1, " cut 4 -1 0")?)?;
    Ok(())
}

/// The cuts of node 1.
fn one_child(alloc: Global, cuts: Vec<SharedCut>) -> Result<Vec<ChildCuts>, Memory> {
    let mut children = Vec::new(alloc);
    children.push(ChildCuts { child: 1, cuts })?;
    Ok(children)
}

/// The children of node 0, with both cuts.
pub fn children(rt: &impl Abort, alloc: Global) -> Result<Vec<ChildCuts>, Fail> {
    let mut cuts = Vec::new(alloc);
    push_child_cuts(rt, alloc, &mut cuts)?;
    Ok(one_child(alloc, cuts)?)
}

/// What is told of the solve of node 0 in a run of this kind.
fn root_is_told(rt: &impl Abort, alloc: Global, kind: Kind, expected: &str) -> Result<(), Fail> {
    let found = root_solved(rt, alloc, kind)?;
    is_told(rt, alloc, &found, expected)
}

#[test]
fn two_nodes(rt: HostRuntime) -> Result<(), Fail> {
    root_is_told(&rt, rt.alloc(), Kind::Cost, "point 4 0 9 cut 9 0 0")?;
    root_is_told(&rt, rt.alloc(), Kind::Feasible, "point 4 0 8")
}
