// The ground cut of a node.
ghost use Rattle.std.specs.Prelude.{◌≡◌, [], IfOk};
ghost use Rattle.rationals.specs.Passes.{div_walk};
ghost use Rattle.frac128.specs.Faults.{IfNotMemory};
ghost use Rattle.scen_defs.specs.Values.{at};
ghost use Rattle.cut_defs.specs.Data.{RowsRise};
ghost use Rattle.cut_defs.specs.Stored.StoredUses.{No_stored};
ghost use Rattle.cut_proof.specs.Answers.{Makes};
ghost use Rattle.cut_proof.specs.View.{uses_content};
ghost use Rattle.dual_assemble.specs.Ground.{quotients_from, uses_of_children, ground_walk, AreOfChildren, IsGroundFrom};

use cut_defs::{CutKind, Share};
use cut_proof::{Cut, CutFault, NodeDatum, Record, SharedCut, Used, push_nonzero};
use frac128::{ArithmeticFault, Form, Frac, Memory, Passed};
use scen_defs::{NodeRow, Values};
use std::alloc::Global;

/// One number divided by another, and 0 where that is 0.
fn quotient(number: Frac, by: Frac) -> Result<Frac, Passed>
    ensures { result ≡ div_walk number by }
{
    if by.is_zero() {
        Ok(Frac::zero())
    } else {
        number.div(by)
    }
}

/// The numbers of a dual at a node, by row, each divided by the total.
fn quotients(
    alloc: Global,
    rows: &[NodeRow],
    node: u32,
    total: Frac,
    dual: &Values,
) -> Result<Form, ArithmeticFault>
    requires { RowsRise 0 rows.now }
    ensures { IfNotMemory result (quotients_from total (at dual.now node) [] rows.now) }
{
    let mut form = Form::empty(alloc);
    for row in rows {
        let value = quotient(dual.get(node as u64, row.row as u64), total)?;
        push_nonzero(&mut form, row.row as u64, value)?;
    }
    Ok(form)
}

/// The cuts in the order of the children, each with its child's share as weight.
fn with_shares(alloc: Global, shares: &[Share], children: &[SharedCut]) -> Result<Vec<Used>, Memory>
    ensures { IfOk result (λ v. uses_content v.items ≡ uses_of_children No_stored shares.now children.now) }
{
    let mut used = Vec::new(alloc);
    for (place, share) in shares.iter().enumerate() {
        if place >= children.len() {
            return Ok(used);
        }
        let cut = children[place].share()?;
        used.push(Used {
            weight: share.share,
            cut,
        })?;
    }
    Ok(used)
}

/// The Bound cut of a node from a dual: its multipliers are the dual's numbers at the node, divided by the node's
/// total; its used cuts are the children's ground cuts, in the order of the children, each with the child's share as
/// weight. First come the quotients by row, then the cut by `Cut::of`; `Passed` names the first operation that passes.
/// Where the children's cuts are Bound cuts, one of each child, the cut is made from the datum.
pub fn ground_cut(
    alloc: Global,
    datum: &NodeDatum,
    total: Frac,
    dual: &Values,
    children: &[SharedCut],
) -> Result<SharedCut, CutFault>
    ensures walk { Makes (ground_walk datum.now total dual.now children.now) result }
    ensures made { AreOfChildren datum.now.shares children.now → IfOk result (λ cut. IsGroundFrom datum.now total dual.now cut) }
{
    let _rising = datum.bounds();
    let multipliers = quotients(alloc, datum.rows(), datum.node(), total, dual)?;
    let used = with_shares(alloc, datum.shares(), children)?;
    let record = Record {
        node: datum.node(),
        kind: CutKind::Bound,
        rows_version: datum.rows_version(),
        costs_version: datum.costs_version(),
        multipliers,
        used,
    };
    let cut = Cut::of(alloc, record, datum)?;
    let shared = SharedCut::new(alloc, cut)?;
    Ok(shared)
}
