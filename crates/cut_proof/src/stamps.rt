// The support of a cut: stamps in rising order.
ghost use Rattle.std.specs.Prelude.{◌≡◌, ◌++◌, IsTrue, IfOk};
ghost use Rattle.cut_defs.specs.Support.{rank, before_stamp, merge, own_by, with_uses, StampsRise};
ghost use Rattle.cut_proof.specs.View.{source_content, uses_content};

use crate::cut::{Record, Used};
use cut_defs::{CutKind, Part, Stamp};
use frac128::Memory;
use std::alloc::Global;

/// The place of a part among the stamps of a node.
fn rank(part: Part) -> u8
    ensures { result ≡ rank part }
{
    match part {
        Part::Rows => 0,
        Part::Costs => 1,
        Part::Gone => 2,
    }
}

/// Whether a stamp comes before another: by node, then by part, then by version.
fn is_before(a: &Stamp, b: &Stamp) -> bool
    ensures { result ≡ before_stamp a.now b.now }
{
    let first = rank(a.part);
    let second = rank(b.part);
    a.node < b.node
        || (a.node == b.node && (first < second || (first == second && a.version < b.version)))
}

/// The stamps of two lists that rise, each once.
fn merge(alloc: Global, xs: &[Stamp], ys: &[Stamp]) -> Result<Vec<Stamp>, Memory>
    ensures { IfOk result (λ v. v.items ≡ merge xs.now ys.now) }
{
    let mut all = Vec::with_capacity(alloc, xs.len() + ys.len())?;
    let mut i = 0;
    let mut j = 0;
    'both: while i < xs.len() && j < ys.len() {
        let x = xs[i];
        let y = ys[j];
        if is_before(&x, &y) {
            all.push(x)?;
            i += 1;
        } else if is_before(&y, &x) {
            all.push(y)?;
            j += 1;
        } else {
            all.push(x)?;
            i += 1;
            j += 1;
        }
    }
    all.extend_from_slice(&xs[i..])?;
    all.extend_from_slice(&ys[j..])?;
    Ok(all)
}

/// The stamps of a record itself.
fn own(alloc: Global, source: &Record) -> Result<Vec<Stamp>, Memory>
    ensures { IfOk result (λ v. v.items ≡ own_by source.now.kind (source_content source.now)) }
{
    let mut stamps = Vec::new(alloc);
    stamps.push(Stamp {
        node: source.node,
        part: Part::Rows,
        version: source.rows_version,
    })?;
    if source.kind == CutKind::Bound {
        stamps.push(Stamp {
            node: source.node,
            part: Part::Costs,
            version: source.costs_version,
        })?;
    }
    Ok(stamps)
}

/// Whether the stamps of a list come behind those of another one, which rise.
fn comes_behind(xs: &[Stamp], ys: &[Stamp]) -> bool
    requires { StampsRise xs.now }
    ensures { IsTrue result → merge xs.now ys.now ≡ xs.now ++ ys.now }
{
    let len = xs.len();
    if len == 0 {
        return false;
    }
    if ys.len() == 0 {
        return false;
    }
    let last = xs[len - 1];
    let first = ys[0];
    is_before(&last, &first)
}

/// The stamps of two lists that rise, each once, where the first list is given away.
#[tactic(auto)]
fn joined(alloc: Global, xs: Vec<Stamp>, ys: &[Stamp]) -> Result<Vec<Stamp>, Memory>
    requires { StampsRise xs.items }
    ensures { IfOk result (λ v. v.items ≡ merge xs.items ys.now) }
{
    let mut all = xs;
    if comes_behind(&all, ys) {
        all.extend_from_slice(ys)?;
        return Ok(all);
    }
    merge(alloc, &all, ys)
}

/// The stamps, which rise, and those of the used cuts.
#[tactic(auto, unfolding(cut_defs::specs::Support::with_uses))]
fn with_uses(alloc: Global, stamps: Vec<Stamp>, used: &[Used]) -> Result<Vec<Stamp>, Memory>
    requires { StampsRise stamps.items }
    ensures { IfOk result (λ v. v.items ≡ with_uses stamps.items (uses_content used.now)) }
{
    let mut all = stamps;
    for one in used {
        all = joined(alloc, all, one.cut.cut().support())?;
    }
    Ok(all)
}

/// What a record rests on.
#[tactic(auto, using(crate::proofs::Behind::own_rises))]
pub(crate) fn support_of(alloc: Global, source: &Record) -> Result<Vec<Stamp>, Memory>
    ensures { IfOk result (λ v. v.items ≡
        with_uses (own_by source.now.kind (source_content source.now)) (uses_content source.now.used.items)) }
{
    let stamps = own(alloc, source)?;
    with_uses(alloc, stamps, &source.used)
}
