// The repair of a cut where an edit moved one row's interval.
ghost use Rattle.std.specs.Prelude.{◌≡◌, ◌<◌, ◌-◌, length, IfOk};
ghost use Rattle.rationals.specs.Order.{same};
ghost use Rattle.frac128.specs.Faults.{IfNotMemory};
ghost use Rattle.cut_defs.specs.Repairs.{is_moved, moved_source};
ghost use Rattle.cut_proof.specs.View.{source_content, uses_content};
ghost use Rattle.cut_proof.specs.Repairing.{touch_of, touch_before, own_walk, change_step, changes_from};
ghost use Rattle.cut_proof.specs.Repairing.{repair_walk, repairs_from, shifted_walk};

use crate::cut::{Cut, Record, SharedCut, Used};
use crate::resting::rests;
use crate::stamps::support_of;
use cut_defs::{Part, Shift, Touch};
use frac128::{ArithmeticFault, Frac, Memory, Passed};
use std::alloc::Global;

fn touch_of(shift: &Shift) -> Touch
    ensures { result ≡ touch_of shift.now }
{
    Touch {
        node: shift.node,
        part: Part::Rows,
        version: shift.version,
    }
}

fn touch_before(shift: &Shift) -> Touch
    requires { 0 < shift.now.version }
    ensures { result ≡ touch_before shift.now }
{
    Touch {
        node: shift.node,
        part: Part::Rows,
        version: shift.version - 1,
    }
}

/// Whether a record is of the shift's node and of the version before.
fn is_moved(shift: &Shift, source: &Record) -> bool
    requires { 0 < shift.now.version }
    ensures { result ≡ is_moved shift.now (source_content source.now) }
{
    source.node == shift.node && source.rows_version == shift.version - 1
}

/// The constant with the record's own change.
fn own(shift: &Shift, source: &Record, constant: Frac) -> Result<Frac, Passed>
    requires { 0 < shift.now.version }
    ensures { result ≡ own_walk shift.now (source_content source.now) constant }
{
    if is_moved(shift, source) {
        constant.add_product(source.multipliers.get(shift.row as u64), shift.by)
    } else {
        Ok(constant)
    }
}

fn is_same(a: Frac, b: Frac) -> bool
    ensures { result ≡ same a b }
{
    a == b
}

fn add_change(sum: Frac, weight: Frac, new: Frac, old: Frac) -> Result<Frac, Passed>
    ensures { result ≡ change_step (same new old) sum weight new old }
{
    if is_same(new, old) {
        Ok(sum)
    } else {
        let change = new.sub(old)?;
        sum.add_product(weight, change)
    }
}

/// The sum and weight times the change of each used cut.
fn add_changes(before: &[Used], after: &[Used], start: Frac) -> Result<Frac, Passed>
    requires { length before.now ≡ length after.now }
    ensures { result ≡ changes_from start (uses_content before.now) (uses_content after.now) }
{
    let mut sum = start;
    for (at, used) in before.iter().enumerate() {
        let also = &after[at];
        let new = also.cut.cut().constant();
        let old = used.cut.cut().constant();
        sum = add_change(sum, used.weight, new, old)?;
    }
    Ok(sum)
}

/// The record with its repaired cuts, and the shift's version where it is moved.
fn moved(alloc: Global, shift: &Shift, source: &Record, used: Vec<Used>) -> Result<Record, Memory>
    requires { 0 < shift.now.version }
    ensures source { IfOk result (λ r. source_content r ≡ moved_source shift.now (source_content source.now)) }
    ensures used { IfOk result (λ r. r.used.items ≡ used.items) }
{
    let rows_version = if is_moved(shift, source) {
        shift.version
    } else {
        source.rows_version
    };
    let multipliers = source.multipliers.copy(alloc)?;
    Ok(Record {
        node: source.node,
        kind: source.kind,
        rows_version,
        costs_version: source.costs_version,
        multipliers,
        used,
    })
}

/// The repair of a cut. A cut that does not rest on the shift's touch is its own repair.
fn repaired(alloc: Global, cut: &SharedCut, shift: &Shift) -> Result<SharedCut, ArithmeticFault>
    requires { 0 < shift.now.version }
    ensures { IfNotMemory result (repair_walk shift.now cut.now) }
{
    let touch = touch_of(shift);
    if !rests(cut.cut(), &touch) {
        let same = cut.share()?;
        return Ok(same);
    }
    let source = cut.cut().source();
    let mut used = Vec::new(alloc);
    for one in &source.used {
        let weight = one.weight;
        let new = repaired(alloc, &one.cut, shift)?;
        used.push(Used { weight, cut: new })?;
    }
    let sum = own(shift, source, cut.cut().constant())?;
    let constant = add_changes(&source.used, &used, sum)?;
    let record = moved(alloc, shift, source, used)?;
    let form = cut.cut().form().copy(alloc)?;
    let support = support_of(alloc, &record)?;
    let new = SharedCut::new(alloc, Cut::from_parts(record, constant, form, support))?;
    Ok(new)
}

/// The repair of a cut under a shift; none exactly where a stamp of the rows of the shift's node is older than the
/// version before the shift's. `Passed` names the first operation that passes.
pub fn shifted(
    alloc: Global,
    cut: &SharedCut,
    shift: &Shift,
) -> Result<Option<SharedCut>, ArithmeticFault>
    requires { 0 < shift.now.version }
    ensures { IfNotMemory result (shifted_walk shift.now cut.now) }
{
    let before = touch_before(shift);
    if rests(cut.cut(), &before) {
        Ok(None)
    } else {
        let new = repaired(alloc, cut, shift)?;
        Ok(Some(new))
    }
}
