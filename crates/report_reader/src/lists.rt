//! The numbers of a list.
ghost use Rattle.std.specs.Prelude.{◌≡◌, ◌↔◌, IsTrue, Ok};
ghost use Rattle.rationals.specs.Rational.{zero_ℚ};
ghost use Rattle.rationals.specs.Order.{same};
ghost use Rattle.scen_defs.specs.Values.{EndsBefore};
ghost use Rattle.smps_words.specs.Names.{place_of};
ghost use Rattle.report_reader.specs.Answers.{Reads};
ghost use Rattle.report_reader.specs.Lines.{all_before, pushed, numbered, value_line};

use crate::fault::Fault;
use crate::numbers::{fraction, small};
use crate::pieces::field;
use core_defs::Cause;
use frac128::Frac;
use scen_defs::Values;
use smps_words::Names;
use std::alloc::Global;

/// Whether all numbers stand before this node and index.
fn ends_before(list: &Values, node: u32, index: u32) -> bool
    ensures test { result ≡ all_before node index list.now }
    ensures means { IsTrue result ↔ EndsBefore list.now node index }
{
    list.ends_before(node, index)
}

fn is_zero(value: Frac) -> bool
    ensures { result ≡ same value zero_ℚ }
{
    value == Frac::zero()
}

/// One more number, behind all others and not 0.
fn pushed(mut list: Values, node: u32, index: u32, value: Frac) -> Result<Values, Fault>
    ensures { Reads (pushed list node index value) result }
{
    if ends_before(&list, node, index) && !is_zero(value) {
        list.push(node, index, value)?;
        Ok(list)
    } else {
        Err(Fault::Refused(Cause::ReportBad))
    }
}

/// The number of a name.
fn index_of(names: &Names, name: &[u8]) -> Result<u32, Cause>
    ensures { result ≡ numbered (place_of names.now name.now) }
{
    match names.place(name) {
        Some(place) => {
            if place < 4_294_967_296 {
                Ok(place as u32)
            } else {
                Err(Cause::ReportBad)
            }
        }
        None => Err(Cause::ReportBad),
    }
}

/// A list with the number of a line: its node, the name of its column or row, and itself.
pub(crate) fn value_line(
    alloc: Global,
    names: &Names,
    list: Values,
    line: &[u8],
) -> Result<Values, Fault>
    ensures { Reads (value_line names.now list line.now) result }
{
    let (node, rest) = field(line)?;
    let node = small(alloc, node)?;
    let (name, value) = field(rest)?;
    let index = index_of(names, name)?;
    let value = fraction(alloc, value)?;
    pushed(list, node, index, value)
}
