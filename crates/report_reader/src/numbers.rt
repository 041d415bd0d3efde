//! The numbers of a report, each as it is printed.
ghost use Rattle.std.specs.Prelude.{◌≡◌, ◌^◌, Ok};
ghost use Rattle.std.specs.Fmt.{decimal};
ghost use Rattle.frac128.specs.Text.{text_of};
ghost use Rattle.smps_words.specs.Names.{same_name};
ghost use Rattle.report_reader.specs.Answers.{Reads, FlagIs};
ghost use Rattle.report_reader.specs.Numbers.{fraction, end_of, end_value, count_in, count, small};

use crate::fault::Fault;
use core_defs::Cause;
use frac128::{Frac, NumFault, parse, print};
use std::alloc::Global;

/// Whether a number is printed as this field.
fn is_printed(alloc: Global, value: Frac, field: &[u8]) -> Result<bool, Fault>
    ensures { FlagIs (same_name (text_of value) field.now) result }
{
    let mut text = Vec::new(alloc);
    print(alloc, value, &mut text)?;
    Ok(text.as_slice() == field)
}

/// The fraction that a field is.
pub(crate) fn fraction(alloc: Global, field: &[u8]) -> Result<Frac, Fault>
    ensures { Reads (fraction field.now) result }
{
    match parse(field) {
        Ok(value) => {
            if is_printed(alloc, value, field)? {
                Ok(value)
            } else {
                Err(Fault::Refused(Cause::ReportBad))
            }
        }
        Err(NumFault::Bad) => Err(Fault::Refused(Cause::ReportBad)),
        Err(NumFault::Wide) => Err(Fault::Refused(Cause::NumberWide)),
    }
}

/// A fraction, or none.
pub(crate) fn end_of(alloc: Global, field: &[u8]) -> Result<Option<Frac>, Fault>
    ensures { Reads (end_of field.now) result }
{
    if field == b"none".as_slice() {
        return Ok(None);
    }
    match fraction(alloc, field) {
        Ok(value) => Ok(Some(value)),
        Err(fault) => Err(fault),
    }
}

/// A number that fits 64 bits without sign.
fn count_in(number: i128) -> Option<u64>
    ensures { result ≡ count_in number }
{
    if number >= 0 && number < 18_446_744_073_709_551_616 {
        Some(number as u64)
    } else {
        None
    }
}

/// Whether a whole number is printed as this field.
fn is_decimal(alloc: Global, number: u64, field: &[u8]) -> Result<bool, Fault>
    ensures { FlagIs (same_name (decimal number) field.now) result }
{
    let text = format!(in alloc; "{number}")?;
    Ok(text.as_bytes() == field)
}

/// The whole number below 2^64 that a field is.
pub(crate) fn count(alloc: Global, field: &[u8]) -> Result<u64, Fault>
    ensures { Reads (count field.now) result }
{
    match parse(field) {
        Ok(value) => match count_in(value.num()) {
            Some(number) => {
                if is_decimal(alloc, number, field)? {
                    Ok(number)
                } else {
                    Err(Fault::Refused(Cause::ReportBad))
                }
            }
            None => Err(Fault::Refused(Cause::ReportBad)),
        },
        Err(_) => Err(Fault::Refused(Cause::ReportBad)),
    }
}

/// The whole number below 2^32 that a field is.
pub(crate) fn small(alloc: Global, field: &[u8]) -> Result<u32, Fault>
    ensures { Reads (small field.now) result }
{
    let number = count(alloc, field)?;
    if number < 4_294_967_296 {
        Ok(number as u32)
    } else {
        Err(Fault::Refused(Cause::ReportBad))
    }
}
