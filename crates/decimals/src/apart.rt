//! How far two ends lie apart, for people.

use crate::floats::{float, float_difference};
use frac128::Frac;
use std::alloc::{AllocError, Global};
use std::num::saturating_f64_to_u64;

/// The distance of two ends in thousandths of a percent of the one that is greater in size, rounded down; 0 where both are 0.
fn thousandths_apart(lower: Frac, upper: Frac) -> u64 {
    let size = float(lower).abs().max(float(upper).abs());
    if size == 0.0 {
        return 0;
    }
    saturating_f64_to_u64(float_difference(upper, lower).abs() / size * 100_000.0)
}

/// Appends how far two ends lie apart in percent of the one that is greater in size, as `4.5 percent` or `less than 0.001 percent`. It is
/// computed by floats.
pub fn put_apart(
    alloc: Global,
    lower: Frac,
    upper: Frac,
    out: &mut String,
) -> Result<(), AllocError> {
    let thousandths = thousandths_apart(lower, upper);
    if thousandths == 0 {
        out.push_str("less than 0.001 percent")?;
        return Ok(());
    }
    let whole = thousandths / 1000;
    let part = thousandths % 1000;
    let text = if part == 0 {
        format!(in alloc; "{whole}")?
    } else {
        format!(in alloc; "{whole}.{part:03}")?
    };
    out.push_str(text.as_str())?;
    out.push_str(" percent")?;
    Ok(())
}
