//! What standard error says of where the least cost of an open report lies, and how far its ends are apart.
use crate::plain::{Side, put_rounded};
use decimals::{float, float_difference, put_apart};
use exit_status::is_open;
use frac128::Frac;
use scen_defs::Finding;
use smps_cli::Told;
use std::alloc::{AllocError, Global};
use std::fmt::Write;
use std::num::saturating_f64_to_u64;

/// The ends of so many reports are told.
const NAMED: u64 = 3;

/// A decimal has so many digits at most.
const MOST_DIGITS: usize = 36;

/// And so many where floats don't tell the ends apart.
const FLOAT_DIGITS: usize = 17;

/// Ends that lie less apart are told with a power of ten, and others in percent: a thousandth of a percent.
const LEAST_PERCENT: f64 = 0.00001;

/// The two ends of the least cost.
#[derive(Drop)]
struct Ends {
    lower: Frac,
    upper: Frac,
}

impl Ends {
    /// How far they lie apart.
    fn gap(&self) -> f64 {
        float_difference(self.upper, self.lower).abs()
    }

    /// The one that is greater in size.
    fn size(&self) -> f64 {
        float(self.lower).abs().max(float(self.upper).abs())
    }

    /// With how many places behind the point they are told: they lie ten units of the last one apart, where that many digits do.
    fn places(&self) -> usize {
        let mut units = self.gap();
        let digits = if units == 0.0 {
            FLOAT_DIGITS
        } else {
            MOST_DIGITS
        };
        let most = digits.saturating_sub(digits_before_point(self.size()));
        let mut places: usize = 0;
        for _ in 0..most {
            if units >= 10.0 {
                break;
            }
            units *= 10.0;
            places = places.saturating_add(1);
        }
        places
    }
}

/// How many digits a number has in front of its point.
fn digits_before_point(size: f64) -> usize {
    let mut rest = size;
    let mut count: usize = 0;
    for _ in 0..MOST_DIGITS {
        if rest < 1.0 {
            break;
        }
        rest /= 10.0;
        count = count.saturating_add(1);
    }
    count
}

/// Appends how far two ends lie apart, beside the one that is greater in size.
fn put_gap(alloc: Global, text: &mut String, ends: &Ends) -> Result<(), AllocError> {
    let size = ends.size();
    let ratio = if size == 0.0 { 0.0 } else { ends.gap() / size };
    if ratio >= LEAST_PERCENT {
        put_apart(alloc, ends.lower, ends.upper, text)?;
        text.push_str(" apart")
    } else if ratio == 0.0 {
        text.push_str("less than 1e-15 of it apart")
    } else {
        put_ratio(text, ratio)
    }
}

/// Appends a number below 1 as one digit with a power of ten.
fn put_ratio(text: &mut String, ratio: f64) -> Result<(), AllocError> {
    let mut digit = ratio;
    let mut power: u32 = 0;
    for _ in 0..99 {
        if digit >= 0.95 {
            break;
        }
        digit *= 10.0;
        power = power.saturating_add(1);
    }
    let digit = saturating_f64_to_u64(digit.round());
    write!(text, "{digit}e-{power} of it apart")
}

/// Appends where the least cost of a report lies, where the report is open and has both ends; whether it did.
pub fn put_distance(
    alloc: Global,
    text: &mut String,
    number: u64,
    finding: Finding,
    lower: Option<Frac>,
    upper: Option<Frac>,
) -> Result<bool, AllocError> {
    if !is_open(finding) {
        return Ok(false);
    }
    let (Some(lower), Some(upper)) = (lower, upper) else {
        return Ok(false);
    };
    let ends = Ends { lower, upper };
    let places = ends.places();
    write!(
        text,
        "tidzgheba: report {number}: the least cost lies between "
    )?;
    put_rounded(alloc, text, lower, places, Side::Down)?;
    text.push_str(" and ")?;
    put_rounded(alloc, text, upper, places, Side::Up)?;
    text.push_str(" (")?;
    put_gap(alloc, text, &ends)?;
    text.push_str(")\n")?;
    Ok(true)
}

/// Appends where the least costs of the first open reports that have both ends lie.
pub fn put_distances(alloc: Global, text: &mut String, tolds: &[Told]) -> Result<(), AllocError> {
    let mut named = 0;
    for (before, told) in tolds.iter().enumerate() {
        let number = (before as u64).saturating_add(1);
        if named < NAMED
            && put_distance(alloc, text, number, told.finding, told.lower, told.upper)?
        {
            named += 1;
        }
    }
    Ok(())
}
