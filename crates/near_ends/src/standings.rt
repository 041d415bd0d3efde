//! How the columns and rows of the dual stand, by how those of the program do.

use basis_guess::{FloatProgram, Standing};
use basis_values::ExactProgram;
use frac128::Memory;
use std::alloc::Global;

fn standing_at(standings: &[Standing], place: usize) -> Standing {
    if place < standings.len() {
        standings[place]
    } else {
        Standing::Basic
    }
}

/// How a column of the dual stands where the row or column that it stands for has this standing: it is basic where that is at its end.
fn beside(is_basic: bool, otherwise: Standing) -> Standing {
    if is_basic { Standing::Basic } else { otherwise }
}

/// Puts how the two columns stand that a row or column with these ends has in the dual.
fn put_pair(
    all: &mut Vec<Standing>,
    low: bool,
    high: bool,
    standing: Standing,
) -> Result<(), Memory> {
    if low {
        let is_basic = standing == Standing::Low || (!high && standing == Standing::High);
        all.push(beside(is_basic, Standing::Low))?;
    }
    if high {
        let is_basic = standing == Standing::High || (!low && standing == Standing::Low);
        all.push(beside(is_basic, Standing::High))?;
    }
    Ok(())
}

/// Puts how the columns stand that a row has in the dual.
fn put_row(all: &mut Vec<Standing>, low: f64, high: f64, standing: Standing) -> Result<(), Memory> {
    if low == high {
        all.push(beside(standing != Standing::Basic, Standing::Free))?;
        return Ok(());
    }
    put_pair(all, low.is_finite(), high.is_finite(), standing)
}

/// How the reduced cost of a column stands.
fn price_standing(low: bool, high: bool, standing: Standing) -> Standing {
    if low == high {
        Standing::Low
    } else if standing != Standing::Basic {
        Standing::Basic
    } else if low {
        Standing::High
    } else {
        Standing::Low
    }
}

/// How the columns of the dual and then its rows stand; none where it isn't known how those of the program do.
pub(crate) fn dual_standings(
    alloc: Global,
    program: &ExactProgram,
    standings: &[Standing],
) -> Result<Vec<Standing>, Memory> {
    let mut all: Vec<Standing> = Vec::new(alloc);
    let floats: &FloatProgram = program.floats();
    let count = floats.column_count();
    if standings.len() < count {
        return Ok(all);
    }
    for row in 0..floats.row_count() {
        let place = count.saturating_add(row);
        let standing = standing_at(standings, place);
        put_row(
            &mut all,
            floats.low_at(place),
            floats.high_at(place),
            standing,
        )?;
    }
    for column in 0..count {
        let low = floats.low_at(column).is_finite();
        let high = floats.high_at(column).is_finite();
        if low && high {
            put_pair(&mut all, low, high, standing_at(standings, column))?;
        }
    }
    for column in 0..count {
        let low = floats.low_at(column).is_finite();
        let high = floats.high_at(column).is_finite();
        all.push(price_standing(low, high, standing_at(standings, column)))?;
    }
    Ok(all)
}
