//! Multipliers near the optimal ones.

use crate::field::{FINE_MARGIN, MARGIN, ZOOM, factor, solved};
use crate::round::{add_fine, at, float_at, rounded};
use crate::standings::dual_standings;
use crate::tests::{are_good, reduced_costs};
use basis_factors::Entry;
use basis_guess::{End, FloatProgram, Standing, Turned};
use basis_values::ExactProgram;
use decimals::float;
use exact_steps::{Equations, moved};
use frac128::{Frac, Memory};
use std::alloc::Global;

/// So often costs are moved, each time by sixteen times as much.
const TURNS: u32 = 7;

/// So often where the dual is enlarged.
const FINE_TURNS: u32 = 4;

/// A multiplier of a row with one end is moved only where it is so far from 0.
const INSIDE: f64 = 0.000001;

/// A row that is multiplied by less has large entries.
const LARGE_ROW: f64 = 0.0001;

/// The columns of the dual that stand for a row: the first and how many.
#[derive(Clone, Copy)]
struct Part {
    first: u32,
    count: u32,
}

/// The dual of a program in floats, before its rows are pushed.
#[derive(Drop)]
struct Dual {
    program: FloatProgram,
    parts: Vec<Part>,
    next: u32,
}

/// The multipliers that are 0 in a dual, with what they leave of the costs, and whether it is enlarged.
#[derive(Drop)]
struct Seen {
    multipliers: Vec<Frac>,
    prices: Vec<Frac>,
    is_enlarged: bool,
}

impl Seen {
    /// All multipliers as they are.
    fn whole(alloc: Global, program: &ExactProgram) -> Result<Seen, Memory> {
        let mut prices = Vec::new(alloc);
        for column in program.columns() {
            prices.push(column.cost)?;
        }
        Ok(Seen {
            multipliers: Vec::new(alloc),
            prices,
            is_enlarged: false,
        })
    }

    /// The dual around multipliers, enlarged; none where a reduced cost passes.
    fn around(
        alloc: Global,
        program: &ExactProgram,
        multipliers: Vec<Frac>,
    ) -> Result<Option<Seen>, Memory> {
        let Some(prices) = reduced_costs(alloc, program, &multipliers)? else {
            return Ok(None);
        };
        Ok(Some(Seen {
            multipliers,
            prices,
            is_enlarged: true,
        }))
    }

    fn zoom(&self) -> f64 {
        if self.is_enlarged { ZOOM } else { 1.0 }
    }

    fn margin(&self) -> f64 {
        if self.is_enlarged {
            FINE_MARGIN
        } else {
            MARGIN
        }
    }

    /// What is left of the cost of a column, enlarged.
    fn price(&self, column: usize) -> f64 {
        float(at(&self.prices, column)) * self.zoom()
    }

    /// The multiplier of a row in floats, enlarged.
    fn multiplier(&self, row: usize) -> f64 {
        float(at(&self.multipliers, row)) * self.zoom()
    }

    /// The multiplier of a row that has this float where the row is multiplied by a factor: that of a row with large entries is small, and
    /// has more places where the dual is enlarged.
    fn number(&self, row: usize, value: f64, factor: f64) -> Frac {
        let value = value * factor;
        if self.is_enlarged {
            add_fine(
                at(&self.multipliers, row),
                value / ZOOM,
                1.0 / smallness(factor),
            )
        } else {
            rounded(value)
        }
    }
}

/// How small the multiplier of a row is that is multiplied by a factor: 1 where its entries aren't large.
fn smallness(factor: f64) -> f64 {
    if factor < LARGE_ROW { factor } else { 1.0 }
}

/// The bound that a reduced cost can only use, where there is one bound; 0 without one.
fn lone_bound(low: f64, high: f64) -> f64 {
    if low.is_finite() && !high.is_finite() {
        low
    } else if high.is_finite() && !low.is_finite() {
        high
    } else {
        0.0
    }
}

/// What a row gives where its multiplier is 1, beside its end: the lone bounds of columns are taken away.
fn beside(floats: &FloatProgram, row: &[Entry<f64>]) -> f64 {
    let mut sum = 0.0;
    for entry in row {
        let column = entry.at as usize;
        sum += entry.value * lone_bound(floats.low_at(column), floats.high_at(column));
    }
    sum
}

/// The number, 0 where it is below 0.
fn above_zero(value: f64) -> f64 {
    if value > 0.0 { value } else { 0.0 }
}

/// The number, 0 where it is above 0.
fn below_zero(value: f64) -> f64 {
    if value < 0.0 { value } else { 0.0 }
}

impl Dual {
    fn push(&mut self, low: f64, high: f64, cost: f64) -> Result<(), Memory> {
        self.program.push_column(low, high, cost)?;
        self.next = self.next.saturating_add(1);
        Ok(())
    }

    /// The columns that stand for a row, with its multiplier that is 0 in the dual.
    fn push_row_columns(
        &mut self,
        floats: &FloatProgram,
        number: usize,
        row: &[Entry<f64>],
        from: f64,
    ) -> Result<(), Memory> {
        let count = floats.column_count();
        let low = floats.low_at(count.saturating_add(number));
        let high = floats.high_at(count.saturating_add(number));
        let others = beside(floats, row);
        let first = self.next;
        if low == high {
            self.push(f64::NEG_INFINITY, f64::INFINITY, others - low)?;
        } else {
            if low.is_finite() {
                self.push(-above_zero(from), f64::INFINITY, others - low)?;
            }
            if high.is_finite() {
                self.push(f64::NEG_INFINITY, -below_zero(from), others - high)?;
            }
        }
        self.parts.push(Part {
            first,
            count: self.next.saturating_sub(first),
        })?;
        Ok(())
    }

    /// The two columns that stand for the reduced cost of a column with both bounds: where that is above 0, and where it is below.
    fn push_price_columns(&mut self, low: f64, high: f64, price: f64) -> Result<(), Memory> {
        self.push(-above_zero(price), f64::INFINITY, -low)?;
        self.push(f64::NEG_INFINITY, -below_zero(price), -high)
    }

    /// The column by which a reduced cost takes back a part of its margin, in units of that.
    fn push_back_column(
        &mut self,
        entries: &mut Vec<Entry<f64>>,
        value: f64,
    ) -> Result<(), Memory> {
        entries.push(Entry {
            at: self.next,
            value,
        })?;
        self.push(0.0, 1.0, 1.0)
    }
}

fn part_at(parts: &[Part], number: usize) -> Part {
    if number < parts.len() {
        parts[number]
    } else {
        Part { first: 0, count: 0 }
    }
}

fn is_pinned(pinned: &[bool], column: usize) -> bool {
    column < pinned.len() && pinned[column]
}

fn place_in(places: &[u32], column: usize) -> u32 {
    if column < places.len() {
        places[column]
    } else {
        0
    }
}

/// The entries of a reduced cost, and by how much it is moved.
fn priced(
    alloc: Global,
    parts: &[Part],
    entries: &[Entry<f64>],
    margin: f64,
) -> Result<(Vec<Entry<f64>>, f64), Memory> {
    let mut all = Vec::new(alloc);
    let mut sum = 1.0;
    for entry in entries {
        sum += entry.value.abs();
        let part = part_at(parts, entry.at as usize);
        for more in 0..part.count {
            all.push(Entry {
                at: part.first.saturating_add(more),
                value: entry.value,
            })?;
        }
    }
    Ok((all, sum * margin))
}

/// The columns of the dual: those of rows, and of each column with both bounds two, whose first place comes with it.
fn dual_columns(
    alloc: Global,
    program: &ExactProgram,
    seen: &Seen,
) -> Result<(Dual, Vec<u32>), Memory> {
    let floats = program.floats();
    let mut dual = Dual {
        program: FloatProgram::new(alloc),
        parts: Vec::new(alloc),
        next: 0,
    };
    for ((number, row), exact) in floats.rows.iter().enumerate().zip(program.rows().iter()) {
        let from = seen.multiplier(number) / factor(&exact.entries, row);
        dual.push_row_columns(floats, number, row, from)?;
    }
    let mut firsts: Vec<u32> = Vec::new(alloc);
    for column in 0..floats.column_count() {
        let low = floats.low_at(column);
        let high = floats.high_at(column);
        firsts.push(dual.next)?;
        if low.is_finite() && high.is_finite() {
            // The price of multipliers that are 0 is the cost, and its columns begin at 0.
            let price = if seen.is_enlarged {
                seen.price(column)
            } else {
                0.0
            };
            dual.push_price_columns(low, high, price)?;
        }
    }
    Ok((dual, firsts))
}

/// What is left of the cost of a column with both bounds, when its two columns are 0.
fn rest_of(seen: &Seen, column: usize) -> f64 {
    if seen.is_enlarged {
        0.0
    } else {
        seen.price(column)
    }
}

/// The dual of the program, with costs that are moved by a margin where a reduced cost has one sign only and isn't pinned to 0.
fn dual_of(
    alloc: Global,
    program: &ExactProgram,
    seen: &Seen,
    margin: f64,
    pinned: &[bool],
) -> Result<Dual, Memory> {
    let floats = program.floats();
    let (mut dual, firsts) = dual_columns(alloc, program, seen)?;
    let turned = Turned::of(alloc, floats)?;
    for column in 0..floats.column_count() {
        let low = floats.low_at(column).is_finite();
        let high = floats.high_at(column).is_finite();
        let cost = seen.price(column);
        let (mut entries, by) = priced(alloc, &dual.parts, turned.column(column), margin)?;
        if low && high {
            let first = place_in(&firsts, column);
            for at in [first, first.saturating_add(1)] {
                entries.push(Entry { at, value: 1.0 })?;
            }
            let rest = rest_of(seen, column);
            dual.program.push_row(entries, rest, rest)?;
        } else if low == high || is_pinned(pinned, column) {
            dual.program.push_row(entries, cost, cost)?;
        } else if low {
            dual.program
                .push_row(entries, f64::NEG_INFINITY, cost - by)?;
        } else {
            dual.program.push_row(entries, cost + by, f64::INFINITY)?;
        }
    }
    Ok(dual)
}

/// The dual that asks how far costs can be moved: of each reduced cost with one sign a column takes back a part of its margin. The places
/// of these columns come with it, 0 for none.
fn elastic(
    alloc: Global,
    program: &ExactProgram,
    seen: &Seen,
    margin: f64,
) -> Result<(FloatProgram, Vec<u32>), Memory> {
    let floats = program.floats();
    let (columns, firsts) = dual_columns(alloc, program, seen)?;
    let Dual {
        program: own,
        parts,
        next,
    } = columns;
    let mut dual = Dual {
        program: FloatProgram::new(alloc),
        parts,
        next: 0,
    };
    for place in 0..next as usize {
        dual.push(own.low_at(place), own.high_at(place), 0.0)?;
    }
    let mut backs: Vec<u32> = Vec::new(alloc);
    let mut rows: Vec<Vec<Entry<f64>>> = Vec::new(alloc);
    let turned = Turned::of(alloc, floats)?;
    for column in 0..floats.column_count() {
        let low = floats.low_at(column).is_finite();
        let high = floats.high_at(column).is_finite();
        let (mut entries, by) = priced(alloc, &dual.parts, turned.column(column), margin)?;
        backs.push(if low == high { 0 } else { dual.next })?;
        if low && high {
            let first = place_in(&firsts, column);
            for at in [first, first.saturating_add(1)] {
                entries.push(Entry { at, value: 1.0 })?;
            }
        } else if low != high {
            dual.push_back_column(&mut entries, if low { -by } else { by })?;
        }
        rows.push(entries)?;
    }
    for (column, entries) in rows.iter().enumerate() {
        let low = floats.low_at(column).is_finite();
        let high = floats.high_at(column).is_finite();
        let (_, by) = priced(alloc, &dual.parts, turned.column(column), margin)?;
        let cost = seen.price(column);
        let (least, most) = match (low, high) {
            (true, true) => (rest_of(seen, column), rest_of(seen, column)),
            (false, false) => (cost, cost),
            (true, false) => (f64::NEG_INFINITY, cost - by),
            (false, true) => (cost + by, f64::INFINITY),
        };
        let entries = Vec::from_slice(alloc, entries)?;
        dual.program.push_row(entries, least, most)?;
    }
    Ok((dual.program, backs))
}

/// Which reduced costs can't be moved and are pinned to 0; none where that isn't found.
fn pins(
    alloc: Global,
    program: &ExactProgram,
    seen: &Seen,
    margin: f64,
    work: &mut u64,
) -> Result<Option<Vec<bool>>, Memory> {
    let (dual, backs) = elastic(alloc, program, seen, margin)?;
    let mut standings: Vec<Standing> = Vec::new(alloc);
    let ended = solved(alloc, &dual, &mut standings, work)?;
    if ended.end != End::Optimal {
        return Ok(None);
    }
    let mut all = Vec::new(alloc);
    for back in &backs {
        all.push(*back > 0 && float_at(&ended.point, *back as usize) > 0.001)?;
    }
    Ok(Some(all))
}

/// A multiplier on the side of 0 on which its row has an end.
fn on_side(low: Option<Frac>, high: Option<Frac>, value: Frac) -> Frac {
    let is_kept = match value.sign() {
        0 => true,
        1 => low.is_some(),
        _ => high.is_some(),
    };
    if is_kept { value } else { Frac::zero() }
}

/// Whether the multiplier of a row that is multiplied by a factor may be moved: the row has both ends, or it is far from 0.
fn may_move(low: Option<Frac>, high: Option<Frac>, value: Frac, factor: f64) -> bool {
    (low.is_some() && high.is_some()) || float(value).abs() > INSIDE * smallness(factor)
}

/// The reduced costs of columns without bounds and of those that are pinned, as equations over the multipliers that may be moved; none
/// where one passes.
fn equations(
    alloc: Global,
    program: &ExactProgram,
    multipliers: &[Frac],
    pinned: &[bool],
) -> Result<Option<Equations>, Memory> {
    let Some(prices) = reduced_costs(alloc, program, multipliers)? else {
        return Ok(None);
    };
    let mut all = Equations {
        rows: Vec::new(alloc),
        rests: Vec::new(alloc),
    };
    let mut places: Vec<u32> = Vec::new(alloc);
    let mut count: u32 = 0;
    for (place, column) in program.columns().iter().enumerate() {
        let is_free = column.low.is_none() && column.high.is_none();
        if is_free || is_pinned(pinned, place) {
            places.push(count)?;
            count = count.saturating_add(1);
            all.rows.push(Vec::new(alloc))?;
            all.rests.push(at(&prices, place))?;
        } else {
            places.push(u32::MAX)?;
        }
    }
    let mut number: u32 = 0;
    for (row, scaled) in program.rows().iter().zip(program.floats().rows.iter()) {
        let by = factor(&row.entries, scaled);
        if may_move(row.low, row.high, at(multipliers, number as usize), by) {
            for entry in &row.entries {
                let column = entry.at as usize;
                if column < places.len() {
                    let place = places[column] as usize;
                    if place < all.rows.len() && !entry.value.is_zero() {
                        all.rows[place].push(Entry {
                            at: number,
                            value: entry.value,
                        })?;
                    }
                }
            }
        }
        number = number.saturating_add(1);
    }
    Ok(Some(all))
}

/// The multipliers of floats, rounded.
fn rounded_multipliers(
    alloc: Global,
    program: &ExactProgram,
    seen: &Seen,
    parts: &[Part],
    values: &[f64],
) -> Result<Vec<Frac>, Memory> {
    let floats = program.floats();
    let mut all = Vec::new(alloc);
    for ((number, row), scaled) in program.rows().iter().enumerate().zip(floats.rows.iter()) {
        let part = part_at(parts, number);
        let mut sum = 0.0;
        for more in 0..part.count {
            sum += float_at(values, part.first.saturating_add(more) as usize);
        }
        let value = seen.number(number, sum, factor(&row.entries, scaled));
        all.push(on_side(row.low, row.high, value))?;
    }
    Ok(all)
}

/// The multipliers where costs are moved by this margin; none where a reduced cost has the wrong side, and a wider margin may do.
fn multipliers_at(
    alloc: Global,
    program: &ExactProgram,
    seen: &Seen,
    margin: f64,
    standings: &mut Vec<Standing>,
    work: &mut u64,
) -> Result<Option<Vec<Frac>>, Memory> {
    let mut pinned: Vec<bool> = Vec::new(alloc);
    let mut dual = dual_of(alloc, program, seen, margin, &pinned)?;
    let mut ended = solved(alloc, &dual.program, standings, work)?;
    if ended.end != End::Optimal {
        match pins(alloc, program, seen, margin, work)? {
            Some(found) => pinned = found,
            None => return Ok(None),
        }
        dual = dual_of(alloc, program, seen, margin, &pinned)?;
        ended = solved(alloc, &dual.program, standings, work)?;
    }
    if ended.end != End::Optimal {
        return Ok(None);
    }
    let mut all = rounded_multipliers(alloc, program, seen, &dual.parts, &ended.point)?;
    let Some(equations) = equations(alloc, program, &all, &pinned)? else {
        return Ok(None);
    };
    let Some(moves) = equations.moves(alloc, program.row_count(), work)? else {
        return Ok(None);
    };
    if moved(&mut all, &moves) && are_good(alloc, program, &all)? {
        Ok(Some(all))
    } else {
        Ok(None)
    }
}

/// The multipliers by one margin after the other, a few at most.
fn by_margins(
    alloc: Global,
    program: &ExactProgram,
    seen: &Seen,
    turns: u32,
    standings: &mut Vec<Standing>,
    work: &mut u64,
) -> Result<Option<Vec<Frac>>, Memory> {
    let mut margin = seen.margin();
    for _turn in 0..turns {
        if *work == 0 {
            return Ok(None);
        }
        if let Some(found) = multipliers_at(alloc, program, seen, margin, standings, work)? {
            return Ok(Some(found));
        }
        margin *= 16.0;
    }
    Ok(None)
}

/// Multipliers near the optimal ones; none where none are found within the work that is left. `standings` are those of the optimal basis
/// of floats, where that is known. What floats find is looked at enlarged, so that the margin may be small; where that doesn't do, as it
/// is.
pub fn near_multipliers(
    alloc: Global,
    program: &ExactProgram,
    standings: &[Standing],
    work: &mut u64,
) -> Result<Option<Vec<Frac>>, Memory> {
    let whole = Seen::whole(alloc, program)?;
    let none: Vec<bool> = Vec::new(alloc);
    let dual = dual_of(alloc, program, &whole, 0.0, &none)?;
    let mut start = dual_standings(alloc, program, standings)?;
    let first = solved(alloc, &dual.program, &mut start, work)?;
    if first.end == End::Optimal {
        let multipliers = rounded_multipliers(alloc, program, &whole, &dual.parts, &first.point)?;
        if let Some(seen) = Seen::around(alloc, program, multipliers)? {
            if let Some(found) = by_margins(alloc, program, &seen, FINE_TURNS, &mut start, work)? {
                return Ok(Some(found));
            }
        }
    }
    by_margins(alloc, program, &whole, TURNS, &mut start, work)
}
