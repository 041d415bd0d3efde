//! The ratio test.
ghost use Rattle.std.specs.Prelude.{◌≡◌, None};
ghost use Rattle.lp_defs.specs.Path.{choose, is_better, leaving, has_above_zero};

use crate::entries::over;
use crate::row::Row;
use crate::sign::is_above_zero;
use frac128::{Frac, Passed};
use std::cmp::Ordering;
use std::marker::Model;

/// A row that the ratio test would choose: its index, its quotient and its basic column.
#[derive(Clone, Copy)]
pub struct Candidate {
    pub index: usize,
    pub ratio: Frac,
    pub basic: u64,
}

impl Model for Candidate {
    ghost use Rattle.lp_defs.specs.Path.{Candidate};

    ghost Value = { Candidate };

    ghost view = { λ c. record { index = c.index; ratio = c.ratio; basic = c.basic } };

    ghost inverse = { λ c. record { index = c.index; ratio = c.ratio; basic = c.basic } };
}

/// The lesser quotient is better, among equals the lesser basic column.
fn is_better(one: &Candidate, other: &Candidate) -> bool
    ensures { result ≡ is_better one.now other.now }
{
    match one.ratio.cmp(&other.ratio) {
        Ordering::Less => true,
        Ordering::Equal => one.basic < other.basic,
        Ordering::Greater => false,
    }
}

fn choose(best: Option<Candidate>, next: Candidate) -> Option<Candidate>
    ensures { result ≡ choose best next }
{
    match best {
        None => Some(next),
        Some(held) => {
            if is_better(&next, &held) {
                Some(next)
            } else {
                Some(held)
            }
        }
    }
}

/// The row that bounds a column first.
#[tactic(auto, using(crate::proofs::Signs::above_is_nonzero))]
pub fn leave(rows: &[Row], column: u64) -> Result<Option<Candidate>, Passed>
    ensures { result ≡ leaving column rows.now 0 None }
{
    let mut best = None;
    for index in 0..rows.len() {
        let row = &rows[index];
        let value = row.line().value_at(column);
        if is_above_zero(value) {
            let ratio = over(row.line().right(), value)?;
            let basic = row.basic();
            best = choose(
                best,
                Candidate {
                    index,
                    ratio,
                    basic,
                },
            );
        }
    }
    Ok(best)
}

/// Whether a row bounds a column.
pub fn has_above_zero(rows: &[Row], column: u64) -> bool
    ensures { result ≡ has_above_zero column rows.now }
{
    for row in rows {
        if is_above_zero(row.line().value_at(column)) {
            return true;
        }
    }
    false
}
