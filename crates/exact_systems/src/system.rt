//! A square system of equations in exact numbers, with the factors of its matrix modulo the prime.

use crate::dense::{Dense, Eliminated};
use crate::lift::{Lift, lifted};
use crate::residue::Residue;
use crate::whole::{scale_of, turned, whole_row};
use basis_factors::{Entry, Factored, Factors, Matrix};
use frac128::{Frac, Memory};
use std::alloc::Global;

/// The rows over whole numbers: each was multiplied by its scale.
#[derive(Drop)]
struct WholeRows {
    rows: Vec<Vec<Entry<u128>>>,
    scales: Vec<u128>,
}

/// A square system by rows and by columns, with factors modulo the prime.
#[derive(Drop)]
struct Lifting {
    rows: Vec<Vec<Entry<u128>>>,
    columns: Vec<Vec<Entry<u128>>>,
    scales: Vec<u128>,
    factors: Factors<Residue>,
}

fn whole_rows(alloc: Global, fractions: &[Vec<Entry<Frac>>]) -> Result<Option<WholeRows>, Memory> {
    let mut all = WholeRows {
        rows: Vec::new(alloc),
        scales: Vec::new(alloc),
    };
    for row in fractions {
        let Some(scale) = scale_of(row) else {
            return Ok(None);
        };
        let Some(whole) = whole_row(alloc, row, scale)? else {
            return Ok(None);
        };
        all.rows.push(whole)?;
        all.scales.push(scale)?;
    }
    Ok(Some(all))
}

/// A column's remainders.
fn fill(residues: &mut Vec<Entry<Residue>>, column: &[Entry<u128>]) -> Result<(), Memory> {
    residues.clear();
    for entry in column {
        residues.push(Entry {
            at: entry.at,
            value: Residue::of_signed(entry.value),
        })?;
    }
    Ok(())
}

fn matrix(alloc: Global, columns: &[Vec<Entry<u128>>]) -> Result<Matrix<Residue>, Memory> {
    let mut all = Matrix::new(alloc, columns.len())?;
    let mut residues = Vec::new(alloc);
    for column in columns {
        fill(&mut residues, column)?;
        all.push_column(&residues)?;
    }
    Ok(all)
}

/// The factors of a square matrix, unless it is singular modulo the prime.
fn factors(
    alloc: Global,
    columns: &[Vec<Entry<u128>>],
) -> Result<Option<Factors<Residue>>, Memory> {
    let matrix = matrix(alloc, columns)?;
    match Factors::of(alloc, matrix)? {
        Factored::Full(factors) => Ok(Some(factors)),
        Factored::Deficient { .. } => Ok(None),
    }
}

impl Lifting {
    fn of(alloc: Global, fractions: &[Vec<Entry<Frac>>]) -> Result<Option<Lifting>, Memory> {
        let Some(WholeRows { rows, scales }) = whole_rows(alloc, fractions)? else {
            return Ok(None);
        };
        let columns = turned(alloc, &rows)?;
        let Some(factors) = factors(alloc, &columns)? else {
            return Ok(None);
        };
        Ok(Some(Lifting {
            rows,
            columns,
            scales,
            factors,
        }))
    }

    fn solve(&self, alloc: Global, right: &[Frac]) -> Result<Option<Vec<Frac>>, Memory> {
        let Some(mut lift) = Lift::of_right_sides(alloc, right, &self.scales)? else {
            return Ok(None);
        };
        lifted(alloc, &mut lift, &self.factors, &self.rows, &[])
    }

    fn solve_transposed(&self, alloc: Global, costs: &[Frac]) -> Result<Option<Vec<Frac>>, Memory> {
        let Some(mut lift) = Lift::of_costs(alloc, costs)? else {
            return Ok(None);
        };
        lifted(alloc, &mut lift, &self.factors, &self.columns, &self.scales)
    }
}

/// A square system: a small one is solved by elimination, and by digits where that passes; a larger one by digits.
#[derive(Drop)]
pub struct System {
    fractions: Vec<Vec<Entry<Frac>>>,
    dense: Option<Dense>,
    lifting: Option<Lifting>,
}

impl System {
    /// The system with these rows, each by column from 0 on, unless a number is too wide or the matrix is singular.
    pub fn of(alloc: Global, fractions: Vec<Vec<Entry<Frac>>>) -> Result<Option<System>, Memory> {
        match Dense::of(alloc, &fractions)? {
            Eliminated::Full(dense) => Ok(Some(System {
                fractions,
                dense: Some(dense),
                lifting: None,
            })),
            Eliminated::Singular => Ok(None),
            Eliminated::Nothing => {
                let lifting = Lifting::of(alloc, &fractions)?;
                if lifting.is_none() {
                    return Ok(None);
                }
                Ok(Some(System {
                    fractions,
                    dense: None,
                    lifting,
                }))
            }
        }
    }

    /// What one solve looks at.
    pub fn effort(&self) -> usize {
        match (&self.dense, &self.lifting) {
            (Some(dense), _) => dense.effort(),
            (None, Some(lifting)) => lifting.factors.entries(),
            (None, None) => 0,
        }
    }

    /// The solution of rows times x = right, by column.
    pub fn solve(&self, alloc: Global, right: &[Frac]) -> Result<Option<Vec<Frac>>, Memory> {
        if let Some(dense) = &self.dense {
            let found = dense.solved(alloc, right)?;
            if found.is_some() {
                return Ok(found);
            }
        }
        if let Some(lifting) = &self.lifting {
            return lifting.solve(alloc, right);
        }
        match Lifting::of(alloc, &self.fractions)? {
            Some(lifting) => lifting.solve(alloc, right),
            None => Ok(None),
        }
    }

    /// The solution of y times rows = costs, by row.
    pub fn solve_transposed(
        &self,
        alloc: Global,
        costs: &[Frac],
    ) -> Result<Option<Vec<Frac>>, Memory> {
        if let Some(dense) = &self.dense {
            let found = dense.solved_transposed(alloc, costs)?;
            if found.is_some() {
                return Ok(found);
            }
        }
        if let Some(lifting) = &self.lifting {
            return lifting.solve_transposed(alloc, costs);
        }
        match Lifting::of(alloc, &self.fractions)? {
            Some(lifting) => lifting.solve_transposed(alloc, costs),
            None => Ok(None),
        }
    }
}
