//! The numbers of cuts as floats, by which those are chosen that become rows.

use basis_factors::Entry;
use cut_defs::CutKind;

/// How far a number is from 0.
pub fn distance(number: f64) -> f64 {
    if number < 0.0 { -number } else { number }
}

/// The number at a place, 0 where there is none.
pub fn float_at(numbers: &[f64], place: usize) -> f64 {
    if place < numbers.len() {
        numbers[place]
    } else {
        0.0
    }
}

/// A cut about a child in floats. Its entries over the own columns stand in its child's list.
#[derive(Clone, Copy)]
pub struct FloatCut {
    pub kind: CutKind,
    /// Whether the program takes it.
    pub is_taken: bool,
    /// The constant, with the terms of the trial.
    pub base: f64,
    /// How large what was added up is.
    pub size: f64,
    /// Where its entries end.
    pub end: usize,
    /// Which of the cuts that are rows it is.
    pub row: Option<usize>,
}

/// The cuts about a child in floats.
#[derive(Drop)]
pub struct FloatCuts {
    pub entries: Vec<Entry<f64>>,
    pub cuts: Vec<FloatCut>,
}

/// A sum and how large what was added up is.
#[derive(Clone, Copy)]
pub struct Sum {
    pub value: f64,
    pub size: f64,
}

/// The entries from one place to another.
fn part(entries: &[Entry<f64>], from: usize, end: usize) -> &[Entry<f64>] {
    if from <= end && end <= entries.len() {
        &entries[from..end]
    } else {
        &[]
    }
}

/// The value of a cut at a point, whose entries begin here.
pub fn value_at(cut: &FloatCut, entries: &[Entry<f64>], from: usize, point: &[f64]) -> Sum {
    let mut sum = Sum {
        value: cut.base,
        size: cut.size,
    };
    for entry in part(entries, from, cut.end) {
        let product = entry.value * float_at(point, entry.at as usize);
        sum.value += product;
        sum.size += distance(product);
    }
    sum
}
