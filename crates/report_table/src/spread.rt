//! The costs of all scenarios: their mean, and what they don't pass with a given probability.
use crate::table::Table;
use frac128::{Frac, Memory};
use report_values::Amount;
use std::alloc::Global;

/// The cost of a scenario, and how likely that is.
#[derive(Clone, Copy, Debug)]
pub struct CostStep {
    pub cost: Frac,
    pub probability: Frac,
}

/// One of the numbers that the costs come to.
#[derive(Clone, Copy, Debug)]
pub struct CostLine {
    /// Its name.
    pub name: &'static str,
    /// What it is, in words.
    pub words: &'static str,
    pub amount: Amount,
}

/// The costs of all scenarios, rising; none where one isn't known.
pub fn cost_steps(alloc: Global, table: &Table<'_>) -> Result<Option<Vec<CostStep>>, Memory> {
    let mut steps = Vec::new(alloc);
    for (place, scenario) in table.program.scenarios.iter().enumerate() {
        match table.values.cost(place) {
            Amount::Known(cost) => {
                let probability = scenario.probability;
                steps.push(CostStep { cost, probability })?;
            }
            Amount::Absent | Amount::Passed => return Ok(None),
        }
    }
    steps.sort_by_key(|step| step.cost)?;
    Ok(Some(steps))
}

/// The sum of all costs times their probabilities.
fn mean(steps: &[CostStep]) -> Amount {
    let mut sum = Amount::Known(Frac::zero());
    for step in steps {
        let product = Amount::Known(step.cost).times(&Amount::Known(step.probability));
        sum = sum.plus(&product);
    }
    sum
}

/// The least cost that isn't passed with at least so many percent of probability. The costs rise.
fn percentile(steps: &[CostStep], percent: i64) -> Amount {
    let hundred = Amount::Known(Frac::from_int(100));
    let wanted = Frac::from_int(percent);
    let mut sum = Amount::Known(Frac::zero());
    for step in steps {
        sum = sum.plus(&Amount::Known(step.probability));
        match sum.times(&hundred) {
            Amount::Known(reached) => {
                if reached >= wanted {
                    return Amount::Known(step.cost);
                }
            }
            Amount::Absent | Amount::Passed => return Amount::Passed,
        }
    }
    Amount::Absent
}

/// A number by its name.
fn line(name: &'static str, words: &'static str, amount: &Amount) -> CostLine {
    CostLine {
        name,
        words,
        amount: *amount,
    }
}

/// The four numbers of known costs, or the same word for all of them.
fn lines_of(mean: &Amount, low: &Amount, middle: &Amount, high: &Amount) -> [CostLine; 4] {
    [
        line("mean", "the costs times their probabilities", mean),
        line(
            "P10",
            "the least cost that is not passed with a probability of 10 percent or more",
            low,
        ),
        line("P50", "the same with 50 percent", middle),
        line("P90", "the same with 90 percent", high),
    ]
}

/// The four numbers of these costs, which rise.
fn lines_of_steps(steps: &[CostStep]) -> [CostLine; 4] {
    let mean = mean(steps);
    let low = percentile(steps, 10);
    let middle = percentile(steps, 50);
    let high = percentile(steps, 90);
    lines_of(&mean, &low, &middle, &high)
}

/// The same word for all four.
fn lines_without(word: &Amount) -> [CostLine; 4] {
    lines_of(word, word, word, word)
}

/// What stands for the costs where one of them isn't known.
fn unknown(table: &Table<'_>) -> Amount {
    if table.report.policy.is_some() {
        Amount::Passed
    } else {
        Amount::Absent
    }
}

/// What the costs of the scenarios come to, of what `cost_steps` gives: none where the report has no policy.
pub fn cost_lines(table: &Table<'_>, steps: &Option<Vec<CostStep>>) -> [CostLine; 4] {
    match steps {
        Some(steps) => lines_of_steps(steps),
        None => lines_without(&unknown(table)),
    }
}
