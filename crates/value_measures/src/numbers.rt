//! What the reports come to.
ghost use Rattle.std.specs.Prelude.{◌≡◌, Some};
ghost use Rattle.rationals.specs.Passes.{add_product_walk, then_walk};
ghost use Rattle.value_measures.specs.Numbers.{all_known, cost_of_fixed, cost_of_means, surplus, expected_cost, expected_from};
ghost use Rattle.value_measures.specs.Numbers.{first_of, least_cost, numbers_by, numbers_told, passed_in, passed_of_means, known_value};

use crate::printed::{PrintedReport, ScenarioReport};
use frac128::{Frac, Passed};
use scen_defs::{Finding, Report};

/// What the reports come to. A number isn't there where a report that it rests on isn't OPTIMAL or isn't there, where another number isn't
/// there from which it is computed, or where an operation of its own sum passes. In what `measure` gives, `information` and `model` aren't
/// below 0.
#[derive(Clone, Copy, Debug)]
pub struct ValueNumbers {
    /// The least cost of the program (RP).
    pub whole: Option<Frac>,
    /// The mean of the least costs of the scenarios, each by itself (WS): what costs are to be expected where it is known what comes.
    pub scenarios: Option<Frac>,
    /// The least cost of the program of the means (EV).
    pub means: Option<Frac>,
    /// The least cost where the first period is decided as for the means (EEV).
    pub fixed: Option<Frac>,
    /// What it is worth to know what comes: `whole` less `scenarios` (EVPI).
    pub information: Option<Frac>,
    /// What it is worth to plan for all that may come, and not for the means: `fixed` less `whole` (VSS).
    pub model: Option<Frac>,
    /// The first operation that passes 128 bits: of the means, of `scenarios`, of `information` and of `model`.
    pub passed: Option<Passed>,
}

/// The least cost that a report tells, where it is OPTIMAL.
fn least_cost(report: &Report) -> Option<Frac>
    ensures { result ≡ least_cost report.now }
{
    match report.finding {
        Finding::Optimal => report.lower,
        Finding::Infeasible | Finding::Unbounded => None,
        Finding::OpenSolves(_) | Finding::OpenPivots(_) | Finding::OpenPassed(_, _) => None,
    }
}

/// A sum with one more product, where no operation passed before.
fn with_product(sum: Result<Frac, Passed>, factor: Frac, times: Frac) -> Result<Frac, Passed>
    ensures { result ≡ then_walk sum (λ s. add_product_walk s factor times) }
{
    match sum {
        Ok(sum) => sum.add_product(factor, times),
        Err(passed) => Err(passed),
    }
}

/// The mean of the scenarios' least costs, where all have one.
fn expected_cost(scenarios: &[ScenarioReport]) -> Option<Result<Frac, Passed>>
    ensures { result ≡ expected_cost scenarios.now }
{
    let mut sum: Result<Frac, Passed> = Ok(Frac::zero());
    for scenario in scenarios {
        let Some(cost) = least_cost(&scenario.printed.report) else {
            return None;
        };
        sum = with_product(sum, scenario.probability, cost);
    }
    Some(sum)
}

fn cost_of_means(means: &Result<PrintedReport, Passed>) -> Option<Frac>
    ensures { result ≡ cost_of_means means.now }
{
    match means {
        Ok(printed) => least_cost(&printed.report),
        Err(_) => None,
    }
}

fn passed_of_means(means: &Result<PrintedReport, Passed>) -> Option<Passed>
    ensures { result ≡ passed_of_means means.now }
{
    match means {
        Ok(_) => None,
        Err(passed) => Some(*passed),
    }
}

fn cost_of_fixed(fixed: &Option<PrintedReport>) -> Option<Frac>
    ensures { result ≡ cost_of_fixed fixed.now }
{
    match fixed {
        Some(printed) => least_cost(&printed.report),
        None => None,
    }
}

/// The one less the other, where both are there.
fn surplus(one: &Option<Frac>, other: &Option<Frac>) -> Option<Result<Frac, Passed>>
    ensures { result ≡ surplus one.now other.now }
{
    match (one, other) {
        (Some(one), Some(other)) => Some(one.sub(*other)),
        _ => None,
    }
}

/// The value of a number, where it is there.
fn known_value(number: &Option<Result<Frac, Passed>>) -> Option<Frac>
    ensures { result ≡ known_value number.now }
{
    match number {
        Some(Ok(value)) => Some(*value),
        Some(Err(_)) | None => None,
    }
}

/// The operation that passes in it.
fn passed_in(number: &Option<Result<Frac, Passed>>) -> Option<Passed>
    ensures { result ≡ passed_in number.now }
{
    match number {
        Some(Err(passed)) => Some(*passed),
        Some(Ok(_)) | None => None,
    }
}

fn first_of(one: Option<Passed>, other: Option<Passed>) -> Option<Passed>
    ensures { result ≡ first_of one other }
{
    match one {
        Some(passed) => Some(passed),
        None => other,
    }
}

/// All numbers, by the costs.
fn numbers_by(
    whole: Option<Frac>,
    expected: &Option<Result<Frac, Passed>>,
    means: Option<Frac>,
    passed: Option<Passed>,
    fixed: Option<Frac>,
) -> ValueNumbers
    ensures { result ≡ numbers_by whole expected.now means passed fixed }
{
    let scenarios = known_value(expected);
    let information = surplus(&whole, &scenarios);
    let model = surplus(&fixed, &whole);
    let of_differences = first_of(passed_in(&information), passed_in(&model));
    let behind_means = first_of(passed_in(expected), of_differences);
    ValueNumbers {
        whole,
        scenarios,
        means,
        fixed,
        information: known_value(&information),
        model: known_value(&model),
        passed: first_of(passed, behind_means),
    }
}

impl ValueNumbers {
    /// Those of the reports of the program, of each scenario, of the means, and with a fixed first period.
    pub(crate) fn of(
        whole: &PrintedReport,
        scenarios: &[ScenarioReport],
        means: &Result<PrintedReport, Passed>,
        fixed: &Option<PrintedReport>,
    ) -> ValueNumbers
        ensures { result ≡ numbers_told whole.now scenarios.now means.now fixed.now }
    {
        numbers_by(
            least_cost(&whole.report),
            &expected_cost(scenarios),
            cost_of_means(means),
            passed_of_means(means),
            cost_of_fixed(fixed),
        )
    }

    /// Whether all six are there.
    pub fn all_known(&self) -> bool
        ensures { result ≡ all_known self.now }
    {
        self.whole.is_some()
            && self.scenarios.is_some()
            && self.means.is_some()
            && self.fixed.is_some()
            && self.information.is_some()
            && self.model.is_some()
    }
}
