//! The reports of the programs that are compared.
ghost use Rattle.std.specs.Prelude.{◌≡◌, ◌<◌, IfOk, MatchResult, Ok, Result, length, get_or, option_map};
ghost use Rattle.rationals.specs.Passes.{Operation};
ghost use Rattle.frac128.specs.Faults.{FaultOf};
ghost use Rattle.scen_defs.specs.Program.{content, scenarios_content, Program as ProgramOf};
ghost use Rattle.pass_core.specs.declared.budget.Budget.{Budget};
ghost use Rattle.nested_method.specs.Stands.{HasFewNodes};
ghost use Rattle.smps_session.specs.declared.whole.StatedLimits.{StatedLimits};
ghost use Rattle.edit_defs.specs.After.{no_scenario};
ghost use Rattle.value_measures.specs.Reports.{AreOfScenarios, IsOfFixed, IsOfMeans, IsOfScenario};
ghost use Rattle.value_measures.specs.Reports.{budget_of_limits, means_of, policy_of_means};
ghost use Rattle.value_measures.specs.Numbers.{if_optimal};

use crate::printed::{PrintedReport, ReportLimits, ScenarioReport, printed_report};
use frac128::{ArithmeticFault, Memory, Passed};
use run_watch::Watch;
use scen_copies::copied_name;
use scen_defs::{Finding, Program, Values};
use scen_tree::Tree;
use std::alloc::Global;
use value_programs::{fixed_program, mean_program, scenario_program};

/// The report of the program in which the scenario at this place is the only one.
fn scenario_report<W: Watch>(
    alloc: Global,
    program: &Program,
    place: usize,
    limits: ReportLimits,
    watch: &mut W,
) -> Result<ScenarioReport, Memory>
    requires { place < length program.now.scenarios.items }
    ensures { IfOk result (IsOfScenario (budget_of_limits limits) limits.stated (content program.now)
        (get_or (scenarios_content program.now.scenarios.items) place no_scenario)) }
{
    let only = scenario_program(alloc, program, place)?;
    let printed = printed_report(alloc, &only, limits, watch)?;
    let scenario = &program.scenarios[place];
    let name = copied_name(alloc, &scenario.name)?;
    Ok(ScenarioReport {
        name,
        probability: scenario.probability,
        printed,
    })
}

/// The reports of all scenarios, each by itself, in their order.
pub(crate) fn scenario_reports<W: Watch>(
    alloc: Global,
    program: &Program,
    limits: ReportLimits,
    watch: &mut W,
) -> Result<Vec<ScenarioReport>, Memory>
    ensures { IfOk result (λ all. AreOfScenarios (budget_of_limits limits) limits.stated (content program.now)
        (content program.now).scenarios all.items) }
{
    let mut all = Vec::new(alloc);
    for place in 0..program.scenarios.len() {
        let report = scenario_report(alloc, program, place, limits, watch)?;
        all.push(report)?;
    }
    Ok(all)
}

/// The program of the means.
fn means(alloc: Global, program: &Program) -> Result<Program, ArithmeticFault>
    requires { HasFewNodes (content program.now) }
    ensures { MatchResult result (λ means. means_of (content program.now) ≡ Ok (content means))
        (FaultOf (means_of (content program.now))) }
{
    let tree = Tree::of(alloc, program)?;
    mean_program(alloc, program, &tree)
}

/// A report of the program of the means.
fn solved_means<W: Watch>(
    alloc: Global,
    means: &Program,
    limits: ReportLimits,
    watch: &mut W,
) -> Result<Result<PrintedReport, Passed>, Memory>
    ensures { IfOk result (IsOfMeans (budget_of_limits limits) limits.stated (Ok (content means.now))) }
{
    let printed = printed_report(alloc, means, limits, watch)?;
    Ok(Ok(printed))
}

/// The operation that passes, where there is no program of the means.
fn no_means(fault: ArithmeticFault) -> Result<Result<PrintedReport, Passed>, Memory>
    ensures { (budget : Budget) (stated : StatedLimits) (walk : Result ProgramOf Operation) → FaultOf walk fault
        → IfOk result (IsOfMeans budget stated walk) }
{
    match fault {
        ArithmeticFault::Passed(passed) => Ok(Err(passed)),
        ArithmeticFault::Memory => Err(Memory),
    }
}

/// The report of the program of the means, or the operation that passes in its numbers.
pub(crate) fn means_report<W: Watch>(
    alloc: Global,
    program: &Program,
    limits: ReportLimits,
    watch: &mut W,
) -> Result<Result<PrintedReport, Passed>, Memory>
    requires { HasFewNodes (content program.now) }
    ensures { IfOk result (IsOfMeans (budget_of_limits limits) limits.stated (means_of (content program.now))) }
{
    match means(alloc, program) {
        Ok(means) => solved_means(alloc, &means, limits, watch),
        Err(fault) => no_means(fault),
    }
}

/// The policy of the means, where their report is OPTIMAL.
fn policy_of_means(means: &Result<PrintedReport, Passed>) -> Option<&Values>
    ensures { option_map (λ policy. policy.now) result ≡ policy_of_means means.now }
{
    match means {
        Ok(printed) => optimal_policy(printed),
        Err(_) => None,
    }
}

fn optimal_policy(printed: &PrintedReport) -> Option<&Values>
    ensures { option_map (λ policy. policy.now) result ≡ if_optimal printed.now.report.finding printed.now.report.policy }
{
    match printed.report.finding {
        Finding::Optimal => printed.report.policy.as_ref(),
        Finding::Infeasible | Finding::Unbounded => None,
        Finding::OpenSolves(_) | Finding::OpenPivots(_) | Finding::OpenPassed(_, _) => None,
    }
}

/// The report of the program whose first period is decided as for the means, where their report is OPTIMAL.
pub(crate) fn fixed_report<W: Watch>(
    alloc: Global,
    program: &Program,
    means: &Result<PrintedReport, Passed>,
    limits: ReportLimits,
    watch: &mut W,
) -> Result<Option<PrintedReport>, Memory>
    ensures { IfOk result (IsOfFixed (budget_of_limits limits) limits.stated (content program.now) (policy_of_means means.now)) }
{
    let Some(policy) = policy_of_means(means) else {
        return Ok(None);
    };
    let held = fixed_program(alloc, program, policy)?;
    let printed = printed_report(alloc, &held, limits, watch)?;
    Ok(Some(printed))
}
