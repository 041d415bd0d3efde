//! What is measured of a program.
ghost use Rattle.std.specs.Prelude.{◌≡◌, IfOk};
ghost use Rattle.scen_defs.specs.Program.{content};
ghost use Rattle.nested_method.specs.Stands.{HasFewNodes};
ghost use Rattle.value_measures.specs.Measured.{IsMeasured};

use crate::numbers::ValueNumbers;
use crate::printed::{PrintedReport, ReportLimits, ScenarioReport, printed_report};
use crate::reports::{fixed_report, means_report, scenario_reports};
use frac128::{Memory, Passed};
use run_watch::Watch;
use scen_defs::Program;
use smps_session::StatedLimits;
use std::alloc::Global;

/// What is measured of a program.
#[derive(Drop)]
pub struct Measures {
    /// The report of the program (RP).
    pub whole: PrintedReport,
    /// Those of its scenarios, each by itself, in their order (WS).
    pub scenarios: Vec<ScenarioReport>,
    /// That of the program of the means (EV); or the first operation that passes in its numbers.
    pub means: Result<PrintedReport, Passed>,
    /// That of the program whose first period is decided as for the means (EEV); there is none where the report of the means isn't OPTIMAL,
    /// or isn't there.
    pub fixed: Option<PrintedReport>,
    /// What they come to.
    pub numbers: ValueNumbers,
}

/// Solves the program, that of each scenario by itself, that of the means, and the one whose first period is decided as for the means, with
/// so many solves of nodes and so many pivots in each at most for each of them; and tells what the reports come to.
pub fn measure<W: Watch>(
    alloc: Global,
    program: &Program,
    solves: u64,
    pivots: u64,
    stated: StatedLimits,
    watch: &mut W,
) -> Result<Measures, Memory>
    requires { HasFewNodes (content program.now) }
    ensures { IfOk result (IsMeasured (record { solves = solves; pivots = pivots }) stated (content program.now)) }
{
    let limits = ReportLimits {
        solves,
        pivots,
        stated,
    };
    let whole = printed_report(alloc, program, limits, watch)?;
    let scenarios = scenario_reports(alloc, program, limits, watch)?;
    let means = means_report(alloc, program, limits, watch)?;
    let fixed = fixed_report(alloc, program, &means, limits, watch)?;
    let numbers = ValueNumbers::of(&whole, &scenarios, &means, &fixed);
    Ok(Measures {
        whole,
        scenarios,
        means,
        fixed,
        numbers,
    })
}
