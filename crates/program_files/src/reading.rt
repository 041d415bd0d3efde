//! Reads the three texts of a program.
ghost use Rattle.std.specs.Prelude.{◌≡◌, ◌≤◌, Some, IfSome, length};
ghost use Rattle.refusals.specs.declared.cause.Cause.{Cause};
ghost use Rattle.stoch_defs.specs.Random.{stoch_content};
ghost use Rattle.time_defs.specs.Periods.{stages};
ghost use Rattle.input_files.specs.Fetched.{file_limit};
ghost use Rattle.input_files.specs.Unfetched.{texts_view, given_bytes};
ghost use Rattle.program_files.specs.Meant.{AreWithin, MeansCore, MeansPeriods, MeansRandom};
ghost use Rattle.program_files.specs.Refused.{build_file};
ghost use Rattle.program_files.specs.Views.{GivesPeriods, GivesRandom, MeansOrRefused, unread_of, unbuilt_of};

use core_defs::{Cause, Core, ReadFail, Refusal};
use frac128::Memory;
use input_files::{FileKind, Texts};
use mps_core::read_core;
use scen_defs::Program;
use smps_build::BuildFault;
use smps_stoch::read_stoch;
use smps_time::{Periods, read_time};
use std::alloc::Global;
use stoch_defs::Stoch;
use tree_build::build;

/// Why the texts give no program, or why those beside it give no script or no reports.
#[derive(Drop)]
pub enum Unread {
    /// This file has this fault. The core is there where it was read and gives no program: its names are those that a cause tells by
    /// number.
    Refused(FileKind, Refusal, Option<Core>),
    /// Memory was wanting.
    Memory,
}

/// The periods of a core: those of the time file, or a single one.
fn read_periods(alloc: Global, text: &Option<Vec<u8>>, core: &Core) -> Result<Periods, ReadFail>
    requires { IfSome (given_bytes text.now) (λ bytes. length bytes ≤ file_limit) }
    ensures { GivesPeriods core.now (given_bytes text.now) result }
{
    match text {
        Some(text) => read_time(alloc, text, core),
        None => match Periods::single(alloc, core) {
            Ok(periods) => Ok(periods),
            Err(Memory) => Err(ReadFail::Memory),
        },
    }
}

/// The cases of the stoch file, or none.
fn read_cases(
    alloc: Global,
    text: &Option<Vec<u8>>,
    core: &Core,
    periods: &Periods,
) -> Result<Stoch, ReadFail>
    requires { IfSome (given_bytes text.now) (λ bytes. length bytes ≤ file_limit) }
    ensures { GivesRandom core.now (stages periods.now) (given_bytes text.now) result }
{
    match text {
        Some(text) => read_stoch(alloc, text, core, periods),
        None => Ok(Stoch::Blocks(Vec::new(alloc))),
    }
}

/// What stops the reading of this file.
pub(crate) fn stopped(file: FileKind, fail: ReadFail, core: Option<Core>) -> Unread
    ensures { result ≡ unread_of file fail core }
{
    match fail {
        ReadFail::Refused(refusal) => Unread::Refused(file, refusal, core),
        ReadFail::Memory => Unread::Memory,
    }
}

/// Which file refuses a program that isn't built: the stoch file where there is one, else the core file.
fn build_file(stoch: &Option<Vec<u8>>) -> FileKind
    ensures { result ≡ build_file (given_bytes stoch.now) }
{
    match stoch {
        Some(_) => FileKind::Stoch,
        None => FileKind::Core,
    }
}

/// What stops the building of a program.
fn unbuilt(file: FileKind, fault: BuildFault, core: Core) -> Unread
    ensures { result ≡ unbuilt_of file fault core }
{
    match fault {
        BuildFault::Limit => refused_at_0(file, Cause::ScenarioLimit, core),
        BuildFault::Passed(passed) => refused_at_0(file, Cause::Passes(passed), core),
        BuildFault::Memory => Unread::Memory,
    }
}

fn refused_at_0(file: FileKind, cause: Cause, core: Core) -> Unread
    ensures { result ≡ Unread.Refused file (record { line = 0; cause = cause }) (Some core) }
{
    Unread::Refused(file, Refusal { line: 0, cause }, Some(core))
}

/// The program of a core, its periods and its cases.
fn with_cases(
    alloc: Global,
    texts: &Texts,
    core: Core,
    periods: &Periods,
    stoch: &Stoch,
) -> Result<Program, Unread>
    requires core { MeansCore texts.now.core.items core }
    requires periods { MeansPeriods core (given_bytes texts.now.time) (stages periods.now) }
    requires cases { MeansRandom core (stages periods.now) (given_bytes texts.now.stoch) (stoch_content stoch.now) }
    ensures { MeansOrRefused (texts_view texts.now) result }
{
    match build(alloc, &core, periods, stoch) {
        Ok(program) => Ok(program),
        Err(fault) => Err(unbuilt(build_file(&texts.stoch), fault, core)),
    }
}

/// The program of a core and its periods: reads the stoch file.
fn with_periods(
    alloc: Global,
    texts: &Texts,
    core: Core,
    periods: &Periods,
) -> Result<Program, Unread>
    requires within { AreWithin (texts_view texts.now) }
    requires core { MeansCore texts.now.core.items core }
    requires periods { MeansPeriods core (given_bytes texts.now.time) (stages periods.now) }
    ensures { MeansOrRefused (texts_view texts.now) result }
{
    match read_cases(alloc, &texts.stoch, &core, periods) {
        Ok(stoch) => with_cases(alloc, texts, core, periods, &stoch),
        Err(fail) => Err(stopped(FileKind::Stoch, fail, Some(core))),
    }
}

/// The program of a core: reads the time file.
fn with_core(alloc: Global, texts: &Texts, core: Core) -> Result<Program, Unread>
    requires within { AreWithin (texts_view texts.now) }
    requires core { MeansCore texts.now.core.items core }
    ensures { MeansOrRefused (texts_view texts.now) result }
{
    match read_periods(alloc, &texts.time, &core) {
        Ok(periods) => with_periods(alloc, texts, core, &periods),
        Err(fail) => Err(stopped(FileKind::Time, fail, Some(core))),
    }
}

/// The program that the texts mean; else the first fault: that of the core, then of the time file, then of the stoch file, and
/// at last that of building, which is told at line 0 of the stoch file, or of the core file where there is none. What is given
/// keeps all that programs keep (names, nodes, paths, probabilities that add up to 1), and so is a tree.
pub fn read_program(alloc: Global, texts: &Texts) -> Result<Program, Unread>
    requires { AreWithin (texts_view texts.now) }
    ensures { MeansOrRefused (texts_view texts.now) result }
{
    match read_core(alloc, &texts.core) {
        Ok(core) => with_core(alloc, texts, core),
        Err(fail) => Err(stopped(FileKind::Core, fail, None)),
    }
}
