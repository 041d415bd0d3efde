//! The commands.
ghost use Rattle.std.specs.Prelude.{◌≡◌, ◌<◌, ◌^◌, IfSome, is_some};
ghost use Rattle.std.specs.Option.{option_map};
ghost use Rattle.rationals.specs.Rational.{at_most};
ghost use Rattle.command_words.specs.Table.{value_kind};
ghost use Rattle.command_words.specs.Words.{verb_among, verb_named, number_for, number_or, number_given, is_set, budget_of};
ghost use Rattle.command_words.specs.Commands.{allows, all_allowed, are_there, is_there_if, are_absent};
ghost use Rattle.command_words.specs.Commands.{goes_with_all, go_together, are_options};
ghost use Rattle.command_words.specs.Commands.{sources_of, extent_named, extent_of, task_of, page_named, page_of, plan_of};
ghost use Rattle.command_words.specs.Commands.{form_named, form_of, report_number_of, sheet_of};
ghost use Rattle.command_words.specs.Commands.{kept_level, kept_weight, number_read, level_of, weight_of};
ghost use Rattle.command_words.specs.Commands.{measure_named, measure_of, solve_by, check_by};
ghost use Rattle.command_words.specs.Commands.{on_files, asked_with, command_with};
ghost use Rattle.command_words.specs.Views.{asked, all_given, sources_view};

use crate::flag::{Flag, has_flag};
use crate::settings::{Setting, are_once, value_with};
use crate::table::{VERBS, ValueKind};
use crate::value::number_within;
use crate::values::Values;
use frac128::{Frac, parse};

/// The first word of a command.
#[derive(Clone, Copy, Debug, PartialEq, Eq)]
pub enum Verb {
    Solve,
    Check,
    Table,
    Show,
    Flat,
    Value,
    Make,
}

/// The names of the files that a command takes.
#[derive(Clone, Copy, Debug, Drop)]
pub struct Sources<'a> {
    pub core: &'a str,
    /// Without one the program has one period.
    pub time: Option<&'a str>,
    /// Without one it has one scenario; there is none without a time file.
    pub stoch: Option<&'a str>,
    /// Without one nothing is edited.
    pub edits: Option<&'a str>,
    /// The reports that `check` and `table` take; no other command takes one.
    pub report: Option<&'a str>,
    /// A basis that `solve` takes; no other command takes one.
    pub basis: Option<&'a str>,
    /// What `value` printed; `table` takes it, and no other command.
    pub measures: Option<&'a str>,
}

/// How much may be done for a report.
#[derive(Clone, Copy, Debug, PartialEq, Eq)]
pub struct Budget {
    /// How many programs of nodes are solved.
    pub solves: u64,
    /// Whether the words state how many.
    pub solves_stated: bool,
    /// How many pivots each solve may take.
    pub pivots: u64,
    /// Whether the words state how many.
    pub pivots_stated: bool,
}

/// The forms of a report for planners.
#[derive(Clone, Copy, Debug, PartialEq, Eq)]
pub enum SheetForm {
    /// Lines for a terminal.
    Text,
    /// Comma-separated values.
    Csv,
    /// One JSON object.
    Json,
    /// A page for a browser.
    Html,
}

/// Which report of a file is shown, and in which form.
#[derive(Clone, Copy, Debug, PartialEq, Eq)]
pub struct Sheet {
    /// Counted from 1; without one it is the last.
    pub number: Option<u32>,
    pub form: SheetForm,
    /// Whether what `value` printed is shown too.
    pub with_measures: bool,
}

/// How large the one core file of `flat` may be.
#[derive(Clone, Copy, Debug, PartialEq, Eq)]
pub enum Extent {
    /// As large as each core file.
    Core,
    /// As large as a program on a tree.
    Whole,
}

/// What is made as small as it can be in place of the mean cost: the mean, weighted by `1 - weight`, and the conditional value at risk of
/// this level, weighted by `weight`.
#[derive(Clone, Copy, Debug, PartialEq, Eq)]
pub struct RiskMeasure {
    /// From 0 and below 1.
    pub level: Frac,
    /// From 0 to 1.
    pub weight: Frac,
}

/// What is done with the program that files state.
#[derive(Clone, Copy, Debug, PartialEq, Eq)]
pub enum Task {
    /// Solve it within a budget, and print the reports.
    Solve(Budget),
    /// Check reports, and print what that comes to.
    Check,
    /// Check a report, and print it for planners.
    Table(Sheet),
    /// Print it.
    Show,
    /// Print it as one core file.
    Flat(Extent),
    /// Measure what information and the stochastic model are worth, with a budget for each report.
    Value(Budget),
    /// Solve the program whose cost is a risk measure within a budget, and print the report.
    SolveRisk(RiskMeasure, Budget),
    /// Check reports of that program.
    CheckRisk(RiskMeasure),
    /// Solve the program of the files within a budget, where a basis is tried first, and print the report.
    SolveBasis(Budget),
}

/// The texts of a workload.
#[derive(Clone, Copy, Debug, PartialEq, Eq)]
pub enum Page {
    Core,
    Time,
    Stoch,
}

/// A workload that is made.
#[derive(Clone, Copy, Debug, PartialEq, Eq)]
pub struct Plan {
    /// What its costs and demands are drawn from: 0 to 65,536.
    pub start: u32,
    /// How many periods it has: 2 to 6.
    pub stages: u32,
    /// How many cases each period has behind the first: 2 to 4.
    pub branches: u32,
    /// How many items it has: 1 to 20.
    pub size: u32,
    /// The text that is printed; without one the workload is solved, and a summary is printed.
    pub page: Option<Page>,
}

/// What the words ask for.
#[derive(Clone, Copy, Debug, Drop)]
pub enum Command<'a> {
    /// A task on the program that files state.
    OnFiles { sources: Sources<'a>, task: Task },
    /// Make a workload.
    Make(Plan),
}

/// So many solves and so many pivots are allowed where the words don't say how many.
const BUDGET: u64 = 100_000;

/// The one of some commands that has this name.
fn verb_among(word: &str, verbs: &[Verb]) -> Option<Verb>
    ensures { result ≡ verb_among word.now verbs.now }
{
    for verb in verbs {
        if word == verb.row().name {
            return Some(*verb);
        }
    }
    None
}

pub(crate) fn verb_named(word: &str) -> Option<Verb>
    ensures { result ≡ verb_named word.now }
{
    verb_among(word, VERBS.as_slice())
}

/// Whether a command takes this option.
pub(crate) fn allows(verb: Verb, flag: Flag) -> bool
    ensures { result ≡ allows verb flag }
{
    let row = verb.row();
    has_flag(row.needs, flag) || has_flag(row.takes, flag)
}

fn all_allowed(verb: Verb, settings: &[Setting<'_>]) -> bool
    ensures { result ≡ all_allowed verb (all_given settings.now) }
{
    for setting in settings {
        if !allows(verb, setting.flag) {
            return false;
        }
    }
    true
}

/// Whether these options are there.
fn are_there(settings: &[Setting<'_>], flags: &[Flag]) -> bool
    ensures { result ≡ are_there (all_given settings.now) flags.now }
{
    for flag in flags {
        if value_with(settings, *flag).is_none() {
            return false;
        }
    }
    true
}

/// Whether the option is there without which one isn't taken, where there is one.
fn is_there_if(settings: &[Setting<'_>], flag: Option<Flag>) -> bool
    ensures { result ≡ is_there_if (all_given settings.now) flag }
{
    match flag {
        None => true,
        Some(flag) => value_with(settings, flag).is_some(),
    }
}

/// Whether none of these options is there.
fn are_absent(settings: &[Setting<'_>], flags: &[Flag]) -> bool
    ensures { result ≡ are_absent (all_given settings.now) flags.now }
{
    for flag in flags {
        if value_with(settings, *flag).is_some() {
            return false;
        }
    }
    true
}

/// Whether an option is there with the one that it needs, and without those beside which it isn't taken.
fn goes_with_all(settings: &[Setting<'_>], flag: Flag) -> bool
    ensures { result ≡ goes_with_all (all_given settings.now) flag }
{
    let row = flag.row();
    is_there_if(settings, row.with) && are_absent(settings, row.without)
}

/// Whether that is so for each of the options.
fn go_together(settings: &[Setting<'_>]) -> bool
    ensures { result ≡ go_together (all_given settings.now) (all_given settings.now) }
{
    for setting in settings {
        if !goes_with_all(settings, setting.flag) {
            return false;
        }
    }
    true
}

/// Whether these are options of a command, each of them once, with all that it needs.
fn are_options(verb: Verb, settings: &[Setting<'_>]) -> bool
    ensures { result ≡ are_options verb (all_given settings.now) }
{
    all_allowed(verb, settings)
        && are_once(settings)
        && are_there(settings, verb.row().needs)
        && go_together(settings)
}

/// The names of the files.
fn named_sources<'a, V: Values<'a>>(values: &V) -> Option<Sources<'a>>
    ensures { option_map sources_view result ≡ sources_of (V.values values.now) }
{
    let core = values.value(Flag::Core)?;
    Some(Sources {
        core,
        time: values.value(Flag::Time),
        stoch: values.value(Flag::Stoch),
        edits: values.value(Flag::Edits),
        report: values.value(Flag::Report),
        basis: values.value(Flag::Basis),
        measures: values.value(Flag::Measures),
    })
}

/// The number of an option's value, where it is one within the option's range.
fn number_for(flag: Flag, value: &str) -> Option<u64>
    ensures number { result ≡ number_for (value_kind flag) value.now }
    ensures within { IfSome result (λ number. number < 2 ^ 32) }
{
    match flag.row().kind {
        ValueKind::Number(least, most) => {
            number_within(value.as_bytes(), least as u64, most as u64)
        }
        ValueKind::File | ValueKind::Page | ValueKind::Form | ValueKind::Yes => None,
        ValueKind::Level | ValueKind::Weight => None,
    }
}

/// The number that an option has; `absent` where the option isn't there.
fn number_or<'a, V: Values<'a>>(values: &V, flag: Flag, absent: u64) -> Option<u64>
    ensures { result ≡ number_or absent flag (V.values values.now flag) }
{
    match values.value(flag) {
        None => Some(absent),
        Some(value) => number_for(flag, value),
    }
}

/// The number that an option has; none where the option isn't there.
fn number_given<'a, V: Values<'a>>(values: &V, flag: Flag) -> Option<u32>
    ensures { result ≡ number_given flag (V.values values.now flag) }
{
    let value = values.value(flag)?;
    let number = number_for(flag, value)?;
    Some(number as u32)
}

/// Whether an option that stands alone is there; none where it has another value than `YES`.
fn is_set<'a, V: Values<'a>>(values: &V, flag: Flag) -> Option<bool>
    ensures { result ≡ is_set (V.values values.now flag) }
{
    match values.value(flag) {
        None => Some(false),
        Some("yes") => Some(true),
        Some(_) => None,
    }
}

/// How much may be done for a report. With another value of `--workers` or `--quiet` than these may have the words are no command; what
/// they ask, `PlainWords` says.
fn budget_given<'a, V: Values<'a>>(values: &V) -> Option<Budget>
    ensures { result ≡ budget_of (V.values values.now) }
{
    let solves = number_or(values, Flag::Solves, BUDGET)?;
    let pivots = number_or(values, Flag::Pivots, BUDGET)?;
    let _workers = number_or(values, Flag::Workers, 1)?;
    let _quiet = is_set(values, Flag::Quiet)?;
    Some(Budget {
        solves,
        solves_stated: values.value(Flag::Solves).is_some(),
        pivots,
        pivots_stated: values.value(Flag::Pivots).is_some(),
    })
}

/// The form of that name.
fn form_named(word: &str) -> Option<SheetForm>
    ensures { result ≡ form_named word.now }
{
    match word {
        "text" => Some(SheetForm::Text),
        "csv" => Some(SheetForm::Csv),
        "json" => Some(SheetForm::Json),
        "html" => Some(SheetForm::Html),
        _ => None,
    }
}

/// The form that is asked for; none where the word is no form's.
fn form_given<'a, V: Values<'a>>(values: &V) -> Option<SheetForm>
    ensures { result ≡ form_of (V.values values.now) }
{
    match values.value(Flag::Form) {
        None => Some(SheetForm::Text),
        Some(word) => form_named(word),
    }
}

/// The number of the report that is asked for, if one is; none where the word is no such number.
fn report_number<'a, V: Values<'a>>(values: &V) -> Option<Option<u32>>
    ensures { result ≡ report_number_of (V.values values.now) }
{
    match values.value(Flag::Number) {
        None => Some(None),
        Some(word) => {
            let number = number_for(Flag::Number, word)?;
            Some(Some(number as u32))
        }
    }
}

/// Which report is shown, and how.
fn sheet_given<'a, V: Values<'a>>(values: &V) -> Option<Sheet>
    ensures { result ≡ sheet_of (V.values values.now) }
{
    let number = report_number(values)?;
    let form = form_given(values)?;
    let with_measures = values.value(Flag::Measures).is_some();
    Some(Sheet {
        number,
        form,
        with_measures,
    })
}

fn extent_named(word: &str) -> Option<Extent>
    ensures { result ≡ extent_named word.now }
{
    match word {
        "yes" => Some(Extent::Whole),
        _ => None,
    }
}

/// How large one core file may be; none where the option has another value than `YES`.
fn extent_given<'a, V: Values<'a>>(values: &V) -> Option<Extent>
    ensures { result ≡ extent_of (V.values values.now) }
{
    match values.value(Flag::Whole) {
        None => Some(Extent::Core),
        Some(word) => extent_named(word),
    }
}

/// The number that a word is, as numbers of files are read; none of any other word.
fn number_read(word: &str) -> Option<Frac>
    ensures { result ≡ number_read word.now }
{
    match parse(word.as_bytes()) {
        Ok(number) => Some(number),
        Err(_) => None,
    }
}

fn is_at_most(one: Frac, other: Frac) -> bool
    ensures { result ≡ at_most one other }
{
    one <= other
}

/// A number that is from 0 and below 1.
fn kept_level(number: Frac) -> Option<Frac>
    ensures { result ≡ kept_level number }
{
    if is_at_most(Frac::zero(), number) && !is_at_most(Frac::one(), number) {
        Some(number)
    } else {
        None
    }
}

/// The level that a word is.
fn level_of(word: &str) -> Option<Frac>
    ensures { result ≡ level_of word.now }
{
    let number = number_read(word)?;
    kept_level(number)
}

/// A number that is from 0 to 1.
fn kept_weight(number: Frac) -> Option<Frac>
    ensures { result ≡ kept_weight number }
{
    if is_at_most(Frac::zero(), number) && is_at_most(number, Frac::one()) {
        Some(number)
    } else {
        None
    }
}

/// The weight that a word is.
fn weight_of(word: &str) -> Option<Frac>
    ensures { result ≡ weight_of word.now }
{
    let number = number_read(word)?;
    kept_weight(number)
}

fn measure_named(level: &str, weight: &str) -> Option<RiskMeasure>
    ensures { result ≡ measure_named level.now weight.now }
{
    let level = level_of(level)?;
    let weight = weight_of(weight)?;
    Some(RiskMeasure { level, weight })
}

/// The risk measure that is asked for, if one is; none where the words are no level and no weight.
fn measure_given<'a, V: Values<'a>>(values: &V) -> Option<Option<RiskMeasure>>
    ensures { result ≡ measure_of (V.values values.now) }
{
    match (values.value(Flag::Tail), values.value(Flag::Weight)) {
        (None, None) => Some(None),
        (Some(level), Some(weight)) => {
            let measure = measure_named(level, weight)?;
            Some(Some(measure))
        }
        (Some(_), None) | (None, Some(_)) => None,
    }
}

fn solve_by(measure: Option<RiskMeasure>, with_basis: bool, budget: Budget) -> Task
    ensures { result ≡ solve_by measure with_basis budget }
{
    match (measure, with_basis) {
        (None, false) => Task::Solve(budget),
        (None, true) => Task::SolveBasis(budget),
        (Some(measure), _) => Task::SolveRisk(measure, budget),
    }
}

fn check_by(measure: Option<RiskMeasure>) -> Task
    ensures { result ≡ check_by measure }
{
    match measure {
        None => Task::Check,
        Some(measure) => Task::CheckRisk(measure),
    }
}

/// The task of a verb; none of `make`.
fn task_given<'a, V: Values<'a>>(verb: Verb, values: &V) -> Option<Task>
    ensures { result ≡ task_of verb (V.values values.now) }
{
    match verb {
        Verb::Solve => {
            let measure = measure_given(values)?;
            let budget = budget_given(values)?;
            let with_basis = values.value(Flag::Basis).is_some();
            Some(solve_by(measure, with_basis, budget))
        }
        Verb::Check => {
            let measure = measure_given(values)?;
            Some(check_by(measure))
        }
        Verb::Table => {
            let sheet = sheet_given(values)?;
            Some(Task::Table(sheet))
        }
        Verb::Show => Some(Task::Show),
        Verb::Flat => {
            let extent = extent_given(values)?;
            Some(Task::Flat(extent))
        }
        Verb::Value => {
            let budget = budget_given(values)?;
            Some(Task::Value(budget))
        }
        Verb::Make => None,
    }
}

fn page_named(word: &str) -> Option<Page>
    ensures { result ≡ page_named word.now }
{
    match word {
        "core" => Some(Page::Core),
        "time" => Some(Page::Time),
        "stoch" => Some(Page::Stoch),
        _ => None,
    }
}

/// The text that is asked for, if one is; none where the word is no text's.
fn page_given<'a, V: Values<'a>>(values: &V) -> Option<Option<Page>>
    ensures { result ≡ page_of (V.values values.now) }
{
    match values.value(Flag::Text) {
        None => Some(None),
        Some(word) => {
            let page = page_named(word)?;
            Some(Some(page))
        }
    }
}

/// The workload: four numbers.
fn plan_given<'a, V: Values<'a>>(values: &V) -> Option<Plan>
    ensures { result ≡ plan_of (V.values values.now) }
{
    let start = number_given(values, Flag::Start)?;
    let stages = number_given(values, Flag::Stages)?;
    let branches = number_given(values, Flag::Branches)?;
    let size = number_given(values, Flag::Size)?;
    let page = page_given(values)?;
    let _quiet = is_set(values, Flag::Quiet)?;
    Some(Plan {
        start,
        stages,
        branches,
        size,
        page,
    })
}

/// A task on files with these options.
fn on_files<'a, V: Values<'a>>(verb: Verb, values: &V) -> Option<Command<'a>>
    ensures { option_map asked result ≡ on_files verb (V.values values.now) }
{
    let sources = named_sources(values)?;
    let task = task_given(verb, values)?;
    Some(Command::OnFiles { sources, task })
}

/// What a verb asks for with these values of its options.
pub(crate) fn asked_with<'a, V: Values<'a>>(verb: Verb, values: &V) -> Option<Command<'a>>
    ensures { option_map asked result ≡ asked_with verb (V.values values.now) }
{
    match verb {
        Verb::Solve | Verb::Check | Verb::Table | Verb::Show | Verb::Flat | Verb::Value => {
            on_files(verb, values)
        }
        Verb::Make => {
            let plan = plan_given(values)?;
            Some(Command::Make(plan))
        }
    }
}

/// Whether a verb with these options is a command.
pub(crate) fn is_command(verb: Verb, settings: &Vec<Setting<'_>>) -> bool
    ensures { result ≡ is_some (command_with verb (all_given settings.now.items)) }
{
    are_options(verb, settings) && asked_with(verb, settings).is_some()
}
