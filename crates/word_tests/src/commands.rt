//! Lists of words, and what they ask for. The table is a text, since each member of an array is a step of the proof.
use command_words::{
    Budget, Command, Extent, Page, PlainWords, Plan, RiskMeasure, Sheet, SheetForm, Sources, Task,
};
use std::alloc::{AllocError, Global};
use std::fmt::Write;
use std::process::Abort;
use std::test::Fail;

/// In each line the words, and after the bar what they ask for: the command; of a task on files the names of the files, that of a basis or
/// of measures where there is one, and of `solve` and `value` the solves and the pivots, in brackets where the words don't state them, and
/// before them the level and the weight, where there are some; of `make` its numbers and the text that is printed. Behind these stand how
/// many workers are asked for, where it isn't one, and whether nothing is to be said. Nothing where the words are refused.
const WORDS: &str = "\
solve --core F|solve F - - - - (100000) (100000)
solve --core F --solves 100000|solve F - - - - 100000 (100000)
solve --core=F --time T --stoch=S --pivots 0000000007|solve F T S - - (100000) 7
solve --pivots=1000000000 --stoch S --time T --core a=b|solve a=b T S - - (100000) 1000000000
show --time=T=1 --core F|show F T=1 - - -
|
solve|
show|
run --core F|
Solve --core F|
solve F|
solve --core|
solve --core=|
solve --core -F|
solve --core=-F|
solve --core F G|
solve --core F --core F|
solve --core F --core=G|
solve --cor F|
solve --Core F|
solve -core F|
solve --core F --stoch S|
solve --core F --time|
solve --time T --stoch S|
solve -- --core F|
solve --core F --help|
solve --core F --pivots 0|
solve --core F --pivots 1000000001|
solve --core F --pivots 00000000001|
solve --core F --pivots +5|
solve --core F --pivots 5a|
show --core F --pivots 5|
--help|
solve --solves 3 --core F --workers=1|solve F - - - - 3 (100000)
solve --core F --time T --solves=1000000000 --pivots 2|solve F T - - - 1000000000 2
solve --core F --solves 0|
solve --core F --solves 1000000001|
solve --core F --workers 65|
solve --core F --workers 64|solve F - - - - (100000) (100000) workers 64
solve --workers=2 --solves 7 --core F --quiet|solve F - - - - 7 (100000) workers 2 quiet
solve --core F --workers 0000000003|solve F - - - - (100000) (100000) workers 3
solve --core --workers=2|
solve --core F --workers 0|
show --core F --solves 3|
show --core F --workers 1|
solve --core F --edits E|solve F - - E - (100000) (100000)
show --edits=E --core F --time T --stoch S|show F T S E -
solve --core F --edits E --edits E|
solve --core F --report R|
show --core F --report R|
flat --edits=E --core F --time T --stoch S|flat F T S E -
flat --core F|flat F - - - -
flat --core F --whole|flat F - - - - whole
flat --whole --core F|flat F - - - - whole
flat --time T --whole --core=F --edits E|flat F T - E - whole
flat --whole=yes --core F|flat F - - - - whole
flat --whole yes --core F|
flat --whole=no --core F|
flat --whole= --core F|
flat --whole --whole --core F|
flat --core --whole|
flat --core F --wholes|
solve --core F --whole|
show --whole --core F|
flat --time T|
solve --core F --quiet|solve F - - - - (100000) (100000) quiet
solve --quiet --core=F --solves 7|solve F - - - - 7 (100000) quiet
solve --core F --quiet=yes --time T|solve F T - - - (100000) (100000) quiet
solve --core F --quiet=no|
solve --core F --quiet no|
solve --core F --quiet --quiet|
check --core F --report R --quiet|
show --core F --quiet|
value --quiet --core F --time T|value F T - - - (100000) (100000) quiet
value --core F --time T --quiet=|
flat --core F --report R|
flat --core F --solves 3|
flat --core F --stoch S|
value --core F --time T|value F T - - - (100000) (100000)
value --stoch=S --time=T --core=F --pivots 7|value F T S - - (100000) 7
value --core F --time T --solves 3 --workers 1|value F T - - - 3 (100000)
value --core F --time T --quiet=yes --workers=64|value F T - - - (100000) (100000) workers 64 quiet
value|
value --core F|
value --time T|
value --core F --stoch S|
value --core F --time T --edits E|
value --core F --time T --report R|
value --core F --time T --workers 65|
value --core F --time T --solves 0|
value --core F --time T --whole|
check --core F --report R|check F - - - R
check --report=R --edits=E --stoch=S --time=T --core=F|check F T S E R
check --core F|
check --report R|
check --core F --report R --solves 3|
solve --core F --tail 1/2 --weight 1|solve F - - - - 1/2 1/1 (100000) (100000)
solve --weight=0.25 --tail=.95 --core F --time T --pivots 7|solve F T - - - 19/20 1/4 (100000) 7
solve --core F --tail 0 --weight 0|solve F - - - - 0/1 0/1 (100000) (100000)
solve --core F --tail 5E-1 --weight 2/2 --quiet|solve F - - - - 1/2 1/1 (100000) (100000) quiet
solve --core F --tail 1 --weight 1|
solve --core F --tail 1.5 --weight 1|
solve --core F --tail 1/2 --weight 1.01|
solve --core F --tail -0 --weight 1|
solve --core F --tail=-0.5 --weight 1|
solve --core F --tail 1/0 --weight 1|
solve --core F --tail half --weight 1|
solve --core F --tail 1E-39 --weight 1|
solve --core F --tail 1/2|
solve --core F --weight 1|
solve --core F --tail 1/2 --weight|
solve --core F --tail 1/2 --tail 1/2 --weight 1|
solve --core F --tail 1/2 --weight 1 --edits E|
solve --core F --basis B|solve F - - - - B (100000) (100000)
solve --basis=B --time T --core F --stoch S --solves 7|solve F T S - - B 7 (100000)
solve --core F --basis B --edits E|
solve --core F --tail 1/2 --weight 1 --basis B|
solve --core F --basis B --basis B|
solve --core F --basis|
solve --core F --value V|
check --core F --report R --basis B|
check --core F --report R --value V|
show --core F --basis B|
value --core F --time T --value V|
check --core F --report R --tail 1/2 --weight 1/4|check F - - - R 1/2 1/4
check --core F --report R --tail 1/2|
check --core F --report R --tail 1/2 --weight 1 --edits E|
show --core F --tail 1/2 --weight 1|
value --core F --time T --tail 1/2 --weight 1|
table --core F --report R --tail 1/2 --weight 1|
check --core F --report R --stoch S|
table --core F --report R|table F - - - R - text
table --form=csv --report=R --edits=E --stoch=S --time=T --core=F --number 1|table F T S E R 1 csv
table --core F --report R --number 10001 --form json|table F - - - R 10001 json
table --core F --report R --number 0000000007 --form html|table F - - - R 7 html
table --core F --report R --form text|table F - - - R - text
table --core F --report R --value V --form html|table F - - - R V - html
table --value=V --report R --core F --number 3|table F - - - R V 3 text
table --core F --report R --value V --value V|
table --core F --report R --value|
table --core F --report R --basis B|
table --core F|
table --report R|
table --core F --report R --number 0|
table --core F --report R --number 10002|
table --core F --report R --number last|
table --core F --report R --form Text|
table --core F --report R --form page|
table --core F --report R --text core|
table --core F --report R --solves 3|
check --core F --report R --number 1|
solve --core F --form csv|
make --start 1 --stages 2 --branches 2 --size 1|make 1 2 2 1 -
make --size=20 --branches=4 --stages=6 --start=65536 --text=stoch|make 65536 6 4 20 stoch
make --start 0 --stages 3 --branches 3 --size 2 --text core|make 0 3 3 2 core
make --start 0 --stages 3 --branches 3 --size 2 --text time|make 0 3 3 2 time
make --quiet --start 1 --stages 2 --branches 2 --size 1|make 1 2 2 1 - quiet
make --start 1 --stages 2 --branches 2 --size 1 --workers 2|
make --start 0 --stages 3 --branches 3 --size 2 --text edits|
make --start 65537 --stages 2 --branches 2 --size 1|
make --start 1 --stages 1 --branches 2 --size 1|
make --start 1 --stages 7 --branches 2 --size 1|
make --start 1 --stages 2 --branches 1 --size 1|
make --start 1 --stages 2 --branches 5 --size 1|
make --start 1 --stages 2 --branches 2 --size 0|
make --start 1 --stages 2 --branches 2 --size 21|
make --start 1 --stages 2 --branches 2|
make --stages 2 --branches 2 --size 1|
make --start 1 --branches 2 --size 1|
make --start 1 --stages 2 --size 1|
make --start 1 --stages 2 --branches 2 --size 1 --core F|
make --start 1 --stages 2 --branches 2 --size 1 --edits E|
make --start 1 --stages 2 --branches 2 --size 1 --solves 3|
make|
solve --core F --text core|
solve --core F --start 1|
show --core F --size 1|
check --core F --report R --stages 2|
solve --core F --branches 2|";

/// What a task on files asks for, as the table says it.
fn told_on_files(alloc: Global, sources: Sources<'_>, task: Task) -> Result<String, AllocError> {
    let files = files(alloc, sources)?;
    match task {
        Task::Solve(budget) | Task::SolveBasis(budget) => told_budget(
            alloc,
            "solve",
            files.as_str(),
            budget,
        ),
        Task::Check => format!(in alloc; "check {files}"),
        Task::Table(sheet) => told_sheet(alloc, files.as_str(), sheet),
        Task::Show => format!(in alloc; "show {files}"),
        Task::Flat(Extent::Core) => format!(in alloc; "flat {files}"),
        Task::Flat(Extent::Whole) => format!(in alloc; "flat {files} whole"),
        Task::Value(budget) => told_budget(alloc, "value", files.as_str(), budget),
        Task::SolveRisk(measure, budget) => {
            let risky = told_measure(alloc, files.as_str(), measure)?;
            told_budget(alloc, "solve", risky.as_str(), budget)
        }
        Task::CheckRisk(measure) => {
            let risky = told_measure(alloc, files.as_str(), measure)?;
            format!(in alloc; "check {risky}")
        }
    }
}

fn told_measure(alloc: Global, files: &str, measure: RiskMeasure) -> Result<String, AllocError> {
    let level_num = measure.level.num();
    let level_den = measure.level.den();
    let weight_num = measure.weight.num();
    let weight_den = measure.weight.den();
    format!(in alloc; "{files} {level_num}/{level_den} {weight_num}/{weight_den}")
}

fn told_sheet(alloc: Global, files: &str, sheet: Sheet) -> Result<String, AllocError> {
    let form = form_word(sheet.form);
    match sheet.number {
        Some(number) => format!(in alloc; "table {files} {number} {form}"),
        None => format!(in alloc; "table {files} - {form}"),
    }
}

fn form_word(form: SheetForm) -> &'static str {
    match form {
        SheetForm::Text => "text",
        SheetForm::Csv => "csv",
        SheetForm::Json => "json",
        SheetForm::Html => "html",
    }
}

fn told_budget(
    alloc: Global,
    verb: &str,
    files: &str,
    budget: Budget,
) -> Result<String, AllocError> {
    let solves = told_number(alloc, budget.solves, budget.solves_stated)?;
    let pivots = told_number(alloc, budget.pivots, budget.pivots_stated)?;
    format!(in alloc; "{verb} {files} {solves} {pivots}")
}

fn told_number(alloc: Global, number: u64, is_stated: bool) -> Result<String, AllocError> {
    if is_stated {
        format!(in alloc; "{number}")
    } else {
        format!(in alloc; "({number})")
    }
}

fn told_plan(alloc: Global, plan: Plan) -> Result<String, AllocError> {
    let Plan {
        start,
        stages,
        branches,
        size,
        page,
    } = plan;
    let page = page_word(page);
    format!(in alloc; "make {start} {stages} {branches} {size} {page}")
}

fn page_word(page: Option<Page>) -> &'static str {
    match page {
        None => "-",
        Some(Page::Core) => "core",
        Some(Page::Time) => "time",
        Some(Page::Stoch) => "stoch",
    }
}

fn files(alloc: Global, sources: Sources<'_>) -> Result<String, AllocError> {
    let core = sources.core;
    let time = sources.time.unwrap_or("-");
    let stoch = sources.stoch.unwrap_or("-");
    let edits = sources.edits.unwrap_or("-");
    let report = sources.report.unwrap_or("-");
    let files = format!(in alloc; "{core} {time} {stoch} {edits} {report}")?;
    match sources.basis.or(sources.measures) {
        Some(further) => format!(in alloc; "{files} {further}"),
        None => Ok(files),
    }
}

/// The words of a line.
fn words_of(alloc: Global, line: &str) -> Result<Vec<String>, AllocError> {
    let mut words = Vec::new(alloc);
    for word in line.split_whitespace() {
        words.push(String::from_str(alloc, word)?)?;
    }
    Ok(words)
}

/// What the command of words asks for, as the table says it.
fn told_command(alloc: Global, plain: &PlainWords) -> Result<String, AllocError> {
    match plain.command(alloc) {
        Ok(Command::OnFiles { sources, task }) => told_on_files(alloc, sources, task),
        Ok(Command::Make(plan)) => told_plan(alloc, plan),
        Err(error) => Err(error),
    }
}

/// Appends how many workers are asked for, where it isn't one, and whether nothing is to be said.
fn put_rest(text: &mut String, plain: &PlainWords) -> Result<(), AllocError> {
    let workers = plain.workers();
    if workers != 1 {
        write!(text, " workers {workers}")?;
    }
    if plain.is_quiet() {
        text.push_str(" quiet")?;
    }
    Ok(())
}

/// All that plain words ask for, as the table says it.
fn told_all(alloc: Global, plain: &PlainWords) -> Result<String, AllocError> {
    let mut text = told_command(alloc, plain)?;
    put_rest(&mut text, plain)?;
    Ok(text)
}

/// What words ask for, as the table says it; nothing where they are refused.
fn asked(alloc: Global, words: &[String]) -> Result<String, AllocError> {
    match PlainWords::read(alloc, words)? {
        Some(plain) => told_all(alloc, &plain),
        None => Ok(String::new(alloc)),
    }
}

/// A row of the table holds.
fn is_read_so(rt: &impl Abort, alloc: Global, row: &str) -> Result<(), Fail> {
    let (line, expected) = row.split_once('|').unwrap_or(("", "no bar"));
    let words = words_of(alloc, line)?;
    let found = asked(alloc, &words)?;
    assert_eq!(rt; found.as_str(), expected);
    Ok(())
}

#[test]
fn words_are_read_or_refused(rt: HostRuntime) -> Result<(), Fail> {
    for row in WORDS.lines() {
        is_read_so(&rt, rt.alloc(), row)?;
    }
    Ok(())
}
