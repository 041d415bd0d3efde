// The scenario of a name, and the node and the row that an entry belongs to.
ghost use Rattle.std.specs.Prelude.{◌≡◌, ◌<◌, true, map, length, is_some, IfSome, IfNone, get_or};
ghost use Rattle.scen_defs.specs.Lists.{passes_at};
ghost use Rattle.scen_defs.specs.Program.{Scenario as ScenarioContent, scenario_content, scenarios_content, content, column_at};
ghost use Rattle.scen_defs.specs.Valid.{row_at, Differ};
ghost use Rattle.edit_defs.specs.After.{is_known, is_named, scenario_named, no_scenario, stage_of_entry, home_of};
ghost use Rattle.edit_defs.specs.Shifts.{find_row, no_row};
ghost use Rattle.edit_defs.specs.Touches.{path_of};

use frac128::Frac;
use scen_defs::{Column, NodeRow, Program, Row, Scenario};
use smps_words::{Entry, Name};

/// The scenario of a name.
pub fn find<'a>(scenarios: &'a [Scenario], name: &Name) -> Option<&'a Scenario>
    ensures known { is_some result ≡ is_known name.now (scenarios_content scenarios.now) }
    ensures scenario { IfSome result (λ found. scenario_named name.now (scenarios_content scenarios.now) ≡ scenario_content found.now) }
    ensures none { IfNone result (scenario_named name.now (scenarios_content scenarios.now) ≡ no_scenario) }
{
    for scenario in scenarios {
        if *name == scenario.name {
            return Some(scenario);
        }
    }
    None
}

/// Whether a scenario of the name stands at the place.
fn is_at(scenarios: &[Scenario], place: usize, name: &[u8]) -> bool
    ensures { result ≡ passes_at (is_named name.now) place (scenarios_content scenarios.now) }
{
    if place >= scenarios.len() {
        return false;
    }
    name == scenarios[place].name.as_bytes()
}

/// The place of a scenario of the name, at the guess or before it.
fn place_before(scenarios: &[Scenario], guess: usize, name: &[u8]) -> Option<usize>
    ensures here { IfSome result (λ place. passes_at (is_named name.now) place (scenarios_content scenarios.now) ≡ true) }
    ensures within { IfSome result (λ place. place < length scenarios.now) }
{
    let mut left = scenarios.len();
    if guess < left {
        left = guess + 1;
    }
    while left > 0 {
        left -= 1;
        if is_at(scenarios, left, name) {
            return Some(left);
        }
    }
    None
}

/// The place of the first scenario of the name.
fn place_anywhere(scenarios: &[Scenario], name: &[u8]) -> Option<usize>
    ensures known { is_some result ≡ is_known name.now (scenarios_content scenarios.now) }
    ensures here { IfSome result (λ place. passes_at (is_named name.now) place (scenarios_content scenarios.now) ≡ true) }
    ensures within { IfSome result (λ place. place < length scenarios.now) }
{
    for (place, scenario) in scenarios.iter().enumerate() {
        if name == scenario.name.as_bytes() {
            return Some(place);
        }
    }
    None
}

/// The place of a scenario of the name. It is looked for at the guess, before it, and then from the first place on: the better the guess,
/// the sooner it is found.
pub fn place_near(scenarios: &[Scenario], guess: usize, name: &[u8]) -> Option<usize>
    ensures known { is_some result ≡ is_known name.now (scenarios_content scenarios.now) }
    ensures here { IfSome result (λ place. passes_at (is_named name.now) place (scenarios_content scenarios.now) ≡ true) }
    ensures within { IfSome result (λ place. place < length scenarios.now) }
{
    match place_before(scenarios, guess, name) {
        Some(place) => Some(place),
        None => place_anywhere(scenarios, name),
    }
}

/// The scenario of a name, looked for as by `place_near`, where no two have the same name.
fn find_near<'a>(scenarios: &'a [Scenario], guess: usize, name: &Name) -> Option<&'a Scenario>
    requires { Differ (map (λ (s : ScenarioContent). s.name) (scenarios_content scenarios.now)) }
    ensures scenario { IfSome result (λ found. scenario_named name.now (scenarios_content scenarios.now) ≡ scenario_content found.now) }
    ensures none { IfNone result (scenario_named name.now (scenarios_content scenarios.now) ≡ no_scenario) }
{
    match place_near(scenarios, guess, name.as_bytes()) {
        Some(place) => Some(&scenarios[place]),
        None => None,
    }
}

/// The stage of a column, 0 where there is none.
fn column_stage(columns: &[Column], column: u32) -> u32
    ensures { result ≡ (column_at columns.now column).stage }
{
    let place = column as usize;
    if place < columns.len() {
        columns[place].stage
    } else {
        0
    }
}

/// The stage of a row, 0 where there is none.
fn row_stage(rows: &[Row], row: u32) -> u32
    ensures { result ≡ (row_at rows.now row).stage }
{
    let place = row as usize;
    if place < rows.len() {
        rows[place].stage
    } else {
        0
    }
}

/// The stage of an entry: of its row, for a cost of its column.
pub fn stage_of(program: &Program, entry: Entry) -> u32
    ensures { result ≡ stage_of_entry (content program.now) entry }
{
    match entry {
        Entry::Cost { column } => column_stage(&program.columns, column),
        Entry::Matrix { row, column: _ } => row_stage(&program.rows, row),
        Entry::Rhs { row } => row_stage(&program.rows, row),
    }
}

/// The node of a path at a stage, 0 where there is none.
fn node_on(path: &[u32], stage: u32) -> u32
    ensures { result ≡ get_or path.now stage 0 }
{
    let place = stage as usize;
    if place < path.len() { path[place] } else { 0 }
}

/// The path of the scenario of a name; no nodes where there is none.
pub fn path<'a>(program: &'a Program, name: &Name) -> &'a [u32]
    ensures { result.now ≡ path_of (content program.now) name.now }
{
    match find(&program.scenarios, name) {
        Some(scenario) => &scenario.path,
        None => &[],
    }
}

/// The probability of the scenario of a name, 0 where there is none.
pub fn probability(scenarios: &[Scenario], name: &Name) -> Frac
    ensures { result ≡ (scenario_named name.now (scenarios_content scenarios.now)).probability }
{
    match find(scenarios, name) {
        Some(scenario) => scenario.probability,
        None => Frac::zero(),
    }
}

/// The node of an entry: the scenario's at the entry's stage.
pub fn home(program: &Program, name: &Name, entry: Entry) -> u32
    ensures { result ≡ home_of (content program.now) name.now entry }
{
    let stage = stage_of(program, entry);
    match find(&program.scenarios, name) {
        Some(scenario) => node_on(&scenario.path, stage),
        None => node_on(&[], stage),
    }
}

/// The node of an entry, where the scenario is looked for as by `place_near`.
pub fn home_near(program: &Program, guess: usize, name: &Name, entry: Entry) -> u32
    ensures { result ≡ home_of (content program.now) name.now entry }
{
    let stage = stage_of(program, entry);
    match find_near(&program.scenarios, guess, name) {
        Some(scenario) => node_on(&scenario.path, stage),
        None => node_on(&[], stage),
    }
}

/// A row among a node's rows, by its number.
pub fn row_of(rows: &[NodeRow], row: u32) -> Option<&NodeRow>
    ensures row { IfSome result (λ found. find_row row rows.now ≡ found.now) }
    ensures none { IfNone result (find_row row rows.now ≡ no_row) }
{
    for found in rows {
        if found.row == row {
            return Some(found);
        }
    }
    None
}
