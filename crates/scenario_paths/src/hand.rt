//! What is set on the path of a scenario.
ghost use Rattle.std.specs.Prelude.{◌≡◌, ◌<◌, [], IfOk, OnOk, length, map};
ghost use Rattle.smps_words.specs.declared.entry.Entry.{Entry};
ghost use Rattle.stoch_defs.specs.Stated.{value_set, path_among, paths_of};
ghost use Rattle.scenario_paths.specs.Paths.{set_first, earlier, node_stated, IsAtHand, SetsTheSame};

use frac128::Frac;
use indexmap::IndexMap;
use smps_words::Entry;
use std::alloc::{AllocError, Global};

/// A scenario: the number of its parent, where that isn't ROOT, and the values that it sets.
#[derive(Drop)]
pub struct Scenario {
    pub parent: Option<usize>,
    pub sets: Vec<(Entry, Frac)>,
}

/// The values on one path, by entry.
#[derive(Drop)]
pub(crate) struct Hand {
    /// The last scenario of the path; none is the core's own path.
    pub(crate) at: Option<usize>,
    pub(crate) values: IndexMap<Entry, Frac>,
}

/// Nothing is set on the core's own path.
pub(crate) fn empty_hand(alloc: Global) -> Hand
    ensures at { result.at ≡ None }
    ensures values { result.values.entries ≡ [] }
{
    Hand {
        at: None,
        values: IndexMap::new(alloc),
    }
}

/// The parent, where its number is the smaller one.
pub(crate) fn earlier(parent: Option<usize>, number: usize) -> Option<usize>
    ensures { result ≡ earlier parent number }
{
    match parent {
        Some(above) => {
            if above < number {
                return Some(above);
            }
            None
        }
        None => None,
    }
}

/// Adds values, which count before those that are there.
fn add_sets(values: &mut IndexMap<Entry, Frac>, sets: &[(Entry, Frac)]) -> Result<(), AllocError>
    ensures { OnOk result ((e : Entry) → value_set values.new.entries e
        ≡ set_first (value_set sets.now e) (value_set values.old.entries e)) }
{
    let mut left = sets.len();
    while left > 0 {
        left -= 1;
        let set = sets[left];
        values.insert(set.0, set.1)?;
    }
    Ok(())
}

/// Adds those of these values that are missing.
fn add_missing(values: &mut IndexMap<Entry, Frac>, sets: &[(Entry, Frac)]) -> Result<(), AllocError>
    ensures { OnOk result ((e : Entry) → value_set values.new.entries e
        ≡ set_first (value_set values.old.entries e) (value_set sets.now e)) }
{
    for set in sets {
        match values.get(&set.0) {
            Some(_) => {}
            None => {
                values.insert(set.0, set.1)?;
            }
        }
    }
    Ok(())
}

/// The values on the path of a scenario, found by going up its parents.
fn collected(
    alloc: Global,
    scenarios: &[Scenario],
    number: usize,
) -> Result<IndexMap<Entry, Frac>, AllocError>
    ensures { IfOk result (λ m. SetsTheSame m.entries (path_among (paths_of (map node_stated scenarios.now)) (Some number))) }
{
    let mut values = IndexMap::new(alloc);
    let mut next = Some(number);
    while let Some(at) = next {
        if at >= scenarios.len() {
            return Ok(values);
        }
        let scenario = &scenarios[at];
        add_missing(&mut values, &scenario.sets)?;
        next = earlier(scenario.parent, at);
    }
    Ok(values)
}

/// The values on the path of a scenario: those at hand with its own, where they are its parent's.
fn values_on_path(
    alloc: Global,
    scenarios: &[Scenario],
    hand: Hand,
    number: usize,
) -> Result<IndexMap<Entry, Frac>, AllocError>
    requires within { number < length scenarios.now }
    requires known { IsAtHand (map node_stated scenarios.now) hand }
    ensures { IfOk result (λ m. SetsTheSame m.entries (path_among (paths_of (map node_stated scenarios.now)) (Some number))) }
{
    let scenario = &scenarios[number];
    if earlier(scenario.parent, number) == hand.at {
        let mut values = hand.values;
        add_sets(&mut values, &scenario.sets)?;
        return Ok(values);
    }
    collected(alloc, scenarios, number)
}

/// The values on the path of a scenario.
pub(crate) fn moved(
    alloc: Global,
    scenarios: &[Scenario],
    hand: Hand,
    number: usize,
) -> Result<Hand, AllocError>
    requires { IsAtHand (map node_stated scenarios.now) hand }
    ensures known { IfOk result (λ h. IsAtHand (map node_stated scenarios.now) h) }
    ensures here { IfOk result (λ h. SetsTheSame h.values.entries (path_among (paths_of (map node_stated scenarios.now)) (Some number))) }
{
    if hand.at == Some(number) {
        return Ok(hand);
    }
    if number >= scenarios.len() {
        return Ok(empty_hand(alloc));
    }
    let values = values_on_path(alloc, scenarios, hand, number)?;
    Ok(Hand {
        at: Some(number),
        values,
    })
}
