//! The numbers of nodes, by first appearance.
ghost use Rattle.std.specs.Prelude.{◌≡◌, ◌≤◌, [], length, IfOk, OnOk, IfErr, MatchResult};
ghost use Rattle.build_defs.specs.Built.{most_nodes};
ghost use Rattle.tree_build.specs.Numbering.{key_of, keys_of, number_of, with_debut, debuts_from, numbers_from, row_debuts, all_debuts};
ghost use Rattle.tree_build.specs.Numbering.{paths_from, rows_content, paths_content, IsOver};

use crate::seen::Seen;
use smps_build::BuildFault;
use std::alloc::Global;

/// So many nodes a program has at most.
const MOST_NODES: usize = 20_000;

/// Where a node first appears.
#[derive(Clone, Copy)]
pub struct Debut {
    /// The number of the scenario.
    pub scenario: usize,
    pub stage: usize,
    /// What tells the node from the other nodes of its stage.
    pub key: u64,
}

/// What tells the nodes of a scenario from the other nodes of their stages.
#[derive(Drop)]
pub struct Keys {
    pub by_stage: Vec<u64>,
}

/// The nodes of a scenario.
#[derive(Drop)]
pub struct Path {
    /// Their numbers by stage.
    pub nodes: Vec<u32>,
}

/// The nodes of all scenarios.
#[derive(Drop)]
pub struct Outline {
    /// Where each node first appears, by the number of the node.
    pub debuts: Vec<Debut>,
    /// By the number of the scenario.
    pub paths: Vec<Path>,
}

/// The number of a node, which may be a new one.
fn visit(seen: &mut Seen, debuts: &mut Vec<Debut>, debut: Debut) -> Result<u32, BuildFault>
    requires { seen.old ≡ keys_of debuts.old.items }
    ensures number { IfOk result (λ n. n ≡ number_of (keys_of debuts.old.items) (key_of debut)) }
    ensures debuts { OnOk result (debuts.new.items ≡ with_debut debuts.old.items debut) }
    ensures tied { OnOk result (seen.new ≡ keys_of debuts.new.items) }
    ensures few { OnOk result (length debuts.new.items ≤ most_nodes) }
    ensures err { IfErr result (IsOver (length (with_debut debuts.old.items debut))) }
{
    let (number, new) = seen.add(debut.stage, debut.key)?;
    if new {
        debuts.push(debut)?;
    }
    if debuts.len() > MOST_NODES {
        return Err(BuildFault::Limit);
    }
    Ok(number as u32)
}

/// The numbers of the nodes of a scenario.
fn number_row(
    alloc: Global,
    seen: &mut Seen,
    debuts: &mut Vec<Debut>,
    scenario: usize,
    row: &[u64],
) -> Result<Vec<u32>, BuildFault>
    requires tied { seen.old ≡ keys_of debuts.old.items }
    requires few { length debuts.old.items ≤ most_nodes }
    ensures path { IfOk result (λ path. path.items ≡ numbers_from debuts.old.items (row_debuts scenario 0 row.now)) }
    ensures debuts { OnOk result (debuts.new.items ≡ debuts_from debuts.old.items (row_debuts scenario 0 row.now)) }
    ensures tied { OnOk result (seen.new ≡ keys_of debuts.new.items) }
    ensures few { OnOk result (length debuts.new.items ≤ most_nodes) }
    ensures err { IfErr result (IsOver (length (debuts_from debuts.old.items (row_debuts scenario 0 row.now)))) }
{
    let mut path = Vec::new(alloc);
    for (stage, key) in row.iter().enumerate() {
        let debut = Debut {
            scenario,
            stage,
            key: *key,
        };
        let number = visit(seen, debuts, debut)?;
        path.push(number)?;
    }
    Ok(path)
}

/// The nodes of all scenarios, numbered by first appearance: scenario by scenario, and along each by stage.
pub(crate) fn number_all(alloc: Global, rows: &[Keys]) -> Result<Outline, BuildFault>
    ensures debuts { IfOk result (λ outline. outline.debuts.items ≡ debuts_from [] (all_debuts 0 (rows_content rows.now))) }
    ensures paths { IfOk result (λ outline. paths_content outline.paths.items ≡ paths_from [] 0 (rows_content rows.now)) }
    ensures few { IfOk result (λ outline. length outline.debuts.items ≤ most_nodes) }
    ensures err { IfErr result (IsOver (length (debuts_from [] (all_debuts 0 (rows_content rows.now))))) }
{
    let mut seen = Seen::empty(alloc);
    let mut debuts: Vec<Debut> = Vec::new(alloc);
    let mut paths = Vec::new(alloc);
    for (scenario, row) in rows.iter().enumerate() {
        let nodes = number_row(alloc, &mut seen, &mut debuts, scenario, &row.by_stage)?;
        paths.push(Path { nodes })?;
    }
    Ok(Outline { debuts, paths })
}
