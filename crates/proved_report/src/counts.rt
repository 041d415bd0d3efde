//! How many nodes and scenarios there are.
ghost use Rattle.std.specs.Prelude.{◌≡◌, ◌<◌, ◌^◌, length};
ghost use Rattle.scen_defs.specs.Lists.{places};
ghost use Rattle.scen_defs.specs.Program.{is_live, nodes_content};

use scen_defs::{Node, Scenario};

/// How many nodes there are, without those that were dropped, where they are fewer than 2^32.
pub(crate) fn live_nodes(nodes: &[Option<Node>]) -> u32
    ensures { length nodes.now < 2 ^ 32 → result ≡ length (places is_live 0 (nodes_content nodes.now)) }
{
    let mut count: usize = 0;
    for (place, slot) in nodes.iter().enumerate() {
        if slot.is_some() {
            count += 1;
        }
    }
    at_most_u32(count)
}

/// How many scenarios there are, where they are fewer than 2^32.
pub(crate) fn scenario_count(scenarios: &[Scenario]) -> u32
    ensures { length scenarios.now < 2 ^ 32 → result ≡ length scenarios.now }
{
    at_most_u32(scenarios.len())
}

/// The number, or `u32::MAX` where it is larger.
fn at_most_u32(number: usize) -> u32
    ensures { number < 2 ^ 32 → result ≡ number }
{
    if number <= u32::MAX as usize {
        number as u32
    } else {
        u32::MAX
    }
}
