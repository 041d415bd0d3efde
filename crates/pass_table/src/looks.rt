//! Looks at sets that hold every node with some property, and others too: what hasn't the property is taken out on the
//! way, so that each number that was put in is taken out once at most.
ghost use Rattle.std.specs.Prelude.{◌≡◌, ℕ, ◌<◌, ◌↔◌, ◌⊎◌, Bool, true, false, IsTrue, length, slice_index_or};
ghost use Rattle.std.specs.Prelude.{MatchOption};
ghost use Rattle.pass_table.specs.Marks.{HasNone};
ghost use Rattle.pass_table.specs.Rounds.{IsFirst};
ghost use Rattle.pass_table.specs.Walks.{IsRising, IsGoodAt, IsFreshAt, IsOpenAt, IsFreeAbove, IsFreeAt, KeepsAll};

use crate::table::Solve;
use crate::walks::{is_free_above, is_fresh, is_good, is_open};
use crate::{Marks, Rounds};

/// The node of the set that comes first of the free ones.
pub fn next_free(
    candidates: &mut Rounds,
    parents: &[u32],
    solves: &[Solve],
    flying: &[bool],
) -> Option<u32>
    requires sizes { (length solves.now ≡ length parents.now) × (length flying.now ≡ length parents.now)
        × (length candidates.old.flags ≡ length parents.now) }
    requires rising { IsRising parents.now }
    ensures keeps { KeepsAll (IsFreeAt parents.now solves.now flying.now) candidates.old.flags candidates.new.flags }
    ensures met { candidates.new.met ≡ candidates.old.met }
    ensures waits { candidates.new.waits ≡ candidates.old.waits }
    ensures first { MatchOption result (HasNone candidates.new.flags) (λ n. IsFirst candidates.new n
        × IsFreeAt parents.now solves.now flying.now n) }
{
    'look: while let Some(node) = candidates.first() {
        if is_free(parents, solves, flying, node) {
            return Some(node);
        }
        candidates.remove(node);
    }
    None
}

/// Whether a node may be begun, and no solve of a node above it is in flight.
fn is_free(parents: &[u32], solves: &[Solve], flying: &[bool], node: u32) -> bool
    requires sizes { (length solves.now ≡ length parents.now) × (length flying.now ≡ length parents.now) }
    requires within { node < length parents.now }
    requires rising { IsRising parents.now }
    ensures { IsTrue result ↔ IsFreeAt parents.now solves.now flying.now node }
{
    !flying[node as usize]
        && !is_fresh(parents, solves, node)
        && is_free_above(parents, solves, flying, node)
}

/// Whether every node of the set is open; takes open ones out up to the first that isn't.
pub fn are_open(nodes: &mut Marks, parents: &[u32], solves: &[Solve]) -> bool
    requires sizes { (length solves.now ≡ length parents.now) × (length nodes.old ≡ length parents.now) }
    requires rising { IsRising parents.now }
    ensures keeps { KeepsAll (λ n. IsOpenAt parents.now solves.now n → ⊥) nodes.old nodes.new }
    ensures all { result ≡ true → HasNone nodes.new }
    ensures some { result ≡ false → (n : ℕ)
        × ((slice_index_or nodes.new n false ≡ true) × (IsOpenAt parents.now solves.now n → ⊥)) }
{
    'look: while let Some(node) = nodes.least() {
        if !is_open(parents, solves, node) {
            return false;
        }
        nodes.remove(node);
    }
    true
}

/// Whether every node of the set was made with its ancestors' present last solves and has a point.
pub fn are_good(nodes: &mut Marks, parents: &[u32], solves: &[Solve]) -> bool
    requires sizes { (length solves.now ≡ length parents.now) × (length nodes.old ≡ length parents.now) }
    requires rising { IsRising parents.now }
    ensures keeps { KeepsAll (λ n. IsGoodAt parents.now solves.now n → ⊥) nodes.old nodes.new }
    ensures all { result ≡ true → HasNone nodes.new }
    ensures some { result ≡ false → (n : ℕ)
        × ((slice_index_or nodes.new n false ≡ true) × (IsGoodAt parents.now solves.now n → ⊥)) }
{
    'look: while let Some(node) = nodes.least() {
        if !is_good(parents, solves, node) {
            return false;
        }
        nodes.remove(node);
    }
    true
}

/// How many nodes aren't fresh.
pub fn count_waiting(parents: &[u32], solves: &[Solve]) -> u64
    requires sizes { length solves.now ≡ length parents.now }
    requires rising { IsRising parents.now }
{
    let mut waiting: u64 = 0;
    for place in 0..parents.len() {
        if let Ok(node) = u32::try_from(place) {
            if !is_fresh(parents, solves, node) {
                waiting = waiting.saturating_add(1);
            }
        }
    }
    waiting
}
