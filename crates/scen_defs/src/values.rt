// Numbers at nodes: points and multipliers.
ghost use Rattle.std.specs.Prelude.{◌≡◌, ◌≢◌, ◌↔◌, ◌<◌, ◌≤◌, IsTrue, [], ◌∷◌, ◌++◌, OnOk, OnErr, IfOk, length};
ghost use Rattle.rationals.specs.Rational.{zero_ℚ};
ghost use Rattle.scen_defs.specs.Values.{at, IsAt, IsBefore, EndsBefore, Rises};

use frac128::{Frac, Memory};
use std::alloc::Global;
use std::marker::Model;

/// A number at a node: of a column in a policy or a direction, of a row in a dual or a ray.
#[derive(Clone, Copy, Debug)]
pub struct Value {
    pub node: u32,
    /// The place of the column or of the row in the program.
    pub index: u32,
    pub value: Frac,
}

impl Model for Value {
    ghost use Rattle.scen_defs.specs.Values.{At};

    ghost Value = { At };

    ghost view = { λ a. record { node = a.node; index = a.index; value = a.value } };

    ghost inverse = { λ a. record { node = a.node; index = a.index; value = a.value } };
}

/// Numbers at nodes, none of them 0, in rising order of node and then of index.
#[derive(Drop)]
pub struct Values {
    items: Vec<Value>,
}

impl Model for Values {
    ghost use Rattle.std.specs.Prelude.{List};
    ghost use Rattle.scen_defs.specs.Values.{At, AreValues};

    ghost Value = { List At };

    ghost view = { λ v. v.items.items };

    ghost invariant = { λ v. AreValues v.items.items };
}

/// Whether a number stands before a node and an index.
fn is_before(item: Value, node: u64, index: u64) -> bool
    ensures { IsTrue result ↔ IsBefore node index item }
{
    let place = item.node as u64;
    place < node || (place == node && (item.index as u64) < index)
}

/// Whether a number stands at a node and an index.
fn stands_at(item: Value, node: u64, index: u64) -> bool
    ensures { IsTrue result ↔ IsAt node index item }
{
    item.node as u64 == node && item.index as u64 == index
}

/// Whether all numbers stand before a node and an index.
fn end_before(items: &[Value], node: u32, index: u32) -> bool
    requires { Rises items.now }
    ensures { IsTrue result ↔ EndsBefore items.now node index }
{
    let count = items.len();
    if count == 0 {
        return true;
    }
    let last = items[count - 1];
    is_before(last, node as u64, index as u64)
}

/// How many places behind the first of some numbers the one at a node and an index stands, where all nodes have as many numbers each,
/// and those of a node have indices one behind the other.
fn guess(first: Value, last: Value, most: usize, node: u64, index: u64) -> usize {
    let from = first.node as u64;
    let to = last.node as u64;
    if node < from {
        0
    } else if node == from {
        index.saturating_sub(first.index as u64) as usize
    } else if node > to {
        most
    } else if node == to {
        most.saturating_sub((last.index as u64).saturating_sub(index) as usize)
    } else {
        let behind = node.saturating_sub(from) as usize;
        let span = to.saturating_sub(from) as usize;
        most.saturating_mul(behind).checked_div(span).unwrap_or(0)
    }
}

/// The place where the number at a node and an index is looked for first, where nothing else is known.
fn first_guess(items: &[Value], node: u64, index: u64) -> usize {
    let count = items.len();
    if count == 0 {
        return 0;
    }
    guess(items[0], items[count - 1], count - 1, node, index)
}

/// The place that is looked at next, of those from `low` on and below `high`: first the one where the number is expected, then the one
/// beside it, then one that is guessed, and each fourth time the one half way, so that no list takes many more looks than halving does.
fn probe(
    items: &[Value],
    low: usize,
    high: usize,
    node: u64,
    index: u64,
    near: usize,
    round: u32,
) -> usize
    requires some { low < high }
    requires within { high ≤ length items.now }
    ensures from { low ≤ result }
    ensures below { result < high }
{
    let most = high - 1 - low;
    if round < 2 {
        return low + near.saturating_sub(low).min(most);
    }
    if round % 4 == 3 {
        return low + (high - low) / 2;
    }
    low + guess(items[low], items[high - 1], most, node, index).min(most)
}

/// The number at a node and an index, 0 where there is none. It is expected at the place `near`, which becomes the one behind it, or the
/// one where it would stand.
fn value_in(items: &[Value], node: u64, index: u64, near: &mut usize) -> Frac
    requires { Rises items.now }
    ensures { result ≡ at items.now node index }
{
    let mut low = 0;
    let mut high = items.len();
    let mut round = 0u32;
    'search: while low < high {
        let middle = probe(items, low, high, node, index, *near, round);
        round = round.wrapping_add(1);
        let item = items[middle];
        if is_before(item, node, index) {
            low = middle + 1;
        } else if stands_at(item, node, index) {
            *near = middle + 1;
            return item.value;
        } else {
            high = middle;
        }
    }
    *near = low;
    Frac::zero()
}

impl Values {
    /// No numbers.
    pub fn empty(alloc: Global) -> Values
        ensures { result ≡ [] }
    {
        Values {
            items: Vec::new(alloc),
        }
    }

    /// Adds a number behind all others.
    pub fn push(&mut self, node: u32, index: u32, value: Frac) -> Result<(), Memory>
        requires rises { EndsBefore self.old node index }
        requires nonzero { value ≢ zero_ℚ }
        ensures ok { OnOk result (self.new ≡ self.old ++ record { node = node; index = index; value = value } ∷ []) }
        ensures err { OnErr result (self.new ≡ self.old) }
    {
        self.items.push(Value { node, index, value })?;
        Ok(())
    }

    /// Whether all numbers stand before this node and index, so that one may be pushed there.
    pub fn ends_before(&self, node: u32, index: u32) -> bool
        ensures { IsTrue result ↔ EndsBefore self.now node index }
    {
        end_before(&self.items, node, index)
    }

    /// The number at a node and an index, 0 where there is none.
    pub fn get(&self, node: u64, index: u64) -> Frac
        ensures { result ≡ at self.now node index }
    {
        let mut near = first_guess(&self.items, node, index);
        value_in(&self.items, node, index, &mut near)
    }

    /// The same. `near` is where the last number was met, at first 0: numbers that are asked for in rising order are met one behind the
    /// other and not looked up. Whatever stands in `near`, the answer is the same.
    pub fn get_near(&self, node: u64, index: u64, near: &mut usize) -> Frac
        ensures { result ≡ at self.now node index }
    {
        value_in(&self.items, node, index, near)
    }

    /// The same numbers in memory of their own.
    pub fn copy(&self, alloc: Global) -> Result<Values, Memory>
        ensures { IfOk result (λ v. v ≡ self.now) }
    {
        let items = Vec::from_slice(alloc, &self.items)?;
        Ok(Values { items })
    }

    /// The numbers in their order.
    pub fn items(&self) -> &[Value]
        ensures { result.now ≡ self.now }
    {
        &self.items
    }
}
