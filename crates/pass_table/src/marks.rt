//! A set of numbers below a bound that tells its least one at once. Only making it takes memory.
ghost use Rattle.std.specs.Prelude.{◌≡◌, ℕ, ◌+◌, ◌-◌, ◌*◌, ◌/◌, ◌<◌, ◌≤◌, Bool, true, false, length};
ghost use Rattle.std.specs.Prelude.{slice_index, slice_index_or};
ghost use Rattle.std.specs.Prelude.{slice_set, replicate, MatchOption, IfOk, if◌then◌else◌, ◌==◌};
ghost use Rattle.pass_table.specs.Marks.{nothing, NodesAre, HasNone, IsLeast};

use std::alloc::{AllocError, Global};
use std::marker::Model;

/// Stands where no number does.
const NONE: u32 = u32::MAX;

/// Contracts see the flags by number: true where the number is in the set.
#[derive(Drop)]
pub struct Marks {
    flags: Vec<bool>,
    /// A binary tree in one list: place 1 is its top, below place i stand 2 i and 2 i + 1, and number n has the
    /// place "size + n". Each place has the least number below it.
    least: Vec<u32>,
}

impl Model for Marks {
    ghost use Rattle.std.specs.Prelude.{◌<◌, ◌^◌, ◌-◌, List, Bool, length};
    ghost use Rattle.pass_table.specs.Marks.{IsKept};

    ghost Value = { List Bool };

    ghost view = { λ m. m.flags.items };

    ghost invariant = { λ m. IsKept m.flags.items m.least.items };
}

impl Marks {
    /// The empty set of numbers below the bound.
    pub fn new(alloc: Global, bound: u32) -> Result<Marks, AllocError>
        requires { bound < nothing }
        ensures { IfOk result (λ m. m ≡ replicate bound false) }
    {
        Ok(Marks {
            flags: vec![in alloc; false; bound as usize]?,
            least: vec![in alloc; NONE; 2 * bound as usize]?,
        })
    }

    /// The least number of the set.
    pub fn least(&self) -> Option<u32>
        ensures { MatchOption result (HasNone self.now) (IsLeast self.now) }
    {
        if self.flags.is_empty() {
            return None;
        }
        let number = self.least[1];
        if number == NONE { None } else { Some(number) }
    }

    /// Puts a number into the set.
    pub fn insert(&mut self, number: u32)
        requires { number < length self.old }
        ensures { self.new ≡ slice_set self.old number true }
    {
        let at = number as usize;
        if self.flags[at] {
            return;
        }
        let size = self.flags.len();
        self.flags[at] = true;
        put(self.least.as_mut_slice(), size, at, number);
    }

    /// Takes a number out of the set.
    pub fn remove(&mut self, number: u32)
        requires { number < length self.old }
        ensures { self.new ≡ slice_set self.old number false }
    {
        let at = number as usize;
        let size = self.flags.len();
        self.flags[at] = false;
        put(self.least.as_mut_slice(), size, at, NONE);
    }

    /// Takes all numbers out.
    pub fn clear(&mut self)
        ensures { self.new ≡ replicate (length self.old) false }
    {
        self.flags.as_mut_slice().fill(false);
        self.least.as_mut_slice().fill(NONE);
    }
}

/// Writes the value of a number's place, and of the places above it.
fn put(least: &mut [u32], size: usize, number: usize, value: u32)
    requires long { length least.old ≡ 2 * size }
    requires number { number < size }
    requires nodes { NodesAre least.old size }
    ensures nodes { NodesAre least.new size }
    ensures leaf { (i : ℕ) → i < size
        → slice_index least.new (size + i) ≡ (if i == number then value else slice_index least.old (size + i)) }
{
    let mut at = size + number;
    least[at] = value;
    'up: while at > 1 {
        at /= 2;
        let below = least[2 * at].min(least[2 * at + 1]);
        if least[at] == below {
            return;
        }
        least[at] = below;
    }
}
