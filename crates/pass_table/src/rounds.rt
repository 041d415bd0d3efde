//! A set of numbers that come in rounds, in each by rising numbers. Only making it takes memory.
ghost use Rattle.std.specs.Prelude.{◌≡◌, ◌<◌, true, false, length, slice_index_or, slice_set, replicate, MatchOption, IfOk};
ghost use Rattle.pass_table.specs.Marks.{nothing, HasNone};
ghost use Rattle.pass_table.specs.Readings.{Adds};
ghost use Rattle.pass_table.specs.Rounds.{IsFirst, flag_in, passed_waits};

use crate::Marks;
use std::alloc::{AllocError, Global};
use std::marker::Model;
use std::mem;

/// Contracts see the flags by number: of those in the set, of those that were put in since it was cleared, and of those that
/// wait for the next round.
#[derive(Drop)]
pub struct Rounds {
    /// The numbers that come in the present round.
    coming: Marks,
    /// Those that have to wait for the next one.
    waiting: Marks,
    met: Vec<bool>,
    waits: Vec<bool>,
    /// Which round the present one is since the set was cleared. No contract sees it.
    round: u64,
}

/// The round that begins where the set is cleared.
const FIRST_ROUND: u64 = 1;

impl Model for Rounds {
    ghost use Rattle.pass_table.specs.Rounds.{Round, either, IsSplit};

    ghost Value = { Round };

    ghost view = { λ r. record { flags = either r.coming r.waiting; met = r.met.items; waits = r.waits.items } };

    ghost invariant = { λ r. IsSplit r.coming r.waiting r.met.items r.waits.items };
}

impl Rounds {
    /// The empty set of numbers below the bound.
    pub fn new(alloc: Global, bound: u32) -> Result<Rounds, AllocError>
        requires { bound < nothing }
        ensures { let none = replicate bound false in IfOk result (λ r. r ≡ record { flags = none; met = none; waits = none }) }
    {
        Ok(Rounds {
            coming: Marks::new(alloc, bound)?,
            waiting: Marks::new(alloc, bound)?,
            met: vec![in alloc; false; bound as usize]?,
            waits: vec![in alloc; false; bound as usize]?,
            round: FIRST_ROUND,
        })
    }

    /// Which round the present one is since the set was cleared, counted from 1.
    pub fn round(&self) -> u64 {
        self.round
    }

    /// The number that comes first.
    pub fn first(&self) -> Option<u32>
        ensures { MatchOption result (HasNone self.now.flags) (IsFirst self.now) }
    {
        match self.coming.least() {
            Some(number) => Some(number),
            None => self.waiting.least(),
        }
    }

    /// Whether a number waits for the next round.
    pub fn is_waiting(&self, number: u32) -> bool
        requires { number < length self.now.flags }
        ensures { result ≡ slice_index_or self.now.waits number false }
    {
        self.waits[number as usize]
    }

    /// Puts a number into the set: into the present round where it doesn't wait for the next one.
    pub fn insert(&mut self, number: u32)
        requires { number < length self.old.flags }
        ensures { self.new ≡ record self.old {
          flags = slice_set self.old.flags number true;
          met = slice_set self.old.met number true;
        } }
    {
        self.met[number as usize] = true;
        if self.waits[number as usize] {
            self.waiting.insert(number);
        } else {
            self.coming.insert(number);
        }
    }

    /// Puts a number into the set, for the next round.
    pub fn hold(&mut self, number: u32)
        requires { number < length self.old.flags }
        ensures { self.new ≡ record {
          flags = slice_set self.old.flags number true;
          met = slice_set self.old.met number true;
          waits = slice_set self.old.waits number true;
        } }
    {
        self.met[number as usize] = true;
        self.waits[number as usize] = true;
        self.coming.remove(number);
        self.waiting.insert(number);
    }

    /// Takes a number out of the set.
    pub fn remove(&mut self, number: u32)
        requires { number < length self.old.flags }
        ensures { self.new ≡ record self.old { flags = slice_set self.old.flags number false } }
    {
        self.coming.remove(number);
        self.waiting.remove(number);
    }

    /// Takes out the number that comes first, which waits for the next round from then on. Where it waited that round begins.
    pub fn pass(&mut self, number: u32)
        requires { IsFirst self.old number }
        ensures { self.new ≡ record self.old {
          flags = slice_set self.old.flags number false;
          waits = passed_waits self.old.waits number;
        } }
    {
        self.coming.remove(number);
        self.waiting.remove(number);
        if self.waits[number as usize] {
            mem::swap(&mut self.coming, &mut self.waiting);
            self.waits.as_mut_slice().fill(false);
            self.round = self.round.saturating_add(1);
        }
        self.waits[number as usize] = true;
    }

    /// Puts all numbers in again that were in the set since it was cleared.
    pub fn restore(&mut self)
        ensures adds { Adds (λ n. flag_in self.old.met n ≡ true) self.old.flags self.new.flags }
        ensures met { self.new.met ≡ self.old.met }
        ensures waits { self.new.waits ≡ self.old.waits }
    {
        for number in 0..self.met.len() as u32 {
            if self.met[number as usize] {
                self.insert(number);
            }
        }
    }

    /// Takes all numbers out; a round begins.
    pub fn clear(&mut self)
        ensures { let none = replicate (length self.old.flags) false in self.new ≡ record { flags = none; met = none; waits = none } }
    {
        self.coming.clear();
        self.waiting.clear();
        self.met.as_mut_slice().fill(false);
        self.waits.as_mut_slice().fill(false);
        self.round = FIRST_ROUND;
    }
}
