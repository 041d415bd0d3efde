//! What is fresh, closed and complete, and what may be begun, kept event by event.
ghost use Rattle.std.specs.Prelude.{◌≡◌, ℕ, ◌+◌, ◌<◌, ◌^◌, ◌↔◌, IsTrue, Some, None, IfOk, length, replicate};
ghost use Rattle.std.specs.Prelude.{slice_index_or, slice_set, true, false};
ghost use Rattle.pass_table.specs.Marks.{nothing};
ghost use Rattle.pass_table.specs.Walks.{IsRising, blank};
ghost use Rattle.pass_table.specs.Readings.{AreWithin};
ghost use Rattle.pass_table.specs.Rounds.{root_round};

use crate::flights::is_under_way;
use crate::looks::{are_good, are_open, count_waiting, next_free};
use crate::readings::{are_present, insert_family, insert_in_rounds};
use crate::{Marks, Rounds};
use std::alloc::{AllocError, Global};

/// A node's last solve in the present run.
#[derive(Clone, Copy, Debug, PartialEq, Eq)]
pub struct Solve {
    /// The number of its commit; 0 where there is none.
    pub commit: u64,
    /// How many commits there were at its Begin.
    pub since: u64,
    pub point: bool,
    /// Whether the children's pools still have the numbers that it read.
    pub low: bool,
}

/// What stands where a node has no last solve.
const NO_SOLVE: Solve = Solve {
    commit: 0,
    since: 0,
    point: false,
    low: false,
};

/// A solve in flight.
#[derive(Clone, Copy, Debug, PartialEq, Eq)]
pub struct Underway {
    pub node: u32,
    pub run: u64,
    /// How many commits there were at its Begin.
    pub since: u64,
}

/// A child's pool as a solve read it.
#[derive(Clone, Copy, Debug, PartialEq, Eq)]
pub struct Reading {
    pub child: u32,
    pub number: u64,
}

/// What stands for the machine's nodes and flights. Nothing but making it takes memory.
#[derive(Drop)]
pub struct Table {
    parents: Vec<u32>,
    solves: Vec<Solve>,
    flying: Vec<bool>,
    flights: Vec<Option<Underway>>,
    /// Has every node that may be begun with no solve of a node above it in flight.
    candidates: Rounds,
    /// Has every uppermost node that isn't fresh with a point.
    unopen: Marks,
    /// Has every uppermost node that wasn't made with its ancestors' present last solves, with a point.
    ungood: Marks,
    commits: u64,
    run: u64,
    closed: bool,
    complete: bool,
    ghost solves_long: { length solves.items ≡ length parents.items },
    ghost flying_long: { length flying.items ≡ length parents.items },
    ghost candidates_long: { length candidates.flags ≡ length parents.items },
    ghost met_long: { length candidates.met ≡ length parents.items },
    ghost waits_long: { length candidates.waits ≡ length parents.items },
    ghost unopen_long: { length unopen ≡ length parents.items },
    ghost ungood_long: { length ungood ≡ length parents.items },
    ghost rising: { IsRising parents.items },
}

impl Table {
    ghost use Rattle.std.specs.Prelude.{true};
    ghost use Rattle.pass_table.specs.Machine.{Machine, Flight, IsValid, IsLive, IsClosed, IsComplete, IsFlown, dropped, committed};
    ghost use Rattle.pass_table.specs.Machine.{raised, opened};
    ghost use Rattle.pass_table.specs.Fits.{Fits, Agrees, lists_of, AnswersBegin, IsHeld, HasRead, IsStart};

    /// The table before any event.
    pub fn start(alloc: Global, parents: Vec<u32>, workers: u32) -> Result<Table, AllocError>
        requires places { 0 < length parents.items }
        requires few { length parents.items < nothing }
        requires rising { IsRising parents.items }
        ensures fits { IfOk result (λ t. (m : Machine) → IsStart parents.items m → Fits t m) }
        ensures workers { IfOk result (λ t. length t.flights.items ≡ workers) }
    {
        let places = parents.len();
        let (candidates, unopen, ungood) = sets_of_root(alloc, places as u32)?;
        let (solves, flying, flights) = no_solves(alloc, places, workers)?;
        Ok(Table {
            parents,
            solves,
            flying,
            flights,
            candidates,
            unopen,
            ungood,
            commits: 0,
            run: 1,
            closed: false,
            complete: false,
        })
    }

    /// Whether every node is fresh with a point.
    pub fn is_closed(&self) -> bool
        ensures flag { result ≡ self.now.closed }
        ensures meaning { (m : Machine) → Fits self.now m → IsTrue result ↔ IsClosed m }
    {
        self.closed
    }

    /// Whether every node has a point that was made with its ancestors' present last solves.
    pub fn is_complete(&self) -> bool
        ensures { (m : Machine) → Fits self.now m → IsTrue result ↔ IsComplete m }
    {
        self.complete
    }

    /// How many places there are for nodes.
    pub fn places(&self) -> usize
        ensures { result ≡ length self.now.parents.items }
    {
        self.parents.len()
    }

    /// How many workers there are.
    pub fn workers(&self) -> usize
        ensures { result ≡ length self.now.flights.items }
    {
        self.flights.len()
    }

    /// How many commits there were.
    pub fn commits(&self) -> u64
        ensures { result ≡ self.now.commits }
    {
        self.commits
    }

    /// The number of the present run.
    pub fn run(&self) -> u64
        ensures { result ≡ self.now.run }
    {
        self.run
    }

    /// Which round of the present run this is, counted from 1.
    pub fn round(&self) -> u64 {
        self.candidates.round()
    }

    /// How many nodes aren't fresh.
    pub fn waiting(&self) -> u64 {
        count_waiting(&self.parents, &self.solves)
    }

    /// The worker's solve in flight.
    pub fn flight(&self, worker: u32) -> Option<Underway>
        requires { worker < length self.now.flights.items }
        ensures { result ≡ slice_index_or self.now.flights.items worker None }
    {
        self.flights[worker as usize]
    }

    /// Whether the worker has a solve in flight, of a node with a place.
    pub fn has_flight(&self, worker: u32) -> bool
        ensures { IsTrue result ↔ (worker < length self.now.flights.items)
            × IsHeld self.now.flights.items worker (length self.now.parents.items) }
    {
        if worker as usize >= self.flights.len() {
            return false;
        }
        match self.flights[worker as usize] {
            Some(flight) => (flight.node as usize) < self.parents.len(),
            None => false,
        }
    }

    /// Begins the node that is next, and answers it. A node above or below one in flight has to wait; so have those of the next
    /// round, while a solve of this one is in flight.
    pub fn begin(&mut self, worker: u32) -> Option<u32>
        requires worker { worker < length self.old.flights.items }
        requires idle { slice_index_or self.old.flights.items worker None ≡ None }
        ensures fits { (m : Machine) → IsValid m → Fits self.old m → AnswersBegin m worker result self.new }
        ensures workers { length self.new.flights.items ≡ length self.old.flights.items }
    {
        let Some(node) = next_free(
            &mut self.candidates,
            &self.parents,
            &self.solves,
            &self.flying,
        ) else {
            return None;
        };
        if self.candidates.is_waiting(node) && is_under_way(&self.flights, self.run) {
            return None;
        }
        self.candidates.pass(node);
        self.flying[node as usize] = true;
        self.flights[worker as usize] = Some(Underway {
            node,
            run: self.run,
            since: self.commits,
        });
        Some(node)
    }

    /// Commits a solve of the present run whose outcome is a point, or that there is none. `numbers` has the number of
    /// each node's pool in the run's bank, `readings` what the solve read.
    pub fn commit(&mut self, worker: u32, numbers: &[u64], readings: &[Reading], point: bool)
        requires worker { worker < length self.old.flights.items }
        requires held { IsHeld self.old.flights.items worker (length self.old.parents.items) }
        requires numbers { AreWithin readings.now (length numbers.now) }
        requires within { AreWithin readings.now (length self.old.parents.items) }
        requires more { self.old.commits + 1 < 2 ^ 64 }
        ensures fits { (m : Machine) (f : Flight) → IsValid m → Fits self.old m → IsFlown m f.node worker f
            → HasRead m f numbers.now readings.now
            → Fits self.new (committed m worker f point) }
        ensures workers { length self.new.flights.items ≡ length self.old.flights.items }
    {
        let Some(flight) = self.flights[worker as usize] else {
            unreachable!()
        };
        let low = are_present(numbers, readings);
        self.flights[worker as usize] = None;
        self.commits += 1;
        self.flying[flight.node as usize] = false;
        self.solves[flight.node as usize] = Solve {
            commit: self.commits,
            since: flight.since,
            point,
            low,
        };
        insert_in_rounds(&mut self.candidates, flight.node, readings);
        insert_family(&mut self.unopen, flight.node, readings);
        insert_family(&mut self.ungood, flight.node, readings);
        self.answer();
    }

    /// Commits a solve that leaves no last solve: one of an earlier run, or one whose pivots ended or that passed.
    pub fn forget(&mut self, worker: u32)
        requires worker { worker < length self.old.flights.items }
        requires held { IsHeld self.old.flights.items worker (length self.old.parents.items) }
        requires more { self.old.commits + 1 < 2 ^ 64 }
        ensures fits { (m : Machine) (f : Flight) → IsValid m → Fits self.old m → m.flight worker ≡ Some f
            → (f.run ≡ m.run → IsLive m f.node)
            → Fits self.new (dropped m worker) }
        ensures workers { length self.new.flights.items ≡ length self.old.flights.items }
    {
        let Some(flight) = self.flights[worker as usize] else {
            unreachable!()
        };
        self.flights[worker as usize] = None;
        self.commits += 1;
        if flight.run == self.run {
            self.flying[flight.node as usize] = false;
            self.candidates.insert(flight.node);
            self.candidates.restore();
        }
    }

    /// The number of a node's pool in the run's bank rose.
    pub fn raise(&mut self, pool: u32)
        requires low { 0 < pool }
        requires within { pool < length self.old.parents.items }
        ensures fits { (m : Machine) → IsValid m → Fits self.old m → IsLive m pool → Fits self.new (raised m pool) }
        ensures workers { length self.new.flights.items ≡ length self.old.flights.items }
    {
        let parent = self.parents[pool as usize];
        let mut solve = self.solves[parent as usize];
        solve.low = false;
        self.solves[parent as usize] = solve;
        self.candidates.hold(parent);
        self.unopen.insert(parent);
        self.answer();
    }

    /// Opens a run: all last solves are forgotten.
    pub fn open(&mut self)
        requires places { 0 < length self.old.parents.items }
        requires more { self.old.run + 1 < 2 ^ 64 }
        ensures fits { (m : Machine) (number : ℕ → ℕ) → IsValid m → Fits self.old m → Fits self.new (opened m number) }
        ensures workers { length self.new.flights.items ≡ length self.old.flights.items }
    {
        self.solves.as_mut_slice().fill(NO_SOLVE);
        self.flying.as_mut_slice().fill(false);
        self.candidates.clear();
        self.candidates.insert(0);
        self.unopen.clear();
        self.unopen.insert(0);
        self.ungood.clear();
        self.ungood.insert(0);
        self.run += 1;
        self.closed = false;
        self.complete = false;
    }

    /// Finds the two answers.
    fn answer(&mut self)
        ensures fits { (m : Machine) → IsValid m → Agrees (lists_of self.old) m → Fits self.new m }
        ensures workers { length self.new.flights.items ≡ length self.old.flights.items }
    {
        self.closed = are_open(&mut self.unopen, &self.parents, &self.solves);
        self.complete = are_good(&mut self.ungood, &self.parents, &self.solves);
    }
}

/// Rounds in which the root alone comes.
fn round_of_root(alloc: Global, places: u32) -> Result<Rounds, AllocError>
    requires places { 0 < places }
    requires few { places < nothing }
    ensures { IfOk result (λ r. r ≡ root_round places) }
{
    let mut round = Rounds::new(alloc, places)?;
    round.insert(0);
    Ok(round)
}

/// A set that has the root alone.
fn marks_of_root(alloc: Global, places: u32) -> Result<Marks, AllocError>
    requires places { 0 < places }
    requires few { places < nothing }
    ensures { IfOk result (λ m. m ≡ slice_set (replicate places false) 0 true) }
{
    let mut marks = Marks::new(alloc, places)?;
    marks.insert(0);
    Ok(marks)
}

/// Three sets that have the root alone; the first comes in rounds.
fn sets_of_root(alloc: Global, places: u32) -> Result<(Rounds, Marks, Marks), AllocError>
    requires places { 0 < places }
    requires few { places < nothing }
    ensures round { IfOk result (λ sets. sets.0 ≡ root_round places) }
    ensures first { IfOk result (λ sets. sets.1 ≡ slice_set (replicate places false) 0 true) }
    ensures second { IfOk result (λ sets. sets.2 ≡ slice_set (replicate places false) 0 true) }
{
    let round = round_of_root(alloc, places)?;
    let first = marks_of_root(alloc, places)?;
    let second = marks_of_root(alloc, places)?;
    Ok((round, first, second))
}

/// The last solves, the flags of the nodes in flight and the flights of the workers, where there are none.
fn no_solves(
    alloc: Global,
    places: usize,
    workers: u32,
) -> Result<(Vec<Solve>, Vec<bool>, Vec<Option<Underway>>), AllocError>
    ensures solves { IfOk result (λ lists. lists.0.items ≡ replicate places blank) }
    ensures flying { IfOk result (λ lists. lists.1.items ≡ replicate places false) }
    ensures flights { IfOk result (λ lists. lists.2.items ≡ replicate workers None) }
{
    let solves = vec![in alloc; NO_SOLVE; places]?;
    let flying = vec![in alloc; false; places]?;
    let flights = vec![in alloc; None; workers as usize]?;
    Ok((solves, flying, flights))
}
