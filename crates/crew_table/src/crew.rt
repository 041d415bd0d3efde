//! What is fresh, closed and complete, and what may be begun, where several workers solve.
ghost use Rattle.std.specs.Prelude.{◌≡◌, ◌+◌, ◌<◌, ◌^◌, ◌↔◌, ℕ, true, IsTrue, IsSome, None, Some, IfOk, IfSome, length};
ghost use Rattle.pass_table.specs.Machine.{Machine, Flight, IsValid, IsLive, IsClosed, IsComplete, IsFlown};
ghost use Rattle.pass_table.specs.Machine.{dropped, committed, raised, opened};
ghost use Rattle.pass_table.specs.Fits.{Fits, AnswersBegin, IsHeld, HasRead, IsStart};
ghost use Rattle.pass_table.specs.Readings.{AreWithin};
ghost use Rattle.crew_table.specs.Parents.{AreParents};

use frac128::Memory;
use pass_table::{Reading, Table, are_rising, are_within};
use std::alloc::Global;
use std::marker::Model;

/// A table with a place for a solve in flight of each worker, of whom there is one at least. Contracts see the table.
#[derive(Drop)]
pub struct Crew {
    table: Table,
}

impl Model for Crew {
    ghost use Rattle.std.specs.Prelude.{◌<◌, ◌^◌, length};
    ghost use Rattle.pass_table.specs.declared.table.Table.{Table};

    ghost Value = { Table };

    ghost view = { λ t. t.table };

    ghost invariant = { λ t. (0 < length t.table.flights.items) × (length t.table.flights.items < 2 ^ 32) };
}

impl Crew {
    /// The table before any event. None where the nodes aren't numbered from the root on, or there is no worker.
    pub fn start(alloc: Global, parents: &[u32], workers: u32) -> Result<Option<Crew>, Memory>
        ensures fits { IfOk result (λ all. IfSome all (λ t. (m : Machine) → IsStart parents.now m → Fits t m)) }
        ensures workers { IfOk result (λ all. IfSome all (λ t. length t.flights.items ≡ workers)) }
        ensures some { 0 < workers → IfOk result (λ all. IsSome all ↔ AreParents parents.now) }
    {
        if workers == 0 || !are_parents(parents) {
            return Ok(None);
        }
        let own = Vec::from_slice(alloc, parents)?;
        let table = Table::start(alloc, own, workers)?;
        Ok(Some(Crew { table }))
    }

    /// There is a worker.
    pub fn has_workers(&self)
        ensures { 0 < length self.now.flights.items }
    {
        let _table = &self.table;
    }

    /// How many workers there are.
    pub fn workers(&self) -> u32
        ensures number { result ≡ length self.now.flights.items }
        ensures some { 0 < result }
    {
        self.table.workers() as u32
    }

    /// Which round of the present run this is, counted from 1.
    pub fn round(&self) -> u64 {
        self.table.round()
    }

    /// How many nodes aren't fresh.
    pub fn waiting(&self) -> u64 {
        self.table.waiting()
    }

    /// Whether every node is fresh with a point.
    pub fn is_closed(&self) -> bool
        ensures flag { result ≡ self.now.closed }
        ensures meaning { (m : Machine) → Fits self.now m → IsTrue result ↔ IsClosed m }
    {
        self.table.is_closed()
    }

    /// Whether every node has a point that was made with its ancestors' present last solves.
    pub fn is_complete(&self) -> bool
        ensures { (m : Machine) → Fits self.now m → IsTrue result ↔ IsComplete m }
    {
        self.table.is_complete()
    }

    /// Whether one more commit and one more run can be counted.
    pub fn has_room(&self) -> bool
        ensures { IsTrue result ↔ (self.now.commits + 1 < 2 ^ 64) × (self.now.run + 1 < 2 ^ 64) }
    {
        self.table.commits() < u64::MAX && self.table.run() < u64::MAX
    }

    /// Whether fewer than 2^62 commits were counted, as far away as that number is.
    pub fn has_few(&self) -> bool
        ensures { result ≡ true → self.now.commits < 2 ^ 62 }
    {
        self.table.commits() < 1 << 62
    }

    /// Begins the node that is next, and answers it. None too where the worker has a solve in flight, or no place.
    pub fn begin(&mut self, worker: u32) -> Option<u32>
        ensures fits { (m : Machine) → IsValid m → Fits self.old m → m.flight worker ≡ None → worker < length self.old.flights.items
            → AnswersBegin m worker result self.new }
        ensures workers { length self.new.flights.items ≡ length self.old.flights.items }
    {
        if (worker as usize) < self.table.workers() && self.table.flight(worker).is_none() {
            self.table.begin(worker)
        } else {
            None
        }
    }

    /// Commits the worker's solve in flight, whose outcome is a point, or that there is none. `numbers` has the number of each
    /// node's pool in the run's bank, `readings` what the solve read.
    pub fn commit(&mut self, worker: u32, numbers: &[u64], readings: &[Reading], point: bool)
        ensures fits { (m : Machine) (f : Flight) → IsValid m → Fits self.old m → IsFlown m f.node worker f
            → HasRead m f numbers.now readings.now → AreWithin readings.now (length numbers.now) → m.commits + 1 < 2 ^ 64
            → Fits self.new (committed m worker f point) }
        ensures workers { length self.new.flights.items ≡ length self.old.flights.items }
    {
        if self.can_commit(worker) && self.can_take(numbers, readings) {
            self.table.commit(worker, numbers, readings, point);
        }
    }

    /// Commits the worker's solve in flight, which leaves no last solve: it is of an earlier run, or its pivots ended, or it passed.
    pub fn forget(&mut self, worker: u32)
        ensures fits { (m : Machine) (f : Flight) → IsValid m → Fits self.old m → m.flight worker ≡ Some f → IsLive m f.node
            → m.commits + 1 < 2 ^ 64
            → Fits self.new (dropped m worker) }
        ensures workers { length self.new.flights.items ≡ length self.old.flights.items }
    {
        if self.can_commit(worker) {
            self.table.forget(worker);
        }
    }

    /// Whether the worker has a solve in flight, and one more commit can be counted.
    fn can_commit(&self, worker: u32) -> bool
        ensures { IsTrue result ↔ (worker < length self.now.flights.items)
            × IsHeld self.now.flights.items worker (length self.now.parents.items) × (self.now.commits + 1 < 2 ^ 64) }
    {
        self.table.commits() < u64::MAX && self.table.has_flight(worker)
    }

    /// Whether these numbers and the table have a place for each child that was read.
    fn can_take(&self, numbers: &[u64], readings: &[Reading]) -> bool
        ensures { IsTrue result ↔ AreWithin readings.now (length numbers.now)
            × AreWithin readings.now (length self.now.parents.items) }
    {
        are_within(readings, numbers.len()) && are_within(readings, self.table.places())
    }

    /// The number of a node's pool in the run's bank rose. Nobody reads the root's.
    pub fn raise(&mut self, node: u32)
        ensures fits { (m : Machine) → IsValid m → Fits self.old m → IsLive m node → 0 < node → Fits self.new (raised m node) }
        ensures workers { length self.new.flights.items ≡ length self.old.flights.items }
    {
        if node > 0 && (node as usize) < self.table.places() {
            self.table.raise(node);
        }
    }

    /// Opens a run: all last solves are forgotten. Solves in flight are of an earlier run from then on.
    pub fn open(&mut self)
        ensures fits { (m : Machine) (number : ℕ → ℕ) → IsValid m → Fits self.old m → m.run + 1 < 2 ^ 64
            → Fits self.new (opened m number) }
        ensures workers { length self.new.flights.items ≡ length self.old.flights.items }
    {
        if self.table.places() > 0 && self.table.run() < u64::MAX {
            self.table.open();
        }
    }
}

/// Whether the nodes with these parents are numbered from the root on.
fn are_parents(parents: &[u32]) -> bool
    ensures { IsTrue result ↔ AreParents parents.now }
{
    !parents.is_empty() && parents.len() < u32::MAX as usize && are_rising(parents)
}
