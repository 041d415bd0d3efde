//! The scenarios, and what is set on their paths.
ghost use Rattle.std.specs.Prelude.{◌≡◌, ◌++◌, ◌∷◌, [], IfOk, OnOk, map};
ghost use Rattle.stoch_defs.specs.Stated.{value_set, path_among, paths_of};
ghost use Rattle.stoch_defs.specs.Step.{node_of};
ghost use Rattle.scenario_paths.specs.Paths.{node_stated};

use crate::hand::Scenario;
use crate::hands::Hands;
use frac128::Frac;
use smps_words::Entry;
use std::alloc::{AllocError, Global};
use std::marker::Model;

/// Scenarios, with the values on the paths of some of them at hand.
#[derive(Drop)]
pub struct Paths {
    alloc: Global,
    scenarios: Vec<Scenario>,
    hands: Hands,
}

impl Model for Paths {
    ghost use Rattle.std.specs.Prelude.{List, map};
    ghost use Rattle.stoch_defs.specs.Stated.{Node};
    ghost use Rattle.scenario_paths.specs.Paths.{node_stated, AreAtHand};

    ghost Value = { List Node };

    ghost view = { λ s. map node_stated s.scenarios.items };

    ghost invariant = { λ s. AreAtHand (map node_stated s.scenarios.items) s.hands };
}

impl Paths {
    /// There is no scenario.
    pub fn empty(alloc: Global) -> Paths
        ensures { result ≡ [] }
    {
        Paths {
            alloc,
            scenarios: Vec::new(alloc),
            hands: Hands::empty(alloc),
        }
    }

    /// A further scenario.
    pub fn push(
        &mut self,
        parent: Option<usize>,
        sets: Vec<(Entry, Frac)>,
    ) -> Result<(), AllocError>
        ensures { OnOk result (self.new ≡ self.old ++ node_of parent sets.items ∷ []) }
    {
        self.scenarios.push(Scenario { parent, sets })?;
        Ok(())
    }

    /// Brings the values on a path to hand, so that the paths of children of its last scenario are near.
    pub fn seek(&mut self, parent: Option<usize>) -> Result<(), AllocError>
        ensures { OnOk result (self.new ≡ self.old) }
    {
        let Some(number) = parent else {
            return Ok(());
        };
        self.hands.bring(self.alloc, &self.scenarios, number)?;
        Ok(())
    }

    /// The value that is set for an entry on a path.
    pub fn value(&mut self, parent: Option<usize>, entry: Entry) -> Result<Option<Frac>, AllocError>
        ensures same { OnOk result (self.new ≡ self.old) }
        ensures value { IfOk result (λ found. found ≡ value_set (path_among (paths_of self.old) parent) entry) }
    {
        let Some(number) = parent else {
            return Ok(None);
        };
        self.hands.bring(self.alloc, &self.scenarios, number)?;
        Ok(self.hands.present.values.get(&entry).copied())
    }

    /// The scenarios in their order.
    pub fn into_scenarios(self) -> Vec<Scenario>
        ensures { map node_stated result.items ≡ self }
    {
        self.scenarios
    }
}
