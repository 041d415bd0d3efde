//! What is set on the paths of several scenarios.
ghost use Rattle.std.specs.Prelude.{◌≡◌, ◌<◌, IfOk, IfSome, List, OnOk, length, map};
ghost use Rattle.stoch_defs.specs.Stated.{Node, path_among, paths_of};
ghost use Rattle.scenario_paths.specs.Paths.{node_stated, AreAtHand, StaysAtHand, SetsTheSame};

use crate::hand::{Hand, Scenario, earlier, empty_hand, moved};
use std::alloc::{AllocError, Global};
use std::mem::replace;

/// So many hands there are at most.
const MOST_HANDS: usize = 16;

/// The hands have so many values at most, but for the present one. A value takes some 80 bytes, so that these take 10 MB. A hand has a
/// value for each entry that is set on its path: with up to 8,192 entries all hands have room.
const MOST_VALUES: usize = 131_072;

/// The values on several paths. A scenario that is at a hand, or whose parent is, wants no way up: so chains of scenarios may come by
/// turns, each with a hand of its own, if they are no more than there are hands. With more of them each has a way up, which is short
/// then if they have no long beginning in common.
#[derive(Drop)]
pub(crate) struct Hands {
    /// The hand that was wanted last.
    pub(crate) present: Hand,
    /// The others, that which was wanted longest ago first.
    pub(crate) others: Vec<Hand>,
}

/// The place of a hand that is at a scenario; none is the core's own path.
fn place_at(hands: &[Hand], at: Option<usize>) -> Option<usize>
    ensures within { IfSome result (λ place. place < length hands.now) }
{
    for (place, hand) in hands.iter().enumerate() {
        if hand.at == at {
            return Some(place);
        }
    }
    None
}

impl Hands {
    /// One hand, with which nothing is set.
    pub(crate) fn empty(alloc: Global) -> Hands
        ensures { (nodes : List Node) → AreAtHand nodes result }
    {
        Hands {
            present: empty_hand(alloc),
            others: Vec::new(alloc),
        }
    }

    /// The same with one more hand, which is the present one.
    fn with_fresh(self, alloc: Global) -> Result<Hands, AllocError>
        ensures { IfOk result (λ hands. StaysAtHand self hands) }
    {
        let mut others = self.others;
        others.push(self.present)?;
        Ok(Hands {
            present: empty_hand(alloc),
            others,
        })
    }

    /// The same where the hand at this place of the others is the present one.
    fn turned(self, place: usize) -> Result<Hands, AllocError>
        requires { place < length self.others.items }
        ensures { IfOk result (λ hands. StaysAtHand self hands) }
    {
        let mut others = self.others;
        let present = others.remove(place);
        others.push(self.present)?;
        Ok(Hands { present, others })
    }

    /// The same where that hand is the present one from which the scenario is reached: the one that is at it, or else at its parent, or
    /// else a fresh one, or else that which was wanted longest ago.
    fn nearest(
        self,
        alloc: Global,
        number: usize,
        parent: Option<usize>,
    ) -> Result<Hands, AllocError>
        ensures { IfOk result (λ hands. StaysAtHand self hands) }
    {
        if let Some(place) = place_at(&self.others, Some(number)) {
            return self.turned(place);
        }
        if self.present.at == parent {
            return Ok(self);
        }
        if let Some(place) = place_at(&self.others, parent) {
            return self.turned(place);
        }
        if self.others.len() < MOST_HANDS - 1 {
            return self.with_fresh(alloc);
        }
        self.turned(0)
    }

    /// So many values the others have.
    fn count_behind(&self) -> usize {
        let mut count: usize = 0;
        for hand in &self.others {
            count = count.saturating_add(hand.values.len());
        }
        count
    }

    /// The same, but for the others where they have too many values.
    fn lightened(self, alloc: Global) -> Hands
        ensures present { result.present ≡ self.present }
        ensures kept { StaysAtHand self result }
    {
        if self.count_behind() <= MOST_VALUES {
            return self;
        }
        Hands {
            present: self.present,
            others: Vec::new(alloc),
        }
    }

    /// The same where the present hand is at a scenario.
    fn moved(
        self,
        alloc: Global,
        scenarios: &[Scenario],
        number: usize,
    ) -> Result<Hands, AllocError>
        requires { AreAtHand (map node_stated scenarios.now) self }
        ensures known { IfOk result (λ hands. AreAtHand (map node_stated scenarios.now) hands) }
        ensures here { IfOk result (λ hands. SetsTheSame hands.present.values.entries
            (path_among (paths_of (map node_stated scenarios.now)) (Some number))) }
    {
        let parent = match scenarios.get(number) {
            Some(scenario) => earlier(scenario.parent, number),
            None => None,
        };
        let hands = self.nearest(alloc, number, parent)?;
        let present = moved(alloc, scenarios, hands.present, number)?;
        let hands = Hands {
            present,
            others: hands.others,
        };
        Ok(hands.lightened(alloc))
    }

    /// Brings the values on the path of a scenario to the present hand.
    pub(crate) fn bring(
        &mut self,
        alloc: Global,
        scenarios: &[Scenario],
        number: usize,
    ) -> Result<(), AllocError>
        requires { AreAtHand (map node_stated scenarios.now) self.old }
        ensures known { AreAtHand (map node_stated scenarios.now) self.new }
        ensures here { OnOk result (SetsTheSame self.new.present.values.entries
            (path_among (paths_of (map node_stated scenarios.now)) (Some number))) }
    {
        if self.present.at == Some(number) {
            return Ok(());
        }
        let hands = replace(self, Hands::empty(alloc));
        *self = hands.moved(alloc, scenarios, number)?;
        Ok(())
    }
}
