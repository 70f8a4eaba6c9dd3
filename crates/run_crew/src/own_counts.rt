//! A thread counts its own starts and finishes in [`OwnCounts`].

ghost use Rattle.std.specs.Prelude.{◌≡◌, ◌<◌};
ghost use Rattle.run_crew.specs.OwnCounts.{CountsSame, GivesParts, OwnCountsView, joined, one_part};

use std::marker::Model;
use std::sync::ledger::{Ledger, Share};

/// A share of the total of starts, and a share of the total of finishes. It takes no memory. Counts
/// with every part hold all starts and finishes.
///
/// Only a total can add to a share. To split or merge shares moves parts and amounts, and neither
/// creates nor loses any.
#[derive(Drop)]
pub struct OwnCounts<S: Ledger, F: Ledger> {
    /// The starts that were counted here.
    pub starts: Share<S>,
    /// The finishes that were counted here.
    pub finishes: Share<F>,
}

impl<S: Ledger, F: Ledger> Model for OwnCounts<S, F> {
    ghost use Rattle.run_crew.specs.OwnCounts.{OwnCountsView};

    ghost Value = { OwnCountsView };

    ghost view = { λ s. record {
      start_parts = s.starts.parts;
      starts = s.starts.amount;
      finish_parts = s.finishes.parts;
      finishes = s.finishes.amount;
    } };
}

impl<S: Ledger, F: Ledger> OwnCounts<S, F> {
    /// Gives one part of each share away, and no amount.
    pub(crate) fn split_one(&mut self) -> OwnCounts<S, F>
        requires starts { 1 < self.old.start_parts }
        requires finishes { 1 < self.old.finish_parts }
        ensures one { result ≡ one_part }
        ensures parts { GivesParts 1 self.old self.new }
        ensures counts { CountsSame self.old self.new }
    {
        let starts = self.starts.split_off(1, 0);
        let finishes = self.finishes.split_off(1, 0);
        OwnCounts { starts, finishes }
    }

    /// Joins other counts into these.
    pub(crate) fn join(&mut self, other: OwnCounts<S, F>)
        ensures { self.new ≡ joined self.old other }
    {
        let OwnCounts { starts, finishes } = other;
        self.starts.merge(starts);
        self.finishes.merge(finishes);
    }
}
