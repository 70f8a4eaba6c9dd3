//! A [`Desk`] is a [`Place`], which is how the threads see it.

ghost use Rattle.run_crew.specs.Nights.{FinishesAt, FlushesAt, HoldsAt, ReportsAt, StartsAt};

use crate::desks::Desk;
use crate::openings::Opening;
use crate::own_counts::OwnCounts;
use crate::places::{CountedPlace, Place};
use run_disk::RunDisk;
use run_model::{Outcome, Refusal, Started, Trouble};
use std::sync::ledger::Ledger;

impl<D: RunDisk, S: Ledger, F: Ledger, O: Opening> Place for Desk<D, S, F, O> {
    ghost holds = { HoldsAt D.state O.opening };

    ghost flushes = { FlushesAt D.state O.opening };

    ghost reports = { ReportsAt D.state O.opening };

    fn durable(&self) -> u64 {
        self.book().durable()
    }

    fn flush(&mut self) -> Result<u64, Trouble> {
        let _book = self.book();
        Desk::flush(self)
    }

    fn is_done(&self, task: u16) -> bool {
        let _book = self.book();
        Desk::is_done(self, task)
    }
}

impl<D: RunDisk, S: Ledger, F: Ledger, O: Opening> CountedPlace<S, F> for Desk<D, S, F, O> {
    ghost starts = { StartsAt D.state O.opening };

    ghost finishes = { FinishesAt D.state O.opening };

    fn start_as(&mut self, own: &mut OwnCounts<S, F>) -> Result<Started, Refusal> {
        let _book = self.book();
        Desk::start_as(self, own)
    }

    fn finish_as(
        &mut self,
        own: &mut OwnCounts<S, F>,
        task: u16,
        outcome: &Outcome,
    ) -> Result<u64, Refusal> {
        let _book = self.book();
        Desk::finish_as(self, own, task, outcome)
    }
}
