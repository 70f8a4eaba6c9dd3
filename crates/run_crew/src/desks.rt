//! A [`Desk`] is the value under the lock: the book, and the totals of its starts and finishes.

ghost use Rattle.std.specs.Prelude.{◌≡◌, ◌<◌, ◌≤◌, ◌+◌, ◌^◌, ℕ, List, length, MatchResult};
ghost use Rattle.std.specs.Prelude.{OnErr, OnOk, Some};
ghost use Rattle.run_model.specs.declared.answers.Reply.TheVariants as reported;
ghost use Rattle.run_model.specs.declared.commands.Step.TheVariants as step;
ghost use Rattle.run_model.specs.Allowed.{run};
ghost use Rattle.run_model.specs.Replies.{reply, reply_finish, reply_start};
ghost use Rattle.run_model.specs.Session.{after_step, replied};
ghost use Rattle.run_session.specs.Replays.{Replays};
ghost use Rattle.book_model.specs.Books.{CarriesOn, Checkpoints, Flushes, IsDurable, IsSafe};
ghost use Rattle.book_model.specs.Stores.{Stores};
ghost use Rattle.run_book.specs.Views.{unless_broken, with_session};
ghost use Rattle.run_crew.specs.Desks.{DeskView, finishes_of, is_done_for, starts_of};
ghost use Rattle.run_crew.specs.Nights.{FlushesNight};
ghost use Rattle.run_crew.specs.Openings.{Carries};
ghost use Rattle.run_crew.specs.OwnCounts.{one_finish, one_start};
ghost use Rattle.run_crew.specs.Steps.{TakesStep};

use crate::counts::counts_of;
use crate::openings::{AnyBook, Obeys, Opening};
use crate::own_counts::OwnCounts;
use run_book::Book;
use run_disk::RunDisk;
use run_model::{Answer, Command, Outcome, Refusal, Started, Trouble};
use std::marker::{Model, PhantomData};
use std::sync::ledger::{Blank, Book as Total, Ledger};

/// A book, the number of its events when the desk was made, and the totals of the starts and the
/// finishes in its history. All workers share it under one lock, so each call of it is one step of
/// the book.
///
/// The type of the opening stands for the facts about the book when the desk was made. From there
/// the book carries on, whichever threads hold the lock: [`Desk::book`] ensures that. A desk
/// without a named opening may be over any book.
#[derive(Drop)]
pub struct Desk<D: RunDisk, S: Ledger, F: Ledger, O: Opening = AnyBook> {
    book: Book<D>,
    since: u64,
    starts: Total<S>,
    finishes: Total<F>,
    opening: PhantomData<O>,
}

impl<D: RunDisk, S: Ledger, F: Ledger, O: Opening> Model for Desk<D, S, F, O> {
    ghost use Rattle.std.specs.Prelude.{◌≡◌};
    ghost use Rattle.run_crew.specs.Desks.{DeskView, finishes_of, starts_of};
    ghost use Rattle.run_crew.specs.Openings.{Carries};

    ghost Value = { DeskView D };

    ghost view = { λ d. record { book = d.book; since = d.since } };

    ghost invariant = { λ d. (d.starts.total ≡ starts_of d.book.session.history)
        × (d.finishes.total ≡ finishes_of d.book.session.history)
        × Carries O.opening D.state d.book };
}

impl<D: RunDisk, S: Ledger, F: Ledger, O: Opening> Desk<D, S, F, O> {
    /// Returns a desk over a book, and counts that have every part of both shares. They have
    /// counted the starts and finishes that are already in the history of the book.
    pub fn new(book: Book<D>, starts: Blank, finishes: Blank) -> (Desk<D, S, F, O>, OwnCounts<S, F>)
        requires starts { (starts.name ≡ S.name) × (starts.parts ≡ S.parts) × (0 < S.parts) }
        requires finishes { (finishes.name ≡ F.name) × (finishes.parts ≡ F.parts)
            × (0 < F.parts) }
        requires carries { Carries O.opening D.state book }
        ensures desk { result.0 ≡ record { book = book; since = book.session.state.count } }
        ensures own { result.1 ≡ record {
          start_parts = S.parts;
          starts = starts_of book.session.history;
          finish_parts = F.parts;
          finishes = finishes_of book.session.history;
        } }
    {
        let (mut start_total, mut start_share) = starts.open::<S>();
        let (mut finish_total, mut finish_share) = finishes.open::<F>();
        let counts = counts_of(&book);
        start_total.add(&mut start_share, counts.starts);
        finish_total.add(&mut finish_share, counts.finishes);
        let desk = Desk {
            since: book.state().count(),
            book,
            starts: start_total,
            finishes: finish_total,
            opening: PhantomData,
        };
        let own = OwnCounts {
            starts: start_share,
            finishes: finish_share,
        };
        (desk, own)
    }

    /// Starts the ready task with the lowest number, as [`Book::start`] does. If the start is
    /// accepted, the counts have one more start.
    pub fn start_as(&mut self, own: &mut OwnCounts<S, F>) -> Result<Started, Refusal>
        requires part { 0 < own.old.start_parts }
        ensures reply { result ≡ unless_broken self.old.book
            (reply_start self.old.book.session.state self.old.book.session.log) }
        ensures after { self.new.book
            ≡ with_session self.old.book (after_step self.old.book.session step.Start) }
        ensures step { TakesStep D.state self.old step.Start (replied reported.Started result)
            self.new }
        ensures refused { OnErr result (self.new.book ≡ self.old.book) }
        ensures own { MatchResult result (λ _. own.new ≡ one_start own.old)
            (λ _. own.new ≡ own.old) }
    {
        let started = self.book.start();
        self.starts.add(&mut own.starts, u64::from(started.is_ok()));
        started
    }

    /// Ends a running task with this outcome, as [`Book::finish`] does. If the finish is accepted,
    /// the counts have one more finish.
    pub fn finish_as(
        &mut self,
        own: &mut OwnCounts<S, F>,
        task: u16,
        outcome: &Outcome,
    ) -> Result<u64, Refusal>
        requires part { 0 < own.old.finish_parts }
        ensures reply { result ≡ unless_broken self.old.book
            (reply_finish self.old.book.session.state task outcome.now) }
        ensures after { self.new.book ≡ with_session self.old.book
            (after_step self.old.book.session (step.Finish task outcome.now)) }
        ensures step { TakesStep D.state self.old (step.Finish task outcome.now)
            (replied reported.Finished result) self.new }
        ensures refused { OnErr result (self.new.book ≡ self.old.book) }
        ensures own { MatchResult result (λ _. own.new ≡ one_finish own.old)
            (λ _. own.new ≡ own.old) }
    {
        let number = self.book.finish(task, outcome);
        self.finishes
            .add(&mut own.finishes, u64::from(number.is_ok()));
        number
    }

    /// Makes all events so far durable, as [`Book::flush`] does.
    pub fn flush(&mut self) -> Result<u64, Trouble>
        ensures layout { self.new.book.journal.layout ≡ self.old.book.journal.layout }
        ensures flushes { Flushes D.state self.old.book result self.new.book }
        ensures carries_on { CarriesOn D.state self.old.book self.new.book }
        ensures stores { IsSafe D.state self.old.book → OnOk result ((x : List ℕ)
            → (D.state self.new.book.journal.disk).images x
            → Stores x self.new.book.session.state) }
        ensures since { self.new.since ≡ self.old.since }
    {
        self.book.flush()
    }

    /// Flushes, as [`Desk::flush`] does. The flushed history contains each start and finish that
    /// the counts hold.
    pub(crate) fn flush_as(&mut self, own: &mut OwnCounts<S, F>) -> Result<u64, Trouble>
        ensures flushes { FlushesNight D.state O.opening own.old result }
        ensures same { own.new ≡ own.old }
    {
        self.starts.audit(&mut own.starts);
        self.finishes.audit(&mut own.finishes);
        self.flush()
    }

    /// Makes all events so far durable, as [`Book::checkpoint`] does.
    pub fn checkpoint(&mut self) -> Result<u64, Trouble>
        ensures layout { self.new.book.journal.layout ≡ self.old.book.journal.layout }
        ensures checkpoints { Checkpoints D.state self.old.book result self.new.book }
        ensures carries_on { CarriesOn D.state self.old.book self.new.book }
        ensures stores { IsSafe D.state self.old.book → OnOk result ((x : List ℕ)
            → (D.state self.new.book.journal.disk).images x
            → Stores x self.new.book.session.state) }
        ensures since { self.new.since ≡ self.old.since }
    {
        self.book.checkpoint()
    }

    /// Returns how many starts and finishes are in the history of the book. Counts with every part
    /// has counted the same numbers.
    pub fn settle(&mut self, own: &mut OwnCounts<S, F>) -> (u64, u64)
        requires parts { (own.old.start_parts ≡ S.parts) × (own.old.finish_parts ≡ F.parts) }
        ensures same { (self.new ≡ self.old) × (own.new ≡ own.old) }
        ensures counted { (result.0 ≡ own.old.starts) × (result.1 ≡ own.old.finishes) }
        ensures history { (result.0 ≡ starts_of self.old.book.session.history)
            × (result.1 ≡ finishes_of self.old.book.session.history) }
    {
        self.starts.audit(&mut own.starts);
        self.finishes.audit(&mut own.finishes);
        let counts = counts_of(&self.book);
        (counts.starts, counts.finishes)
    }

    /// Returns the book, for reading. Whenever the lock is free, the book's state is the one to
    /// which its history leads, every crash leaves the acknowledged events, and the book carries on
    /// from the facts known at the opening.
    pub fn book(&self) -> &Book<D>
        ensures book { result.now ≡ self.now.book }
        ensures replays { Replays self.now.book.session }
        ensures images { IsDurable D.state self.now.book }
        ensures carries { Carries O.opening D.state self.now.book }
    {
        let _state = self.book.state();
        let _durable = self.book.durable();
        &self.book
    }

    /// Returns the number of events when the desk was made.
    pub fn since(&self) -> u64
        ensures { result ≡ self.now.since }
    {
        self.since
    }

    /// Returns whether there is a task with this number, and its scope is done.
    pub fn is_done(&self, task: u16) -> bool
        ensures { result ≡ is_done_for self.now.book.session.state task }
    {
        let state = self.book.state();
        let Some(row) = state.task(task) else {
            return false;
        };
        let Some(group) = state.group(row.group) else {
            return false;
        };
        match state.look(group.scope) {
            Some(look) => look.done.is_some(),
            None => false,
        }
    }

    /// Returns the book, and gives up the desk.
    pub fn into_book(self) -> Book<D>
        ensures book { result ≡ self.book }
        ensures carries { Carries O.opening D.state self.book }
    {
        let Desk { book, .. } = self;
        book
    }
}

impl<D: RunDisk, S: Ledger, F: Ledger, O: Obeys> Desk<D, S, F, O> {
    /// Carries out a command, as [`Book::command`] does.
    pub fn command(&mut self, call: &Command) -> Result<Answer, Refusal>
        ensures reply { result ≡ unless_broken self.old.book
            (reply self.old.book.session.state self.old.book.session.log call.now) }
        ensures after { self.new.book ≡ with_session self.old.book
            (after_step self.old.book.session (step.Command call.now)) }
        ensures step { TakesStep D.state self.old (step.Command call.now)
            (replied reported.Answer result) self.new }
        ensures refused { OnErr result (self.new.book ≡ self.old.book) }
    {
        self.book.command(call)
    }
}
