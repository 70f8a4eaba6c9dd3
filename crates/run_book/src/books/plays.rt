//! A list of steps, which are taken one after another.

ghost use Rattle.std.specs.Prelude.{◌≡◌, ◌+◌, ◌≤◌, length, vec_capacity, vec_len};
ghost use Rattle.run_model.specs.declared.answers.Reply.TheVariants as reply;
ghost use Rattle.run_model.specs.Session.{replied};
ghost use Rattle.run_session.specs.Lasting.{Stays};
ghost use Rattle.book_model.specs.Books.{CarriesOn};
ghost use Rattle.book_model.specs.Steps.{AnswersStep, PlaysInto, reply_of_save};

use super::Book;
use run_disk::RunDisk;
use run_model::{Answer, Refusal, Reply, Started, Step, Trouble};
use std::alloc::Allocator;

impl<D: RunDisk, A: Allocator> Book<D, A> {
    /// Takes the steps in order, and appends one reply for each of them to `replies`, whose
    /// capacity must suffice. After a failure of the device each step is refused as `Broken`.
    pub fn play<B: Allocator>(&mut self, steps: &[Step], replies: &mut Vec<Reply, B>)
        requires room { vec_len replies.old + length steps.now ≤ vec_capacity replies.old }
        ensures plays { PlaysInto D.state self.old steps.now replies.old.items
            self.new replies.new.items }
        ensures capacity { vec_capacity replies.new ≡ vec_capacity replies.old }
        ensures carries_on { CarriesOn D.state self.old self.new }
        ensures stays { Stays self.old.session.state self.new.session.state }
    {
        let _durable = self.durable();
        for step in steps {
            let reply = self.step(step);
            replies.push_reserved(reply);
        }
    }

    /// Takes one step, and replies as the call with its name does. A broken book refuses it as
    /// `Broken`.
    pub fn step(&mut self, step: &Step) -> Reply
        ensures answers { AnswersStep D.state self.old step.now result self.new }
        ensures carries_on { CarriesOn D.state self.old self.new }
        ensures stays { Stays self.old.session.state self.new.session.state }
    {
        let _state = self.state();
        match step {
            Step::Command(call) => reply_to_command(self.command(call)),
            Step::Start => reply_to_start(self.start()),
            Step::Finish(task, outcome) => reply_to_finish(self.finish(*task, outcome)),
            Step::Flush => reply_to_save(self.flush()),
            Step::Checkpoint => reply_to_save(self.checkpoint()),
        }
    }
}

fn reply_to_command(answer: Result<Answer, Refusal>) -> Reply
    ensures { result ≡ replied reply.Answer answer }
{
    match answer {
        Ok(answer) => Reply::Answer(answer),
        Err(refusal) => Reply::Refused(refusal),
    }
}

fn reply_to_start(answer: Result<Started, Refusal>) -> Reply
    ensures { result ≡ replied reply.Started answer }
{
    match answer {
        Ok(started) => Reply::Started(started),
        Err(refusal) => Reply::Refused(refusal),
    }
}

fn reply_to_finish(answer: Result<u64, Refusal>) -> Reply
    ensures { result ≡ replied reply.Finished answer }
{
    match answer {
        Ok(number) => Reply::Finished(number),
        Err(refusal) => Reply::Refused(refusal),
    }
}

fn reply_to_save(answer: Result<u64, Trouble>) -> Reply
    ensures { result ≡ reply_of_save answer }
{
    match answer {
        Ok(number) => Reply::Acked(number),
        Err(Trouble::Refused(refusal)) => Reply::Refused(refusal),
        Err(Trouble::Faulty(fault)) => Reply::Faulty(fault),
    }
}
