//! A guess says which command of a plan a task of a store belongs to. Whoever drives a night keeps
//! the guesses from one reading of the store to the next, so that the tasks needn't be found in an
//! index each time. Each guess is checked when it is used. So one that is wrong or missing only
//! costs time.

ghost use Rattle.std.specs.Prelude.{◌≡◌, IfOk, Some, slice_get};
ghost use Rattle.night_drive.specs.Seen.{AreNames};

use crate::index::Index;
use crate::names::Names;
use crate::tallies::owners;
use night_plan::commands::Plan;
use run_session::State;
use std::alloc::{AllocError, Allocator, Global};

/// For each task of a store, by its number, the command to which it may belong.
#[derive(Drop)]
pub struct Guesses {
    /// A number that no command has is no guess.
    pub commands: Vec<usize>,
}

/// The number of no command.
const NO_COMMAND: usize = usize::MAX;

impl Guesses {
    /// Nothing is guessed yet.
    pub fn new(alloc: Global) -> Guesses {
        Guesses {
            commands: Vec::new(alloc),
        }
    }

    /// Returns the guess of a task.
    pub(crate) fn guess(&self, task: u16) -> Option<usize>
        ensures { result ≡ slice_get self.now.commands.items task }
    {
        match self.commands.get(task as usize) {
            Some(command) => Some(*command),
            None => None,
        }
    }

    /// Notes that a task may belong to a command.
    pub fn note(&mut self, task: u16, command: usize) -> Result<(), AllocError>
        ensures { IfOk result (λ _. slice_get self.new.commands.items task ≡ Some command) }
    {
        let n = task as usize;
        if self.commands.len() <= n {
            self.commands.resize(n + 1, NO_COMMAND)?;
        }
        self.commands[n] = command;
        Ok(())
    }

    /// Finds the command of each task of a store by an index.
    pub fn renew<A: Allocator>(
        &mut self,
        alloc: Global,
        state: &State<A>,
        plan: &Plan,
        names: &Names,
    ) -> Result<(), AllocError>
        requires { AreNames plan.now names.now }
    {
        let index = Index::of(alloc, plan, names)?;
        let owners = owners(alloc, state, names)?;
        let mut commands = Vec::new(alloc);
        for n in 0..state.task_count() as u16 {
            commands.push(found(state, &index, owners.as_slice(), n))?;
        }
        self.commands = commands;
        Ok(())
    }
}

/// Returns a command of which a task may be a try.
fn found<A: Allocator>(state: &State<A>, index: &Index, owners: &[Vec<bool>], n: u16) -> usize {
    let Some(task) = state.groups().task_row(n) else {
        return NO_COMMAND;
    };
    let Some(row) = owners.get(task.group as usize) else {
        return NO_COMMAND;
    };
    for (g, owns) in row.iter().enumerate() {
        if !*owns {
            continue;
        }
        if let Some(c) = index.find(g, &task.argument) {
            return c;
        }
    }
    NO_COMMAND
}
