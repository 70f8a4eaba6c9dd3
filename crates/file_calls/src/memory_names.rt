//! [`MemoryNames`] are names in memory, for tests.

ghost use Rattle.std.specs.Prelude.{◌≡◌, ◌≤◌, ◌<◌, ◌∷◌, [], ◌++◌, bytes_eq, map, IfSome, OnErr};
ghost use Rattle.std.specs.Prelude.{OnOk, ⊤};
ghost use Rattle.file_calls.specs.Names.{IsUnused, is_durable, is_to, leads, may_lead, new_step};
ghost use Rattle.file_calls.specs.Names.{settled_step};

use crate::names::FolderNames;
use crate::open_files::CallFailed;
use crate::places::Place;
use std::alloc::Global;
use std::marker::Model;

/// A name leads to a file from now on, or to none.
#[derive(Drop)]
struct Step {
    name: String,
    to: Option<u64>,
    place: Place,
}

impl Model for Step {
    ghost use Rattle.std.specs.String.{string_bytes};
    ghost use Rattle.file_calls.specs.Names.{NameStep};

    ghost Value = { NameStep };

    ghost view = { λ step. record {
      name = string_bytes step.name;
      to = step.to;
      place = step.place;
    } };
}

impl Step {
    /// Returns whether it is a step of this name.
    fn is_of(&self, name: &str) -> bool
        ensures { result ≡ bytes_eq self.now.name name.now }
    {
        self.name.as_str() == name
    }

    /// The file to which the name leads.
    fn to(&self) -> Option<u64>
        ensures { result ≡ self.now.to }
    {
        self.to
    }

    /// Returns whether a crash leaves the step in any case.
    fn is_durable(&self) -> bool
        ensures { result ≡ is_durable self.now.place }
    {
        matches!(self.place, Place::Durable)
    }

    /// Makes `to` of the step's place, if that is dirty.
    fn settle(&mut self, to: Place)
        ensures { self.new ≡ settled_step to self.old }
    {
        self.place = self.place.settled(to);
    }
}

/// The names in a folder in memory. A call fails if memory for it is refused, and one call fails
/// that was chosen by [`MemoryNames::fail_after`].
#[derive(Drop)]
pub struct MemoryNames {
    alloc: Global,
    steps: Vec<Step>,
    // how many calls succeed until one fails
    calls_left: u64,
}

impl MemoryNames {
    /// Returns an empty folder.
    pub fn new(alloc: Global) -> MemoryNames
        ensures { ⟦<MemoryNames as FolderNames>⟧.steps result ≡ [] }
    {
        MemoryNames {
            alloc,
            steps: Vec::new(alloc),
            calls_left: u64::MAX,
        }
    }

    /// Lets the next `calls` calls succeed, and the one after them fail.
    pub fn fail_after(&mut self, calls: u64)
        ensures { ⟦<MemoryNames as FolderNames>⟧.steps self.new
            ≡ ⟦<MemoryNames as FolderNames>⟧.steps self.old }
    {
        self.calls_left = calls;
    }

    /// Returns whether a crash now may leave the name leading to this file, or to none.
    pub fn may_lead(&self, name: &str, to: Option<u64>) -> bool
        ensures { result ≡ may_lead (⟦<MemoryNames as FolderNames>⟧.steps self.now) name.now to }
    {
        let mut may = to.is_none();
        for step in &self.steps {
            if step.is_of(name) {
                may = is_same(step.to(), to) || (may && !step.is_durable());
            }
        }
        may
    }

    /// Returns whether the next call is to fail.
    fn is_failing(&mut self) -> bool
        ensures { self.new.steps ≡ self.old.steps }
    {
        let is_failing = self.calls_left == 0;
        self.calls_left = self.calls_left.wrapping_sub(1);
        is_failing
    }
}

impl FolderNames for MemoryNames {
    ghost steps = { λ names. names.steps.items };

    ghost keeps = { λ names. ⊤ };

    fn found(&mut self, name: &str) -> Result<Option<u64>, CallFailed> {
        if self.is_failing() {
            return Err(CallFailed);
        }
        Ok(led(&self.steps, name))
    }

    fn create_new(&mut self, name: &str) -> Result<u64, CallFailed> {
        if self.is_failing() || led(&self.steps, name).is_some() {
            return Err(CallFailed);
        }
        let Some(file) = unused(&self.steps) else {
            return Err(CallFailed);
        };
        push(&mut self.steps, self.alloc, name, Some(file))?;
        Ok(file)
    }

    fn rename(&mut self, from: &str, to: &str) -> Result<(), CallFailed> {
        if self.is_failing() {
            return Err(CallFailed);
        }
        let Some(file) = led(&self.steps, from) else {
            return Err(CallFailed);
        };
        push(&mut self.steps, self.alloc, to, Some(file))?;
        if push(&mut self.steps, self.alloc, from, None).is_err() {
            let _last = self.steps.pop();
            return Err(CallFailed);
        }
        Ok(())
    }

    fn remove(&mut self, name: &str) -> Result<(), CallFailed> {
        if self.is_failing() {
            return Err(CallFailed);
        }
        push(&mut self.steps, self.alloc, name, None)
    }

    fn sync(&mut self) -> Result<(), CallFailed> {
        if self.is_failing() {
            settle(&mut self.steps, Place::Lost);
            return Err(CallFailed);
        }
        settle(&mut self.steps, Place::Durable);
        Ok(())
    }
}

/// The file to which a name leads after these steps.
fn led(steps: &[Step], name: &str) -> Option<u64>
    ensures { result ≡ leads steps.now name.now }
{
    let mut file = None;
    for step in steps {
        if step.is_of(name) {
            file = step.to();
        }
    }
    file
}

/// Returns whether two names lead to the same file, or both to none.
fn is_same(to: Option<u64>, other: Option<u64>) -> bool
    ensures { result ≡ is_to to other }
{
    match (to, other) {
        (None, None) => true,
        (Some(file), Some(other)) => file == other,
        _ => false,
    }
}

/// Returns a number that no file of these steps has, if one is left.
fn unused(steps: &[Step]) -> Option<u64>
    ensures { IfSome result (IsUnused steps.now) }
{
    let mut next: u64 = 0;
    for step in steps {
        next = above(next, step.to())?;
    }
    Some(next)
}

/// Returns a number that is at least `next`, and above that of the file, if there is one.
fn above(next: u64, to: Option<u64>) -> Option<u64>
    ensures later { IfSome result (λ number. next ≤ number) }
    ensures above { IfSome result (λ number. IfSome to (λ file. file < number)) }
{
    match to {
        Some(file) if next <= file => file.checked_add(1),
        _ => Some(next),
    }
}

/// Adds a step. At `Err` no memory was left for it, and nothing has changed.
fn push(steps: &mut Vec<Step>, alloc: Global, name: &str, to: Option<u64>) -> Result<(), CallFailed>
    ensures ok { OnOk result (steps.new.items ≡ steps.old.items ++ new_step name.now to ∷ []) }
    ensures err { OnErr result (steps.new.items ≡ steps.old.items) }
{
    let Ok(name) = String::from_str(alloc, name) else {
        return Err(CallFailed);
    };
    let place = Place::Dirty;
    match steps.push(Step { name, to, place }) {
        Ok(()) => Ok(()),
        Err(_) => Err(CallFailed),
    }
}

/// Makes `to` of each dirty step.
fn settle(steps: &mut [Step], to: Place)
    ensures { steps.new ≡ map (settled_step to) steps.old }
{
    for i in 0..steps.len() {
        let step = &mut steps[i];
        step.settle(to);
    }
}
