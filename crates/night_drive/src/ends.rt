//! When tries ended. A store doesn't record that, so the caller, who saw them end, has to say it.

ghost use Rattle.std.specs.Prelude.{◌≡◌};
ghost use Rattle.night_drive.specs.Seen.{moment_of};

/// When the tasks of a store ended.
#[derive(Drop)]
pub struct Ends {
    /// When each task ended, by its number; `None` if that isn't known.
    pub moments: Vec<Option<u64>>,
    /// The moment that replaces an unknown one, such as that of an opening.
    pub otherwise: u64,
}

impl Ends {
    /// Returns when this task ended.
    pub fn moment(&self, task: u16) -> u64
        ensures { result ≡ moment_of self.now task }
    {
        match self.moments.get(task as usize) {
            Some(Some(moment)) => *moment,
            Some(None) | None => self.otherwise,
        }
    }
}
