//! A [`SystemClock`] reads the system's time, as seconds since 1970.

use run_console::MachineTime;
use run_model::Moment;
use std::time::{Clock, SystemTime, UNIX_EPOCH};

/// The clock of a system. Nothing is known about the moments that it will return. A time before
/// 1970 or after the greatest moment counts as none.
#[derive(Drop)]
pub struct SystemClock<'a, S> {
    system: &'a S,
}

impl<'a, S: Clock> SystemClock<'a, S> {
    pub fn new(system: &'a S) -> Self {
        SystemClock { system }
    }
}

impl<S: Clock> MachineTime for SystemClock<'_, S> {
    fn now(&mut self) -> Option<Moment> {
        match SystemTime::now(self.system) {
            Ok(time) => match time.duration_since(UNIX_EPOCH) {
                Ok(since) => Moment::new(since.as_secs()),
                Err(_) => None,
            },
            Err(_) => None,
        }
    }
}
