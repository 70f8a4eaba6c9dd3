//! [`Until`] says when a run ends.

ghost use Rattle.std.specs.Prelude.{◌≡◌};
ghost use Rattle.run_console.specs.Until.{ends_at};

use console_lines::Rejection;

/// Says when a run ends.
#[derive(Clone, Copy)]
pub enum Until {
    /// At the end of its input.
    End,
    /// After the first rejected line: one that is a bad line or is refused.
    FirstRejection,
}

impl Until {
    /// Returns why a run ends after a line with this rejection, if it does.
    pub fn ends_at(self, why: Option<Rejection>) -> Option<Rejection>
        ensures { result ≡ ends_at self why }
    {
        match self {
            Until::End => None,
            Until::FirstRejection => why,
        }
    }
}
