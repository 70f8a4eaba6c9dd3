//! The filter of listed tasks: the keyword of a phase, and the name of a group.

ghost use Rattle.std.specs.Prelude.{◌≡◌, option_map};
ghost use Rattle.state_views.specs.Listed.{is_as_asked, is_listed};

use crate::row_lines::Row;
use console_lines::phase_word;

impl Row {
    /// Returns whether this is the row of a task in `phase`, which is the keyword of a phase, and
    /// in the group named `group`; `None` matches every task.
    pub fn is_listed(&self, phase: Option<&str>, group: Option<&str>) -> bool
        ensures { result ≡ is_listed (option_map (λ word. word.now) phase.entry)
            (option_map (λ word. word.now) group.entry) self.now }
    {
        match self {
            Row::Task(_, name, look) => {
                is_as_asked(phase, phase_word(&look.phase).as_bytes())
                    && is_as_asked(group, name.as_bytes())
            }
            _ => false,
        }
    }
}

/// Returns whether a word equals `asked`; `None` matches every word.
fn is_as_asked(asked: Option<&str>, word: &[u8]) -> bool
    ensures { result ≡ is_as_asked (option_map (λ word. word.now) asked.entry) word.now }
{
    match asked {
        Some(asked) => asked.as_bytes() == word,
        None => true,
    }
}
