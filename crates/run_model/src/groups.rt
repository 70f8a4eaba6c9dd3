//! A group collects tasks, as Go's `errgroup` does, with a limit, a first error and a wait.

ghost use Rattle.std.specs.Prelude.{◌≡◌};
ghost use Rattle.run_model.specs.Rows.{new_group};

use crate::limits::Limit;
use crate::names::Name;
use crate::texts::Text;

/// The row of a group. The number of a group is the place of its row.
#[derive(Drop, PartialEq, Eq)]
pub struct Group {
    /// The name of the group.
    pub name: Name,
    /// The number of the scope to which its tasks belong.
    pub scope: u16,
    /// Whether that scope isn't the group's own. Then the group cancels nothing.
    pub bare: bool,
    /// How many of its tasks may be active at once.
    pub limit: Limit,
    /// Whether it was waited for.
    pub waited: bool,
    /// The first error of one of its tasks.
    pub error: Option<Text>,
}

impl Group {
    /// Returns the row of a group that has no limit and no error, and wasn't waited for.
    pub fn new(name: Name, scope: u16, bare: bool) -> Group
        ensures { result ≡ new_group name scope bare }
    {
        Group {
            name,
            scope,
            bare,
            limit: Limit::none(),
            waited: false,
            error: None,
        }
    }
}
