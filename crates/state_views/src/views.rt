//! A [`View`] selects the part of a state that is printed, and its form.

/// The part of a state that is printed, and its form. Words and names are lent.
#[derive(Clone, Copy)]
pub enum View<'a> {
    /// Every row of the state, on a line each.
    Whole,
    /// Only the lines of its tasks. If a phase or a group is given, only tasks in that phase and in
    /// that group. The phase is one of `held`, `ready`, `running`, `success`, `error` and
    /// `interrupted`. The name of the group may be any text.
    Tasks {
        phase: Option<&'a str>,
        group: Option<&'a str>,
    },
    /// Every row of the state, as one object of JSON, without the tasks that `phase` and `group`
    /// leave out, as above.
    Json {
        phase: Option<&'a str>,
        group: Option<&'a str>,
    },
    /// Its scopes as a tree, with their groups and tasks. Without tasks, each group says how many
    /// of its tasks are in each phase.
    Tree {
        no_tasks: bool,
    },
    /// How full the store is, a line for each group, and a line for each scope that is done.
    Summary,
}
