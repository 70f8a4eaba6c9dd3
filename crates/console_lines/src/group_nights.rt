//! Examples of the definition with groups and tasks: what a newly opened store prints for the lines
//! of a session.
//!
//! Each function has an empty body, and its clauses are the example. They are computed from the
//! definition only, without any of the code that reads a line or prints a reply.
#![tactic(auto, unfolding(crate::proofs::OnLiterals::nights_on_literals))]

ghost use Rattle.std.specs.Prelude.{◌≡◌, ◌++◌, codes};
ghost use Rattle.run_model.specs.declared.layouts.Layout.TheVariants.{Small};
ghost use Rattle.run_model.specs.Session.{opened};
ghost use Rattle.console_lines.specs.Script.{reply, script};
ghost use Rattle.console_lines.specs.Nights.{IsPrinted, session_of, shown, replied, typed};
ghost use Rattle.console_lines.specs.GroupNights.{limit_of_two, limit_of_none, two_errors};
ghost use Rattle.console_lines.specs.GroupNights.{two_waits, refused_groups, two_jobs, no_jobs};
ghost use Rattle.console_lines.specs.GroupNights.{two_tallies, refused_tasks, bad_group_lines};
ghost use Rattle.console_lines.specs.GroupNights.{bad_group_words};

/// A task is held while its group has as many unfinished tasks with lower numbers as the limit
/// admits.
pub fn a_limit_holds_tasks_back()
    ensures { IsPrinted limit_of_two "acked 8" }
{}

/// A limit of 0 admits no task.
pub fn a_limit_of_0_admits_none()
    ensures { IsPrinted limit_of_none "acked 4" }
{}

/// The first error cancels the group's scope, and later ones change nothing. A second wait repeats
/// the first.
pub fn the_first_error_is_the_groups()
    ensures { IsPrinted two_errors "acked 9" }
{}

/// A wait without an error cancels the group's scope, too. A bare group cancels none.
pub fn a_wait_cancels_the_groups_scope()
    ensures { IsPrinted two_waits "acked 5" }
{}

/// A refusal of the state about groups or tasks is printed with its number and its name.
pub fn groups_are_refused_in_order()
    ensures { IsPrinted refused_groups "acked 3" }
{}

/// A tally counts the tasks of each job. The job of the first task comes first.
pub fn a_tally_has_a_line_for_each_job()
    ensures { script (opened Small) (typed two_jobs ++ codes "tally")
        ≡ replied two_jobs ++ (two_tallies ++ shown (codes "acked 9")) }
{}

/// Without tasks a tally has no line.
pub fn a_tally_without_tasks_has_no_line()
    ensures { IsPrinted no_jobs "acked 2" }
{}

/// When the session's log is full, a start is refused, and a repeated wait is answered.
pub fn a_full_session_refuses_starts()
    ensures start { reply (record (session_of two_jobs) { log = 1048576 }) (codes "start")
        ≡ codes "refused 21 SessionFull\n" }
    ensures repeated { reply (record (session_of two_waits) { log = 1048576 }) (codes "wait g")
        ≡ codes "wait ok\n" }
    ensures none { reply (record (opened Small) { log = 1048576 }) (codes "start")
        ≡ codes "refused 19 NothingReady\n" }
{}

/// Only a running task can be finished, and only an interrupted one can be retried.
pub fn tasks_are_refused_in_order()
    ensures { IsPrinted refused_tasks "acked 5" }
{}

/// A line is bad if a word is unknown or missing, if there is one word too many, or if a number or
/// a limit has another form.
pub fn group_lines_of_another_form_are_bad_lines()
    ensures { IsPrinted bad_group_lines "acked 1" }
{}

/// Names are checked before texts, and both before the number of a task.
pub fn names_and_texts_come_before_the_state()
    ensures { IsPrinted bad_group_words "acked 5" }
{}
