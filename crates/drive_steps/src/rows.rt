//! The effect on a night of the steps in which commands begin, and which begins may be reported.

ghost use Rattle.drive_steps.specs.Rows.{RowsBeginAll, TasksAreReportedOnce, ReportsAcknowledged};
ghost use Rattle.drive_steps.specs.Rows.{ReportsLastTries};

/// If no step of the row was refused, all its commands have begun in one turn, and nothing else has
/// changed about the night. Each begin that is reported names a task that runs, and that belongs to
/// its command and to no other. Before the row no task was waiting to be started.
pub fn a_row_begins_all()
    ensures { RowsBeginAll }
{}

/// A begin is reported only if the start of its task is acknowledged by the replies to the row.
pub fn what_is_reported_is_acknowledged()
    ensures { ReportsAcknowledged }
{}

/// A row reports one begin of each of its commands, and no task is reported twice.
pub fn a_task_is_reported_once()
    ensures { TasksAreReportedOnce }
{}

/// Each task that is reported is the last try of its command and of no other one. So the end of the
/// try can be recorded, and is the turn in which this command ends. No command was chosen twice.
pub fn what_is_reported_is_a_last_try()
    ensures { ReportsLastTries }
{}
