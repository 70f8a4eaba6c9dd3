//! Nights with groups and tasks: what a person types, and what is printed.

use crate::runs::{Night, assert_printed};

/// Two tasks are ready, and a third is held until one of them has finished.
const LIMIT_OF_TWO: Night = (
    b"group g root\n\
     limit g 2\n\
     go g copy a\n\
     go g copy b\n\
     go g copy c\n\
     try g copy d\n\
     start\n\
     finish 0 ok\n\
     task 2\n\
     wait g\n\
     limit g 3\n",
    b"group 0 scope 1\n\
     ok\n\
     task 0 ready\n\
     task 1 ready\n\
     task 2 held\n\
     refused 14 AtLimit\n\
     start 0 copy a\n\
     ok\n\
     task 2 ready\n\
     refused 16 Unfinished 2\n\
     refused 13 LimitWhileActive\n\
     acked 8\n",
);

/// A limit of 0 admits no task.
const LIMIT_OF_NONE: Night = (
    b"group g root\n\
     limit g 0\n\
     go g copy a\n\
     start\n\
     try g copy b\n\
     wait g\n",
    b"group 0 scope 1\n\
     ok\n\
     task 0 held\n\
     refused 19 NothingReady\n\
     refused 14 AtLimit\n\
     refused 16 Unfinished 1\n\
     acked 4\n",
);

/// The first error is the group's and the cause of its scope, and a wait repeats it.
const TWO_ERRORS: Night = (
    b"group g root\n\
     go g copy a\n\
     go g copy b\n\
     start\n\
     start\n\
     finish 1 error x\n\
     finish 0 error y\n\
     wait g\n\
     wait g\n\
     scope g\n\
     go g copy c\n\
     result g\n",
    b"group 0 scope 1\n\
     task 0 ready\n\
     task 1 ready\n\
     start 0 copy a\n\
     start 1 copy b\n\
     ok\n\
     ok\n\
     wait error x\n\
     wait error x\n\
     done; deadline none; err context canceled; cause x\n\
     refused 15 Waited\n\
     unfinished 0; limit none; waited yes; error x\n\
     acked 9\n",
);

/// A wait cancels the scope of its group; a bare group has none of its own.
const TWO_WAITS: Night = (
    b"group g root\n\
     bare h root\n\
     wait g\n\
     wait h\n\
     scope g\n\
     scope root\n",
    b"group 0 scope 1\n\
     group 1\n\
     wait ok\n\
     wait ok\n\
     done; deadline none; err context canceled; cause context canceled\n\
     live; deadline none\n\
     acked 5\n",
);

/// What is refused of groups and tasks.
const REFUSED_GROUPS: Night = (
    b"group g root\n\
     bare g root\n\
     group h no\n\
     go x copy a\n\
     limit g 65\n\
     limit g 64\n\
     finish 0 ok\n\
     start\n",
    b"group 0 scope 1\n\
     refused 4 NameTaken\n\
     refused 1 NoSuchScope\n\
     refused 2 NoSuchGroup\n\
     bad line\n\
     ok\n\
     refused 3 NoSuchTask\n\
     refused 19 NothingReady\n\
     acked 3\n",
);

/// A tally goes by the jobs' first tasks, not by their names.
const TWO_JOBS: Night = (
    b"group g root\n\
     go g spin 1\n\
     go g copy a\n\
     go g spin 2\n\
     start\n\
     start\n\
     finish 0 error x\n\
     finish 1 ok\n\
     tally\n",
    b"group 0 scope 1\n\
     task 0 ready\n\
     task 1 ready\n\
     task 2 ready\n\
     start 0 spin 1\n\
     start 1 copy a\n\
     ok\n\
     ok\n\
     tally spin total 2; success 0; failure 1; interrupted 0\n\
     tally copy total 1; success 1; failure 0; interrupted 0\n\
     acked 9\n",
);

/// A task is interrupted by a restart alone, so none has a retry yet.
const NO_RETRIES: Night = (
    b"bare g root\n\
     retry 0\n\
     go g copy a\n\
     retry 0\n\
     start\n\
     retry 0\n\
     finish 0 error late  again \n\
     retry 000\n\
     task 0\n\
     retry 70000\n",
    b"group 0\n\
     refused 3 NoSuchTask\n\
     task 0 ready\n\
     refused 24 NotInterrupted\n\
     start 0 copy a\n\
     refused 24 NotInterrupted\n\
     ok\n\
     refused 24 NotInterrupted\n\
     task 0 error late  again \n\
     refused 3 NoSuchTask\n\
     acked 5\n",
);

/// The night of the console's page: a group of limit 1 with a failing task.
const FAILING_TASK: Night = (
    b"group g root\n\
     limit g 1\n\
     go g spin 1\n\
     go g copy a\n\
     start\n\
     finish 0 error no room\n\
     start\n\
     task 1\n\
     finish 1 ok\n\
     wait g\n\
     scope g\n\
     result g\n\
     tally\n",
    b"group 0 scope 1\n\
     ok\n\
     task 0 ready\n\
     task 1 held\n\
     start 0 spin 1\n\
     ok\n\
     start 1 copy a\n\
     task 1 running\n\
     ok\n\
     wait error no room\n\
     done; deadline none; err context canceled; cause no room\n\
     unfinished 0; limit 1; waited yes; error no room\n\
     tally spin total 1; success 0; failure 1; interrupted 0\n\
     tally copy total 1; success 1; failure 0; interrupted 0\n\
     acked 10\n",
);

/// An empty tally has no line.
const NO_TASKS: Night = (
    b"tally\nbare root root\ntally\nresult root\n",
    b"group 0\nunfinished 0; limit none; waited no; error none\nacked 2\n",
);

/// Scopes are derived whatever groups are called, and bare groups whatever scopes are; a group with
/// a scope takes both names. The words of lines are names too.
const NAMES: Night = (
    b"bare h root\n\
     derive h root cancel\n\
     bare h root\n\
     bare ok h\n\
     derive x root cancel\n\
     bare x x\n\
     group x nowhere\n\
     group h root\n\
     group ok root\n\
     derive y root cancel\n\
     group y root\n\
     group none root\n\
     derive none root cancel\n\
     limit none none\n\
     go none ok error\n\
     start\n\
     finish 0 error ok\n\
     result none\n\
     task 000\n",
    b"group 0\n\
     scope 1\n\
     refused 4 NameTaken\n\
     group 1\n\
     scope 2\n\
     group 2\n\
     refused 1 NoSuchScope\n\
     refused 4 NameTaken\n\
     refused 4 NameTaken\n\
     scope 3\n\
     refused 4 NameTaken\n\
     group 3 scope 4\n\
     refused 4 NameTaken\n\
     ok\n\
     task 0 ready\n\
     start 0 ok error\n\
     ok\n\
     unfinished 0; limit none; waited no; error ok\n\
     task 0 error ok\n\
     acked 12\n",
);

/// What is refused of tasks while they are held, ready or running, when they have ended, and
/// after a wait.
const REFUSED_TASKS: Night = (
    b"group g root\n\
     limit x 1\n\
     limit g 1\n\
     go g copy a\n\
     go g copy b\n\
     limit g 2\n\
     finish 0 ok\n\
     finish 2 ok\n\
     finish 70000 ok\n\
     start\n\
     start\n\
     finish 1 ok\n\
     finish 0 ok\n\
     finish 0 error x\n\
     task 0\n\
     task 1\n\
     start\n\
     finish 1 ok\n\
     limit g 2\n\
     wait x\n\
     wait g\n\
     limit g 1\n\
     try g copy c\n\
     task 2\n\
     result x\n",
    b"group 0 scope 1\n\
     refused 2 NoSuchGroup\n\
     ok\n\
     task 0 ready\n\
     task 1 held\n\
     refused 13 LimitWhileActive\n\
     refused 20 NotRunning\n\
     refused 3 NoSuchTask\n\
     refused 3 NoSuchTask\n\
     start 0 copy a\n\
     refused 19 NothingReady\n\
     refused 20 NotRunning\n\
     ok\n\
     refused 20 NotRunning\n\
     task 0 success\n\
     task 1 ready\n\
     start 1 copy b\n\
     ok\n\
     ok\n\
     refused 2 NoSuchGroup\n\
     wait ok\n\
     refused 15 Waited\n\
     refused 15 Waited\n\
     refused 3 NoSuchTask\n\
     refused 2 NoSuchGroup\n\
     acked 11\n",
);

/// The cause of a group's scope is that of its parent, which was canceled before the first error;
/// a scope below it has the same at once.
const CANCELLED_GROUP: Night = (
    b"derive p root cause\n\
     group g p\n\
     go g copy a\n\
     start\n\
     cancel p stop\n\
     finish 0 error x\n\
     scope g\n\
     result g\n\
     derive c g cancel\n\
     scope c\n\
     wait g\n",
    b"scope 1\n\
     group 0 scope 2\n\
     task 0 ready\n\
     start 0 copy a\n\
     ok\n\
     ok\n\
     done; deadline none; err context canceled; cause stop\n\
     unfinished 0; limit none; waited no; error x\n\
     scope 3\n\
     done; deadline none; err context canceled; cause stop\n\
     wait error x\n\
     acked 9\n",
);

static NIGHTS: [Night; 12] = [
    LIMIT_OF_TWO,
    LIMIT_OF_NONE,
    TWO_ERRORS,
    TWO_WAITS,
    REFUSED_GROUPS,
    TWO_JOBS,
    NO_RETRIES,
    FAILING_TASK,
    NO_TASKS,
    NAMES,
    REFUSED_TASKS,
    CANCELLED_GROUP,
];

#[test]
fn nights_with_groups_are_printed(rt: HostRuntime) {
    assert_printed(&rt, rt.alloc(), &NIGHTS);
}
