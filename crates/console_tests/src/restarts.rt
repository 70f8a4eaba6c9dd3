//! Nights that go on after a stop: what was running is interrupted, and is submitted anew by a
//! line.

use crate::runs::{Night, assert_opened_again};

/// A night that is stopped after its flush, with the first of two tasks running.
const STOPPED: Night = (
    b"group g root\nlimit g 1\ngo g copy a\ngo g copy b\nstart\nflush\n",
    b"group 0 scope 1\n\
      ok\n\
      task 0 ready\n\
      task 1 held\n\
      start 0 copy a\n\
      acked 6\n\
      acked 6\n",
);

/// It is opened again, and once more.
static OPENED_TWICE: [Night; 3] = [
    STOPPED,
    (
        b"task 0\ntask 1\nresult g\nscope g\n",
        b"task 0 interrupted\n\
          task 1 ready\n\
          unfinished 1; limit 1; waited no; error interrupted\n\
          done; deadline none; err context canceled; cause interrupted\n\
          acked 7\n",
    ),
    (
        b"task 0\ntask 1\nresult g\nscope g\n",
        b"task 0 interrupted\n\
          task 1 ready\n\
          unfinished 1; limit 1; waited no; error interrupted\n\
          done; deadline none; err context canceled; cause interrupted\n\
          acked 8\n",
    ),
];

/// It is opened once, and the task is submitted anew. A tally counts it as another task.
static RETRIED: [Night; 2] = [
    STOPPED,
    (
        b"retry 0\nretry 0\nretry 1\ntask 2\ntally\n",
        b"task 2 held\n\
          refused 25 AlreadyRetried\n\
          refused 24 NotInterrupted\n\
          task 2 held\n\
          tally copy total 3; success 0; failure 0; interrupted 1\n\
          acked 8\n",
    ),
];

#[test]
fn an_interrupted_task_is_submitted_again_by_a_line(rt: HostRuntime) {
    assert_opened_again(&rt, rt.alloc(), &OPENED_TWICE);
    assert_opened_again(&rt, rt.alloc(), &RETRIED);
}
