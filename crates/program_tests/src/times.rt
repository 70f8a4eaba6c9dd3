//! A script by the machine's time.

use crate::runs::{End, assert_run_at};
use crate::stores::formatted;

/// The words of a script, the moments that the clock tells, what is typed, and how it is to end.
type Row = (&'static [&'static str], &'static [u64], &'static str, End);

static ROWS: [Row; 5] = [
    (
        &["script", "--now", "a"],
        &[100, 160, 170],
        "derive a root timeout 60\nscope a\n",
        (
            0,
            "ok\nscope 1\nok\n\
             done; deadline 160; err context deadline exceeded; cause context deadline exceeded\n\
             ok\nacked 5\n",
            "",
        ),
    ),
    // Without the flag no time is asked for.
    (
        &["script", "a"],
        &[100, 160, 170],
        "derive a root timeout 60\nscope a\n",
        (0, "scope 1\nlive; deadline 60\nacked 2\n", ""),
    ),
    // The advances are lines of a strict run.
    (
        &["script", "a", "--strict", "--now"],
        &[100, 101, 102],
        "scope root\nup\nscope root\n",
        (
            1,
            "ok\nlive; deadline none\nok\nbad line\nacked 3\n",
            "night: line 4: bad line\n",
        ),
    ),
    (
        &["script", "--strict", "--now", "a"],
        &[],
        "scope root\n",
        (0, "live; deadline none\nacked 1\n", ""),
    ),
    (
        &["script", "--now", "none"],
        &[100],
        "scope root\n",
        (
            3,
            "",
            "night: fault 2 DiskFailed\nnight: none: no such file\n",
        ),
    ),
];

#[test]
fn a_script_goes_by_the_time_where_it_is_asked_to(rt: HostRuntime) {
    for row in ROWS.iter() {
        let mut shelf = formatted(&rt, rt.alloc(), "a");
        assert_run_at(&rt, rt.alloc(), row.1, row.0, &mut shelf, row.2, &row.3);
    }
}
