//! Nights that fill something: a line, the buffer of replies, the scopes, groups and tasks, the
//! room of a session, and that of a segment.

use crate::parts::Part::{Printed, Times, Typed};
use crate::parts::{Part, assert_calls, assert_parts};
use run_model::Layout;

/// Lines of 256 bytes and more, and a short one.
static LONG_LINES: &[Part] = &[
    Times(1, b"cancel a ", b""),
    Times(247, b"x", b""),
    Times(1, b"\ncancel a ", b"refused 6 BadText\n"),
    Times(248, b"x", b""),
    Times(1, b"\ncancel a ", b"bad line\n"),
    Times(249, b"x", b""),
    Times(1, b"\ncancel a ", b"bad line\n"),
    Times(4_086, b"x", b""),
    Times(1, b"\ncancel a ", b"bad line\n"),
    Times(4_087, b"x", b""),
    Times(1, b"\ncancel a ", b"bad line\n"),
    Times(9_991, b"x", b""),
    Times(1, b"\nscope root", b"bad line\n"),
    Times(1, b"", b"live; deadline none\nacked 1\n"),
];

/// More replies than are appended before one write, for lines that are read at once.
static MANY_REPLIES: &[Part] = &[
    Times(1, b"derive a root cause\n", b"scope 1\n"),
    Times(1, b"cancel a disk\n", b"ok\n"),
    Times(
        1_000,
        b"scope a\n",
        b"done; deadline none; err context canceled; cause disk\n",
    ),
    Times(1, b"", b"acked 3\n"),
];

/// A tally that is longer than all that is buffered before one write.
static LONG_TALLY: &[Part] = &[
    Times(1, b"bare g root\n", b"group 0\n"),
    Typed(0, 200, "go g job", " a"),
    Printed(0, 200, "task ", " ready"),
    Times(1, b"tally\n", b""),
    Printed(
        0,
        200,
        "tally job",
        " total 1; success 0; failure 0; interrupted 0",
    ),
    Times(1, b"scope root", b"live; deadline none\nacked 202\n"),
];

#[test]
fn lines_and_replies_may_be_long(rt: HostRuntime) {
    let nights = [LONG_LINES, MANY_REPLIES, LONG_TALLY];
    assert_parts(&rt, rt.alloc(), Layout::Small, &nights);
}

/// As many scopes as there can be, and causes of 64 bytes and of 65.
static SCOPES: &[Part] = &[
    Typed(1, 1_024, "derive s", " root cause"),
    Printed(1, 1_024, "scope ", ""),
    Times(
        1,
        b"derive s1024 root cause\n",
        b"refused 7 TooManyScopes\n",
    ),
    Times(1, b"cancel s1 ", b""),
    Times(64, b"x", b""),
    Times(1, b"\ncancel s2 ", b"ok\n"),
    Times(65, b"x", b""),
    Times(1, b"\n", b"refused 6 BadText\nacked 1025\n"),
];

/// As many groups as there can be.
static GROUPS: &[Part] = &[
    Typed(0, 127, "bare b", " root"),
    Printed(0, 127, "group ", ""),
    Times(
        1,
        b"bare last root\n\
          bare more root\n\
          group more root\n\
          group more nowhere\n\
          group b0 root\n\
          group root root\n\
          result last\n",
        b"group 127\n\
          refused 8 TooManyGroups\n\
          refused 8 TooManyGroups\n\
          refused 1 NoSuchScope\n\
          refused 4 NameTaken\n\
          refused 4 NameTaken\n\
          unfinished 0; limit none; waited no; error none\n\
          acked 129\n",
    ),
];

/// As many scopes as there can be: a parent and a name come before them, and they before a timeout
/// past the greatest moment; then as many groups, which come after scopes.
static SCOPES_AND_GROUPS: &[Part] = &[
    Typed(0, 1_023, "derive s", " root cancel"),
    Printed(1, 1_024, "scope ", ""),
    Times(
        1,
        b"group more nowhere\n\
          group s0 nowhere\n\
          group s0 root\n\
          group more root\n\
          derive more nowhere timeout 253000000001\n\
          derive s0 root timeout 253000000001\n\
          derive more root timeout 253000000001\n\
          derive more nowhere deadline 253000000001\n\
          flush\n",
        b"refused 1 NoSuchScope\n\
          refused 1 NoSuchScope\n\
          refused 4 NameTaken\n\
          refused 7 TooManyScopes\n\
          refused 1 NoSuchScope\n\
          refused 4 NameTaken\n\
          refused 7 TooManyScopes\n\
          refused 18 MomentOutOfRange\n\
          acked 1024\n",
    ),
    Typed(0, 128, "bare b", " root"),
    Printed(0, 128, "group ", ""),
    Times(
        1,
        b"group more root\ngroup b0 root\ngroup b0 nowhere\nbare more root\n",
        b"refused 7 TooManyScopes\n\
          refused 4 NameTaken\n\
          refused 1 NoSuchScope\n\
          refused 8 TooManyGroups\n\
          acked 1152\n",
    ),
];

/// As many tasks as there can be.
static TASKS: &[Part] = &[
    Times(
        1,
        b"bare g root\nbare h root\nlimit h 0\nwait h\n",
        b"group 0\ngroup 1\nok\nwait ok\n",
    ),
    Typed(0, 2_047, "go g job", " a"),
    Printed(0, 2_047, "task ", " ready"),
    Times(
        1,
        b"go g last a\n\
          go g more a\n\
          try g more a\n\
          go h more a\n\
          go nowhere more a\n\
          task 2047\n\
          task 2048\n",
        b"task 2047 ready\n\
          refused 9 TooManyTasks\n\
          refused 9 TooManyTasks\n\
          refused 15 Waited\n\
          refused 2 NoSuchGroup\n\
          task 2047 ready\n\
          refused 3 NoSuchTask\n\
          acked 2053\n",
    ),
];

#[test]
fn there_are_1024_scopes_128_groups_and_2048_tasks(rt: HostRuntime) {
    let nights = [SCOPES, GROUPS, SCOPES_AND_GROUPS, TASKS];
    assert_parts(&rt, rt.alloc(), Layout::Small, &nights);
}

/// As many scopes as there can be over a large disk.
static LARGE_SCOPES: &[Part] = &[
    Typed(1, 4_096, "derive s", " root cancel"),
    Printed(1, 4_096, "scope ", ""),
    Times(
        1,
        b"derive more root cancel\n",
        b"refused 7 TooManyScopes\nacked 4096\n",
    ),
];

/// As many tasks.
static LARGE_TASKS: &[Part] = &[
    Times(1, b"bare g root\n", b"group 0\n"),
    Typed(0, 8_192, "go g job", " a"),
    Printed(0, 8_192, "task ", " ready"),
    Times(
        1,
        b"go g more a\ntask 8191\ntask 8192\n",
        b"refused 9 TooManyTasks\ntask 8191 ready\nrefused 3 NoSuchTask\nacked 8194\n",
    ),
];

#[test]
fn a_large_disk_takes_4096_scopes_and_8192_tasks(rt: HostRuntime) {
    let nights = [LARGE_SCOPES, LARGE_TASKS];
    assert_parts(&rt, rt.alloc(), Layout::Large, &nights);
}

/// A log of 1,048,491 bytes: records of 7 bytes, of 6 for each limit, of 11 for each advance, and
/// of 12. A start just fits beside the room for its finish. A checkpoint frees no room.
static JUST_FITS: &[Part] = &[
    Times(1, b"group g root\n", b"group 0 scope 1\n"),
    Times(3, b"limit g 2\n", b"ok\n"),
    Typed(1, 95_315, "advance ", ""),
    Times(95_314, b"", b"ok\n"),
    Times(
        1,
        b"checkpoint\n\
          go g copy a\n\
          start\n\
          advance 95315\n\
          group h nowhere\n\
          group g root\n\
          group h root\n\
          finish 0 ok\n\
          wait g\n\
          advance 95315\n\
          advance 95316\n\
          advance 95317\n\
          advance 95318\n\
          advance 95319\n\
          advance 95320\n\
          advance 95321\n\
          wait g\n\
          limit g 2\n\
          start\n\
          result g\n",
        b"acked 95319\n\
          task 0 ready\n\
          start 0 copy a\n\
          refused 21 SessionFull\n\
          refused 1 NoSuchScope\n\
          refused 4 NameTaken\n\
          refused 21 SessionFull\n\
          ok\n\
          wait ok\n\
          ok\n\
          ok\n\
          ok\n\
          ok\n\
          ok\n\
          ok\n\
          refused 21 SessionFull\n\
          wait ok\n\
          refused 15 Waited\n\
          refused 19 NothingReady\n\
          unfinished 0; limit 2; waited yes; error none\n\
          acked 95329\n",
    ),
];

/// A log of a byte more.
static A_BYTE_MORE: &[Part] = &[
    Times(1, b"group g root\n", b"group 0 scope 1\n"),
    Times(5, b"limit g 2\n", b"ok\n"),
    Typed(1, 95_314, "advance ", ""),
    Times(95_313, b"", b"ok\n"),
    Times(
        1,
        b"go g copy a\nstart\ntask 0\ntally\n",
        b"task 0 ready\n\
          refused 21 SessionFull\n\
          task 0 ready\n\
          tally copy total 1; success 0; failure 0; interrupted 0\n\
          acked 95321\n",
    ),
];

#[test]
fn a_start_needs_the_room_for_its_finish(rt: HostRuntime) {
    let nights = [JUST_FITS, A_BYTE_MORE];
    assert_parts(&rt, rt.alloc(), Layout::Small, &nights);
}

/// 262,138 bytes are pending, as many as a segment takes in one batch.
static ONE_BATCH: &[Part] = &[
    Times(1, b"group g root\n", b"group 0 scope 1\n"),
    Times(2, b"limit g 2\n", b"ok\n"),
    Typed(1, 23_830, "advance ", ""),
    Times(23_829, b"", b"ok\n"),
    Times(1, b"flush\n", b"acked 23833\nacked 23833\n"),
];

/// After that batch there is no room for another.
static NO_ROOM: &[Part] = &[
    Times(1, b"group g root\n", b"group 0 scope 1\n"),
    Times(2, b"limit g 2\n", b"ok\n"),
    Typed(1, 23_830, "advance ", ""),
    Times(23_829, b"", b"ok\n"),
    Times(1, b"flush\n", b"acked 23833\n"),
    Times(
        1,
        b"advance 23830\nflush\n",
        b"ok\nacked 23834\nacked 23834\n",
    ),
];

/// A byte more is pending.
static NO_BATCH: &[Part] = &[
    Times(1, b"group g root\n", b"group 0 scope 1\n"),
    Times(4, b"limit g 2\n", b"ok\n"),
    Typed(1, 23_829, "advance ", ""),
    Times(23_828, b"", b"ok\n"),
    Times(1, b"flush\n", b"acked 23834\nacked 23834\n"),
];

/// A format makes 8 calls, an opening 10, a flush 6, and one that makes a checkpoint 7.
#[test]
fn a_flush_is_a_checkpoint_where_its_batch_does_not_fit(rt: HostRuntime) {
    let nights = [(ONE_BATCH, 24), (NO_ROOM, 31), (NO_BATCH, 25)];
    assert_calls(&rt, rt.alloc(), &nights);
}
