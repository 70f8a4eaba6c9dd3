//! Tests of what replies are appended as, and of what faults print. The texts stand in
//! `docs/formats/console.md`.

use crate::asserts::{done, given, holds, name};
use arrayvec::ArrayVec;
use console_lines::{JobTally, LONGEST_REPLY, LineReply, RunFault, TaskCounts};
use run_model::{
    Answer, Fault, GroupLook, Limit, Look, Moment, Phase, Reason, Refusal, Started, TaskInfo, Text,
    Trouble,
};
use std::alloc::{AllocError, Global};
use std::process::Abort;

fn text(rt: &impl Abort, bytes: &[u8]) -> Text {
    given(rt, Text::read(bytes), "text")
}

fn moment(rt: &impl Abort, seconds: u64) -> Moment {
    given(rt, Moment::new(seconds), "moment")
}

/// Says whether a reply is buffered as this text and an LF.
fn is_appended(reply: &LineReply, wanted: &str) -> bool {
    let mut buffer = ArrayVec::<u8, LONGEST_REPLY>::new();
    reply.append(&mut buffer);
    buffer.as_slice().split_last() == Some((&b'\n', wanted.as_bytes()))
}

/// How far a task is.
enum Going {
    Held,
    Ready,
    Running,
    Success,
    Failure(&'static [u8]),
    Interrupted,
}

/// A reply, as the table writes it.
enum Reported {
    BadLine,
    Acked(u64),
    Finished(u64),
    Scope(u16),
    Done,
    Group(u16, Option<u16>),
    Submitted(u16, Going),
    Waited,
    WaitedError(&'static [u8]),
    Value(&'static [u8]),
    Task(u16, Going),
    Failed(Trouble),
    /// The start of a task.
    Start,
    /// The tally of a job.
    Tally,
    /// A scope's end and the cause, and its deadline.
    Look(Option<(Reason, &'static [u8])>, Option<u64>),
    /// A group's unfinished tasks, its limit, whether it was waited for, and its first error.
    Result(u16, Option<u8>, bool, Option<&'static [u8]>),
}

fn reply_of(rt: &impl Abort, reported: &Reported) -> LineReply {
    match reported {
        Reported::BadLine => LineReply::BadLine,
        Reported::Acked(events) => LineReply::Step(run_model::Reply::Acked(*events)),
        Reported::Finished(event) => LineReply::Step(run_model::Reply::Finished(*event)),
        Reported::Value(value) => LineReply::Value(text(rt, value)),
        Reported::Task(task, going) => LineReply::Task(*task, phase_of(rt, going)),
        Reported::Failed(trouble) => LineReply::Failed(*trouble),
        Reported::Start => LineReply::Step(run_model::Reply::Started(start(rt))),
        Reported::Tally => LineReply::Tally(tally(rt)),
        Reported::Look(end, deadline) => LineReply::Scope(look(rt, end, *deadline)),
        Reported::Result(unfinished, limit, waited, error) => {
            LineReply::Group(group(rt, *unfinished, *limit, *waited, *error))
        }
        _ => LineReply::Step(run_model::Reply::Answer(answer_of(rt, reported))),
    }
}

/// Says whether the reply of a row is buffered as this text and an LF.
fn is_reported(rt: &impl Abort, reported: &Reported, wanted: &str) -> bool {
    is_appended(&reply_of(rt, reported), wanted)
}

fn answer_of(rt: &impl Abort, reported: &Reported) -> Answer {
    match reported {
        Reported::Scope(scope) => Answer::Scope(*scope),
        Reported::Group(group, scope) => Answer::Group(*group, *scope),
        Reported::Submitted(task, going) => Answer::Task(*task, phase_of(rt, going)),
        Reported::Waited => Answer::Waited(None),
        Reported::WaitedError(error) => Answer::Waited(Some(text(rt, error))),
        _ => Answer::Done,
    }
}

fn phase_of(rt: &impl Abort, going: &Going) -> Phase {
    match going {
        Going::Held => Phase::Held,
        Going::Ready => Phase::Ready,
        Going::Running => Phase::Running,
        Going::Success => Phase::Success,
        Going::Failure(error) => Phase::Failure(text(rt, error)),
        Going::Interrupted => Phase::Interrupted,
    }
}

/// The start of a task.
fn start(rt: &impl Abort) -> Started {
    Started {
        event: 5,
        info: TaskInfo {
            task: 8_191,
            job: name(rt, b"copy"),
            argument: name(rt, b"a-1_b"),
        },
        done: true,
    }
}

/// The tally of a job.
fn tally(rt: &impl Abort) -> JobTally {
    JobTally {
        job: name(rt, b"spin"),
        counts: TaskCounts {
            total: 8_192,
            success: 30,
            failure: 200,
            interrupted: 1_000,
        },
    }
}

/// How the scope `root` is.
fn look(rt: &impl Abort, end: &Option<(Reason, &'static [u8])>, deadline: Option<u64>) -> Look {
    Look {
        name: name(rt, b"root"),
        done: match end {
            Some((reason, cause)) => Some((*reason, text(rt, cause))),
            None => None,
        },
        deadline: match deadline {
            Some(seconds) => Some(moment(rt, seconds)),
            None => None,
        },
    }
}

/// How the group `g` is.
fn group(
    rt: &impl Abort,
    unfinished: u16,
    most: Option<u8>,
    waited: bool,
    error: Option<&'static [u8]>,
) -> GroupLook {
    GroupLook {
        name: name(rt, b"g"),
        scope: 1,
        unfinished,
        limit: limit(rt, most),
        waited,
        error: match error {
            Some(error) => Some(text(rt, error)),
            None => None,
        },
    }
}

fn limit(rt: &impl Abort, most: Option<u8>) -> Limit {
    match most {
        Some(most) => Limit::new(most).expect(rt, "a limit"),
        None => Limit::none(),
    }
}

/// No reply is longer.
const LONGEST: &str = "done; deadline 253000000000; err context deadline exceeded; \
    cause ~~~~~~~~~~~~~~~~~~~~~~~~~~~~~~~~~~~~~~~~~~~~~~~~~~~~~~~~~~~~~~~~";

static REPLIES: [(Reported, &str); 33] = [
    (Reported::BadLine, "bad line"),
    (Reported::Value(b"eu west"), "value eu west"),
    (Reported::Acked(1), "acked 1"),
    (
        Reported::Acked(9_223_372_036_854_775_807),
        "acked 9223372036854775807",
    ),
    (Reported::Scope(1_023), "scope 1023"),
    (Reported::Done, "ok"),
    (Reported::Group(0, Some(1)), "group 0 scope 1"),
    (Reported::Group(1, None), "group 1"),
    (Reported::Submitted(2, Going::Held), "task 2 held"),
    (Reported::Submitted(0, Going::Ready), "task 0 ready"),
    (Reported::Waited, "wait ok"),
    (Reported::WaitedError(b"disk"), "wait error disk"),
    (Reported::Finished(9), "ok"),
    (Reported::Task(7, Going::Held), "task 7 held"),
    (Reported::Task(7, Going::Ready), "task 7 ready"),
    (Reported::Task(7, Going::Running), "task 7 running"),
    (Reported::Task(7, Going::Success), "task 7 success"),
    (
        Reported::Task(7, Going::Failure(b"no  room ")),
        "task 7 error no  room ",
    ),
    (Reported::Task(7, Going::Interrupted), "task 7 interrupted"),
    (Reported::Task(8_191, Going::Ready), "task 8191 ready"),
    (
        Reported::Failed(Trouble::Faulty(Fault::DiskFailed)),
        "fault 2 DiskFailed",
    ),
    (
        Reported::Failed(Trouble::Faulty(Fault::NumbersSpent)),
        "fault 10 NumbersSpent",
    ),
    (
        Reported::Failed(Trouble::Refused(Refusal::Broken)),
        "refused 22 Broken",
    ),
    (Reported::Acked(4), "acked 4"),
    (Reported::Start, "start 8191 copy a-1_b"),
    (
        Reported::Tally,
        "tally spin total 8192; success 30; failure 200; interrupted 1000",
    ),
    (Reported::Look(None, None), "live; deadline none"),
    (
        Reported::Look(Some((Reason::Canceled, b"disk")), None),
        "done; deadline none; err context canceled; cause disk",
    ),
    (
        Reported::Look(
            Some((Reason::DeadlineExceeded, b"context deadline exceeded")),
            Some(1_704_074_400),
        ),
        "done; deadline 1704074400; err context deadline exceeded; \
         cause context deadline exceeded",
    ),
    (
        Reported::Look(
            Some((Reason::DeadlineExceeded, &[b'~'; 64])),
            Some(253_000_000_000),
        ),
        LONGEST,
    ),
    (
        Reported::Result(2, Some(1), false, None),
        "unfinished 2; limit 1; waited no; error none",
    ),
    (
        Reported::Result(0, None, true, Some(b"no  room ")),
        "unfinished 0; limit none; waited yes; error no  room ",
    ),
    (
        Reported::Result(8_192, Some(0), false, Some(b"none")),
        "unfinished 8192; limit 0; waited no; error none",
    ),
];

#[test]
fn replies_are_appended_as_their_texts(rt: HostRuntime) {
    for (n, row) in REPLIES.iter().enumerate() {
        holds(&rt, is_reported(&rt, &row.0, row.1), "reply", n);
    }
    holds(&rt, LONGEST.len() + 1 == LONGEST_REPLY, "longest reply", 0);
}

static REFUSALS: [(Refusal, &str); 25] = [
    (Refusal::NoSuchScope, "refused 1 NoSuchScope"),
    (Refusal::NoSuchGroup, "refused 2 NoSuchGroup"),
    (Refusal::NoSuchTask, "refused 3 NoSuchTask"),
    (Refusal::NameTaken, "refused 4 NameTaken"),
    (Refusal::BadName, "refused 5 BadName"),
    (Refusal::BadText, "refused 6 BadText"),
    (Refusal::TooManyScopes, "refused 7 TooManyScopes"),
    (Refusal::TooManyGroups, "refused 8 TooManyGroups"),
    (Refusal::TooManyTasks, "refused 9 TooManyTasks"),
    (Refusal::NotCancellable, "refused 10 NotCancellable"),
    (Refusal::CauseNotTaken, "refused 11 CauseNotTaken"),
    (Refusal::AlreadyDone, "refused 12 AlreadyDone"),
    (Refusal::LimitWhileActive, "refused 13 LimitWhileActive"),
    (Refusal::AtLimit, "refused 14 AtLimit"),
    (Refusal::Waited, "refused 15 Waited"),
    (Refusal::Unfinished(2), "refused 16 Unfinished 2"),
    (Refusal::ClockNotForward, "refused 17 ClockNotForward"),
    (Refusal::MomentOutOfRange, "refused 18 MomentOutOfRange"),
    (Refusal::NothingReady, "refused 19 NothingReady"),
    (Refusal::NotRunning, "refused 20 NotRunning"),
    (Refusal::SessionFull, "refused 21 SessionFull"),
    (Refusal::Broken, "refused 22 Broken"),
    (Refusal::NoValue, "refused 23 NoValue"),
    (Refusal::NotInterrupted, "refused 24 NotInterrupted"),
    (Refusal::AlreadyRetried, "refused 25 AlreadyRetried"),
];

#[test]
fn refusals_are_appended_by_number_and_name(rt: HostRuntime) {
    for (n, row) in REFUSALS.iter().enumerate() {
        let is_so = is_appended(&LineReply::Refused(row.0), row.1);
        holds(&rt, is_so, "refusal", n);
    }
}

/// Says whether the line of a tally is this text.
fn is_line(alloc: Global, tally: &JobTally, wanted: &str) -> Result<bool, AllocError> {
    let line = tally.to_line(alloc)?;
    Ok(line.as_str() == wanted)
}

#[test]
fn a_tally_is_a_line_with_its_line_feed(rt: HostRuntime) {
    let wanted = "tally spin total 8192; success 30; failure 200; interrupted 1000\n";
    let is_so = done(&rt, is_line(rt.alloc(), &tally(&rt), wanted), "memory");
    holds(&rt, is_so, "line", 0);
}

static FAULTS: [(RunFault, &str); 15] = [
    (RunFault::Input, "input"),
    (RunFault::Output, "output"),
    (RunFault::InputTooLong, "input too long"),
    (RunFault::Memory, "fault 1 Memory"),
    (
        RunFault::Store(Trouble::Refused(Refusal::Broken)),
        "refused 22 Broken",
    ),
    (
        RunFault::Store(Trouble::Faulty(Fault::Memory)),
        "fault 1 Memory",
    ),
    (
        RunFault::Store(Trouble::Faulty(Fault::DiskFailed)),
        "fault 2 DiskFailed",
    ),
    (
        RunFault::Store(Trouble::Faulty(Fault::NotAStore)),
        "fault 3 NotAStore",
    ),
    (
        RunFault::Store(Trouble::Faulty(Fault::WrongSize)),
        "fault 4 WrongSize",
    ),
    (
        RunFault::Store(Trouble::Faulty(Fault::BadSlot)),
        "fault 5 BadSlot",
    ),
    (
        RunFault::Store(Trouble::Faulty(Fault::BadImage)),
        "fault 6 BadImage",
    ),
    (
        RunFault::Store(Trouble::Faulty(Fault::BadBatch)),
        "fault 7 BadBatch",
    ),
    (
        RunFault::Store(Trouble::Faulty(Fault::BadRecord)),
        "fault 8 BadRecord",
    ),
    (
        RunFault::Store(Trouble::Faulty(Fault::BadEvent)),
        "fault 9 BadEvent",
    ),
    (
        RunFault::Store(Trouble::Faulty(Fault::NumbersSpent)),
        "fault 10 NumbersSpent",
    ),
];

/// Says whether this is what a fault prints.
fn shows(alloc: Global, fault: RunFault, wanted: &str) -> Result<bool, AllocError> {
    let printed = format!(in alloc; "{fault}")?;
    Ok(printed.as_str() == wanted)
}

#[test]
fn faults_of_a_run_print_their_texts(rt: HostRuntime) {
    for (n, row) in FAULTS.iter().enumerate() {
        let is_so = done(&rt, shows(rt.alloc(), row.0, row.1), "memory");
        holds(&rt, is_so, "fault", n);
    }
}
