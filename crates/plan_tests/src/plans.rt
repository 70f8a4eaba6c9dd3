//! Plans as an operator writes them: what begins, what waits, what is stopped, and how each command
//! stands, by the rules of the page about the command file.

use crate::asserts::{done, holds};
use night_plan::choices::choose;
use night_plan::commands::Subject::{Command as One, Group as Whole};
use night_plan::commands::When::{Ended, Failed as OnFailure, Well};
use night_plan::commands::{Command, Group, Need, Plan, Subject, Take, Way, When};
use night_plan::facts::Phase::{self, Busy as Runs, EndedOk as Good, Failed as FailedAt, Fresh};
use night_plan::facts::{Facts, Known};
use night_plan::growth::with_command;
use night_plan::plans::{PlanFault, growth_fault, make_plan};
use night_plan::standings::Standing::{
    self, Busy, Canceled, EndedOk, Failed, GivenUp, Pending, Ready, Waiting,
};
use night_plan::standings::standings;
use night_plan::stops::to_stop;
use std::alloc::Global;
use std::process::Abort;

/// A command: its group, its priority, what it comes after, what it takes of which pool, and how
/// many retries it has.
type Line = (
    usize,
    u16,
    &'static [(When, Subject)],
    &'static [(usize, u32)],
    u32,
);

/// The priority and the way of each group, the size of each pool, and the commands. Retries wait 30
/// seconds, then twice as long each time, up to ten minutes.
type Lines = (&'static [(u16, Way)], &'static [u32], &'static [Line]);

/// A time, how far each command is, with its failures, and which groups are done. Then how each
/// command stands, which ones begin, when to ask again, and which ones are to be stopped.
type Moment = (
    u64,
    &'static [(Phase, u32)],
    &'static [bool],
    &'static [Standing],
    &'static [usize],
    Option<u64>,
    &'static [usize],
);

/// The dumps of the page: `pack` comes after a command, and `mails` after two groups.
static DUMPS: Lines = (
    &[(0, Way::GoOn), (0, Way::GoOn), (0, Way::GoOn)],
    &[],
    &[
        (0, 0, &[], &[], 0),
        (0, 0, &[], &[], 0),
        (1, 0, &[(Well, One(0))], &[], 0),
        (2, 0, &[(Well, Whole(0)), (Well, Whole(1))], &[], 0),
    ],
);

static DUMPS_MOMENTS: &[Moment] = &[
    (
        0,
        &[(Fresh, 0), (Fresh, 0), (Fresh, 0), (Fresh, 0)],
        &[false, false, false],
        &[Ready, Ready, Pending, Pending],
        &[0, 1],
        None,
        &[],
    ),
    // `users` fails: the archive needs only `orders`, and the mail isn't sent.
    (
        10,
        &[(Good, 0), (FailedAt(10), 1), (Fresh, 0), (Fresh, 0)],
        &[false, false, false],
        &[EndedOk, Failed, Ready, GivenUp],
        &[2],
        None,
        &[],
    ),
    (
        20,
        &[(Good, 0), (FailedAt(10), 1), (Good, 0), (Fresh, 0)],
        &[false, false, false],
        &[EndedOk, Failed, EndedOk, GivenUp],
        &[],
        None,
        &[],
    ),
];

/// The steps of the page, with a limit of 1, in a group that stops on a failure, and an alarm that
/// begins only after a failure.
static STEPS: Lines = (
    &[(0, Way::Stop), (0, Way::GoOn)],
    &[1],
    &[
        (0, 0, &[], &[(0, 1)], 0),
        (0, 0, &[], &[(0, 1)], 0),
        (1, 0, &[(OnFailure, Whole(0))], &[], 0),
    ],
);

static STEPS_MOMENTS: &[Moment] = &[
    (
        0,
        &[(Fresh, 0), (Fresh, 0), (Fresh, 0)],
        &[false, false],
        &[Ready, Ready, Pending],
        &[0],
        None,
        &[],
    ),
    (
        10,
        &[(FailedAt(10), 1), (Fresh, 0), (Fresh, 0)],
        &[false, false],
        &[Failed, GivenUp, Ready],
        &[2],
        None,
        &[],
    ),
    (
        20,
        &[(Good, 0), (Good, 0), (Fresh, 0)],
        &[false, false],
        &[EndedOk, EndedOk, GivenUp],
        &[],
        None,
        &[],
    ),
];

/// A group whose last command is a cleanup of the other two, and that a failure cancels.
static CLEANUP: Lines = (
    &[(0, Way::Cancel)],
    &[],
    &[
        (0, 0, &[], &[], 0),
        (0, 0, &[], &[], 0),
        (0, 0, &[(Ended, One(0)), (Ended, One(1))], &[], 0),
    ],
);

static CLEANUP_MOMENTS: &[Moment] = &[
    // The group is canceled while a command runs.
    (
        5,
        &[(Runs, 0), (Fresh, 0), (Fresh, 0)],
        &[true],
        &[Busy, Canceled, Pending],
        &[],
        None,
        &[0],
    ),
    (
        6,
        &[(Phase::Canceled, 0), (Fresh, 0), (Fresh, 0)],
        &[true],
        &[Canceled, Canceled, Ready],
        &[2],
        None,
        &[],
    ),
    // The cleanup runs on.
    (
        7,
        &[(Phase::Canceled, 0), (Fresh, 0), (Runs, 0)],
        &[true],
        &[Canceled, Canceled, Busy],
        &[],
        None,
        &[],
    ),
    // A failure cancels the group.
    (
        5,
        &[(FailedAt(5), 1), (Runs, 0), (Fresh, 0)],
        &[false],
        &[Failed, Busy, Pending],
        &[],
        None,
        &[1],
    ),
];

/// Two tapes, of which one command needs both, and a group that comes before the other.
static TAPES: Lines = (
    &[(0, Way::GoOn), (7, Way::GoOn)],
    &[2],
    &[
        (0, 0, &[], &[(0, 1)], 0),
        (0, 5, &[], &[(0, 2)], 0),
        (0, 9, &[], &[(0, 1)], 0),
        (1, 0, &[], &[(0, 1)], 0),
    ],
);

static TAPES_MOMENTS: &[Moment] = &[
    // By the group's priority, then by the command's own.
    (
        0,
        &[(Fresh, 0), (Fresh, 0), (Fresh, 0), (Fresh, 0)],
        &[false, false],
        &[Ready, Ready, Ready, Ready],
        &[3, 2],
        None,
        &[],
    ),
    // One tape is left: the command that needs two is left out, and the one after it begins.
    (
        1,
        &[(Fresh, 0), (Fresh, 0), (Good, 0), (Runs, 0)],
        &[false, false],
        &[Ready, Ready, EndedOk, Busy],
        &[0],
        None,
        &[],
    ),
    (
        2,
        &[(Good, 0), (Fresh, 0), (Good, 0), (Good, 0)],
        &[false, false],
        &[EndedOk, Ready, EndedOk, EndedOk],
        &[1],
        None,
        &[],
    ),
];

/// Commands with six retries, and one that comes after the first.
static RETRIES: Lines = (
    &[(0, Way::GoOn)],
    &[],
    &[
        (0, 0, &[], &[], 6),
        (0, 0, &[], &[], 6),
        (0, 0, &[], &[], 6),
        (0, 0, &[], &[], 6),
        (0, 0, &[], &[], 6),
        (0, 0, &[(Well, One(0))], &[], 0),
    ],
);

static RETRIES_MOMENTS: &[Moment] = &[
    // The waits after 1, 2, 5, 6 and 7 failures: 30 seconds, a minute, 8 minutes, 10 minutes, none.
    (
        1_000,
        &[
            (FailedAt(1_000), 1),
            (FailedAt(1_000), 2),
            (FailedAt(1_000), 5),
            (FailedAt(1_000), 6),
            (FailedAt(1_000), 7),
            (Fresh, 0),
        ],
        &[false],
        &[
            Waiting(1_030),
            Waiting(1_060),
            Waiting(1_480),
            Waiting(1_600),
            Failed,
            Pending,
        ],
        &[],
        Some(1_030),
        &[],
    ),
    // A wait is over at its moment, and a failure that lies in the future doesn't wait.
    (
        1_060,
        &[
            (Good, 1),
            (FailedAt(1_000), 2),
            (FailedAt(2_000), 5),
            (FailedAt(1_000), 6),
            (Phase::Interrupted, 0),
            (Fresh, 0),
        ],
        &[false],
        &[EndedOk, Ready, Ready, Waiting(1_600), Ready, Ready],
        &[1, 2, 4, 5],
        Some(1_600),
        &[],
    ),
];

/// Six commands, worked by hand. The first group stops on a failure, a failure cancels the second
/// one, whose priority is higher, and there are two tapes. Commands 0 and 1 load, 1 after 0 and
/// with both tapes; 2 and 3 copy; 4 cleans up after all copies; 5 reports that 2 failed.
static SIX: Lines = (
    &[(0, Way::Stop), (7, Way::Cancel)],
    &[2],
    &[
        (0, 0, &[], &[(0, 1)], 6),
        (0, 0, &[(Well, One(0))], &[(0, 2)], 6),
        (1, 0, &[], &[(0, 1)], 6),
        (1, 0, &[], &[], 6),
        (0, 0, &[(Ended, Whole(1))], &[], 6),
        (0, 0, &[(OnFailure, One(2))], &[], 6),
    ],
);

static SIX_MOMENTS: &[Moment] = &[
    // The copies come first, and leave a tape for the load.
    (
        0,
        &[
            (Fresh, 0),
            (Fresh, 0),
            (Fresh, 0),
            (Fresh, 0),
            (Fresh, 0),
            (Fresh, 0),
        ],
        &[false, false],
        &[Ready, Pending, Ready, Ready, Pending, Pending],
        &[2, 3, 0],
        None,
        &[],
    ),
    // A copy has failed for good, so the other one has to stop, and 5 may begin. The cleanup waits
    // for the other copy, which runs.
    (
        100,
        &[
            (Good, 0),
            (Fresh, 0),
            (FailedAt(100), 7),
            (Runs, 0),
            (Fresh, 0),
            (Fresh, 0),
        ],
        &[false, false],
        &[EndedOk, Ready, Failed, Busy, Pending, Ready],
        &[1, 5],
        None,
        &[3],
    ),
    // The second load has failed for good before 5 began, which stops the first group, and so 5 as
    // well, but not the cleanup.
    (
        200,
        &[
            (Good, 0),
            (FailedAt(200), 7),
            (FailedAt(100), 7),
            (Phase::Canceled, 0),
            (Fresh, 0),
            (Fresh, 0),
        ],
        &[false, false],
        &[EndedOk, Failed, Failed, Canceled, Ready, GivenUp],
        &[4],
        None,
        &[],
    ),
];

/// The plan of the dumps with one more command in the first group, after its first command.
static MORE: Line = (0, 0, &[(Well, One(0))], &[], 0);

/// `mails` comes after the commands that `dumps` had when it was written.
static MORE_MOMENTS: &[Moment] = &[(
    10,
    &[(Good, 0), (Good, 0), (Good, 0), (Fresh, 0), (Fresh, 0)],
    &[false, false, false],
    &[EndedOk, EndedOk, EndedOk, Ready, Ready],
    &[3, 4],
    None,
    &[],
)];

/// Why a plan is refused, as a row says it.
#[derive(Clone, Copy)]
enum Fault {
    Unknown(usize),
    TooMuch(usize),
    Circle(&'static [usize]),
}

/// Plans that are refused.
static REFUSED: &[(Lines, Fault)] = &[
    // A command that there isn't, and a group that there isn't.
    (
        (
            &[(0, Way::GoOn)],
            &[],
            &[(0, 0, &[], &[], 0), (0, 0, &[(Well, One(2))], &[], 0)],
        ),
        Fault::Unknown(1),
    ),
    (
        (&[(0, Way::GoOn)], &[], &[(1, 0, &[], &[], 0)]),
        Fault::Unknown(0),
    ),
    // Three tapes of two, in two parts.
    (
        (
            &[(0, Way::GoOn)],
            &[2],
            &[(0, 0, &[], &[(0, 2)], 0), (0, 0, &[], &[(0, 2), (0, 1)], 0)],
        ),
        Fault::TooMuch(1),
    ),
    // The first comes after a circle of the other two, one of which comes after their group.
    (
        (
            &[(0, Way::GoOn), (0, Way::GoOn)],
            &[],
            &[
                (0, 0, &[(Well, One(1))], &[], 0),
                (1, 0, &[(Ended, One(2))], &[], 0),
                (0, 0, &[(Well, Whole(1))], &[], 0),
            ],
        ),
        Fault::Circle(&[1, 2]),
    ),
    // A command that comes after itself, by its group.
    (
        (
            &[(0, Way::GoOn)],
            &[],
            &[(0, 0, &[], &[], 0), (0, 0, &[(Well, Whole(0))], &[], 0)],
        ),
        Fault::Circle(&[1]),
    ),
];

/// Commands by which the plan of the tapes, which has four commands, two groups and a pool, can't
/// grow: after a command that comes later, after itself, of a group that there isn't, of a pool
/// that there isn't, and with more tapes than there are.
static NO_GROWTH: &[(Line, Fault)] = &[
    ((0, 0, &[(Well, One(5))], &[], 0), Fault::Unknown(4)),
    ((0, 0, &[(Well, One(4))], &[], 0), Fault::Unknown(4)),
    ((0, 0, &[(Ended, Whole(2))], &[], 0), Fault::Unknown(4)),
    ((2, 0, &[], &[], 0), Fault::Unknown(4)),
    ((0, 0, &[], &[(1, 1)], 0), Fault::Unknown(4)),
    ((0, 0, &[], &[(0, 3)], 0), Fault::TooMuch(4)),
    ((0, 0, &[], &[(0, 1), (0, 2)], 0), Fault::TooMuch(4)),
];

/// One that takes all tapes, after the last command.
static ALL_TAPES: Line = (1, 0, &[(Well, One(3))], &[(0, 2)], 0);

fn command(rt: &impl Abort, alloc: Global, line: &Line) -> Command {
    let mut needs = Vec::new(alloc);
    for (when, of) in line.2.iter() {
        let need = Need {
            of: *of,
            when: *when,
        };
        done(rt, needs.push(need), "memory");
    }
    let mut takes = Vec::new(alloc);
    for (pool, amount) in line.3.iter() {
        let take = Take {
            pool: *pool,
            amount: *amount,
        };
        done(rt, takes.push(take), "memory");
    }
    Command {
        group: line.0,
        priority: line.1,
        needs,
        takes,
        retries: line.4,
        wait: 30,
        factor: 2,
        cap: 600,
    }
}

fn plan(rt: &impl Abort, alloc: Global, lines: &Lines) -> Result<Plan, PlanFault> {
    let mut groups = Vec::new(alloc);
    for (priority, way) in lines.0.iter() {
        let group = Group {
            priority: *priority,
            way: *way,
        };
        done(rt, groups.push(group), "memory");
    }
    let pools = done(rt, Vec::from_slice(alloc, lines.1), "memory");
    let mut commands = Vec::new(alloc);
    for line in lines.2.iter() {
        let command = command(rt, alloc, line);
        done(rt, commands.push(command), "memory");
    }
    make_plan(alloc, groups, pools, commands)
}

fn facts(rt: &impl Abort, alloc: Global, plan: &Plan, moment: &Moment) -> Facts {
    let mut known = Vec::new(alloc);
    for (phase, failures) in moment.1.iter() {
        let fact = Known {
            phase: *phase,
            failures: *failures,
            canceled: false,
        };
        done(rt, known.push(fact), "memory");
    }
    Facts {
        known,
        done: done(rt, Vec::from_slice(alloc, moment.2), "memory"),
        sizes: done(rt, Vec::from_slice(alloc, plan.pools.as_slice()), "memory"),
    }
}

/// Asserts that each moment of a plan is as its row says.
fn assert_moments(rt: &impl Abort, alloc: Global, plan: &Plan, moments: &[Moment], at: usize) {
    for (i, moment) in moments.iter().enumerate() {
        let row = at.wrapping_add(i);
        let facts = facts(rt, alloc, plan, moment);
        let now = moment.0;
        assert!(rt; now < 1 << 62, "moment");
        assert!(rt;
            facts.known.len() == plan.commands.len(),
            "commands of {row}"
        );
        assert!(rt; facts.done.len() == plan.groups.len(), "groups of {row}");
        assert!(rt; facts.sizes.len() == plan.pools.len(), "pools of {row}");
        let all = done(rt, standings(alloc, plan, &facts, now), "standings");
        holds(rt, all.as_slice() == moment.3, "standings", row);
        let choice = done(rt, choose(alloc, plan, &facts, now), "choice");
        holds(rt, choice.commands.as_slice() == moment.4, "choice", row);
        holds(rt, choice.later == moment.5, "later moment", row);
        let stop = done(rt, to_stop(alloc, plan, &facts), "stops");
        holds(rt, stop.as_slice() == moment.6, "stops", row);
    }
}

#[test]
fn commands_begin_as_the_plan_says(rt: HostRuntime) {
    let alloc = rt.alloc();
    let nights = [
        (&DUMPS, DUMPS_MOMENTS),
        (&STEPS, STEPS_MOMENTS),
        (&CLEANUP, CLEANUP_MOMENTS),
        (&TAPES, TAPES_MOMENTS),
        (&RETRIES, RETRIES_MOMENTS),
        (&SIX, SIX_MOMENTS),
    ];
    for (night, (lines, moments)) in nights.iter().enumerate() {
        let plan = done(&rt, plan(&rt, alloc, lines), "plan");
        assert_moments(&rt, alloc, &plan, moments, 10 * night);
    }
}

#[test]
fn a_plan_grows(rt: HostRuntime) {
    let alloc = rt.alloc();
    let plan = done(&rt, plan(&rt, alloc, &DUMPS), "plan");
    let more = command(&rt, alloc, &MORE);
    assert!(rt; growth_fault(&plan, &more).is_none(), "the plan can grow");
    let plan = done(&rt, with_command(plan, more), "plan");
    assert_moments(&rt, alloc, &plan, MORE_MOMENTS, 0);
}

/// Whether a fault is the one of a row.
fn is_fault(fault: &PlanFault, wanted: Fault) -> bool {
    match (fault, wanted) {
        (PlanFault::Unknown(c), Fault::Unknown(d)) => *c == d,
        (PlanFault::TooMuch(c), Fault::TooMuch(d)) => *c == d,
        (PlanFault::Circle(path), Fault::Circle(wanted)) => path.as_slice() == wanted,
        _ => false,
    }
}

#[test]
fn faulty_plans_are_refused(rt: HostRuntime) {
    for (row, (lines, wanted)) in REFUSED.iter().enumerate() {
        let is = match plan(&rt, rt.alloc(), lines) {
            Ok(_) => false,
            Err(fault) => is_fault(&fault, *wanted),
        };
        holds(&rt, is, "fault", row);
    }
}

#[test]
fn a_plan_grows_by_no_faulty_command(rt: HostRuntime) {
    let alloc = rt.alloc();
    let plan = done(&rt, plan(&rt, alloc, &TAPES), "plan");
    for (row, (line, wanted)) in NO_GROWTH.iter().enumerate() {
        let more = command(&rt, alloc, line);
        let is = match growth_fault(&plan, &more) {
            None => false,
            Some(fault) => is_fault(&fault, *wanted),
        };
        holds(&rt, is, "fault of growth", row);
    }
    let more = command(&rt, alloc, &ALL_TAPES);
    assert!(rt; growth_fault(&plan, &more).is_none(), "the plan can grow");
}
