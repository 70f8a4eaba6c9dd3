//! The jobs of the program's crews, by tables of their turns.

use night_program::{CopyJob, FailJob, SpinJob};
use run_crew::{Job, Turn};
use run_model::{Name, TaskInfo};
use std::process::Abort;
use std::test::Fail;

/// A job and its argument; a turn, and whether its scope is done; and what the turn answers.
type Row = (&'static str, &'static str, u32, bool, Reported);

/// What a turn answers.
enum Reported {
    More,
    Finished,
    Failed(&'static str),
}

static TURNS: [Row; 15] = [
    ("spin", "3", 0, false, Reported::More),
    ("spin", "3", 2, false, Reported::More),
    ("spin", "3", 3, false, Reported::Finished),
    ("spin", "0", 0, false, Reported::Finished),
    ("spin", "9999", 999, false, Reported::More),
    ("spin", "0010", 9, false, Reported::More),
    ("spin", "0010", 10, false, Reported::Finished),
    ("spin", "3", 1, true, Reported::Failed("canceled")),
    ("spin", "x", 0, true, Reported::Failed("canceled")),
    ("spin", "x", 0, false, Reported::Failed("bad argument")),
    ("spin", "1x", 0, false, Reported::Failed("bad argument")),
    ("spin", "10000", 0, false, Reported::Failed("bad argument")),
    ("fail", "no-room", 0, false, Reported::Failed("no-room")),
    ("fail", "x", 0, true, Reported::Failed("x")),
    ("copy", "a", 0, true, Reported::Finished),
];

fn name(rt: &impl Abort, text: &str) -> Name {
    Name::read(text.as_bytes()).expect(rt, "a name")
}

/// What the turn of a row answers, by the one job that handles it.
fn turn_of(rt: &impl Abort, row: &Row) -> Option<Turn> {
    let info = TaskInfo {
        task: 0,
        job: name(rt, row.0),
        argument: name(rt, row.1),
    };
    let handled = (
        SpinJob.handles(&info.job),
        FailJob.handles(&info.job),
        CopyJob.handles(&info.job),
    );
    match handled {
        (true, false, false) => Some(SpinJob.turn(&info, row.2, row.3)),
        (false, true, false) => Some(FailJob.turn(&info, row.2, row.3)),
        (false, false, true) => Some(CopyJob.turn(&info, row.2, row.3)),
        _ => None,
    }
}

fn is_reported(turn: &Option<Turn>, reported: &Reported) -> bool {
    match (turn, reported) {
        (Some(Turn::More), Reported::More) => true,
        (Some(Turn::Finished), Reported::Finished) => true,
        (Some(Turn::Failed(error)), Reported::Failed(text)) => error.as_bytes() == text.as_bytes(),
        _ => false,
    }
}

#[test]
fn each_job_makes_its_turns(rt: HostRuntime) -> Result<(), Fail> {
    for (n, row) in TURNS.iter().enumerate() {
        let turn = turn_of(&rt, row);
        assert!(&rt; is_reported(&turn, &row.4), "row {n}: {turn:?}");
    }
    Ok(())
}
