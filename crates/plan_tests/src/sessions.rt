//! Sessions: a plan and rounds as lines, and their answers, by the page about the lines.

use crate::asserts::holds;
use console_lines::RunFault;
use plan_lines::runs::{RunEnd, run};
use std::alloc::Global;
use std::cell::Cell;
use std::io::{self, ErrorKind, Read, Write};

/// How a session ends.
#[derive(Clone, Copy)]
enum Ending {
    /// With its input.
    Input,
    /// At a line of this number.
    Bad(u64),
    /// At a plan that is refused.
    Refused,
}

/// What is read, what is answered, and how the session ends.
type Case = (&'static str, &'static str, Ending);

static CASES: &[Case] = &[
    // The session of the page: a retry, a command that never begins, and a cleanup.
    (
        "pool 1\ngroup 0 stop\ncommand 0 0 1 30 2 600\ntake 0 1\ncommand 0 0 0 0 1 0\n\
         need well command 0\ntake 0 1\ncommand 0 0 0 0 1 0\nneed ended command 1\n\n\
         now 1000\n\nbusy 0\n\nfailed 0 1005 1\nnow 1005\n\nnow 1035\n\n\
         busy 0\nfailed 0 1040 2\nnow 1040\nstandings\n\n",
        "plan 3\n\nbegin 0\n\n\nlater 1035\n\nbegin 0\n\n\
         begin 2\nstands 0 failed\nstands 1 given-up\nstands 2 ready\n\n",
        Ending::Input,
    ),
    // The time doesn't go back, and a fact holds until another replaces it.
    (
        "group 0 go-on\ncommand 0 0 1 30 1 30\n\nnow 1020\nfailed 0 1000 1\nstandings\n\n\
         now 3\nstandings\n\n\n",
        "plan 1\n\nlater 1030\nstands 0 waiting 1030\n\nlater 1030\nstands 0 waiting 1030\n\n\
         later 1030\n\n",
        Ending::Input,
    ),
    // What a failure cancels has to stop, and so has what is canceled by itself.
    (
        "group 0 cancel\ngroup 0 go-on\ncommand 0 0 0 0 1 0\ncommand 0 0 0 0 1 0\n\
         command 1 0 0 0 1 0\n\nbusy 0\nbusy 1\nbusy 2\n\nfailed 0 5 1\n\ncancel 2\n\n\
         cut 1\ninterrupted 2\nstandings\n\n",
        "plan 3\n\n\nstop 1\n\nstop 1\nstop 2\n\n\
         stands 0 failed\nstands 1 canceled\nstands 2 canceled\n\n",
        Ending::Input,
    ),
    // The order is by the priorities of groups, then of commands, then by number; a pool is full.
    (
        "pool 3\ngroup 0 go-on\ngroup 7 go-on\ncommand 0 1 0 0 1 0\ntake 0 1\n\
         command 0 9 0 0 1 0\ntake 0 1\ncommand 1 0 0 0 1 0\ntake 0 1\ncommand 0 1 0 0 1 0\n\
         take 0 1\n\n\nsize 0 2\n\n",
        "plan 4\n\nbegin 2\nbegin 1\nbegin 0\n\nbegin 2\nbegin 1\n\n",
        Ending::Input,
    ),
    // A plan grows by a group and two commands. Facts of them hold from their lines on.
    (
        "group 0 go-on\ncommand 0 0 0 0 1 0\n\nok 0\ngroup 0 go-on\ncommand 1 0 0 0 1 0\n\
         need well command 0\ncommand 1 0 0 0 1 0\nneed well command 1\nbusy 1\nstandings\n\n\
         ok 1\n\n",
        "plan 1\n\nstands 0 ok\nstands 1 busy\nstands 2 pending\n\nbegin 2\n\n",
        Ending::Input,
    ),
    // A group that is done begins nothing, but for a cleanup.
    (
        "group 0 go-on\ncommand 0 0 0 0 1 0\ncommand 0 0 0 0 1 0\nneed ended group 0\n\n",
        "circle\nmember 1\n\n",
        Ending::Refused,
    ),
    (
        "group 0 go-on\ngroup 0 go-on\ncommand 0 0 0 0 1 0\ncommand 0 0 0 0 1 0\n\
         need ended group 1\n\ndone 0\nstandings\n\n",
        "plan 2\n\nbegin 1\nstands 0 canceled\nstands 1 ready\n\n",
        Ending::Input,
    ),
    // Plans that are refused.
    (
        "group 0 go-on\ncommand 1 0 0 0 1 0\n\n\n",
        "unknown 0\n\n",
        Ending::Refused,
    ),
    (
        "pool 2\ngroup 0 go-on\ncommand 0 0 0 0 1 0\ntake 0 2\ncommand 0 0 0 0 1 0\n\
         take 0 1\ntake 0 2\n\n\n",
        "too-much 1\n\n",
        Ending::Refused,
    ),
    // A part and a line that don't end are never taken.
    ("", "", Ending::Input),
    ("group 0 go-on\n", "", Ending::Input),
    ("\n", "plan 0\n\n", Ending::Input),
    (
        "group 0 go-on\ncommand 0 0 0 0 1 0\n\nbusy 0\n",
        "plan 1\n\n",
        Ending::Input,
    ),
    (
        "group 0 go-on\ncommand 0 0 0 0 1 0\n\nbusy 7",
        "plan 1\n\n",
        Ending::Input,
    ),
    // Lines that can't be taken, each by its number.
    ("need well command 0\n\n", "bad 1\n\n", Ending::Bad(1)),
    ("now 5\n\n", "bad 1\n\n", Ending::Bad(1)),
    ("pool 01\n\n", "bad 1\n\n", Ending::Bad(1)),
    ("pool  1\n\n", "bad 1\n\n", Ending::Bad(1)),
    ("pool 1 \n\n", "bad 1\n\n", Ending::Bad(1)),
    ("pool 4294967296\n\n", "bad 1\n\n", Ending::Bad(1)),
    ("pool 4294967295\n\n", "plan 0\n\n", Ending::Input),
    ("pool 1\r\n\n", "bad 1\n\n", Ending::Bad(1)),
    ("group 65536 stop\n\n", "bad 1\n\n", Ending::Bad(1)),
    ("group 65535 stop\n\n", "plan 0\n\n", Ending::Input),
    (
        "group 0 go-on\npool 1\ntake 0 1\n\n",
        "bad 3\n\n",
        Ending::Bad(3),
    ),
    (
        "\nnow 1000000000000\n\n",
        "plan 0\n\nbad 2\n\n",
        Ending::Bad(2),
    ),
    ("\nnow 999999999999\n\n", "plan 0\n\n\n", Ending::Input),
    ("\npool 1\n\n", "plan 0\n\nbad 2\n\n", Ending::Bad(2)),
    ("\nbusy 0\n\n", "plan 0\n\nbad 2\n\n", Ending::Bad(2)),
    ("\ndone 0\n\n", "plan 0\n\nbad 2\n\n", Ending::Bad(2)),
    ("\nsize 0 1\n\n", "plan 0\n\nbad 2\n\n", Ending::Bad(2)),
    (
        "\nnow 4\nbegin 0\n\n",
        "plan 0\n\nbad 3\n\n",
        Ending::Bad(3),
    ),
    // A growth that is refused is named by the line of its command.
    (
        "group 0 go-on\n\nnow 3\ncommand 0 0 0 0 1 0\nneed well command 0\nnow 4\n\n",
        "plan 0\n\nbad 4\n\n",
        Ending::Bad(4),
    ),
    (
        "pool 1\ngroup 0 go-on\n\ncommand 0 0 0 0 1 0\ntake 0 2\n\n",
        "plan 0\n\nbad 4\n\n",
        Ending::Bad(4),
    ),
    (
        "group 0 go-on\n\ncommand 0 0 0 0 1 0\nnow 4\nneed well group 0\n\n",
        "plan 0\n\nbad 5\n\n",
        Ending::Bad(5),
    ),
];

/// Whether a session ended so.
fn is_ended(end: &Result<RunEnd, RunFault>, wanted: Ending) -> bool {
    match (end, wanted) {
        (Ok(RunEnd::InputEnded), Ending::Input) => true,
        (Ok(RunEnd::Refused(_)), Ending::Refused) => true,
        (Ok(RunEnd::Bad(number)), Ending::Bad(line)) => *number == line,
        _ => false,
    }
}

/// Gives its bytes, at most `part` at a time, and then is at its end or fails. It notes whether it
/// is read while something that was written isn't flushed.
#[derive(Drop)]
struct Asker<'a> {
    bytes: &'a [u8],
    part: usize,
    fails: bool,
    waits: &'a Cell<bool>,
    late: &'a Cell<bool>,
}

impl Read for Asker<'_> {
    fn read(&mut self, room: &mut [u8]) -> io::Result<usize> {
        if self.waits.get() {
            self.late.set(true);
        }
        if self.bytes.is_empty() && self.fails {
            return Err(io::Error::from(ErrorKind::BrokenPipe));
        }
        let most = room.len().min(self.part);
        self.bytes.read(&mut room[..most])
    }
}

/// Takes `left` bytes, and then fails.
#[derive(Drop)]
struct Listener<'a> {
    bytes: Vec<u8>,
    left: usize,
    waits: &'a Cell<bool>,
}

impl Write for Listener<'_> {
    fn write(&mut self, bytes: &[u8]) -> io::Result<usize> {
        if self.left == 0 {
            return Err(io::Error::from(ErrorKind::BrokenPipe));
        }
        let count = bytes.len().min(self.left);
        self.bytes.extend_from_slice(&bytes[..count])?;
        self.left -= count;
        self.waits.set(true);
        Ok(count)
    }

    fn flush(&mut self) -> io::Result<()> {
        self.waits.set(false);
        Ok(())
    }
}

/// A session of which `part` bytes are read at a time, and `room` are taken of the answers. Returns
/// how it ended, what was written, and whether it was ever read before a flush.
fn session(
    alloc: Global,
    text: &str,
    part: usize,
    fails: bool,
    left: usize,
) -> (Result<RunEnd, RunFault>, Vec<u8>, bool) {
    let (waits, late) = (Cell::new(false), Cell::new(false));
    let mut asker = Asker {
        bytes: text.as_bytes(),
        part,
        fails,
        waits: &waits,
        late: &late,
    };
    let mut listener = Listener {
        bytes: Vec::new(alloc),
        left,
        waits: &waits,
    };
    let end = run(alloc, &mut asker, &mut listener);
    let Listener {
        bytes,
        left: _,
        waits: _,
    } = listener;
    (end, bytes, late.get())
}

#[test]
fn sessions_are_answered(rt: HostRuntime) {
    for (row, (text, wanted, ending)) in CASES.iter().enumerate() {
        for part in [1usize, 7, 4096] {
            let (end, written, late) = session(rt.alloc(), text, part, false, usize::MAX);
            holds(&rt, written.as_slice() == wanted.as_bytes(), "answers", row);
            holds(&rt, is_ended(&end, *ending), "ending", row);
            holds(&rt, !late, "a read before a flush", row);
        }
    }
}

/// A plan of one command, and a round.
const SHORT: &str = "group 0 go-on\ncommand 0 0 0 0 1 0\n\nnow 5\n\n";

#[test]
fn an_input_that_fails_is_reported(rt: HostRuntime) {
    let (end, written, _) = session(rt.alloc(), SHORT, 5, true, usize::MAX);
    assert!(rt; matches!(end, Err(RunFault::Input)), "the fault");
    assert!(rt;
        written.as_slice() == b"plan 1\n\nbegin 0\n\n".as_slice(),
        "what was answered"
    );
}

#[test]
fn an_output_that_fails_is_reported(rt: HostRuntime) {
    for left in 0..17usize {
        let (end, written, _) = session(rt.alloc(), SHORT, 4096, false, left);
        holds(&rt, matches!(end, Err(RunFault::Output)), "fault", left);
        let whole = b"plan 1\n\nbegin 0\n\n".as_slice();
        holds(&rt, written.as_slice() == &whole[..left], "prefix", left);
    }
}
