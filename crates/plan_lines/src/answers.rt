//! An [`AnswerLine`] is one line of an answer.

ghost use Rattle.std.specs.Prelude.{◌+◌, ◌≤◌, ◌++◌, codes};
ghost use Rattle.std.specs.Fmt.{decimal};
ghost use Rattle.console_lines.specs.Appended.{Appended};
ghost use Rattle.plan_lines.specs.Answers.{answer_line, standing_text};
ghost use Rattle.arrayvec.specs.ArrayVec.{array_vec_len};

use arrayvec::ArrayVec;
use console_lines::{push, push_number};
use night_plan::standings::Standing;

/// One line of the answer to a plan or to a round.
#[derive(Clone, Copy)]
pub enum AnswerLine {
    /// The plan is accepted. This is the number of its commands.
    Plan(usize),
    /// This command of the plan names something that doesn't exist.
    Unknown(usize),
    /// This command of the plan takes more of a pool than its size.
    TooMuch(usize),
    /// The commands of the next lines form a circle: each comes after the next one, and the last
    /// one comes after the first.
    Circle,
    /// A command of the circle.
    Member(usize),
    /// This command may begin.
    Begin(usize),
    /// This command runs, and has to stop.
    Stop(usize),
    /// If nothing happens before, the caller should ask again at this moment.
    Later(u64),
    /// How this command stands.
    Stands(usize, Standing),
    /// The line of this number is bad.
    Bad(u64),
    /// The answer ends here.
    End,
}

/// The length of the longest line of an answer, with its LF.
pub const LONGEST_ANSWER: usize = 64;

impl AnswerLine {
    /// Appends the bytes of the line, with its LF.
    pub fn append<const N: usize>(&self, out: &mut ArrayVec<u8, N>)
        requires { array_vec_len out.old + LONGEST_ANSWER ≤ N }
        ensures { Appended out.old.items out.new.items (answer_line self.now) LONGEST_ANSWER }
    {
        match self {
            AnswerLine::Plan(count) => push_number(out, b"plan ", *count as u64),
            AnswerLine::Unknown(command) => push_number(out, b"unknown ", *command as u64),
            AnswerLine::TooMuch(command) => push_number(out, b"too-much ", *command as u64),
            AnswerLine::Circle => push(out, b"circle"),
            AnswerLine::Member(command) => push_number(out, b"member ", *command as u64),
            AnswerLine::Begin(command) => push_number(out, b"begin ", *command as u64),
            AnswerLine::Stop(command) => push_number(out, b"stop ", *command as u64),
            AnswerLine::Later(moment) => push_number(out, b"later ", *moment),
            AnswerLine::Stands(command, standing) => push_standing(out, *command, *standing),
            AnswerLine::Bad(line) => push_number(out, b"bad ", *line),
            AnswerLine::End => {}
        }
        push(out, b"\n");
    }
}

/// Appends the line that says how a command stands, without its LF.
fn push_standing<const N: usize>(out: &mut ArrayVec<u8, N>, command: usize, standing: Standing)
    requires { array_vec_len out.old + 63 ≤ N }
    ensures { Appended out.old.items out.new.items
        (codes "stands " ++ decimal command ++ standing_text standing) 63 }
{
    push_number(out, b"stands ", command as u64);
    match standing {
        Standing::Ready => push(out, b" ready"),
        Standing::Pending => push(out, b" pending"),
        Standing::Busy => push(out, b" busy"),
        Standing::Waiting(moment) => push_number(out, b" waiting ", moment),
        Standing::EndedOk => push(out, b" ok"),
        Standing::Failed => push(out, b" failed"),
        Standing::Canceled => push(out, b" canceled"),
        Standing::GivenUp => push(out, b" given-up"),
    }
}
