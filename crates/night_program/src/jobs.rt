//! The jobs of the program's crews.

ghost use Rattle.std.specs.Prelude.{◌≡◌, bytes_eq, codes};
ghost use Rattle.run_model.specs.Texts.{IsText};
ghost use Rattle.run_crew.specs.declared.jobs.Turn.TheVariants as turn;
ghost use Rattle.night_program.specs.Jobs.{goes_on, number_in, spin_turn};

use run_crew::{Job, Turn};
use run_model::{Name, TaskInfo, Text};

/// The longest argument of `spin` has this many digits.
const MOST_DIGITS: usize = 4;

/// Does `spin`: it takes as many turns as its argument says, and one more that ends the task. The
/// argument has 1 to 4 digits; otherwise the task fails as `bad argument`. If its scope is done,
/// the task fails as `canceled`.
#[derive(Drop)]
pub struct SpinJob;

impl Job for SpinJob {
    fn handles(&self, job: &Name) -> bool
        ensures { result ≡ bytes_eq job.now (codes "spin") }
    {
        job.as_bytes() == b"spin".as_slice()
    }

    fn turn(&mut self, info: &TaskInfo, turn: u32, done: bool) -> Turn
        ensures { result ≡ spin_turn info.now.argument turn done }
    {
        spin(info.argument.as_bytes(), turn, done)
    }
}

/// Does `fail`: it fails at once, and its argument is the error.
#[derive(Drop)]
pub struct FailJob;

impl Job for FailJob {
    fn handles(&self, job: &Name) -> bool
        ensures { result ≡ bytes_eq job.now (codes "fail") }
    {
        job.as_bytes() == b"fail".as_slice()
    }

    fn turn(&mut self, info: &TaskInfo, _turn: u32, _done: bool) -> Turn
        ensures { result ≡ turn.Failed info.now.argument }
    {
        fail(&info.argument)
    }
}

/// Does `copy`: it ends at once, without an error.
#[derive(Drop)]
pub struct CopyJob;

impl Job for CopyJob {
    fn handles(&self, job: &Name) -> bool
        ensures { result ≡ bytes_eq job.now (codes "copy") }
    {
        job.as_bytes() == b"copy".as_slice()
    }

    fn turn(&mut self, _info: &TaskInfo, _turn: u32, _done: bool) -> Turn
        ensures { result ≡ turn.Finished }
    {
        Turn::Finished
    }
}

/// A turn of `spin`.
fn spin(argument: &[u8], turn: u32, done: bool) -> Turn
    ensures { result ≡ spin_turn argument.now turn done }
{
    if done {
        return failed(b"canceled");
    }
    match number_in(argument) {
        Some(most) if turn < most => Turn::More,
        Some(_) => Turn::Finished,
        None => failed(b"bad argument"),
    }
}

/// The number that 1 to 4 digits write.
fn number_in(bytes: &[u8]) -> Option<u32>
    ensures { result ≡ number_in bytes.now }
{
    if bytes.is_empty() || bytes.len() > MOST_DIGITS {
        return None;
    }
    let mut number = 0u32;
    let mut rest = bytes;
    while let Some((byte, behind)) = rest.split_first() {
        if !goes_on(number, *byte) {
            return None;
        }
        number = number * 10 + u32::from(*byte - b'0');
        rest = behind;
    }
    Some(number)
}

/// Returns whether a digit may stand after this number: a number of 4 digits ends.
fn goes_on(number: u32, byte: u8) -> bool
    ensures { result ≡ goes_on number byte }
{
    number <= 999 && byte.is_ascii_digit()
}

/// A turn of `fail`. Each name is a text.
#[tactic(auto, using(crate::proofs::NameTexts::name_is_text))]
fn fail(argument: &Name) -> Turn
    ensures { result ≡ turn.Failed argument.now }
{
    failed(argument.as_bytes())
}

/// The end of a task by this error.
fn failed(error: &[u8]) -> Turn
    requires text { IsText error.now }
    ensures { result ≡ turn.Failed error.now }
{
    match Text::read(error) {
        Some(error) => Turn::Failed(error),
        None => unreachable!(),
    }
}
