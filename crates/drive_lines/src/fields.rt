//! The fields of a line are what follows its first word.

ghost use Rattle.std.specs.Prelude.{◌≡◌, ◌<◌, ◌^◌, ℕ, List, MatchOption, Some, None};
ghost use Rattle.std.specs.Fmt.{decimal};
ghost use Rattle.drive_lines.specs.Spaces.{lent, spaced};
ghost use Rattle.drive_lines.specs.Fields.{FieldsRead, FitsOutcome, FitsTry, outcome_text};
ghost use Rattle.drive_lines.specs.Fields.{try_text};
ghost use Rattle.run_model.specs.declared.tasks.Outcome.{Outcome as OutcomeOf};
ghost use Rattle.drive_lines.specs.declared.fields.TryName.{TryName as TryNameOf};

use crate::cuts::first_word;
use crate::words::Shape;
use plan_lines::numbers::read_count;
use run_model::{Name, Outcome, Text};

/// A try of a command: the group and the key of its task, and how many tries of that key stand
/// before it in the group.
#[derive(Drop)]
pub struct TryName {
    pub group: Name,
    pub key: Name,
    pub number: u16,
}

/// The fields of a line.
#[derive(Drop)]
pub(crate) enum Fields {
    Alone,
    Number(u64),
    NumberText(u64, Text),
    Ended(u64, Outcome),
    Lives(TryName),
}

/// Reads the fields that follow a word, and returns `None` if no fields of this shape are spelled
/// so.
pub(crate) fn read_fields(shape: Shape, left: Option<&[u8]>) -> Option<Fields>
    ensures { FieldsRead shape (lent left.entry) result }
{
    match shape {
        Shape::Alone => read_alone(left),
        Shape::Number => read_number(left),
        Shape::NumberText => read_number_text(left),
        Shape::Ended => read_ended(left),
        Shape::Lives => read_lives(left),
    }
}

/// No field.
fn read_alone(left: Option<&[u8]>) -> Option<Fields>
    ensures { FieldsRead Shape.Alone (lent left.entry) result }
{
    match left {
        Some(_) => None,
        None => Some(Fields::Alone),
    }
}

/// `NUMBER`
fn read_number(left: Option<&[u8]>) -> Option<Fields>
    ensures { FieldsRead Shape.Number (lent left.entry) result }
{
    Some(Fields::Number(read_count(left?)?))
}

/// `NUMBER TEXT`
fn read_number_text(left: Option<&[u8]>) -> Option<Fields>
    ensures { FieldsRead Shape.NumberText (lent left.entry) result }
{
    let (number, rest) = number_then(left?)?;
    Some(Fields::NumberText(number, Text::read(rest)?))
}

/// `NUMBER ok`, `NUMBER error TEXT`
fn read_ended(left: Option<&[u8]>) -> Option<Fields>
    ensures { FieldsRead Shape.Ended (lent left.entry) result }
{
    let (number, rest) = number_then(left?)?;
    Some(Fields::Ended(number, read_outcome(rest)?))
}

/// `GROUP KEY TRY`
fn read_lives(left: Option<&[u8]>) -> Option<Fields>
    ensures { FieldsRead Shape.Lives (lent left.entry) result }
{
    Some(Fields::Lives(read_try(left?)?))
}

/// Reads a number that a space follows, and returns it and what is left after the space.
fn number_then(bytes: &[u8]) -> Option<(u64, &[u8])>
    ensures { MatchOption result
        ((n : ℕ) (rest : List ℕ) → n < 10 ^ 12 → spaced (decimal n) rest ≡ bytes.now → ⊥)
        (λ r. (r.0 < 10 ^ 12) × (spaced (decimal r.0) r.1.now ≡ bytes.now)) }
{
    let (word, rest) = first_word(bytes);
    let number = read_count(word)?;
    Some((number, rest?))
}

/// `ok`, `error TEXT`
fn read_outcome(bytes: &[u8]) -> Option<Outcome>
    ensures { MatchOption result
        ((o : OutcomeOf) → FitsOutcome o → outcome_text o ≡ bytes.now → ⊥)
        (λ o. FitsOutcome o × (outcome_text o ≡ bytes.now)) }
{
    match bytes {
        b"ok" => Some(Outcome::Success),
        [b'e', b'r', b'r', b'o', b'r', b' ', why @ ..] => {
            Some(Outcome::Failure(Text::read(why)?))
        }
        _ => None,
    }
}

/// Reads a number of two bytes.
#[tactic(auto, using(crate::proofs::FieldTexts::same_number))]
fn read_short(word: &[u8]) -> Option<u16>
    ensures { MatchOption result
        ((n : ℕ) → n < 2 ^ 16 → decimal n ≡ word.now → ⊥)
        (λ n. (n < 2 ^ 16) × (decimal n ≡ word.now)) }
{
    let number = read_count(word)?;
    match u16::try_from(number) {
        Ok(number) => Some(number),
        Err(_) => None,
    }
}

/// `GROUP KEY TRY`
fn read_try(bytes: &[u8]) -> Option<TryName>
    ensures { MatchOption result
        ((t : TryNameOf) → FitsTry t → try_text t ≡ bytes.now → ⊥)
        (λ t. FitsTry t × (try_text t ≡ bytes.now)) }
{
    let (group, rest) = first_word(bytes);
    let (key, number) = first_word(rest?);
    Some(TryName {
        group: Name::read(group)?,
        key: Name::read(key)?,
        number: read_short(number?)?,
    })
}
