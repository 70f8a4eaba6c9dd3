//! A cause is the rest of its line. It may be missing, together with the space before it.

ghost use Rattle.std.specs.List.{list_all};
ghost use Rattle.std.specs.Option.{option_to_list};
ghost use Rattle.std.specs.Prelude.{◌≡◌, IfOk, IfErr, IsOk, IsTrue, ◌↔◌};
ghost use Rattle.run_model.specs.Texts.{is_text};
ghost use Rattle.console_lines.specs.Words.{lent};

use run_model::{Refusal, Text};

/// The cause of these bytes, and `BadText` if they are there and not a text.
pub(crate) fn read_cause(cause: Option<&[u8]>) -> Result<Option<Text>, Refusal>
    ensures cause { IfOk result (λ text. text ≡ lent cause.entry) }
    ensures accepted { IsOk result ↔ IsTrue (list_all is_text (option_to_list (lent cause.entry))) }
    ensures refused { IfErr result (λ refusal. refusal ≡ Refusal.BadText) }
{
    let Some(bytes) = cause else {
        return Ok(None);
    };
    match Text::read(bytes) {
        Some(text) => Ok(Some(text)),
        None => Err(Refusal::BadText),
    }
}
