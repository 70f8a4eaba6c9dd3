//! A line that asks for the state of a scope is recognized by its bytes, because no request is more
//! frequent.

ghost use Rattle.std.specs.Prelude.{◌≡◌};
ghost use Rattle.console_lines.specs.ScopeLines.{scope_word};
ghost use Rattle.console_lines.specs.Words.{lent};

use run_model::is_spelled;

/// Returns what comes after `scope ` at the beginning of a line; `None` if the line begins
/// differently. If the result is a name, the line asks for the state of the scope with this name.
pub fn scope_word(line: &[u8]) -> Option<&[u8]>
    ensures { lent result ≡ scope_word line.now }
{
    if line.len() < 6 || !is_spelled(&line[..6], b"scope ") {
        return None;
    }
    Some(&line[6..])
}
