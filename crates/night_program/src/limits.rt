//! How long an input may be.

ghost use Rattle.std.specs.Prelude.{◌≡◌};
ghost use Rattle.console_lines.specs.declared.lines.TheConstants.{LONGEST_INPUT};

/// An input has at most 16,777,216 bytes.
pub fn an_input_has_at_most_16777216_bytes()
    ensures { LONGEST_INPUT ≡ 16777216 }
{}
