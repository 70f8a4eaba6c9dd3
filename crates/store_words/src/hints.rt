//! A hint for a user who types the lines.

ghost use Rattle.store_words.specs.Hints.{Hints};

use store_files::ErrorSink;

/// Prints how lines are typed, if `is_due`. A call that fails is no fault.
pub fn hint<E: ErrorSink>(is_due: bool, errors: &mut E)
    ensures { Hints is_due (E.state errors.old) (E.state errors.new) }
{
    if is_due {
        let _is_printed = errors.print(format_args!(
            "one line, one reply; flush keeps; Ctrl-D keeps and ends; lines: night script --help\n"
        ));
    }
}
