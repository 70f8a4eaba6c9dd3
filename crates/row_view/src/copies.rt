//! Copies of what a view lends: names, texts, moments and limits that own their bytes. Each call
//! requires that the bytes, or the number, are in range.

ghost use Rattle.std.specs.Option.{option_copied};
ghost use Rattle.std.specs.Prelude.{◌≡◌, IsTrue};
ghost use Rattle.run_model.specs.Records.{is_limit, is_moment, is_optional_text};
ghost use Rattle.run_model.specs.Texts.{IsName, IsText};

use run_model::{Limit, Moment, Name, Text};

/// Returns the name with these bytes.
pub fn name_copy(bytes: &[u8]) -> Name
    requires { IsName bytes.now }
    ensures { result ≡ bytes.now }
{
    Name::read(bytes).unwrap()
}

/// Returns the text with these bytes.
pub fn text_copy(bytes: &[u8]) -> Text
    requires { IsText bytes.now }
    ensures { result ≡ bytes.now }
{
    Text::read(bytes).unwrap()
}

/// Returns the text with these bytes; `None` if there are none.
pub fn optional_copy(bytes: Option<&[u8]>) -> Option<Text>
    requires { IsTrue (is_optional_text (option_copied bytes)) }
    ensures { result ≡ option_copied bytes.entry }
{
    match bytes {
        Some(bytes) => Some(text_copy(bytes)),
        None => None,
    }
}

/// Returns the moment at this many seconds.
pub fn moment_of(seconds: u64) -> Moment
    requires { IsTrue (is_moment seconds) }
    ensures { result ≡ seconds }
{
    Moment::new(seconds).unwrap()
}

/// Returns the limit of this many tasks, or no limit for `None`.
pub fn limit_of(most: Option<u8>) -> Limit
    requires { IsTrue (is_limit most) }
    ensures { result ≡ most }
{
    match most {
        Some(most) => Limit::new(most).unwrap(),
        None => Limit::none(),
    }
}
