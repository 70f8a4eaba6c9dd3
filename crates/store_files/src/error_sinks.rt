//! An [`ErrorSink`] prints messages, as standard error does.

ghost use Rattle.std.specs.Prelude.{◌≡◌, ◌≢◌, IfSome, false, true};
ghost use Rattle.store_files.specs.ErrorSinks.{SinkState};
ghost use Rattle.std.specs.Io.KnownBytes.{Appends};

use std::fmt::Display;

/// The place where a program prints how it ended: standard error, or a sink of a test.
pub trait ErrorSink {
    /// What contracts see of the sink.
    ghost state: { Self → SinkState };

    /// Writes a text, and returns whether all of it was written: if not, a call failed.
    fn print<D: Display + Drop>(&mut self, text: D) -> bool
        ensures reported { result ≡ true → IfSome (D.output text)
            (Appends (state self.old).contents (state self.new).contents) }
        ensures kept { result ≡ true → (state self.new).failures ≡ (state self.old).failures }
        ensures failed { result ≡ false → (state self.new).failures ≢ (state self.old).failures };
}
