//! A scope is a node in the tree of cancellations. It has a kind, a row, and perhaps a hit, which
//! ended it.
//!
//! The kinds are those of Go's `context` package. The scope of a group is the one that
//! `errgroup.WithContext` derives.

ghost use Rattle.std.specs.Option.{option_map};
ghost use Rattle.std.specs.Prelude.{◌≡◌};
ghost use Rattle.run_model.specs.Rows.{new_scope};
ghost use Rattle.run_model.specs.Reasons.{reason_text};

use crate::moments::Moment;
use crate::names::Name;
use crate::texts::Text;

/// Says why a scope is done, as Go's `Err` does.
#[derive(Clone, Copy, Debug, PartialEq, Eq)]
pub enum Reason {
    /// The scope was canceled, or a scope above it was.
    Canceled,
    /// The scope's deadline has passed, or the deadline of a scope above it has.
    DeadlineExceeded,
}

impl Reason {
    /// Returns Go's text of the error. It also serves as the cause if none was given.
    pub fn text(self) -> &'static str
        ensures { result.now ≡ reason_text self }
    {
        match self {
            Reason::Canceled => "context canceled",
            Reason::DeadlineExceeded => "context deadline exceeded",
        }
    }
}

/// The kind of a scope.
#[derive(Drop, PartialEq, Eq)]
pub enum Kind {
    /// Root, which is scope 0, and is never done.
    Root,
    /// A command can cancel it, without a cause.
    Cancel,
    /// A command can cancel it, and may give a cause.
    Cause,
    /// It is done when this moment comes, with this cause. A command can cancel it before then.
    Deadline(Moment, Option<Text>),
    /// It holds one value under one key.
    Value(Name, Text),
    /// It isn't done when its parent is. A search for a value goes through it.
    Detached,
    /// The scope of a group. It is done at the first error of the group, or when the group is
    /// waited for.
    Group,
}

impl Kind {
    /// Returns a copy of the kind.
    pub fn copy(&self) -> Kind
        ensures { result ≡ self.now }
    {
        match self {
            Kind::Root => Kind::Root,
            Kind::Cancel => Kind::Cancel,
            Kind::Cause => Kind::Cause,
            Kind::Deadline(moment, cause) => Kind::Deadline(*moment, copied(cause)),
            Kind::Value(key, text) => Kind::Value(key.copy(), text.copy()),
            Kind::Detached => Kind::Detached,
            Kind::Group => Kind::Group,
        }
    }
}

/// The first cancellation of a scope itself.
#[derive(Drop, PartialEq, Eq)]
pub struct Hit {
    /// The number of the event that made the hit.
    pub event: u64,
    /// The deadline that has passed, or else the clock.
    pub moment: Moment,
    /// The reason.
    pub reason: Reason,
    /// The cause that was given, or else the text of the reason.
    pub cause: Text,
}

impl Hit {
    /// Returns a copy of the hit.
    pub fn copy(&self) -> Hit
        ensures { result ≡ self.now }
    {
        Hit {
            event: self.event,
            moment: self.moment,
            reason: self.reason,
            cause: self.cause.copy(),
        }
    }
}

/// The row of a scope. The number of a scope is the place of its row.
#[derive(Drop, PartialEq, Eq)]
pub struct Scope {
    /// The name of the scope.
    pub name: Name,
    /// The number of the scope from which it was derived; 0 for root itself.
    pub parent: u16,
    /// The kind of the scope.
    pub kind: Kind,
    /// The first cancellation of the scope itself, even if a scope above it had been canceled
    /// before.
    pub hit: Option<Hit>,
}

impl Scope {
    /// Returns the row of a scope without a hit.
    pub fn new(name: Name, parent: u16, kind: Kind) -> Scope
        ensures { result ≡ new_scope name parent kind }
    {
        Scope {
            name,
            parent,
            kind,
            hit: None,
        }
    }
}

fn copied(text: &Option<Text>) -> Option<Text>
    ensures { result ≡ text.now }
{
    match text {
        Some(text) => Some(text.copy()),
        None => None,
    }
}
