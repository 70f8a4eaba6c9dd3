//! The kind of a scope in bytes: a view of it holds numbers, and slices of the bytes from which it
//! was read.
//!
//! A view lives as long as those bytes are lent, and copies none of them. It holds plain numbers
//! and bytes; the calls that take or return a view state that they are in range.

/// The kind of a scope, which corresponds to [`run_model::Kind`].
#[derive(Clone, Copy, PartialEq, Eq)]
pub enum KindView<'a> {
    /// A command can cancel it, without a cause.
    Cancel,
    /// A command can cancel it, and may give a cause.
    Cause,
    /// It is done when this moment (in seconds) comes, with this cause. A command can cancel it
    /// before then.
    Deadline(u64, Option<&'a [u8]>),
    /// It holds one value under one key: first the key, and then the text.
    Value(&'a [u8], &'a [u8]),
    /// It isn't done when its parent is.
    Detached,
    /// The scope of a group. The record of a derive never has this kind.
    Group,
}
