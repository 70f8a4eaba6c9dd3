//! How a crash tears the writes that weren't synced: a [`Torn`].

/// What a crash leaves of each write that wasn't synced.
#[derive(Clone, Copy, Debug, PartialEq, Eq)]
pub enum Torn {
    /// None of its bytes.
    Keep,
    /// All of its bytes.
    Take,
    /// This value in each of its bytes.
    Fill(u8),
    /// A prefix of the write with this number of bytes; all of it if it is shorter.
    Prefix(usize),
}
