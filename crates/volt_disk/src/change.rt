//! The changes of a file that a disk has to note before a crash may leave them.

/// A change of a file.
#[derive(Clone, Copy, Debug)]
pub enum Change<'a> {
    /// Zeros up to a length.
    Grow { to: u64 },
    /// Bytes in their place, from an offset on.
    Write { at: u64, bytes: &'a [u8] },
    /// Its removal.
    Remove,
}
