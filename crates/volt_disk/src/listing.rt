//! Whether a folder lists a file.

/// What became of a file's name since the names were synced.
#[derive(Clone, Copy, Debug, PartialEq, Eq)]
pub enum Listing {
    /// No removal was asked for.
    Kept,
    /// A removal failed. A read still finds the file, and a crash may take it away.
    Leaving,
    /// It was removed. A read finds nothing, and after a crash it may be there as it was.
    Removed,
}
