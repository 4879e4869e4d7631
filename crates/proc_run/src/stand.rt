//! Where a run stands.

use crate::path::Path;

/// Where a run stands.
#[derive(Drop)]
pub(crate) enum Stand {
    /// Before its first step.
    Begins,
    /// At a statement that was asked.
    Waits(Path),
    /// At its end.
    Over,
}
