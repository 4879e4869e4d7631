use volt_base::{Bytes, PartNo};

/// How a call ended.
#[derive(Debug, Drop)]
pub enum End {
    /// It was kept, and this is its reply.
    Ok(Bytes),
    /// It aborted, and this is its reply.
    Abort(Bytes),
    /// The agents that the client knew have stopped before one answered. The call may have been applied
    /// or not.
    Lost,
    /// This partition had no copy left as the call was asked for. One that was asked again may have been
    /// applied before, or not.
    Down { part: PartNo },
}
