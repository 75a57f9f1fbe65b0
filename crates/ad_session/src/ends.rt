use ad_tree::Batch;

/// How a session ended.
#[derive(Clone, Copy, Debug, PartialEq, Eq, Hash)]
pub enum End {
    /// With the request for the end.
    Quit,
    /// The input ended before the first byte of a line.
    Closed,
    /// The input ended inside a line or a payload.
    Cut,
    /// A line, or the payload that it announces, is too long.
    TooLong,
    /// As many requests were answered as a session may have.
    Spent,
    /// The source failed.
    ReadFault,
    /// The sink failed.
    WriteFault,
}

/// Why a talk paused: an edit is to be made, on the edition of this number if it expects one; or the session ended.
#[derive(Drop)]
pub enum Pause {
    Edit(Batch, Option<u64>),
    Ended(End),
}
