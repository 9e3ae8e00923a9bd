// How far an engine is.

/// How far an engine is.
#[derive(Clone, Copy, PartialEq, Eq)]
pub enum Phase {
    /// Not started.
    Fresh,
    /// The main text is open.
    Open,
    /// The main text is open, and more bytes were due than the output may have.
    OverLimit,
    /// The main text has ended, or couldn't be opened.
    Closed,
}
