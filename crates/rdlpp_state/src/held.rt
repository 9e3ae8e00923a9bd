// What an engine holds.

/// What an engine holds at one moment: three counts of bytes, then four counts of things.
#[derive(Clone, Copy, Debug, PartialEq, Eq)]
pub struct Held {
    /// Bytes of the live definitions.
    pub definitions: usize,
    /// Bytes of the open call's kept text.
    pub arguments: usize,
    /// Bytes of the open sources' buffers.
    pub buffers: usize,
    /// Open bodies, actuals and default texts: at most `depth` of them.
    pub cursors: usize,
    /// Bound actuals: at most 255 for each open body.
    pub bindings: usize,
    /// Open conditionals.
    pub conditions: usize,
    /// Open sources.
    pub sources: usize,
}
