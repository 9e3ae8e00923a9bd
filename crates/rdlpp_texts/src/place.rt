// Where pieces of open texts lie.

use rdlpp_table::MacroId;

/// A text that may be open, or in which one lies.
#[derive(Clone, Copy)]
pub enum TextSource {
    /// What is kept of the call in the source.
    Arguments,
    /// The body of a macro.
    Body(MacroId),
    /// The default text of a formal.
    Default {
        /// The macro.
        id: MacroId,
        /// Which formal of it, counted from 0.
        place: usize,
    },
}

/// A range of bytes of a text.
#[derive(Clone, Copy)]
pub struct TextPlace {
    /// The text.
    pub source: TextSource,
    /// Where the range begins, in bytes from the front of the text.
    pub from: usize,
    /// Where it ends.
    pub end: usize,
}
