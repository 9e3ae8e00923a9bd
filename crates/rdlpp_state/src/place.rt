// Pieces of the output, and where they stand.

use crate::pending::PendingPiece;
use rdlpp_texts::TextPlace;

/// A piece of the output, lent by the engine.
#[derive(Debug)]
pub enum Piece<'a> {
    /// The next bytes, which may be none.
    Bytes(&'a [u8]),
    /// The end of the output.
    Done,
}

/// Where a piece stands in the held stores.
#[derive(Clone, Copy)]
pub enum PieceLocation {
    /// From a place up to another in the buffer of the innermost source.
    Source(usize, usize),
    /// In a text that is open in a usage.
    Text(TextPlace),
    /// In the texts that are pending.
    Pending(PendingPiece),
    /// Nowhere: nothing more is lent.
    Halt(Halt),
}

/// Why an engine lends nothing more.
#[derive(Clone, Copy)]
pub enum Halt {
    /// The output has ended.
    End,
    /// A fault is kept.
    Fault,
}
