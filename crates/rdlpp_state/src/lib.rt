//! The parts of the engine: what it holds and owes, where a piece of the output stands, who is shown it, and the laws of its steps.
#![tactic(auto)]

mod held;
mod kinds;
mod new_fault;
mod pending;
mod phase;
mod place;
mod positions;
mod texts;
mod watching;

pub use held::Held;
pub use kinds::fault_kind;
pub use new_fault::NewFault;
pub use pending::{Pending, PendingPart, PendingPiece};
pub use phase::Phase;
pub use place::{Halt, Piece, PieceLocation};
pub use positions::{LineStep, Marks, OpenSource, Position};
pub use texts::{copied, copied_fault};
pub use watching::{Placed, Unwatched, Watcher};
