//! The preprocessor's engine: it reads sources by lines, expands macros, and lends its output piece by piece.
#![tactic(auto)]

mod engine;
mod reading;
mod watching;
mod writing;

pub use engine::{Engine, READ_ALLOWANCE};
pub use rdlpp_meaning::{Fault, FaultKind};
pub use rdlpp_state::{
    Held, LineStep, NewFault, OpenSource, Piece, Placed, Position, Unwatched, Watcher, fault_kind,
};
pub use reading::{ReadEnd, ReadPart, Reading};
pub use writing::{RunFault, run, run_watched};
