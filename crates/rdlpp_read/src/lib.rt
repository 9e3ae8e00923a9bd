//! The open sources of a run, each with the part of its text that is held, read by lines within the limits; and the open
//! conditionals, in one stack for all of them.
#![tactic(auto)]

mod blanks;
mod buffer;
mod conditions;
mod files;

pub use buffer::{Fill, LogicalLine, SourceBuffer, fill_room, hold_logical_line};
pub use conditions::{Branch, Conditions};
pub use files::{File, Files, Shift};
