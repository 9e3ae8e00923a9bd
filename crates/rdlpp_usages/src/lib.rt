//! Usages of macros in a source: the call is read into a store, token by token, over any number of lines and refills, its
//! arguments are bound, and the body is opened.
#![tactic(auto)]

mod action;
mod expansion;
mod reading;
mod store;

pub use expansion::{Expansion, Opening};
pub use reading::{CallRead, read_call};
pub use store::ArgumentStore;
