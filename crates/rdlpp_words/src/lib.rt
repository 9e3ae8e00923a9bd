//! The program's options: what the words of a command line ask for.
#![tactic(auto)]

mod command;
mod invocation;

pub use invocation::{Invocation, Reports, UsageFault, parse_words};
