//! What is asked of a run, with the limits on all that it uses; and one `define`, or one definition from outside, read: its logical
//! line, name, formals with their default texts, and body. Nothing is stored.
#![tactic(auto)]

mod fault;
mod formals;
mod header;
mod limits;
mod name;
mod new_macro;
mod options;
mod reading;

pub use fault::{DefineFault, DefineKind};
pub use limits::{LimitFault, Limits, limit_name};
pub use name::word_of;
pub use new_macro::NewMacro;
pub use options::Options;
pub use reading::{read_define, read_named};
