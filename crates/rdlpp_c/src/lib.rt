//! The preprocessor for programs in C and other languages: a static library over `rdlpp`, whose calls
//! take sources in memory. `include/rdlpp.h` declares them.
#![tactic(auto)]

mod arrays;
mod asking;
mod digest;
mod exports;
mod faults;
mod giving;
mod handle;
mod knowing;
mod loose;
mod mapping;
mod once;
mod opening;
mod output;
mod placing;
mod reporting;
mod slot;
mod stream;
mod streaming;
mod telling;

pub use arrays::{Definition, Folder, Limits, Request, Text};
pub use exports::{rdlpp_fault_text, rdlpp_preprocess, rdlpp_standard_limits, rdlpp_version};
pub use giving::{
    rdlpp_give, rdlpp_give_absent, rdlpp_give_failed, rdlpp_give_once, rdlpp_give_part, rdlpp_lend,
};
pub use handle::Handle;
pub use loose::Loose;
pub use mapping::{Mapped, rdlpp_read_mapped};
pub use placing::rdlpp_position;
pub use reporting::{rdlpp_definitions, rdlpp_notes};
pub use slot::Slot;
pub use stream::Stream;
pub use streaming::{rdlpp_close, rdlpp_open, rdlpp_read, rdlpp_reopen};
pub use telling::Outcome;
