//! What stands in front of the bytes that are held of a source: text, a directive with what it is given, a usage, and how far skipped
//! text is passed; and what each front does to what remains.
#![tactic(auto)]

mod arguments;
mod copied;
mod item;
mod skipped_text;

pub use arguments::{Argument, GivenLine, given_line};
pub use copied::{Copied, copied_text};
pub use item::{SourceItem, next_item};
pub use skipped_text::{SkippedText, skip_text};
