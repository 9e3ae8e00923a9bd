//! Macro text: the calls in a text, with their actuals as ranges of bytes, and the stack of open texts of a usage: bodies,
//! actuals and default texts, as ranges of bytes too. Nothing of a text is copied.
#![tactic(auto)]

mod bindings;
mod cursors;
mod frame;
mod frames;
mod hints;
mod kept;
mod parts;
mod peek;
mod place;
mod plain_argument;
mod scopes;
mod step;
mod tokens;

pub use bindings::{Range, bind_call, bind_parts};
pub use cursors::Cursors;
pub use kept::keeps_each;
pub use parts::{Part, PartEnd, call_start, next_part};
pub use place::{TextPlace, TextSource};
pub use scopes::text_at;
pub use step::{CursorFault, CursorStep};
pub use tokens::{CallRole, ends_call, level_after, role_of};
