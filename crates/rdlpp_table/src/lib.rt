//! The macro table: a counted store of definitions, from a source or from outside.
#![tactic(auto)]

mod buckets;
mod entry;
mod given_up;
mod index;
mod lookup;
mod offsets;
mod point;
mod point_cache;
mod removal;
mod stored;
mod storing;
mod table;

pub use lookup::Steps;
pub use point::ExpansionPoint;
pub use table::{MacroId, Table};
