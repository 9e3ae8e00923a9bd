//! What a run tells beside its output: the sources that it opened, the macros that are left and where they were defined, and the
//! place of each line.
#![tactic(auto)]

mod definitions;
mod dependencies;
mod lines;
mod map_writer;
mod places;
mod recorded;
mod writing;

pub use definitions::write_definitions;
pub use dependencies::write_dependencies;
pub use lines::{LineRun, MappedLines, write_map_start, write_run};
pub use map_writer::MapWriter;
pub use places::{DefinitionPlaces, write_defined};
pub use recorded::{OpenedPaths, Recorded};
pub use writing::{NOTE, write_parts, write_whole};
