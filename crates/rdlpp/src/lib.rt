//! Preprocessing as one call, with an engine for each or one for many; its faults, the line that reports one and the notes on it,
//! and exit statuses.
#![tactic(auto)]

mod defining;
mod fault;
mod left_out;
mod notes;
mod opening;
mod preprocessing;
mod renewing;
mod reporting;
mod running;
mod status;

pub use fault::PrepFault;
pub use notes::{write_failure, write_notes};
pub use opening::{open_reading, reopen_reading};
pub use preprocessing::preprocess;
pub use rdlpp_define::{DefineFault, DefineKind, LimitFault, Limits, Options, limit_name};
pub use rdlpp_expand::{
    Engine, Fault, FaultKind, OpenSource, Placed, Position, ReadEnd, ReadPart, Reading, RunFault,
    Watcher,
};
pub use rdlpp_reports::{
    DefinitionPlaces, MapWriter, OpenedPaths, Recorded, write_defined, write_definitions,
    write_dependencies,
};
pub use rdlpp_source::{
    Buffered, Counted, FileFailure, FileId, FilePair, FileSources, FolderReader, Folders, Found,
    Sink, SinkFault, SourceFault, Sources, Texts,
};
pub use rdlpp_table::Table;
pub use renewing::Preprocessor;
pub use reporting::report;
pub use running::{new_engine, run_watched_from};
pub use status::exit_status;
