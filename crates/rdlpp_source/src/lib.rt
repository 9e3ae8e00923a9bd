//! Where a preprocessor's texts come from and where its text goes: the traits `Sources` and `Sink`,
//! sources in memory, sources over files, and sinks over any writer.
#![tactic(auto)]

mod asked;
mod buffered;
mod counted;
mod files;
mod folders;
mod paths;
mod search;
mod shared_text;
mod sinks;
mod sources;
mod texts;
mod written;

pub use asked::{AskedReader, AskedTexts, Standing};
pub use buffered::Buffered;
pub use counted::Counted;
pub use files::{FileId, FileSources};
pub use folders::{FileFailure, FolderReader, Folders};
pub use paths::{folder_of, join_path};
pub use search::{SearchedFolders, set_path};
pub use shared_text::SharedText;
pub use sinks::{Sink, SinkFault};
pub use sources::{Found, SourceFault, Sources};
pub use texts::{TextReader, Texts};
pub use written::FilePair;
