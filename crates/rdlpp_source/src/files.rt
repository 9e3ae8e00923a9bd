//! Which file a source lies in.
ghost use Rattle.std.specs.Prelude.{◌≡◌, ◌↔◌, IsTrue};
ghost use Rattle.std.specs.Fs.{file_type, IsFile};
ghost use Rattle.std.specs.Option.{is_some};

use crate::{AskedReader, AskedTexts, Sources, TextReader, Texts};
use std::fs::Metadata;
use std::os::unix::fs::MetadataExt;

/// Which file one is, by whatever path it is opened: the device on which it lies, and its number there.
#[derive(Clone, Copy, PartialEq, Eq, Hash, Drop)]
pub struct FileId {
    device: u64,
    number: u64,
}

impl FileId {
    /// The regular file that has these metadata; none of a device, a folder or a pipe.
    pub fn of(metadata: &Metadata) -> Option<FileId>
        ensures { IsTrue (is_some result) ↔ IsFile (file_type metadata.now) }
    {
        if !metadata.is_file() {
            return None;
        }
        Some(FileId {
            device: metadata.dev(),
            number: metadata.ino(),
        })
    }
}

/// Sources that may know in which file a text lies that they opened.
pub trait FileSources: Sources {
    ghost use Rattle.std.specs.Prelude.{Option};
    ghost use Rattle.rdlpp_source.specs.declared.files.FileId.{FileId};

    // the file in which the text of a reader lies, where that is known
    ghost lies_in: { Self.Reader → Option FileId };

    /// The file in which the text of a reader lies, where it lies in one and that is known.
    fn file(&self, reader: &Self::Reader) -> Option<FileId>
        ensures { result ≡ lies_in reader.now };
}

impl<'a> FileSources for Texts<'a> {
    ghost use Rattle.rdlpp_source.specs.Files.{no_file};

    ghost lies_in = { no_file };

    fn file(&self, _reader: &TextReader<'a>) -> Option<FileId> {
        None
    }
}

impl FileSources for AskedTexts {
    ghost use Rattle.rdlpp_source.specs.Files.{no_file};

    ghost lies_in = { no_file };

    fn file(&self, _reader: &AskedReader) -> Option<FileId> {
        None
    }
}
