// Which files a run writes.
ghost use Rattle.std.specs.Prelude.{◌≡◌, ◌↔◌, ◌⊎◌, IsTrue, None, Some};
ghost use Rattle.rdlpp_source.specs.Files.{Has, IsEmpty};

use crate::FileId;

/// At most two files.
#[derive(Clone, Copy)]
pub struct FilePair {
    first: Option<FileId>,
    second: Option<FileId>,
}

impl FilePair {
    /// These files, as far as they are some.
    pub fn of(first: Option<FileId>, second: Option<FileId>) -> FilePair
        ensures { (file : FileId) → Has result file ↔ ((first ≡ Some file) ⊎ (second ≡ Some file)) }
    {
        FilePair { first, second }
    }

    /// Whether there is no file.
    pub fn is_empty(&self) -> bool
        ensures { IsTrue result ↔ IsEmpty self.now }
    {
        self.first.is_none() && self.second.is_none()
    }

    /// Whether a file is one of these.
    pub fn has(&self, file: FileId) -> bool
        ensures { IsTrue result ↔ Has self.now file }
    {
        is_this(self.first, file) || is_this(self.second, file)
    }
}

// Whether a file, if it is one, is this one.
fn is_this(own: Option<FileId>, file: FileId) -> bool
    ensures { IsTrue result ↔ (own ≡ Some file) }
{
    match own {
        Some(own) => own == file,
        None => false,
    }
}
