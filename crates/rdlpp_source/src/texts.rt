//! Sources in memory.
ghost use Rattle.std.specs.Prelude.{◌≡◌, min, drop, IfOk, length};
ghost use Rattle.std.specs.Option.{option_copied};
ghost use Rattle.std.specs.Io.{ReadsAtMost};
ghost use Rattle.rdlpp_source.specs.Sources.{Gives, Reads, found_at};
ghost use Rattle.rdlpp_source.specs.Search.{joined_path, answer_at};

use crate::{Found, SearchedFolders, SourceFault, Sources, set_path};
use arrayvec::ArrayString;

/// Sources in memory, by this project's search rule.
///
/// They tell their texts: `top` and `find` answer by the entries of `files` and the order of
/// `folders`, and a reader gives the very text of its entry. No device and no memory is asked, so
/// `Device` and `NoMemory` are never answered and both counts are 0.
#[derive(Clone, Copy)]
pub struct Texts<'a> {
    /// Each path with the bytes of its text. The first entry of a path counts. An entry whose path
    /// has more than 1,024 bytes or an LF byte is never found.
    pub files: &'a [(&'a str, &'a [u8])],
    /// The include folders, in the order of the search.
    pub folders: &'a [&'a str],
}

/// What reads a text of `Texts`: the bytes that weren't read yet.
#[derive(Drop)]
pub struct TextReader<'a> {
    left: &'a [u8],
}

impl<'a> Texts<'a> {
    ghost use Rattle.rdlpp_source.specs.Texts.{text_at, left_of};

    // The text of the first entry of a path.
    fn text_of(&self, path: &str) -> Option<&'a [u8]>
        ensures { option_copied result ≡ text_at self.now path.now }
    {
        self.files
            .iter()
            .find(|entry| entry.0 == path)
            .map(|entry| entry.1)
    }

    // What reads the source of a name in a folder, whose path is set.
    fn open_in(
        &self,
        path: &mut ArrayString<1024>,
        folder: &str,
        name: &str,
    ) -> Result<TextReader<'a>, SourceFault>
        ensures { Gives left_of (answer_at (text_at self.now) (joined_path folder.now name.now)) (found_at path.new result) }
    {
        set_path(path, folder, name)?;
        match self.text_of(path.as_str()) {
            Some(left) => Ok(TextReader { left }),
            None => Err(SourceFault::Absent),
        }
    }
}

impl<'a> Sources for Texts<'a> {
    type Reader = TextReader<'a>;

    ghost use Rattle.std.specs.Prelude.{⊤};
    ghost use Rattle.rdlpp_source.specs.Texts.{texts_catalog, left_of};

    ghost has_known_texts = { λ _. ⊤ };

    ghost catalog = { texts_catalog };

    ghost unread = { left_of };

    ghost failures = { λ _. 0 };

    ghost refusals = { λ _. 0 };

    fn top(&mut self, path: &str) -> Result<Found<TextReader<'a>>, SourceFault>
        ensures answer { Gives left_of ((texts_catalog self.old).top path.now) result }
        ensures unchanged { self.new ≡ self.old }
    {
        let name = path;
        let mut path = ArrayString::new();
        let reader = self.open_in(&mut path, "", name)?;
        Ok(Found { path, reader })
    }

    fn find(&mut self, from: &str, name: &str) -> Result<Found<TextReader<'a>>, SourceFault>
        ensures answer { Gives left_of ((texts_catalog self.old).find from.now name.now) result }
        ensures unchanged { self.new ≡ self.old }
    {
        let mut path = ArrayString::new();
        for folder in SearchedFolders::of(from, name, self.folders) {
            match self.open_in(&mut path, folder, name) {
                Err(SourceFault::Absent) => {}
                Err(fault) => return Err(fault),
                Ok(reader) => return Ok(Found { path, reader }),
            }
        }
        Err(SourceFault::Absent)
    }

    fn read(&mut self, reader: &mut TextReader<'a>, to: &mut [u8]) -> Result<usize, SourceFault>
        ensures bound { ReadsAtMost result to.new }
        ensures bytes { Reads (left_of reader.old) (left_of reader.new) result to.new }
        ensures count { result ≡ Ok (min (length to.old) (length (left_of reader.old))) }
        ensures rest { IfOk result (λ n. drop n to.new ≡ drop n to.old) }
        ensures unchanged { self.new ≡ self.old }
    {
        let len = to.len().min(reader.left.len());
        to[..len].copy_from_slice(&reader.left[..len]);
        reader.left = &reader.left[len..];
        Ok(len)
    }
}
