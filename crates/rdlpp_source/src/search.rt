//! Where a name is searched that a source includes.
ghost use Rattle.std.specs.Prelude.{◌≡◌, map};
ghost use Rattle.std.specs.Iterator.{YieldsFirstRef, item_count};
ghost use Rattle.rdlpp_source.specs.Search.{IsCandidate, candidates, folders_left, joined_path};

use crate::{SourceFault, folder_of, join_path};
use arrayvec::ArrayString;
use std::convert::AsStr;

/// The folders in which a name is searched that a source includes, in order: that of this source, and then the include folders. A
/// name that begins with `/` is searched as it is: the one folder is then empty (this project's profile).
#[derive(Drop)]
pub struct SearchedFolders<'a, F> {
    // that of the including source, until it is given
    first: Option<&'a str>,
    // the include folders that are left
    others: &'a [F],
}

impl<'a, F: AsStr> SearchedFolders<'a, F> {
    /// The folders in which `name` is searched that the source at `from` includes, with these include folders.
    pub fn of(from: &'a str, name: &str, folders: &'a [F]) -> SearchedFolders<'a, F>
        ensures { map (λ folder. joined_path folder name.now) (folders_left F.text result)
            ≡ candidates (map F.text folders.now) from.now name.now }
    {
        let (first, others) = if name.starts_with('/') {
            ("", &folders[..0])
        } else {
            (folder_of(from), folders)
        };
        SearchedFolders {
            first: Some(first),
            others,
        }
    }
}

impl<'a, F: AsStr> Iterator for SearchedFolders<'a, F> {
    type Item = &'a str;

    ghost next_gives = { YieldsFirstRef (folders_left F.text) };

    ghost remaining = { item_count (folders_left F.text) };

    fn next(&mut self) -> Option<&'a str> {
        if let Some(folder) = self.first.take() {
            return Some(folder);
        }
        let (folder, others) = self.others.split_first()?;
        self.others = others;
        Some(folder.as_str())
    }
}

/// Sets a path to the one at which a name is searched in a folder, where a source may stand there (this project's profile).
///
/// # Errors
/// `PathTooLong` where it has more than 1,024 bytes, which ends a search; `Absent` where it has an LF byte.
pub fn set_path(path: &mut ArrayString<1024>, folder: &str, name: &str) -> Result<(), SourceFault>
    ensures { IsCandidate (joined_path folder.now name.now) path.new result }
{
    if join_path(path, folder, name).is_none() {
        return Err(SourceFault::PathTooLong);
    }
    if path.as_bytes().contains(&b'\n') {
        return Err(SourceFault::Absent);
    }
    Ok(())
}
