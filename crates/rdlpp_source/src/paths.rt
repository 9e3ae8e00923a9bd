//! Paths of sources: the folder of a path, and a name joined to a folder.
ghost use Rattle.std.specs.Prelude.{◌≡◌, ◌<◌, MatchOption, length};
ghost use Rattle.rdlpp_source.specs.Search.{folder_of, joined_path};

use arrayvec::ArrayString;

/// The folder of a path: all up to and with its last `/`, or nothing (this project's profile).
pub fn folder_of(path: &str) -> &str
    ensures { result.now ≡ folder_of path.now }
{
    match path.rfind('/') {
        Some(at) => &path[..at + 1],
        None => "",
    }
}

/// Sets a path to a name joined to a folder, where that has at most 1,024 bytes: the folder as it is where it is
/// empty or ends in `/`, and else with one `/`, and then the name (this project's profile).
pub fn join_path(path: &mut ArrayString<1024>, folder: &str, name: &str) -> Option<()>
    ensures { MatchOption result (1024 < length (joined_path folder.now name.now))
        (λ _. path.new.bytes ≡ joined_path folder.now name.now) }
{
    path.clear();
    path.try_push_str(folder).ok()?;
    if !folder.is_empty() && !folder.ends_with('/') {
        path.try_push('/').ok()?;
    }
    path.try_push_str(name).ok()
}
