// Where the parts of one definition lie in a table's bytes.
ghost use Rattle.std.specs.Prelude.{◌≡◌, ◌≤◌, ◌+◌, ◌-◌, length, slice_range, unwrap_or};
ghost use Rattle.rdlpp_table.specs.Entries.{offsets_len};
ghost use Rattle.rdlpp_table.specs.Store.{body_of, entry_end, list_of, name_of};

use crate::offsets::{StoredFormals, has_offsets};
use crate::point_cache::PointCache;

// A definition's name, its formals with a comma after each, and its body lie one after another.
#[derive(Clone, Copy, Drop)]
pub(crate) struct Entry {
    pub(crate) start: u32,
    pub(crate) list_len: u32,
    pub(crate) body_len: u32,
    // Where its offsets begin, counted with those of entries that are given up.
    pub(crate) formal_offsets: u32,
    pub(crate) name_len: u8,
    // How many formals it has, where it has a list.
    pub(crate) arity: Option<u8>,
    // The first expansion points of its body.
    pub(crate) points: PointCache,
}

// How many bytes an entry takes: its numbers are small ones, so that ten expansion points have room beside them.
pub(crate) const ENTRY_BYTES: usize = 80;

const _: () = prove!(size_of::<Entry>() == ENTRY_BYTES);

// The name of a definition.
#[tactic(auto, unfolding(crate::specs::Store::name_of, crate::specs::Store::entry_end, crate::specs::Store::body_start, crate::specs::Store::list_start))]
pub(crate) fn name_in<'a>(bytes: &'a [u8], entry: &Entry) -> &'a [u8]
    requires { entry_end entry.now ≤ length bytes.now }
    ensures { result.now ≡ name_of bytes.now entry.now }
{
    let start = entry.start as usize;
    &bytes[start..start + entry.name_len as usize]
}

// How many formals a definition has, where it has a list.
pub(crate) fn arity_in(entry: &Entry) -> Option<usize>
    ensures { result ≡ entry.now.arity }
{
    match entry.arity {
        Some(count) => Some(count as usize),
        None => None,
    }
}

// How many offsets a definition has: two for each formal, where any are kept.
#[tactic(auto, unfolding(crate::specs::Entries::offsets_len, crate::specs::FormalOffsets::has_offsets))]
pub(crate) fn offsets_len(entry: &Entry) -> usize
    ensures { result ≡ offsets_len entry.now }
{
    let count = arity_in(entry).unwrap_or(0);
    if has_offsets(count, entry.list_len as usize) {
        2 * count
    } else {
        0
    }
}

// The formals of a definition as they lie in a table, and their offsets among those of all macros, where so many that the entry counts
// are given up.
#[tactic(auto, unfolding(crate::specs::Store::list_of, crate::specs::Store::entry_end, crate::specs::Store::body_start, crate::specs::Store::list_start))]
pub(crate) fn listed_in<'a>(
    bytes: &'a [u8],
    formal_offsets: &'a [u16],
    given_up: usize,
    entry: &Entry,
) -> StoredFormals<'a>
    requires bytes { entry_end entry.now ≤ length bytes.now }
    requires given_up { given_up ≤ entry.now.formal_offsets }
    requires formal_offsets { entry.now.formal_offsets - given_up + offsets_len entry.now ≤ length formal_offsets.now }
    ensures list { result.list.now ≡ list_of bytes.now entry.now }
    ensures count { result.count ≡ unwrap_or entry.now.arity 0 }
    ensures formal_offsets { result.formal_offsets.now ≡ slice_range formal_offsets.now (entry.now.formal_offsets - given_up) (entry.now.formal_offsets - given_up + offsets_len entry.now) }
{
    let start = entry.start as usize + entry.name_len as usize;
    let first = entry.formal_offsets as usize - given_up;
    let end = first + offsets_len(entry);
    StoredFormals {
        list: &bytes[start..start + entry.list_len as usize],
        count: arity_in(entry).unwrap_or(0),
        formal_offsets: &formal_offsets[first..end],
    }
}

// The body of a definition.
#[tactic(auto, unfolding(crate::specs::Store::body_of, crate::specs::Store::entry_end, crate::specs::Store::body_start, crate::specs::Store::list_start))]
pub(crate) fn body_in<'a>(bytes: &'a [u8], entry: &Entry) -> &'a [u8]
    requires { entry_end entry.now ≤ length bytes.now }
    ensures { result.now ≡ body_of bytes.now entry.now }
{
    let start = entry.start as usize + entry.name_len as usize + entry.list_len as usize;
    &bytes[start..start + entry.body_len as usize]
}
