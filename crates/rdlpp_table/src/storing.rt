// A definition is put after the others in a table's lists.
ghost use Rattle.std.specs.Prelude.{
  [],
  bytes_eq,
  length,
  map,
  unwrap_or,
  vec_capacity,
  vec_len,
  ◌*◌,
  ◌+◌,
  ◌++◌,
  ◌-◌,
  ◌/◌,
  ◌<◌,
  ◌≡◌,
  ◌≤◌,
  ◌^◌,
  ◌∷◌,
};
ghost use Rattle.std.specs.List.{IsDistinct};
ghost use Rattle.rdlpp_table.specs.Index.{bucket_of, names_of, IsFound, IsIndexed};
ghost use Rattle.rdlpp_table.specs.FormalOffsets.{table_offsets};
ghost use Rattle.rdlpp_table.specs.Store.{live, macros_in, IsStored};
ghost use Rattle.rdlpp_define.specs.Table.{table_size, without};
ghost use Rattle.rdlpp_define.specs.Macros.{list_size, macro_size};

use crate::entry::Entry;
use crate::given_up::{GivenUp, live};
use crate::index::{Index, seek_named};
use crate::offsets::StoredFormals;
use crate::point_cache::cached_points;
use crate::removal::{remove_named, settle, size_of_entry};
use rdlpp_define::NewMacro;
use rdlpp_scan::append_part;

// How many formals a macro has, in a small number.
fn small_arity(arity: Option<usize>) -> Option<u8>
    requires { unwrap_or arity 0 < 256 }
    ensures { result ≡ arity }
{
    match arity {
        Some(count) => Some(count as u8),
        None => None,
    }
}

// Puts a macro after the others, of which the index has a place already.
fn put(
    bytes: &mut Vec<u8>,
    entries: &mut Vec<Entry>,
    front: &GivenUp,
    index: &mut Index,
    new: &NewMacro<'_>,
)
    requires stored { IsStored front.now.bytes front.now.formal_offsets bytes.old.items (live front.now.entries entries.old.items) (macros_in bytes.old.items (live front.now.entries entries.old.items)) }
    requires given_up { front.now.entries ≤ vec_len entries.old }
    requires marked { index.old.formal_offsets ≡ table_offsets (macros_in bytes.old.items (live front.now.entries entries.old.items)) }
    requires room { vec_len bytes.old + macro_size new.now ≤ vec_capacity bytes.old }
    requires entry_room { vec_len entries.old < vec_capacity entries.old }
    requires offset_room { length index.old.formal_offsets + 2 * (list_size new.now / 4) ≤ index.old.room.formal_offsets }
    requires small { list_size new.now < 2 ^ 32 }
    requires narrow { vec_capacity bytes.old < 2 ^ 32 }
    ensures stored { IsStored front.now.bytes front.now.formal_offsets bytes.new.items (live front.now.entries entries.new.items) (macros_in bytes.old.items (live front.now.entries entries.old.items) ++ new.now ∷ []) }
    ensures given_up { front.now.entries ≤ vec_len entries.new }
    ensures longer { (vec_len bytes.old ≤ vec_len bytes.new) × (vec_len entries.old ≤ vec_len entries.new) }
    ensures index { index.new ≡ record index.old { formal_offsets = table_offsets (macros_in bytes.old.items (live front.now.entries entries.old.items) ++ new.now ∷ []) } }
    ensures capacity { (vec_capacity bytes.new ≡ vec_capacity bytes.old) × (vec_capacity entries.new ≡ vec_capacity entries.old) }
{
    let start = bytes.len();
    append_part(bytes, new.name());
    let list = bytes.len();
    new.append_formals(bytes);
    let body = bytes.len();
    let first = index.formal_offsets().len();
    let count = new.arity().unwrap_or(0);
    index.push_offsets(&bytes[list..], count);
    new.append_body(bytes);
    let stored = bytes.as_slice();
    let formals = StoredFormals {
        list: &stored[list..body],
        count,
        formal_offsets: &index.formal_offsets()[first..],
    };
    let points = cached_points(&formals, &stored[body..]);
    entries.push_reserved(Entry {
        start: start as u32,
        list_len: new.formals_len() as u32,
        body_len: new.body_len() as u32,
        formal_offsets: (first + front.formal_offsets) as u32,
        name_len: new.name().len() as u8,
        arity: small_arity(new.arity()),
        points,
    });
}

// Where the search for the definition of a name ended, and how many bytes and how many definitions there are beside it.
#[derive(Clone, Copy, Drop)]
pub(crate) struct UsageWithout {
    pub(crate) found: Result<usize, usize>,
    pub(crate) size: usize,
    pub(crate) count: usize,
}

// What there is beside the definition of a name.
pub(crate) fn usage_without(
    bytes: &Vec<u8>,
    entries: &Vec<Entry>,
    front: &GivenUp,
    index: &Index,
    name: &[u8],
    bucket: usize,
) -> UsageWithout
    requires stored { IsStored front.now.bytes front.now.formal_offsets bytes.now.items (live front.now.entries entries.now.items) (macros_in bytes.now.items (live front.now.entries entries.now.items)) }
    requires given_up { front.now.entries ≤ vec_len entries.now }
    requires distinct { IsDistinct bytes_eq (map (λ m. m.name) (macros_in bytes.now.items (live front.now.entries entries.now.items))) }
    requires indexed { IsIndexed (names_of (macros_in bytes.now.items (live front.now.entries entries.now.items))) index.now.places index.now.bucket_starts }
    requires few { length (live front.now.entries entries.now.items) ≤ 65536 }
    requires bucket { bucket ≡ bucket_of name.now }
    requires small_bucket { bucket < 1024 }
    ensures found { IsFound (names_of (macros_in bytes.now.items (live front.now.entries entries.now.items))) index.now.places name.now result.found }
    ensures size { result.size ≡ table_size (without name.now (macros_in bytes.now.items (live front.now.entries entries.now.items))) }
    ensures count { result.count ≡ length (without name.now (macros_in bytes.now.items (live front.now.entries entries.now.items))) }
{
    let size = bytes.len() - front.bytes;
    let count = entries.len() - front.entries;
    let found = seek_named(bytes, entries, front, index, name, bucket);
    match found {
        Ok(at) => {
            let entry = &live(entries, front)[index.place(at, bucket)];
            UsageWithout {
                found,
                size: size - size_of_entry(entry),
                count: count - 1,
            }
        }
        Err(_) => UsageWithout { found, size, count },
    }
}

// Where there is no room at the back for so many bytes or for one more entry, or more is given up than is there, all moves to the front:
// room that was given up there becomes room at the back. So no more is given up then than is there. A move is paid for by the last removal
// that gave up room, which left in place three quarters or more of what there was, and by the definitions since.
fn make_room(bytes: &mut Vec<u8>, entries: &mut Vec<Entry>, front: &mut GivenUp, size: usize)
    requires stored { IsStored front.old.bytes front.old.formal_offsets bytes.old.items (live front.old.entries entries.old.items) (macros_in bytes.old.items (live front.old.entries entries.old.items)) }
    requires given_up { front.old.entries ≤ vec_len entries.old }
    requires room { table_size (macros_in bytes.old.items (live front.old.entries entries.old.items)) + size ≤ vec_capacity bytes.old }
    requires entry_room { length (live front.old.entries entries.old.items) < vec_capacity entries.old }
    ensures stored { IsStored front.new.bytes front.new.formal_offsets bytes.new.items (live front.new.entries entries.new.items) (macros_in bytes.old.items (live front.old.entries entries.old.items)) }
    ensures given_up { front.new.entries ≤ vec_len entries.new }
    ensures few_given_up { (front.new.bytes ≤ vec_len bytes.new - front.new.bytes) × (front.new.entries ≤ vec_len entries.new - front.new.entries) }
    ensures room { vec_len bytes.new + size ≤ vec_capacity bytes.new }
    ensures entry_room { vec_len entries.new < vec_capacity entries.new }
    ensures capacity { (vec_capacity bytes.new ≡ vec_capacity bytes.old) × (vec_capacity entries.new ≡ vec_capacity entries.old) }
{
    if bytes.capacity() - bytes.len() < size
        || entries.len() == entries.capacity()
        || front.bytes > bytes.len() - front.bytes
        || front.entries > entries.len() - front.entries
    {
        settle(bytes, entries, front);
    }
}

// Puts a macro after the others, in the place of one of its name, where a search found one. No more is given up then than is there.
pub(crate) fn replace(
    bytes: &mut Vec<u8>,
    entries: &mut Vec<Entry>,
    front: &mut GivenUp,
    index: &mut Index,
    new: &NewMacro<'_>,
    bucket: usize,
    found: Result<usize, usize>,
)
    requires stored { IsStored front.old.bytes front.old.formal_offsets bytes.old.items (live front.old.entries entries.old.items) (macros_in bytes.old.items (live front.old.entries entries.old.items)) }
    requires given_up { front.old.entries ≤ vec_len entries.old }
    requires found { IsFound (names_of (macros_in bytes.old.items (live front.old.entries entries.old.items))) index.old.places new.now.name found }
    requires bucket { bucket ≡ bucket_of new.now.name }
    requires small_bucket { bucket < 1024 }
    requires distinct { IsDistinct bytes_eq (map (λ m. m.name) (macros_in bytes.old.items (live front.old.entries entries.old.items))) }
    requires indexed { IsIndexed (names_of (macros_in bytes.old.items (live front.old.entries entries.old.items))) index.old.places index.old.bucket_starts }
    requires marked { index.old.formal_offsets ≡ table_offsets (macros_in bytes.old.items (live front.old.entries entries.old.items)) }
    requires few { length (live front.old.entries entries.old.items) ≤ 65536 }
    requires small { list_size new.now < 2 ^ 32 }
    requires narrow { vec_capacity bytes.old < 2 ^ 32 }
    requires room { table_size (without new.now.name (macros_in bytes.old.items (live front.old.entries entries.old.items))) + macro_size new.now ≤ vec_capacity bytes.old }
    requires entry_room { length (without new.now.name (macros_in bytes.old.items (live front.old.entries entries.old.items))) < vec_capacity entries.old }
    requires places { vec_capacity entries.old ≤ 65536 }
    requires index_room { length (without new.now.name (macros_in bytes.old.items (live front.old.entries entries.old.items))) < index.old.room.places }
    requires offset_room { 2 * ((table_size (without new.now.name (macros_in bytes.old.items (live front.old.entries entries.old.items))) + list_size new.now) / 4) ≤ index.old.room.formal_offsets }
    ensures stored { IsStored front.new.bytes front.new.formal_offsets bytes.new.items (live front.new.entries entries.new.items) (without new.now.name (macros_in bytes.old.items (live front.old.entries entries.old.items)) ++ new.now ∷ []) }
    ensures given_up { front.new.entries ≤ vec_len entries.new }
    ensures few_given_up { (front.new.bytes ≤ vec_len bytes.new - front.new.bytes) × (front.new.entries ≤ vec_len entries.new - front.new.entries) }
    ensures indexed { IsIndexed (names_of (without new.now.name (macros_in bytes.old.items (live front.old.entries entries.old.items)) ++ new.now ∷ [])) index.new.places index.new.bucket_starts }
    ensures marked { index.new.formal_offsets ≡ table_offsets (without new.now.name (macros_in bytes.old.items (live front.old.entries entries.old.items)) ++ new.now ∷ []) }
    ensures room { index.new.room ≡ index.old.room }
    ensures capacity { (vec_capacity bytes.new ≡ vec_capacity bytes.old) × (vec_capacity entries.new ≡ vec_capacity entries.old) }
{
    let gap = remove_named(bytes, entries, front, index, new.name(), bucket, found);
    index.enter(gap, entries.len() - front.entries, bucket);
    let size = new.name().len() + (new.formals_len() + new.body_len());
    make_room(bytes, entries, front, size);
    put(bytes, entries, front, index, new);
}
