// A definition is taken out of a table's lists, which close up or give up their front.
ghost use Rattle.std.specs.Prelude.{◌≡◌, ◌+◌, ◌-◌, ◌<◌, ◌≤◌, ◌++◌, ◌^◌, drop, length, map, remove, slice_range, take, vec_len, vec_capacity, bytes_eq};
ghost use Rattle.rdlpp_define.specs.Table.{without};
ghost use Rattle.std.specs.List.{remove_range, IsDistinct};
ghost use Rattle.rdlpp_table.specs.Entries.{moved_down, moved_up, AreAfter, AreLow};
ghost use Rattle.rdlpp_table.specs.Index.{bucket_of, names_of, IsFound, IsGap, IsIndexed};
ghost use Rattle.rdlpp_table.specs.FormalOffsets.{table_offsets};
ghost use Rattle.rdlpp_table.specs.Store.{live, macros_in, IsStored};

use crate::entry::{ENTRY_BYTES, Entry, offsets_len};
use crate::given_up::{GivenUp, NOTHING, live};
use crate::index::Index;

// The bytes of an entry were moved so much further to the front, and its offsets as much as another number says.
#[inline(always)]
#[tactic(auto, unfolding(crate::specs::Entries::moved_down))]
fn move_down(entry: &mut Entry, size: usize, formal_offsets: usize)
    requires { (size ≤ entry.old.start) × (formal_offsets ≤ entry.old.formal_offsets) }
    ensures { entry.new ≡ moved_down size formal_offsets entry.old }
{
    entry.start = (entry.start as usize - size) as u32;
    entry.formal_offsets = (entry.formal_offsets as usize - formal_offsets) as u32;
}

// The entries after the first `by` ones come to the front, and their bytes and offsets were moved. One pass does both: a long list of
// entries is read once.
fn draw_down(entries: &mut [Entry], by: usize, size: usize, formal_offsets: usize)
    requires some { by ≤ length entries.old }
    requires following { AreAfter size formal_offsets (drop by entries.old) }
    ensures { entries.new ≡ map (moved_down size formal_offsets) (drop by entries.old) ++ drop (length entries.old - by) entries.old }
{
    for at in 0..entries.len() - by {
        entries[at] = entries[at + by];
        move_down(&mut entries[at], size, formal_offsets);
    }
}

// Takes out the entry at a place; the bytes and the offsets of those after it were moved so much further to the front.
fn take_entry(entries: &mut Vec<Entry>, place: usize, size: usize, formal_offsets: usize)
    requires place { place < vec_len entries.old }
    requires following { AreAfter size formal_offsets (drop place (remove entries.old.items place)) }
    ensures items { entries.new.items ≡ take place (remove entries.old.items place) ++ map (moved_down size formal_offsets) (drop place (remove entries.old.items place)) }
    ensures len { vec_len entries.new + 1 ≡ vec_len entries.old }
    ensures capacity { vec_capacity entries.new ≡ vec_capacity entries.old }
{
    draw_down(&mut entries[place..], 1, size, formal_offsets);
    entries.truncate(entries.len() - 1);
}

// The bytes of an entry are moved so much further to the back, and its offsets count as many more as another number says.
#[inline(always)]
#[tactic(auto, unfolding(crate::specs::Entries::moved_up))]
fn move_up(entry: &mut Entry, size: usize, formal_offsets: usize)
    requires { (entry.old.start + size < 2 ^ 32) × (entry.old.formal_offsets + formal_offsets < 2 ^ 32) }
    ensures { entry.new ≡ moved_up size formal_offsets entry.old }
{
    entry.start = (entry.start as usize + size) as u32;
    entry.formal_offsets = (entry.formal_offsets as usize + formal_offsets) as u32;
}

// The entries before the last one come a place to the back, and their bytes are moved.
fn draw_up(entries: &mut [Entry], size: usize, formal_offsets: usize)
    requires some { 0 < length entries.old }
    requires low { AreLow size formal_offsets (take (length entries.old - 1) entries.old) }
    ensures { entries.new ≡ take 1 entries.old ++ map (moved_up size formal_offsets) (take (length entries.old - 1) entries.old) }
{
    let mut at = entries.len() - 1;
    while at > 0 {
        entries[at] = entries[at - 1];
        move_up(&mut entries[at], size, formal_offsets);
        at -= 1;
    }
}

// Takes out the entry at a place, counted after the first `front` ones, which are given up: the entries between these and the place
// move one place to the back, over the entry that is taken out, and the first place of theirs is given up too. Those after stay where
// they are. The bytes of the moved ones were moved so much further to the back.
fn cover_entry(
    entries: &mut Vec<Entry>,
    front: usize,
    place: usize,
    size: usize,
    formal_offsets: usize,
)
    requires place { front + place < vec_len entries.old }
    requires low { AreLow size formal_offsets (take place (remove (drop front entries.old.items) place)) }
    ensures items { drop (front + 1) entries.new.items ≡ map (moved_up size formal_offsets) (take place (remove (drop front entries.old.items) place)) ++ drop place (remove (drop front entries.old.items) place) }
    ensures len { vec_len entries.new ≡ vec_len entries.old }
    ensures capacity { vec_capacity entries.new ≡ vec_capacity entries.old }
{
    draw_up(&mut entries[front..front + place + 1], size, formal_offsets);
}

// Takes bytes or numbers out of the middle: those after move to the front as one block.
pub(crate) fn cut<T: Copy>(list: &mut Vec<T>, from: usize, to: usize)
    requires { (from ≤ to) × (to ≤ vec_len list.old) }
    ensures items { list.new.items ≡ remove_range list.old.items from to }
    ensures capacity { vec_capacity list.new ≡ vec_capacity list.old }
{
    let count = list.len();
    list.copy_within(to..count, from);
    list.truncate(count - (to - from));
}

// Moves the bytes or numbers between two places so much further to the back, over those after them.
pub(crate) fn cover<T: Copy>(list: &mut Vec<T>, from: usize, to: usize, size: usize)
    requires { (from ≤ to) × (to + size ≤ vec_len list.old) }
    ensures before { take from list.new.items ≡ take from list.old.items }
    ensures items { drop (from + size) list.new.items ≡ slice_range list.old.items from to ++ drop (to + size) list.old.items }
    ensures len { vec_len list.new ≡ vec_len list.old }
    ensures capacity { vec_capacity list.new ≡ vec_capacity list.old }
{
    list.copy_within(from..to, from + size);
}

// How many bytes a definition has.
pub(crate) fn size_of_entry(entry: &Entry) -> usize
    ensures { result ≡ entry.now.name_len + entry.now.list_len + entry.now.body_len }
{
    entry.name_len as usize + entry.list_len as usize + entry.body_len as usize
}

// Takes the bytes and the entry of the macro at a place out of those of a table. Where what stands before the macro is less than a
// third of what stands after it, it is moved to the back, over the macro, and its old room at the front is given up; else what stands
// after the macro is moved to the front, and so it is where nothing is given up yet and there is no room for one more macro of this
// size, which the next definition would have to make by a move of all.
fn take_stored(bytes: &mut Vec<u8>, entries: &mut Vec<Entry>, front: &mut GivenUp, place: usize)
    requires stored { IsStored front.old.bytes front.old.formal_offsets bytes.old.items (live front.old.entries entries.old.items) (macros_in bytes.old.items (live front.old.entries entries.old.items)) }
    requires narrow { vec_capacity bytes.old < 2 ^ 32 }
    requires given_up { front.old.entries ≤ vec_len entries.old }
    requires place { place < length (live front.old.entries entries.old.items) }
    requires few { length (live front.old.entries entries.old.items) ≤ 65536 }
    ensures stored { IsStored front.new.bytes front.new.formal_offsets bytes.new.items (live front.new.entries entries.new.items) (remove (macros_in bytes.old.items (live front.old.entries entries.old.items)) place) }
    ensures given_up { front.new.entries ≤ vec_len entries.new }
    ensures no_longer { (vec_len bytes.new ≤ vec_len bytes.old) × (vec_len entries.new ≤ vec_len entries.old) }
    ensures capacity { (vec_capacity bytes.new ≡ vec_capacity bytes.old) × (vec_capacity entries.new ≡ vec_capacity entries.old) }
{
    let at = front.entries + place;
    let entry = entries[at];
    let size = size_of_entry(&entry);
    let formal_offsets = offsets_len(&entry);
    let start = entry.start as usize;
    let before = (start - front.bytes) + ENTRY_BYTES * place;
    let following = (bytes.len() - (start + size)) + ENTRY_BYTES * (entries.len() - (at + 1));
    let has_room = front.entries > 0
        || (size <= bytes.capacity() - bytes.len() && entries.len() < entries.capacity());
    if before < following / 3 && has_room {
        cover(bytes, front.bytes, start, size);
        cover_entry(entries, front.entries, place, size, formal_offsets);
        front.bytes += size;
        front.entries += 1;
        front.formal_offsets += formal_offsets;
    } else {
        cut(bytes, start, start + size);
        take_entry(entries, at, size, formal_offsets);
    }
}

// Takes out the macro at a place, of which the index has no place any more.
fn remove_at(
    bytes: &mut Vec<u8>,
    entries: &mut Vec<Entry>,
    front: &mut GivenUp,
    index: &mut Index,
    place: usize,
)
    requires stored { IsStored front.old.bytes front.old.formal_offsets bytes.old.items (live front.old.entries entries.old.items) (macros_in bytes.old.items (live front.old.entries entries.old.items)) }
    requires narrow { vec_capacity bytes.old < 2 ^ 32 }
    requires given_up { front.old.entries ≤ vec_len entries.old }
    requires place { place < length (live front.old.entries entries.old.items) }
    requires few { length (live front.old.entries entries.old.items) ≤ 65536 }
    requires marked { index.old.formal_offsets ≡ table_offsets (macros_in bytes.old.items (live front.old.entries entries.old.items)) }
    ensures stored { IsStored front.new.bytes front.new.formal_offsets bytes.new.items (live front.new.entries entries.new.items) (remove (macros_in bytes.old.items (live front.old.entries entries.old.items)) place) }
    ensures given_up { front.new.entries ≤ vec_len entries.new }
    ensures no_longer { (vec_len bytes.new ≤ vec_len bytes.old) × (vec_len entries.new ≤ vec_len entries.old) }
    ensures index { index.new ≡ record index.old { formal_offsets = table_offsets (remove (macros_in bytes.old.items (live front.old.entries entries.old.items)) place) } }
    ensures capacity { (vec_capacity bytes.new ≡ vec_capacity bytes.old) × (vec_capacity entries.new ≡ vec_capacity entries.old) }
{
    let entry = live(entries, front)[place];
    let first = entry.formal_offsets as usize - front.formal_offsets;
    index.cut_offsets(first, first + offsets_len(&entry));
    take_stored(bytes, entries, front, place);
}

// Moves all that isn't given up to the fronts of the lists, so that the room of what is given up lies after it.
pub(crate) fn settle(bytes: &mut Vec<u8>, entries: &mut Vec<Entry>, front: &mut GivenUp)
    requires stored { IsStored front.old.bytes front.old.formal_offsets bytes.old.items (live front.old.entries entries.old.items) (macros_in bytes.old.items (live front.old.entries entries.old.items)) }
    requires given_up { front.old.entries ≤ vec_len entries.old }
    ensures stored { IsStored 0 0 bytes.new.items (live front.new.entries entries.new.items) (macros_in bytes.old.items (live front.old.entries entries.old.items)) }
    ensures front { front.new ≡ record { bytes = 0; entries = 0; formal_offsets = 0 } }
    ensures capacity { (vec_capacity bytes.new ≡ vec_capacity bytes.old) × (vec_capacity entries.new ≡ vec_capacity entries.old) }
{
    cut(bytes, 0, front.bytes);
    draw_down(
        entries.as_mut_slice(),
        front.entries,
        front.bytes,
        front.formal_offsets,
    );
    entries.truncate(entries.len() - front.entries);
    *front = NOTHING;
}

// Takes out the macro of a name where a search found one, and answers where the name would stand in the index now: where the search
// ended.
pub(crate) fn remove_named(
    bytes: &mut Vec<u8>,
    entries: &mut Vec<Entry>,
    front: &mut GivenUp,
    index: &mut Index,
    name: &[u8],
    bucket: usize,
    found: Result<usize, usize>,
) -> usize
    requires stored { IsStored front.old.bytes front.old.formal_offsets bytes.old.items (live front.old.entries entries.old.items) (macros_in bytes.old.items (live front.old.entries entries.old.items)) }
    requires narrow { vec_capacity bytes.old < 2 ^ 32 }
    requires given_up { front.old.entries ≤ vec_len entries.old }
    requires distinct { IsDistinct bytes_eq (map (λ m. m.name) (macros_in bytes.old.items (live front.old.entries entries.old.items))) }
    requires indexed { IsIndexed (names_of (macros_in bytes.old.items (live front.old.entries entries.old.items))) index.old.places index.old.bucket_starts }
    requires marked { index.old.formal_offsets ≡ table_offsets (macros_in bytes.old.items (live front.old.entries entries.old.items)) }
    requires few { length (live front.old.entries entries.old.items) ≤ 65536 }
    requires bucket { bucket ≡ bucket_of name.now }
    requires small_bucket { bucket < 1024 }
    requires found { IsFound (names_of (macros_in bytes.old.items (live front.old.entries entries.old.items))) index.old.places name.now found }
    ensures room { index.new.room ≡ index.old.room }
    ensures gap { IsGap (names_of (macros_in bytes.new.items (live front.new.entries entries.new.items))) index.new.places name.now result }
    ensures stored { IsStored front.new.bytes front.new.formal_offsets bytes.new.items (live front.new.entries entries.new.items) (without name.now (macros_in bytes.old.items (live front.old.entries entries.old.items))) }
    ensures given_up { front.new.entries ≤ vec_len entries.new }
    ensures no_longer { (vec_len bytes.new ≤ vec_len bytes.old) × (vec_len entries.new ≤ vec_len entries.old) }
    ensures indexed { IsIndexed (names_of (without name.now (macros_in bytes.old.items (live front.old.entries entries.old.items)))) index.new.places index.new.bucket_starts }
    ensures marked { index.new.formal_offsets ≡ table_offsets (without name.now (macros_in bytes.old.items (live front.old.entries entries.old.items))) }
    ensures capacity { (vec_capacity bytes.new ≡ vec_capacity bytes.old) × (vec_capacity entries.new ≡ vec_capacity entries.old) }
{
    match found {
        Ok(at) => {
            let place = index.leave(at, bucket);
            remove_at(bytes, entries, front, index, place);
            at
        }
        Err(gap) => gap,
    }
}
