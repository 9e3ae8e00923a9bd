// The formals of a macro in a table's bytes, and where each of them begins, which is kept where they are long.
ghost use Rattle.std.specs.Prelude.{[], bytes_eq, false, length, not, replicate, slice_index_or, true, vec_capacity, vec_len, ◌*◌, ◌+◌, ◌++◌, ◌<◌, ◌≡◌, ◌≤◌, ◌^◌};
ghost use Rattle.std.specs.List.{flat_map, list_all};
ghost use Rattle.rdlpp_table.specs.FormalOffsets.{end_in, has_offsets, offset_in, offsets_of};
ghost use Rattle.rdlpp_table.specs.Shapes.{shapes_of};
ghost use Rattle.rdlpp_table.specs.Store.{formal_read, formals_read, AreStoredFormals};
ghost use Rattle.rdlpp_define.specs.Plain.{is_name_byte, is_plain_formal};
ghost use Rattle.rdlpp_define.specs.Macros.{formal_bytes};
ghost use Rattle.rdlpp_define.specs.Table.{formal_at, formal_named};

use crate::stored::{
    SHAPES, after_formal, default_in_list, formal_name, name_len, place_in_list, shape,
};

// How many bytes each formal takes, on average, where it is kept where they begin.
pub(crate) const LONG_FORMAL: usize = 4;

// So many formals as they lie in a table, and where each of them begins, as two halves, or nothing where they are short.
#[derive(Clone, Copy, Drop)]
pub(crate) struct StoredFormals<'a> {
    pub(crate) list: &'a [u8],
    pub(crate) count: usize,
    pub(crate) formal_offsets: &'a [u16],
}

// Whether it is kept where so many formals begin, which take so many bytes.
#[tactic(auto, unfolding(crate::specs::FormalOffsets::has_offsets))]
pub(crate) fn has_offsets(count: usize, size: usize) -> bool
    ensures { result ≡ has_offsets count size }
{
    count <= size / LONG_FORMAL
}

// Keeps where so many formals begin, where they are long: of each of these numbers the low half, and then the high half.
pub(crate) fn push_offsets(formal_offsets: &mut Vec<u16>, list: &[u8], count: usize)
    requires whole { flat_map formal_bytes (formals_read count list.now) ≡ list.now }
    requires plain { list_all is_plain_formal (formals_read count list.now) ≡ true }
    requires short { length list.now < 2 ^ 32 }
    requires room { vec_len formal_offsets.old + length (offsets_of (formals_read count list.now)) ≤ vec_capacity formal_offsets.old }
    ensures items { formal_offsets.new.items ≡ formal_offsets.old.items ++ offsets_of (formals_read count list.now) }
    ensures capacity { vec_capacity formal_offsets.new ≡ vec_capacity formal_offsets.old }
{
    if !has_offsets(count, list.len()) {
        return;
    }
    let mut rest = list;
    for _ in 0..count {
        let start = list.len() - rest.len();
        formal_offsets.push_reserved((start % 65_536) as u16);
        formal_offsets.push_reserved((start / 65_536) as u16);
        rest = after_formal(rest, name_len(rest));
    }
}

// The place of the formal of a name.
pub(crate) fn place_of(formals: &StoredFormals, name: &[u8]) -> Option<usize>
    requires { AreStoredFormals formals.now.count formals.now.list.now formals.now.formal_offsets.now }
    ensures { result ≡ formal_named (formals_read formals.now.count formals.now.list.now) name.now }
{
    if has_offsets(formals.count, formals.list.len()) {
        place_by_offsets(formals.list, formals.count, formals.formal_offsets, name)
    } else {
        place_in_list(formals.list, formals.count, name)
    }
}

// The default text of the formal at a place.
pub(crate) fn default_of<'a>(formals: &StoredFormals<'a>, place: usize) -> &'a [u8]
    requires listed { AreStoredFormals formals.now.count formals.now.list.now formals.now.formal_offsets.now }
    requires place { place < formals.now.count }
    ensures { result.now ≡ (formal_at (formals_read formals.now.count formals.now.list.now) place).text }
{
    if has_offsets(formals.count, formals.list.len()) {
        default_by_offsets(formals.list, formals.count, formals.formal_offsets, place)
    } else {
        default_in_list(formals.list, formals.count, place)
    }
}

// Of each shape whether the name of one of the formals has it: a word of another shape is none of them. No default text is read for it
// where it is kept where each formal begins.
pub(crate) fn shapes(formals: &StoredFormals) -> [bool; SHAPES]
    requires { AreStoredFormals formals.now.count formals.now.list.now formals.now.formal_offsets.now }
    ensures { result ≡ shapes_of (formals_read formals.now.count formals.now.list.now) (replicate 256 false) }
{
    let mut told = [false; SHAPES];
    if has_offsets(formals.count, formals.list.len()) {
        for place in 0..formals.count {
            let name = formal_name(&formals.list[offset_at(formals.formal_offsets, place)..]);
            told[shape(name)] = true;
        }
    } else {
        let mut rest = formals.list;
        for _ in 0..formals.count {
            let name = formal_name(rest);
            told[shape(name)] = true;
            rest = after_formal(rest, name.len());
        }
    }
    told
}

// The byte at a place, or the comma of a formal's end where there is none.
fn byte_at(bytes: &[u8], place: usize) -> u8
    ensures { result ≡ slice_index_or bytes.now place 44 }
{
    bytes.get(place).copied().unwrap_or(b',')
}

// Whether no name goes on at a place.
#[tactic(auto, unfolding(rdlpp_define::specs::Plain::is_name_byte))]
fn ends_name(bytes: &[u8], place: usize) -> bool
    ensures { result ≡ not (is_name_byte (slice_index_or bytes.now place 44)) }
{
    let next = byte_at(bytes, place);
    next == b',' || next == b'='
}

// Whether the formal with which bytes begin has a name.
fn is_named(bytes: &[u8], name: &[u8]) -> bool
    ensures { result ≡ bytes_eq (formal_read bytes.now).formal.name name.now }
{
    ends_name(bytes, name.len())
        && bytes.starts_with(name)
        && formal_name(bytes).len() == name.len()
}

// Where the formal at a place begins, from the two halves of that number.
#[tactic(auto, unfolding(crate::specs::FormalOffsets::offset_in))]
fn offset_at(formal_offsets: &[u16], place: usize) -> usize
    requires { 2 * place + 1 < length formal_offsets.now }
    ensures { result ≡ offset_in formal_offsets.now place }
{
    let low = formal_offsets[2 * place] as usize;
    let high = formal_offsets[2 * place + 1] as usize;
    low + 65_536 * high
}

// The place of the formal of a name, by where each formal begins.
fn place_by_offsets(list: &[u8], count: usize, formal_offsets: &[u16], name: &[u8]) -> Option<usize>
    requires listed { AreStoredFormals count list.now formal_offsets.now }
    requires marked { has_offsets count (length list.now) ≡ true }
    ensures { result ≡ formal_named (formals_read count list.now) name.now }
{
    for place in 0..count {
        if is_named(&list[offset_at(formal_offsets, place)..], name) {
            return Some(place);
        }
    }
    None
}

// The default text of a formal, of which the bytes are given.
fn default_in(bytes: &[u8]) -> &[u8]
    requires { formal_bytes (formal_read bytes.now).formal ≡ bytes.now }
    ensures { result.now ≡ (formal_read bytes.now).formal.text }
{
    let len = name_len(bytes);
    if byte_at(bytes, len) == b'=' {
        &bytes[len + 1..bytes.len() - 1]
    } else {
        &[]
    }
}

// Where the formal at a place ends, of so many with so many bytes: where the next one begins, or where the last one ends.
#[tactic(auto, unfolding(crate::specs::FormalOffsets::end_in))]
fn end_by_offsets(count: usize, size: usize, formal_offsets: &[u16], place: usize) -> usize
    requires whole { length formal_offsets.now ≡ 2 * count }
    requires place { place < count }
    ensures { result ≡ end_in count size formal_offsets.now place }
{
    if place + 1 < count {
        offset_at(formal_offsets, place + 1)
    } else {
        size
    }
}

// The default text of the formal at a place, by where each formal begins.
fn default_by_offsets<'a>(
    list: &'a [u8],
    count: usize,
    formal_offsets: &[u16],
    place: usize,
) -> &'a [u8]
    requires listed { AreStoredFormals count list.now formal_offsets.now }
    requires marked { has_offsets count (length list.now) ≡ true }
    requires place { place < count }
    ensures { result.now ≡ (formal_at (formals_read count list.now) place).text }
{
    let start = offset_at(formal_offsets, place);
    default_in(&list[start..end_by_offsets(count, list.len(), formal_offsets, place)])
}
