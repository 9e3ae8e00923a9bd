// Formals as they lie in a table's bytes: a name, `=` and a default text where there is one, and a comma.
ghost use Rattle.std.specs.Prelude.{drop, length, ◌<◌, ◌≡◌, ◌≤◌};
ghost use Rattle.std.specs.List.{prefix_len};
ghost use Rattle.rdlpp_table.specs.Shapes.{shape};
ghost use Rattle.rdlpp_table.specs.Store.{formal_read, formals_read};
ghost use Rattle.rdlpp_define.specs.Plain.{is_name_byte};
ghost use Rattle.rdlpp_define.specs.Table.{formal_at, formal_named};

use rdlpp_scan::{after_default, byte_at};

// How many shapes names have.
pub(crate) const SHAPES: usize = 256;

// How many bytes of a formal's name bytes begin with.
#[tactic(auto, unfolding(rdlpp_define::specs::Plain::is_name_byte))]
pub(crate) fn name_len(bytes: &[u8]) -> usize
    ensures value { result ≡ prefix_len is_name_byte bytes.now }
    ensures inside { result ≤ length bytes.now }
{
    bytes
        .iter()
        .take_while(|b| !(**b == b',' || **b == b'='))
        .count()
}

// All but the first byte.
fn after_first(bytes: &[u8]) -> &[u8]
    ensures { result.now ≡ drop 1 bytes.now }
{
    match bytes.split_first() {
        Some((_, rest)) => rest,
        None => bytes,
    }
}

// The name of the formal with which bytes begin.
#[tactic(auto, unfolding(crate::specs::Store::formal_read, crate::specs::Store::formal_after))]
pub(crate) fn formal_name(bytes: &[u8]) -> &[u8]
    ensures name { result.now ≡ (formal_read bytes.now).formal.name }
    ensures len { length result.now ≡ prefix_len is_name_byte bytes.now }
    ensures inside { length result.now ≤ length bytes.now }
{
    &bytes[..name_len(bytes)]
}

// The default text of the formal with which bytes begin.
#[tactic(auto, unfolding(crate::specs::Store::formal_read, crate::specs::Store::formal_after, crate::specs::Store::after_stored))]
fn formal_text(bytes: &[u8]) -> &[u8]
    ensures { result.now ≡ (formal_read bytes.now).formal.text }
{
    let rest = &bytes[name_len(bytes)..];
    let text = after_first(rest);
    if rest.first().copied().unwrap_or(0) == b'=' {
        &text[..text.len() - after_default(text).len()]
    } else {
        &[]
    }
}

// What stands after the comma of the formal with which bytes begin, whose name has so many bytes.
#[inline(always)]
#[tactic(auto, unfolding(crate::specs::Store::formal_read, crate::specs::Store::formal_after, crate::specs::Store::after_stored))]
pub(crate) fn after_formal(bytes: &[u8], name_len: usize) -> &[u8]
    requires len { name_len ≡ prefix_len is_name_byte bytes.now }
    requires inside { name_len ≤ length bytes.now }
    ensures { result.now ≡ (formal_read bytes.now).following }
{
    let rest = &bytes[name_len..];
    let text = after_first(rest);
    if rest.first().copied().unwrap_or(0) == b'=' {
        after_first(after_default(text))
    } else {
        text
    }
}

// The place of the formal of a name among so many.
pub(crate) fn place_in_list(bytes: &[u8], count: usize, name: &[u8]) -> Option<usize>
    ensures { result ≡ formal_named (formals_read count bytes.now) name.now }
{
    let mut rest = bytes;
    for place in 0..count {
        let found = formal_name(rest);
        if found == name {
            return Some(place);
        }
        rest = after_formal(rest, found.len());
    }
    None
}

// The default text of the formal at a place among so many.
pub(crate) fn default_in_list(bytes: &[u8], count: usize, place: usize) -> &[u8]
    requires { place < count }
    ensures { result.now ≡ (formal_at (formals_read count bytes.now) place).text }
{
    let mut rest = bytes;
    for _ in 0..place {
        rest = after_formal(rest, name_len(rest));
    }
    formal_text(rest)
}

// The shape of a name: the low bits of its first byte, and of its last byte and its length together. Most words of a body have that of
// no formal.
#[tactic(auto, unfolding(crate::specs::Shapes::shape))]
pub(crate) fn shape(name: &[u8]) -> usize
    ensures value { result ≡ shape name.now }
    ensures inside { result < 256 }
{
    let last = byte_at(name, name.len().saturating_sub(1)) as usize;
    byte_at(name, 0) as usize % 32 + 32 * ((last + name.len()) % 8)
}
