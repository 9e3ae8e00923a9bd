// The macros of a table as `define` lines.
ghost use Rattle.std.specs.Prelude.{ℕ, List, ◌≡◌, ◌<◌, ◌≤◌, ◌==◌, ◌&&◌, ◌++◌, codes, drop, false, length, slice_index, take, IfSome, Some};
ghost use Rattle.std.specs.Option.{option_map_or};
ghost use Rattle.rdlpp_reports.specs.Definitions.{BeginsWith, continued, continued_byte, definition_line, definition_lines, ends_in_slash, ends_name, formal_part, formals_text, goes_on_name, list_text, marked_text};
ghost use Rattle.std.specs.List.{flat_map};
ghost use Rattle.rdlpp_reports.specs.Writes.{Writes};
ghost use Rattle.rdlpp_define.specs.Macros.{AreSoundFormals, formals_of, formal_bytes};
ghost use Rattle.rdlpp_define.specs.Table.{IsSound, formal_at, formal_named, macro_at};
ghost use Rattle.rdlpp_table.specs.Store.{macro_bytes};

use crate::writing::{write_parts, write_whole};
use rdlpp_scan::{byte_at, word_bytes};
use rdlpp_table::{MacroId, Table};
use std::io::{self, Write};

// The most bytes of a macro's name.
const MOST_NAME_BYTES: usize = 128;

/// Writes the macros of a table, oldest first, as `define` lines. Read again, they make the same table.
///
/// An LF in a body or a default text stands after a `\`. What no `define` line can give, a body that ends in `\`, is told by a
/// comment line in its place: `// not as a define: ` and the name.
///
/// # Errors
/// As of `write_whole`; the first bytes of the lines, or none, are then written.
#[tactic(auto, unfolding(rdlpp_table::specs::Store::table_bytes))]
pub fn write_definitions<W: Write>(table: &Table, writer: &mut W) -> io::Result<()>
    ensures { Writes (W.contents writer.old) (W.contents writer.new) (definition_lines table.now.macros) result }
{
    let mut rest = table.bytes();
    for place in 0..table.len() {
        let Some(id) = macro_in_front(table, place, rest) else {
            return Ok(());
        };
        write_macro(table, id, rest, writer)?;
        rest = after_macro(table, id, rest);
    }
    Ok(())
}

// Bytes without so many in front.
fn following(bytes: &[u8], len: usize) -> &[u8]
    ensures { result.now ≡ drop len bytes.now }
{
    &bytes[len.min(bytes.len())..]
}

// The macro at a place, with whose name bytes of a table begin.
fn macro_in_front(table: &Table, place: usize, bytes: &[u8]) -> Option<MacroId>
    ensures inside { IfSome result (λ id. id < length table.now.macros) }
    ensures value { IsSound table.now → place < length table.now.macros → BeginsWith bytes.now (macro_at table.now.macros place).name → result ≡ Some place }
{
    for len in 0..MOST_NAME_BYTES.min(bytes.len()) + 1 {
        let found = table.find(&bytes[..len]);
        if is_at(&found, place) {
            return found;
        }
    }
    None
}

// Whether a macro was found at a place.
fn is_at(found: &Option<MacroId>, place: usize) -> bool
    ensures { result ≡ option_map_or (λ id. id == place) found.now false }
{
    match found {
        Some(id) => id.index() == place,
        None => false,
    }
}

// What stands after a macro, with which bytes of a table begin.
fn after_macro<'a>(table: &Table, id: MacroId, bytes: &'a [u8]) -> &'a [u8]
    requires { id < length table.now.macros }
    ensures { AreSoundFormals (formals_of (macro_at table.now.macros id)) → (after : List ℕ) → bytes.now ≡ macro_bytes (macro_at table.now.macros id) ++ after → result.now ≡ after }
{
    let mut rest = following(bytes, table.name(id).len());
    for place in 0..table.arity(id).unwrap_or(0) {
        rest = after_formal(table, id, place, rest);
    }
    following(rest, table.body(id).len())
}

// What stands after a macro's formal at a place, with which bytes of a table begin.
fn after_formal<'a>(table: &Table, id: MacroId, place: usize, bytes: &'a [u8]) -> &'a [u8]
    requires id { id < length table.now.macros }
    requires place { place < length (formals_of (macro_at table.now.macros id)) }
    ensures { AreSoundFormals (formals_of (macro_at table.now.macros id)) → (after : List ℕ) → bytes.now ≡ formal_bytes (formal_at (formals_of (macro_at table.now.macros id)) place) ++ after → result.now ≡ after }
{
    let rest = following(bytes, formal_name(table, id, place, bytes).len());
    let default = table.default_text(id, place);
    if default.is_empty() {
        following(rest, 1)
    } else {
        following(rest, default.len() + 2)
    }
}

// The name of a macro's formal at a place, with which bytes of a table begin.
fn formal_name<'a>(table: &Table, id: MacroId, place: usize, bytes: &'a [u8]) -> &'a [u8]
    requires { id < length table.now.macros }
    ensures { AreSoundFormals (formals_of (macro_at table.now.macros id)) → place < length (formals_of (macro_at table.now.macros id)) → BeginsWith bytes.now (formal_bytes (formal_at (formals_of (macro_at table.now.macros id)) place)) → result.now ≡ (formal_at (formals_of (macro_at table.now.macros id)) place).name }
{
    for len in 0..MOST_NAME_BYTES.min(bytes.len()) + 1 {
        if is_formal(table, id, place, bytes, len) {
            return &bytes[..len];
        }
    }
    &[]
}

// Whether so many bytes of a table are the name of a macro's formal at a place.
fn is_formal(table: &Table, id: MacroId, place: usize, bytes: &[u8], len: usize) -> bool
    requires id { id < length table.now.macros }
    requires len { len ≤ length bytes.now }
    ensures { result ≡ (ends_name (slice_index bytes.now len) && option_map_or (λ at. at == place) (formal_named (formals_of (macro_at table.now.macros id)) (take len bytes.now)) false) }
{
    let end = byte_at(bytes, len);
    if end != b'=' && end != b',' {
        return false;
    }
    match table.formal(id, &bytes[..len]) {
        Some(at) => at == place,
        None => false,
    }
}

// Writes the line of a macro, with which bytes of a table begin.
fn write_macro<W: Write>(table: &Table, id: MacroId, bytes: &[u8], writer: &mut W) -> io::Result<()>
    requires { id < length table.now.macros }
    ensures { AreSoundFormals (formals_of (macro_at table.now.macros id)) → BeginsWith bytes.now (macro_bytes (macro_at table.now.macros id)) → Writes (W.contents writer.old) (W.contents writer.new) (definition_line (macro_at table.now.macros id)) result }
{
    let name = table.name(id);
    let body = table.body(id);
    if ends_in_slash(body) {
        return write_parts(&[b"// not as a define: ", name, b"\n"], writer);
    }
    write_parts(&[b"`define ", name], writer)?;
    write_list(table, id, following(bytes, name.len()), writer)?;
    write_continued(body, writer)?;
    write_whole(b"\n", writer)
}

// Whether a text ends in `\`.
fn ends_in_slash(text: &[u8]) -> bool
    ensures { result ≡ ends_in_slash text.now }
{
    byte_at(text, text.len().saturating_sub(1)) == b'\\'
}

// Writes what stands between a macro's name and its body; with the formals' part bytes of a table begin.
fn write_list<W: Write>(table: &Table, id: MacroId, bytes: &[u8], writer: &mut W) -> io::Result<()>
    requires { id < length table.now.macros }
    ensures { AreSoundFormals (formals_of (macro_at table.now.macros id)) → BeginsWith bytes.now (flat_map formal_bytes (formals_of (macro_at table.now.macros id))) → Writes (W.contents writer.old) (W.contents writer.new) (list_text (macro_at table.now.macros id).formals (macro_at table.now.macros id).body) result }
{
    match table.arity(id) {
        Some(arity) => write_formals(table, id, arity, bytes, writer),
        None => {
            if goes_on_name(table.body(id)) {
                write_whole(b" ", writer)
            } else {
                write_whole(b"", writer)
            }
        }
    }
}

// Whether a body needs a blank in front of it, since it would else go on the macro's name, or begin a list.
fn goes_on_name(body: &[u8]) -> bool
    ensures { result ≡ goes_on_name body.now }
{
    word_bytes(body) > 0 || byte_at(body, 0) == b'('
}

// Writes the list of a macro's formals, with which bytes of a table begin.
fn write_formals<W: Write>(
    table: &Table,
    id: MacroId,
    arity: usize,
    bytes: &[u8],
    writer: &mut W,
) -> io::Result<()>
    requires id { id < length table.now.macros }
    requires arity { arity ≡ length (formals_of (macro_at table.now.macros id)) }
    ensures { AreSoundFormals (formals_of (macro_at table.now.macros id)) → BeginsWith bytes.now (flat_map formal_bytes (formals_of (macro_at table.now.macros id))) → Writes (W.contents writer.old) (W.contents writer.new) (codes "(" ++ (formals_text 0 (formals_of (macro_at table.now.macros id)) ++ codes ")")) result }
{
    let mut rest = bytes;
    write_whole(b"(", writer)?;
    for place in 0..arity {
        let name = formal_name(table, id, place, rest);
        write_formal_at(place, name, table.default_text(id, place), writer)?;
        rest = after_formal(table, id, place, rest);
    }
    write_whole(b")", writer)
}

// Writes the formal at a place, after a comma where it isn't the first.
fn write_formal_at<W: Write>(
    place: usize,
    name: &[u8],
    default: &[u8],
    writer: &mut W,
) -> io::Result<()>
    ensures { Writes (W.contents writer.old) (W.contents writer.new) (formal_part place (record { name = name.now; text = default.now })) result }
{
    if place == 0 {
        return write_formal(name, default, writer);
    }
    write_whole(b",", writer)?;
    write_formal(name, default, writer)
}

// Writes a formal, with its default text where it has one.
fn write_formal<W: Write>(name: &[u8], default: &[u8], writer: &mut W) -> io::Result<()>
    ensures { Writes (W.contents writer.old) (W.contents writer.new) (name.now ++ marked_text (codes "=") default.now) result }
{
    write_whole(name, writer)?;
    write_marked(b"=", default, writer)
}

// Writes a text after a mark; nothing where it is empty.
fn write_marked<W: Write>(mark: &[u8], text: &[u8], writer: &mut W) -> io::Result<()>
    ensures { Writes (W.contents writer.old) (W.contents writer.new) (marked_text mark.now text.now) result }
{
    if text.is_empty() {
        return write_whole(b"", writer);
    }
    write_whole(mark, writer)?;
    write_continued(text, writer)
}

// Writes a text whose LF bytes stand after a `\` each.
fn write_continued<W: Write>(text: &[u8], writer: &mut W) -> io::Result<()>
    ensures { Writes (W.contents writer.old) (W.contents writer.new) (continued text.now) result }
{
    for byte in text {
        write_continued_byte(*byte, writer)?;
    }
    Ok(())
}

// Writes a byte of a text, after a `\` where it is an LF.
fn write_continued_byte<W: Write>(byte: u8, writer: &mut W) -> io::Result<()>
    ensures { Writes (W.contents writer.old) (W.contents writer.new) (continued_byte byte) result }
{
    if byte == b'\n' {
        write_whole(b"\\\n", writer)
    } else {
        write_whole(&[byte], writer)
    }
}
