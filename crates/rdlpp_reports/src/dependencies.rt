// The rule for make that names the sources of an output.
ghost use Rattle.std.specs.Prelude.{◌≡◌, ◌++◌, ◌==◌};
ghost use Rattle.std.specs.List.{flat_map, prefix_len};
ghost use Rattle.std.specs.String.{string_bytes};
ghost use Rattle.rdlpp_reports.specs.Dependencies.{dependency_bytes, empty_rule, included, is_quoted, leads_to_quoted, prerequisite, quote, rule_name};
ghost use Rattle.rdlpp_reports.specs.Recorded.{paths_of};
ghost use Rattle.rdlpp_reports.specs.Writes.{Writes};

use crate::recorded::OpenedPaths;
use crate::writing::{write_parts, write_whole};
use std::io::{self, Write};

// The path that stands for standard input, which is no file.
const STANDARD_INPUT: &[u8] = b"-";

/// Writes a rule for make: that the file `target` is made of the sources that were opened, and after it for each included one a
/// rule without anything, so that make goes on where that file is gone.
///
/// The sources stand in the order in which they were opened, each on a line of its own; standard input, `-`, isn't one of them.
/// In names a blank, a tab, `#` and `:` stand after a `\`, as do the `\` directly before them or at the end, and `$` is doubled:
/// so make reads the names as they are. The form is that of `cpp -MD -MP`.
///
/// # Errors
/// As of `write_whole`; the first bytes of the rules, or none, are then written.
pub fn write_dependencies<W: Write>(
    target: &str,
    opened: &OpenedPaths,
    writer: &mut W,
) -> io::Result<()>
    ensures { Writes (W.contents writer.old) (W.contents writer.new) (dependency_bytes target.now (paths_of opened.now)) result }
{
    let paths = opened.paths();
    write_name(target.as_bytes(), b":", writer)?;
    write_prerequisites(paths, writer)?;
    write_whole(b"\n", writer)?;
    write_empty_rules(included(paths), writer)
}

// The sources but the first one.
fn included(paths: &[String]) -> &[String]
    ensures { result.now ≡ included paths.now }
{
    match paths.split_first() {
        Some((_, rest)) => rest,
        None => paths,
    }
}

// Writes the sources after the target.
fn write_prerequisites<W: Write>(paths: &[String], writer: &mut W) -> io::Result<()>
    ensures { Writes (W.contents writer.old) (W.contents writer.new) (flat_map (λ path. prerequisite (string_bytes path)) paths.now) result }
{
    for path in paths {
        write_prerequisite(path.as_bytes(), writer)?;
    }
    Ok(())
}

// Writes a source after what stands before it; standard input isn't written.
fn write_prerequisite<W: Write>(path: &[u8], writer: &mut W) -> io::Result<()>
    ensures { Writes (W.contents writer.old) (W.contents writer.new) (prerequisite path.now) result }
{
    if path == STANDARD_INPUT {
        return write_whole(b"", writer);
    }
    write_whole(b" \\\n ", writer)?;
    write_name(path, b"", writer)
}

// Writes a rule without anything for each source.
fn write_empty_rules<W: Write>(paths: &[String], writer: &mut W) -> io::Result<()>
    ensures { Writes (W.contents writer.old) (W.contents writer.new) (flat_map (λ path. empty_rule (string_bytes path)) paths.now) result }
{
    for path in paths {
        write_name(path.as_bytes(), b":\n", writer)?;
    }
    Ok(())
}

// Writes a name as make reads it, and an end after it.
fn write_name<W: Write>(name: &[u8], end: &[u8], writer: &mut W) -> io::Result<()>
    ensures { Writes (W.contents writer.old) (W.contents writer.new) (rule_name name.now ++ end.now) result }
{
    let mut rest = name;
    while let Some((byte, following)) = rest.split_first() {
        write_parts(&[quote(*byte, following), &[*byte]], writer)?;
        rest = following;
    }
    write_whole(end, writer)
}

// What stands before a byte of a name, where so much stands after it.
fn quote(byte: u8, following: &[u8]) -> &'static [u8]
    ensures { result.now ≡ quote byte following.now }
{
    if is_quoted(byte) || (byte == b'\\' && leads_to_quoted(following)) {
        return b"\\";
    }
    if byte == b'$' { b"$" } else { b"" }
}

// Whether make takes a byte of a name as it is only after a `\`.
fn is_quoted(byte: u8) -> bool
    ensures { result ≡ is_quoted byte }
{
    byte == b' ' || byte == b'\t' || byte == b'#' || byte == b':'
}

// Whether only `\` stand before such a byte, or before the end.
fn leads_to_quoted(rest: &[u8]) -> bool
    ensures { result ≡ leads_to_quoted rest.now }
{
    match rest.get(slashes_in_front(rest)) {
        Some(byte) => is_quoted(*byte),
        None => true,
    }
}

// How many `\` bytes begin with.
fn slashes_in_front(bytes: &[u8]) -> usize
    ensures { result ≡ prefix_len (λ b. b == 92) bytes.now }
{
    bytes.iter().take_while(|byte| **byte == b'\\').count()
}
