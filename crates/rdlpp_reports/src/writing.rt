// Bytes that are written whole.
ghost use Rattle.std.specs.Prelude.{map};
ghost use Rattle.std.specs.List.{concat};
ghost use Rattle.rdlpp_reports.specs.Writes.{Writes};

use std::io::{self, ErrorKind, Write};

/// What a note begins with.
pub const NOTE: &[u8] = b"rdlpp: note: ";

/// Writes some parts, one after another.
///
/// # Errors
/// As of `write_whole`; the first bytes of the parts, or none, are then written.
pub fn write_parts<W: Write>(parts: &[&[u8]], writer: &mut W) -> io::Result<()>
    ensures { Writes (W.contents writer.old) (W.contents writer.new) (concat (map (λ part. part.now) parts.now)) result }
{
    for part in parts {
        write_whole(part, writer)?;
    }
    Ok(())
}

/// Writes all of some bytes.
///
/// # Errors
/// An error of the writer, of whatever kind, and a write that takes nothing. The first bytes, or none, are then written.
pub fn write_whole<W: Write>(bytes: &[u8], writer: &mut W) -> io::Result<()>
    ensures { Writes (W.contents writer.old) (W.contents writer.new) bytes.now result }
{
    let mut rest = bytes;
    while !rest.is_empty() {
        let len = writer.write(rest)?;
        if len == 0 {
            return Err(io::Error::from(ErrorKind::WriteZero));
        }
        rest = &rest[len..];
    }
    Ok(())
}
