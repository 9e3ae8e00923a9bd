// The line that reports a fault.
ghost use Rattle.std.specs.Prelude.{◌≡◌, ℕ, List};
ghost use Rattle.rdlpp_reports.specs.Writes.{Writes};
ghost use Rattle.rdlpp.specs.Report.{Reports, fault_line, line_end};

use crate::PrepFault;
use arrayvec::ArrayString;
use itoa::Buffer;
use rdlpp_define::limit_name;
use rdlpp_expand::Fault;
use rdlpp_reports::{write_parts, write_whole};
use std::fmt::Write as _;
use std::io::{self, Write};

/// Writes the one line that reports a fault (this project's profile).
///
/// `NAME:LINE: error F` and the number, `: `, the text of the kind, ` 'WORD'` where the fault is
/// about a word, and LF. A limit that is out of its range is `rdlpp: error: limit FIELD out of range`,
/// want of memory `rdlpp: error: out of memory`, each with LF.
///
/// # Errors
/// An error of the writer, of whatever kind, and a write that takes nothing. The first bytes of the line,
/// or none, are then written.
pub fn report<W: Write>(fault: &PrepFault, writer: &mut W) -> Result<(), io::Error>
    ensures { Reports (W.contents writer.old) (W.contents writer.new) fault.now result }
{
    match fault {
        PrepFault::BadLimits(limit) => {
            let name = limit_name(*limit).as_bytes();
            write_parts(&[b"rdlpp: error: limit ", name, b" out of range\n"], writer)
        }
        PrepFault::NoMemory => write_whole(b"rdlpp: error: out of memory\n", writer),
        PrepFault::Run(run) => write_fault(&run.fault, writer),
    }
}

// Writes the line of a fault.
fn write_fault<W: Write>(fault: &Fault, writer: &mut W) -> io::Result<()>
    ensures { (text : List ℕ) × Writes (W.contents writer.old) (W.contents writer.new) (fault_line text fault.now) result }
{
    // Each text has at most 64 bytes.
    let mut text = ArrayString::<64>::new();
    let _whole = write!(text, "{}", fault.kind);
    let mut line = Buffer::new();
    let mut number = Buffer::new();
    let parts = [
        fault.name.as_bytes(),
        b":",
        line.format(fault.line).as_bytes(),
        b": error F",
        number.format(fault.kind.number()).as_bytes(),
        b": ",
        text.as_bytes(),
    ];
    write_parts(&parts, writer)?;
    write_word(fault.word.as_bytes(), writer)
}

// Writes the word that a fault is about, in quotes, where there is one, and the line's end.
fn write_word<W: Write>(word: &[u8], writer: &mut W) -> io::Result<()>
    ensures { Writes (W.contents writer.old) (W.contents writer.new) (line_end word.now) result }
{
    if word.is_empty() {
        return write_whole(b"\n", writer);
    }
    write_parts(&[b" '", word, b"'\n"], writer)
}
