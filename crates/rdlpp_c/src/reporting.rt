// The calls by which a program in C learns what an output leaves: its definitions, and notes on its fault.
ghost use Rattle.rdlpp_reports.specs.Definitions.{definition_lines};
ghost use Rattle.rdlpp_c.specs.Reporting.{Notes, TellsDefinitions, TellsNotes, TellsOrNot};
ghost use Rattle.rdlpp_c.specs.Streaming.{stream_fault};

use crate::handle::{Handle, put, take};
use crate::stream::Stream;
use crate::telling::tell_text;
use rdlpp::{FaultKind, write_failure, write_notes};
use rdlpp_reports::write_definitions;
use rdlpp_table::Table;
use std::alloc::Global;
use std::io::{self, ErrorKind};

// Why a source isn't opened whose text is another one than before.
const CHANGED: &str = "its text has changed since it was read first";

/// Writes the live definitions of an open output as `define` lines, oldest first, to `out`, as much as there is room
/// for, and answers their whole length: 0 where the handle is closed, and where memory was refused.
#[unsafe(no_mangle)]
pub extern "C" fn rdlpp_definitions(alloc: Global, handle: &mut Handle, out: &mut [u8]) -> usize
    ensures { TellsDefinitions handle.old.slot.value handle.new.slot.value out.old out.new result }
{
    let Some(stream) = take(alloc, handle) else {
        return 0;
    };
    let len = tell_definitions(alloc, stream.reading.engine().table(), out);
    put(handle, stream);
    len
}

/// Writes the notes on the fault that ended an open output to `out`, as much as there is room for, and answers their
/// whole length: 0 where no fault did, where the handle is closed, and where memory was refused.
#[unsafe(no_mangle)]
pub extern "C" fn rdlpp_notes(alloc: Global, handle: &mut Handle, out: &mut [u8]) -> usize
    ensures { TellsNotes handle.old.slot.value handle.new.slot.value out.old out.new result }
{
    let Some(stream) = take(alloc, handle) else {
        return 0;
    };
    let len = tell_notes(alloc, &stream, out);
    put(handle, stream);
    len
}

// Tells the definitions of a table.
fn tell_definitions(alloc: Global, table: &Table, out: &mut [u8]) -> usize
    ensures { TellsOrNot (definition_lines table.now.macros) out.old out.new result }
{
    let mut lines = Vec::new(alloc);
    match write_definitions(table, &mut lines) {
        Ok(()) => tell_text(&lines, out),
        Err(_) => 0,
    }
}

// Tells the notes on the fault that ended an output, if one did.
fn tell_notes(alloc: Global, stream: &Stream, out: &mut [u8]) -> usize
    ensures { Notes (stream_fault stream.now) out.old out.new result }
{
    let Some(fault) = stream.fault() else {
        return 0;
    };
    let engine = stream.reading.engine();
    let mut folders = Vec::new(alloc);
    for folder in &engine.sources().folders {
        if folders.push(folder.as_str()).is_err() {
            return 0;
        }
    }
    let mut lines = Vec::new(alloc);
    // A source that couldn't be opened may be one whose text is another one than before.
    if fault.kind == FaultKind::ReadFailed
        && let Some(path) = &stream.changed
    {
        let error = io::Error::new(ErrorKind::InvalidInput, CHANGED);
        if write_failure(path.as_str(), &error, &mut lines).is_err() {
            return 0;
        }
    }
    match write_notes(&fault, engine, &folders, &mut lines) {
        Ok(()) => tell_text(&lines, out),
        Err(_) => 0,
    }
}
