// Notes on a fault.
ghost use Rattle.std.specs.Prelude.{length, IfSome, ◌<◌};
ghost use Rattle.rdlpp_meaning.specs.Opens.{Texts};
ghost use Rattle.rdlpp_texts.specs.Places.{IsSource};

use crate::left_out::is_left_out;
use arrayvec::ArrayString;
use itoa::Buffer;
use rdlpp_define::Limits;
use rdlpp_expand::{Engine, Fault, FaultKind};
use rdlpp_front::{SourceItem, next_item};
use rdlpp_reports::{NOTE, write_parts, write_whole};
use rdlpp_scan::Mode;
use rdlpp_source::{SearchedFolders, Sources, join_path};
use rdlpp_table::MacroId;
use rdlpp_texts::{PartEnd, TextSource, next_part, text_at};
use std::io::{self, Write};

/// Writes the notes on the fault that ended a run, each a line `rdlpp: note: ..`, as far as the engine knows what they tell.
///
/// Of a source that wasn't found, or whose path is too long, the name that was asked for, and each path that was tried: `folders`
/// are the include folders, in the order of the search. Of a limit that was passed its value and its option. Of a wrong number of
/// arguments how many the macro takes, and how many there are. Of a backquote without a name what stands after it. Of a macro
/// that isn't defined that its name is a directive's which is left out, where it is. Of a fault in macro text the innermost macro
/// in whose text it stands. And the sources that include the one of the fault, the innermost first.
///
/// # Errors
/// As of `write_whole`; the first bytes of the notes, or none, are then written.
pub fn write_notes<S: Sources, W: Write>(
    fault: &Fault,
    engine: &Engine<S>,
    folders: &[&str],
    writer: &mut W,
) -> io::Result<()> {
    match fault.kind {
        FaultKind::SourceNotFound | FaultKind::PathTooLong => {
            write_search(fault, engine, folders, writer)?;
        }
        FaultKind::ArgumentCount => write_counts(fault, engine, writer)?,
        FaultKind::BareBackquote => write_after(engine, writer)?,
        FaultKind::UndefinedMacro => {
            let name = fault.word.as_bytes();
            if is_left_out(name) {
                let parts = [NOTE, b"the directive '", name, b"' is left out\n"];
                write_parts(&parts, writer)?;
            }
        }
        _ => write_limit(fault.kind, engine.limits(), writer)?,
    }
    write_text_of(fault.kind, engine, writer)?;
    write_includers(engine, writer)
}

/// Writes the note that a file failed, with the system's reason: `rdlpp: note: PATH: REASON`.
///
/// # Errors
/// As of `write_whole`; the first bytes of the note, or none, are then written.
pub fn write_failure<W: Write>(path: &str, error: &io::Error, writer: &mut W) -> io::Result<()> {
    write_parts(&[NOTE, path.as_bytes(), b": "], writer)?;
    writeln!(writer, "{error}")
}

// Writes the value and the option of the limit that a kind of fault tells, if it does.
fn write_limit<W: Write>(kind: FaultKind, limits: &Limits, writer: &mut W) -> io::Result<()> {
    let Some((value, option)) = limit_of(kind, limits) else {
        return Ok(());
    };
    let mut number = Buffer::new();
    let parts = [
        NOTE,
        b"the limit is ",
        number.format(value).as_bytes(),
        b", set by --max-",
        option.as_bytes(),
        b"\n",
    ];
    write_parts(&parts, writer)
}

// The value and the option of the limit that a kind of fault tells.
fn limit_of(kind: FaultKind, limits: &Limits) -> Option<(u64, &'static str)> {
    match kind {
        FaultKind::LineTooLong => Some((limits.line_bytes as u64, "line")),
        FaultKind::SourceTooLong => Some((limits.source_bytes as u64, "source")),
        FaultKind::ArgumentBytes => Some((limits.argument_bytes as u64, "argument")),
        FaultKind::DepthPassed => Some((limits.depth as u64, "depth")),
        FaultKind::DefinitionBytes => Some((limits.definition_bytes as u64, "definition-bytes")),
        FaultKind::TooManyDefinitions => Some((limits.definitions as u64, "definitions")),
        FaultKind::TooManyConditionals => Some((limits.conditions as u64, "conditions")),
        FaultKind::TooManyIncludes => Some((limits.includes as u64, "includes")),
        FaultKind::OutputBytes => Some((limits.output_bytes, "output")),
        _ => None,
    }
}

// Writes how many arguments a macro takes, and how many its call has, where the call stands in a source.
fn write_counts<S: Sources, W: Write>(
    fault: &Fault,
    engine: &Engine<S>,
    writer: &mut W,
) -> io::Result<()> {
    let table = engine.table();
    let Some(id) = table.find(fault.word.as_bytes()) else {
        return Ok(());
    };
    let mut takes = Buffer::new();
    let takes = takes.format(table.arity(id).unwrap_or(0) as u64);
    write_parts(&[NOTE, b"the macro takes ", takes.as_bytes()], writer)?;
    if engine.innermost_text().is_some() {
        return write_whole(b"\n", writer);
    }
    let arguments = engine.arguments();
    let first = next_part(arguments, false);
    let count = match first.end {
        // Nothing but white space between the parentheses is no argument.
        PartEnd::Last(_) if !first.has_items() => 0,
        _ => further_parts(arguments).saturating_add(1),
    };
    let mut has = Buffer::new();
    let has = has.format(count);
    write_parts(&[b", the call has ", has.as_bytes(), b"\n"], writer)
}

// How many parts a text between parentheses has after the first one.
#[tactic(auto, unfolding(rdlpp_texts::specs::CallParts::Follows))]
fn further_parts(text: &[u8]) -> u64 {
    let mut rest = text;
    for count in 0..text.len() {
        match next_part(rest, false).end {
            PartEnd::Comma(next) => rest = &rest[next..],
            PartEnd::Last(_) => return count as u64,
        }
    }
    text.len() as u64
}

// Writes in the text of which macro a fault of the open texts of a usage was met. The two kinds that are none of theirs come after
// what is lent.
fn write_text_of<S: Sources, W: Write>(
    kind: FaultKind,
    engine: &Engine<S>,
    writer: &mut W,
) -> io::Result<()> {
    if matches!(kind, FaultKind::OutputBytes | FaultKind::WriteFailed) {
        return Ok(());
    }
    let Some(place) = engine.innermost_text() else {
        return Ok(());
    };
    match macro_of(place.source) {
        None => write_parts(&[NOTE, b"in an argument of the call\n"], writer),
        Some(id) => {
            let name = engine.table().name(id);
            write_parts(&[NOTE, b"in the text of macro '", name, b"'\n"], writer)
        }
    }
}

// The macro to which a text belongs, if it does to one.
fn macro_of(source: TextSource) -> Option<MacroId>
    ensures { IfSome result (λ id. (texts : Texts) → IsSource texts source → id < length texts.macros) }
{
    match source {
        TextSource::Arguments => None,
        TextSource::Body(id) => Some(id),
        TextSource::Default { id, .. } => Some(id),
    }
}

// Writes what stands after the backquote at which the engine stands, in a text of a usage or in a source, if it stands at one.
fn write_after<S: Sources, W: Write>(engine: &Engine<S>, writer: &mut W) -> io::Result<()> {
    let front = match engine.innermost_text() {
        Some(place) => text_at(engine.table(), engine.arguments(), place),
        None => engine.front(),
    };
    if !front.starts_with(b"`") {
        return Ok(());
    }
    write_parts(&[NOTE, b"after the backquote stands "], writer)?;
    match front.get(1) {
        None => write_whole(b"nothing\n", writer),
        Some(b'\n') => write_whole(b"the line's end\n", writer),
        Some(byte) if byte.is_ascii_graphic() => { write_parts(&[b"'", &[*byte], b"'\n"], writer) }
        Some(byte) => {
            let mut number = Buffer::new();
            let number = number.format(*byte);
            write_parts(&[b"byte ", number.as_bytes(), b"\n"], writer)
        }
    }
}

// Writes the name that was asked for, and each path that was tried.
fn write_search<S: Sources, W: Write>(
    fault: &Fault,
    engine: &Engine<S>,
    folders: &[&str],
    writer: &mut W,
) -> io::Result<()> {
    let name = asked_name(engine.front());
    let asked = name.unwrap_or(fault.name.as_str()).as_bytes();
    write_parts(&[NOTE, b"asked for '", asked, b"'\n"], writer)?;
    let Some(name) = name else {
        return Ok(());
    };
    let mut path = ArrayString::new();
    for folder in SearchedFolders::of(engine.inner_path(), name, folders) {
        match join_path(&mut path, folder, name) {
            Some(()) => write_parts(&[NOTE, b"tried '", path.as_bytes(), b"'\n"], writer)?,
            None => {
                let folder = folder.as_bytes();
                write_parts(&[NOTE, b"too long in '", folder, b"'\n"], writer)?;
            }
        }
    }
    Ok(())
}

// The name in the `include` with which bytes begin.
fn asked_name(front: &[u8]) -> Option<&str> {
    if front.is_empty() {
        return None;
    }
    let SourceItem::Include(Some(argument)) = next_item(Mode::Plain, front) else {
        return None;
    };
    let stop = argument.stop.saturating_sub(1).min(front.len());
    let start = argument.start.saturating_add(1).min(stop);
    str::from_utf8(&front[start..stop]).ok()
}

// Writes the sources that include the innermost one, from inside out.
fn write_includers<S: Sources, W: Write>(engine: &Engine<S>, writer: &mut W) -> io::Result<()> {
    for at in 1..engine.open_sources() {
        if let Some(source) = engine.including(at) {
            let mut line = Buffer::new();
            let line = line.format(source.line);
            let name = source.name.as_bytes();
            let parts = [NOTE, b"included from ", name, b":", line.as_bytes(), b"\n"];
            write_parts(&parts, writer)?;
        }
    }
    Ok(())
}
