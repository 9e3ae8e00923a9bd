//! What is told on standard error.
use crate::files::WriteFault;
use crate::folders_in;
use crate::reports::NotedEngine;
use rdlpp::{
    DefinitionPlaces, Fault, FaultKind, PrepFault, report, write_defined, write_failure,
    write_notes,
};
use rdlpp_words::Invocation;
use std::io::{self, BufWriter, Write};

// The bytes of the buffer in front of the line that reports a fault, which is never longer.
const LINE_BYTES: usize = 2_048;

/// Tells a fault on standard error, by one write where there is memory for its line.
pub fn tell_fault(rt: &HostRuntime, fault: &PrepFault) {
    match BufWriter::with_capacity(rt.alloc(), LINE_BYTES, rt.stderr()) {
        Ok(mut line) => {
            let _told = report(fault, &mut line);
            let _flushed = line.flush();
        }
        Err(_) => {
            let _told = report(fault, &mut rt.stderr());
        }
    }
}

/// Tells a fault on standard error, and notes on it after it. `places` tells where macros were defined; `failure` is the output's
/// last error, where it has one.
pub fn tell_noted(
    rt: &HostRuntime,
    invocation: &Invocation,
    fault: &PrepFault,
    engine: &NotedEngine<'_>,
    places: &DefinitionPlaces,
    failure: Option<io::Error>,
) {
    tell_fault(rt, fault);
    let PrepFault::Run(run) = fault else {
        return;
    };
    let Ok(mut lines) = BufWriter::with_capacity(rt.alloc(), LINE_BYTES, rt.stderr()) else {
        return;
    };
    let _told = write_reason(invocation, &run.fault, engine, failure, &mut lines);
    let _told = write_defined(&run.fault, places, &mut lines);
    if let Ok(folders) = folders_in(rt, invocation) {
        let _told = write_notes(&run.fault, engine, folders.as_slice(), &mut lines);
    }
    let _flushed = lines.flush();
}

// Writes the note on the file that failed, where one did.
fn write_reason<W: Write>(
    invocation: &Invocation,
    fault: &Fault,
    engine: &NotedEngine<'_>,
    failure: Option<io::Error>,
    lines: &mut W,
) -> io::Result<()> {
    if fault.kind == FaultKind::WriteFailed {
        let path = match &invocation.output {
            Some(path) => path.as_str(),
            None => "standard output",
        };
        return match failure {
            Some(error) => write_failure(path, &error, lines),
            None => Ok(()),
        };
    }
    if fault.kind != FaultKind::ReadFailed && fault.kind != FaultKind::SourceMemory {
        return Ok(());
    }
    let Some(failed) = engine.sources().sources().failure() else {
        return Ok(());
    };
    if failed.path.is_empty() {
        return write_failure(engine.inner_path(), &failed.error, lines);
    }
    write_failure(failed.path.as_str(), &failed.error, lines)
}

/// Tells that the output can't be opened; with the file and the reason, where notes are asked for, and where the file is a
/// source.
pub fn tell_unopened(rt: &HostRuntime, invocation: &Invocation, fault: &WriteFault) {
    let path = invocation.output.as_ref();
    if let (WriteFault::Source, Some(path)) = (fault, path) {
        return tell_unwritten(rt, path.as_str(), &fault.reason());
    }
    let _told = rt.stderr().write_all(b"rdlpp: error: cannot open output\n");
    if invocation.reports.notes
        && let Some(path) = path
    {
        let _told = write_failure(path.as_str(), &fault.reason(), &mut rt.stderr());
    }
}

/// Tells that a report can't be written to the file at `path`, and why.
pub fn tell_unwritten(rt: &HostRuntime, path: &str, error: &io::Error) {
    match BufWriter::with_capacity(rt.alloc(), LINE_BYTES, rt.stderr()) {
        Ok(mut line) => {
            let _told = writeln!(line, "rdlpp: error: cannot write '{path}': {error}");
            let _flushed = line.flush();
        }
        Err(_) => {
            let _told = rt
                .stderr()
                .write_all(b"rdlpp: error: cannot write a report\n");
        }
    }
}
