//! Runs, and what is told of them beside the text, where that is asked for.
ghost use Rattle.std.specs.Prelude.{◌≡◌};
ghost use Rattle.rdlpp.specs.Running.{IsFreshOf};
ghost use Rattle.rdlpp_cli.specs.Statuses.{report_status};

use crate::files::{RunFiles, WriteFault};
use crate::output::Output;
use crate::telling::{tell_fault, tell_noted, tell_unwritten};
use crate::watching::Watching;
use crate::{OUTPUT_BYTES, folders_in};
use rdlpp::{
    Buffered, Engine, Folders, OpenedPaths, PrepFault, Recorded, Table, exit_status, new_engine,
    run_watched_from, write_definitions, write_dependencies,
};
use rdlpp_words::Invocation;
use std::io::{BufWriter, Write};

/// An engine that may note what it opens.
pub type NotedEngine<'r> = Engine<Recorded<Folders<'r, HostRuntime>>>;

/// Preprocesses the source of a command line, tells what else is asked for, and answers the exit status.
pub fn run_told(
    rt: &HostRuntime,
    invocation: &Invocation,
    files: &mut RunFiles,
    output: &mut Output,
) -> u8 {
    let Ok(folders) = folders_in(rt, invocation) else {
        return tell_unmade(rt, PrepFault::NoMemory);
    };
    let Ok(sources) = Folders::new(rt, rt.alloc(), folders.as_slice()) else {
        return tell_unmade(rt, PrepFault::NoMemory);
    };
    let sources = if is_noting(invocation) {
        Recorded::new(rt.alloc(), sources)
    } else {
        Recorded::silent(rt.alloc(), sources)
    };
    match new_engine(rt.alloc(), &invocation.options, sources) {
        Ok(mut engine) => run_noted(rt, invocation, &mut engine, files, output),
        Err(fault) => tell_unmade(rt, fault),
    }
}

// Whether a report is written that tells the sources, or when they were read, so that it has to be known which ones these are.
fn is_noting(invocation: &Invocation) -> bool {
    invocation.reports.deps.is_some() || invocation.reports.definitions.is_some()
}

// Tells why there is no engine, and answers the exit status.
fn tell_unmade(rt: &HostRuntime, fault: PrepFault) -> u8 {
    tell_fault(rt, &fault);
    exit_status(&Err(fault))
}

// Runs an engine, tells what is asked for, and answers the exit status.
fn run_noted(
    rt: &HostRuntime,
    invocation: &Invocation,
    engine: &mut NotedEngine<'_>,
    files: &mut RunFiles,
    output: &mut Output,
) -> u8
    requires { IsFreshOf invocation.now.options engine.old }
{
    let mut watching = Watching::of(rt, invocation, files);
    let written = files.opened();
    if is_noting(invocation) || !written.is_empty() {
        engine.sources().sources().guard(written);
    }
    let outcome = match Buffered::with_capacity(rt.alloc(), OUTPUT_BYTES, &mut *output) {
        Ok(mut writer) => run_watched_from(
            engine,
            &invocation.options,
            invocation.source.as_str(),
            &mut writer,
            &mut watching,
        ),
        Err(_) => Err(PrepFault::NoMemory),
    };
    if let Err(fault) = &outcome {
        match &watching.places {
            Some(places) => tell_noted(rt, invocation, fault, engine, places, output.failure()),
            None => tell_fault(rt, fault),
        }
    }
    let mapped = watching.finish();
    let mapped = told_status(rt, invocation.reports.line_map.as_ref(), &mapped);
    let opened = engine.sources().opened();
    let told = rest_status(rt, invocation, opened, engine.table(), files);
    exit_status(&outcome).max(mapped).max(told)
}

// Writes the rule for make and the macros, where they are asked for, and answers the exit status that tells how that went.
fn rest_status(
    rt: &HostRuntime,
    invocation: &Invocation,
    opened: &OpenedPaths,
    table: &Table,
    files: &mut RunFiles,
) -> u8 {
    let mut status = 0;
    if let Some(path) = &invocation.reports.deps {
        let target = invocation.output.as_ref().unwrap_or(&invocation.source);
        let written = write_deps(rt, files, path, target, opened);
        status = told_status(rt, Some(path), &written);
    }
    if let Some(path) = &invocation.reports.definitions {
        let written = write_macros(rt, files, path, table, opened);
        status = told_status(rt, Some(path), &written).max(status);
    }
    status
}

// Tells why a report isn't written, where it isn't, and answers the exit status that tells how that went.
fn told_status(rt: &HostRuntime, path: Option<&String>, written: &Result<(), WriteFault>) -> u8
    ensures { result ≡ report_status written.now }
{
    let Err(fault) = written else {
        return 0;
    };
    if let Some(path) = path {
        tell_unwritten(rt, path.as_str(), &fault.reason());
    }
    fault.status()
}

// Writes the rule for make to a file.
fn write_deps(
    rt: &HostRuntime,
    files: &mut RunFiles,
    path: &String,
    target: &String,
    opened: &OpenedPaths,
) -> Result<(), WriteFault> {
    let file = files.open_after(rt, path.as_str(), opened)?;
    let mut writer = BufWriter::with_capacity(rt.alloc(), OUTPUT_BYTES, file)?;
    write_dependencies(target.as_str(), opened, &mut writer)?;
    writer.flush()?;
    Ok(())
}

// Writes the macros to a file.
fn write_macros(
    rt: &HostRuntime,
    files: &mut RunFiles,
    path: &String,
    table: &Table,
    opened: &OpenedPaths,
) -> Result<(), WriteFault> {
    let file = files.open_after(rt, path.as_str(), opened)?;
    let mut writer = BufWriter::with_capacity(rt.alloc(), OUTPUT_BYTES, file)?;
    write_definitions(table, &mut writer)?;
    writer.flush()?;
    Ok(())
}
