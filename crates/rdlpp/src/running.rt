// Preprocessing by an engine that stays, so that it can be asked afterwards.
ghost use Rattle.std.specs.Prelude.{◌≡◌};
ghost use Rattle.rdlpp_expand.specs.Watching.{Shows};
ghost use Rattle.rdlpp.specs.Preprocess.{Tells, output_of};
ghost use Rattle.rdlpp.specs.Running.{IsFreshOf, MakesEngine, RunsFrom};

use crate::defining::define_all;
use crate::{Options, PrepFault};
use rdlpp_expand::{Engine, NewFault, RunFault, Watcher, run_watched};
use rdlpp_source::{Sink, Sources};
use std::alloc::Global;

/// An engine over `sources` that does what is asked for, not started yet (this project's profile).
///
/// # Errors
/// `BadLimits` exactly where a limit is out of its range; then `NoMemory`, only where memory was refused. The sources are dropped
/// then.
pub fn new_engine<S: Sources>(
    alloc: Global,
    options: &Options,
    sources: S,
) -> Result<Engine<S>, PrepFault>
    ensures { MakesEngine options.now sources result }
{
    match Engine::new(alloc, options.limits, sources, options.origins) {
        Ok(engine) => Ok(engine),
        Err(NewFault::BadLimits(limit)) => Err(PrepFault::BadLimits(limit)),
        Err(NewFault::NoMemory) => Err(PrepFault::NoMemory),
    }
}

/// Does with the engine that `new_engine` made what `preprocess` does, and shows a watcher what the writer takes (this project's
/// profile).
///
/// The engine must be as `new_engine` made it of these options, and keeps its limits. Answers the count of bytes that the writer
/// took, `u64::MAX` where it is larger.
///
/// # Errors
/// As of `preprocess`, but for those of `new_engine`.
pub fn run_watched_from<S: Sources, W: Sink, V: Watcher>(
    engine: &mut Engine<S>,
    options: &Options,
    path: &str,
    writer: &mut W,
    watcher: &mut V,
) -> Result<u64, PrepFault>
    requires { IsFreshOf options.now engine.old }
    ensures outcome { RunsFrom S.Sources W.Sink options.now engine.old engine.new path.now writer.old writer.new result }
    ensures output { S.has_known_texts engine.old.sources →
        Tells (W.taken writer.old) (W.taken writer.new) (output_of S.Sources options.now engine.old.sources path.now) result }
    ensures shows { Shows W.Sink V.Watcher writer.old writer.new watcher.old watcher.new }
    ensures limits { engine.new.limits ≡ engine.old.limits }
{
    if let Err(fault) = define_all(engine, &options.defines) {
        return Err(PrepFault::Run(fault));
    }
    // A fault of the opening is kept by the engine, and ends the run.
    engine.open(path);
    let written = run_watched(engine, writer, watcher);
    if let Some(fault) = engine.kept_fault() {
        return Err(PrepFault::Run(RunFault { fault, written }));
    }
    Ok(written)
}
