// Opening a main text, whose output is read into buffers.
ghost use Rattle.std.specs.Prelude.{◌≡◌};
ghost use Rattle.rdlpp.specs.Opening.{Opens, OpensOutput, Reopens, ReopensOutput};
ghost use Rattle.rdlpp.specs.Preprocess.{output_of};

use crate::defining::{define_all, define_all_again};
use crate::{Options, PrepFault};
use rdlpp_expand::{Engine, NewFault, Reading, RunFault};
use rdlpp_source::Sources;
use std::alloc::Global;

/// Opens the main text at `path` of `sources`, whose output is then read piece by piece (this
/// project's profile).
///
/// A fault of the opening is kept, and the first read answers it.
///
/// # Errors
/// `BadLimits` exactly where a limit is out of its range; then `NoMemory`, only where memory for the
/// engine was refused; then the fault of the first definition that is refused, as of `preprocess`.
/// Nothing is opened in these three, and the sources are dropped.
pub fn open_reading<S: Sources>(
    alloc: Global,
    options: &Options,
    sources: S,
    path: &str,
) -> Result<Reading<S>, PrepFault>
    ensures opens { Opens S.Sources options.now sources path.now result }
    ensures output { S.has_known_texts sources → OpensOutput S.Sources (output_of S.Sources options.now sources path.now) result }
{
    let mut engine = match Engine::new(alloc, options.limits, sources, options.origins) {
        Ok(engine) => engine,
        Err(NewFault::BadLimits(limit)) => return Err(PrepFault::BadLimits(limit)),
        Err(NewFault::NoMemory) => return Err(PrepFault::NoMemory),
    };
    if let Err(fault) = define_all(&mut engine, &options.defines) {
        return Err(PrepFault::Run(fault));
    }
    // A fault of the opening is kept by the engine.
    let _opened = engine.start(path);
    Ok(Reading::of(engine))
}

/// Opens the main text at `path` of other sources in the engine of a reading, as `open_reading` does, and asks for no memory
/// (this project's profile).
///
/// The engine must have the limits of the options. Nothing of the output before is seen, wherever it ended.
///
/// # Errors
/// The fault of the first definition that is refused, as of `preprocess`. Nothing is opened then, and the reading is at its end.
pub fn reopen_reading<S: Sources>(
    reading: &mut Reading<S>,
    options: &Options,
    sources: S,
    path: &str,
) -> Result<(), RunFault>
    requires { reading.old.engine.limits ≡ options.now.limits }
    ensures opens { Reopens S.Sources options.now sources path.now reading.new result }
    ensures output { S.has_known_texts sources → ReopensOutput S.Sources (output_of S.Sources options.now sources path.now) reading.new result }
{
    let _before = reading.renew(sources, options.origins);
    if let Err(fault) = define_all_again(reading, &options.defines) {
        return Err(fault);
    }
    // A fault of the opening is kept by the engine.
    let _opened = reading.start(path);
    Ok(())
}
