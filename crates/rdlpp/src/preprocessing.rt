// Preprocessing a main text.
ghost use Rattle.rdlpp.specs.Preprocess.{Preprocesses, Tells, output_of};

use crate::{Options, PrepFault, new_engine, run_watched_from};
use rdlpp_expand::Unwatched;
use rdlpp_source::{Sink, Sources};
use std::alloc::Global;

/// Preprocesses the main text at `path` of `sources`, and writes what it gives to `writer` (this
/// project's profile).
///
/// Answers the count of bytes that the writer took in this call, `u64::MAX` where it is larger.
///
/// # Errors
/// `BadLimits` exactly where a limit is out of its range; then `NoMemory`, only where memory for the
/// engine was refused; then the fault of the first definition that is refused, with the name `-D`,
/// the definition's place from 1 as the line, and 0 bytes written. Nothing is opened or written in
/// these three. Else the fault that ended the run, with the count of bytes written before it: these
/// are the output up to that fault, or, where a device failed, the output's first bytes. The sources
/// are dropped in each case.
pub fn preprocess<S: Sources, W: Sink>(
    alloc: Global,
    options: &Options,
    sources: S,
    path: &str,
    writer: &mut W,
) -> Result<u64, PrepFault>
    ensures outcome { Preprocesses S.Sources W.Sink options.now sources path.now writer.old writer.new result }
    ensures output { S.has_known_texts sources →
        Tells (W.taken writer.old) (W.taken writer.new) (output_of S.Sources options.now sources path.now) result }
{
    let mut nobody = Unwatched {};
    match new_engine(alloc, options, sources) {
        Ok(mut engine) => run_watched_from(&mut engine, options, path, writer, &mut nobody),
        Err(fault) => Err(fault),
    }
}
