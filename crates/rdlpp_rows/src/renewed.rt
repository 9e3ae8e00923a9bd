// A row in an engine that ran the row before it.
use crate::devices::{DealtTexts, Devices, SLOW, WHOLE};
use crate::runs::{Job, define_words, engine_of, run_engine, sources_of};
use rdlpp_expand::{Engine, Held, Piece};
use std::alloc::{AllocError, Global};

// What an engine holds that is fresh.
const NOTHING_HELD: Held = Held {
    definitions: 0,
    arguments: 0,
    buffers: 0,
    cursors: 0,
    bindings: 0,
    conditions: 0,
    sources: 0,
};

// How the row before ends: whole; where the second search, the fourth read or the third write fails; or after so many pieces.
#[derive(Clone, Copy)]
enum Ending {
    Run(Devices),
    Pieces(u32),
}

const ENDINGS: [Ending; 7] = [
    Ending::Run(WHOLE),
    Ending::Run(Devices {
        searches: 1,
        ..WHOLE
    }),
    Ending::Run(Devices { reads: 3, ..SLOW }),
    Ending::Run(Devices { writes: 2, ..SLOW }),
    Ending::Pieces(0),
    Ending::Pieces(1),
    Ending::Pieces(4),
];

/// Whether a row comes to what it wants in an engine that ran another row before and was renewed: one of its own limits, in which
/// the other row ended in each of some ways.
pub fn comes_to_the_same_renewed<'a>(
    alloc: Global,
    before: &Job<'a>,
    job: &Job<'a>,
) -> Result<bool, AllocError> {
    let is_defined = engine_of(alloc, job, WHOLE)?.is_some();
    for ending in &ENDINGS {
        if !comes_to_the_same_after(alloc, before, *ending, job, is_defined)? {
            return Ok(false);
        }
    }
    Ok(true)
}

// The same for one way to end.
fn comes_to_the_same_after<'a>(
    alloc: Global,
    before: &Job<'a>,
    ending: Ending,
    job: &Job<'a>,
    is_defined: bool,
) -> Result<bool, AllocError> {
    let devices = match ending {
        Ending::Run(devices) => devices,
        Ending::Pieces(_) => WHOLE,
    };
    let sources = sources_of(before, devices);
    let limits = job.invocation.options.limits;
    match Engine::new(alloc, limits, sources, before.invocation.options.origins) {
        Ok(mut engine) => comes_to_the_same_in(alloc, &mut engine, before, ending, job, is_defined),
        Err(_) => Err(AllocError),
    }
}

// Whether a row comes to what it wants in an engine of which nothing was asked yet, where another row ends in it before.
fn comes_to_the_same_in<'a>(
    alloc: Global,
    engine: &mut Engine<DealtTexts<'a>>,
    before: &Job<'a>,
    ending: Ending,
    job: &Job<'a>,
    is_defined: bool,
) -> Result<bool, AllocError> {
    let _defined = define_words(engine, before);
    match ending {
        Ending::Run(devices) => {
            let _ended = run_engine(alloc, engine, before, devices)?;
        }
        Ending::Pieces(count) => pull(engine, before, count),
    }
    let _before = engine.renew(sources_of(job, WHOLE), job.invocation.options.origins);
    if engine.held() != NOTHING_HELD || define_words(engine, job) != is_defined {
        return Ok(false);
    }
    if !is_defined {
        return Ok(true);
    }
    match run_engine(alloc, engine, job, WHOLE)? {
        Some(ended) => Ok(ended.is_wanted(job.row)),
        None => Ok(false),
    }
}

// Starts an engine with the main text of a row, and pulls so many pieces.
fn pull(engine: &mut Engine<DealtTexts<'_>>, job: &Job<'_>, count: u32) {
    if !engine.is_fresh() {
        return;
    }
    let _opened = engine.start(job.invocation.source.as_str());
    for _ in 0..count {
        if engine.is_fresh() {
            return;
        }
        match engine.next() {
            Ok(Piece::Bytes(_)) => {}
            Ok(Piece::Done) => return,
            Err(_) => return,
        }
    }
}
