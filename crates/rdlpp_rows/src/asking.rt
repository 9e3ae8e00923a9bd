// How often sources and a writer are asked, which no contract counts.
use crate::devices::SLOW;
use crate::runs::{Job, sources_of, writer_of};
use rdlpp::{Counted, new_engine, run_watched_from};
use rdlpp_expand::Unwatched;
use std::alloc::{AllocError, Global};

/// Whether a run by single bytes asks its texts and its writer as often as its row wants.
pub fn asks_as_wanted(alloc: Global, job: &Job<'_>) -> Result<bool, AllocError> {
    let Some(wanted) = job.row.asked else {
        return Ok(true);
    };
    let options = &job.invocation.options;
    let Ok(mut engine) = new_engine(alloc, options, sources_of(job, SLOW)) else {
        return Err(AllocError);
    };
    let mut sink = Counted::new(writer_of(alloc, SLOW));
    let source = job.invocation.source.as_str();
    let _outcome = run_watched_from(&mut engine, options, source, &mut sink, &mut Unwatched {});
    let left = engine.sources().devices;
    let flushes = sink.into_writer().flushes;
    Ok((u64::MAX - left.searches, u64::MAX - left.reads, flushes) == wanted)
}
