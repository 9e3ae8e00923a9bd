//! A sink over any writer.
ghost use Rattle.std.specs.Prelude.{◌≡◌, true};
ghost use Rattle.rdlpp_source.specs.Counts.{Counts};

use crate::{Sink, SinkFault};
use std::io::Write;

/// A sink over any writer.
///
/// What it took is what the writer holds. Each write and flush is one call of the writer's, and
/// each error of the writer, of whatever kind, is one failure, as is a write of some bytes of which
/// the writer takes none.
#[derive(Drop)]
pub struct Counted<W> {
    writer: W,
    failed_writes: u64,
    failed_flushes: u64,
    flushes: u64,
}

impl<W> Counted<W> {
    ghost use Rattle.rdlpp_source.specs.Counted.{counted_writer, counted_failed_writes, counted_failed_flushes, counted_flushes};

    /// A sink over `writer`, with no failure and no flush yet.
    pub fn new(writer: W) -> Self
        ensures writer { counted_writer result ≡ writer }
        ensures failed_writes { counted_failed_writes result ≡ 0 }
        ensures failed_flushes { counted_failed_flushes result ≡ 0 }
        ensures flushes { counted_flushes result ≡ 0 }
    {
        Counted {
            writer,
            failed_writes: 0,
            failed_flushes: 0,
            flushes: 0,
        }
    }

    /// Gives the writer back, with all that was taken.
    pub fn into_writer(self) -> W
        ensures { result ≡ counted_writer self }
    {
        self.writer
    }
}

// A count with one more, up to `u64::MAX`.
pub(crate) fn one_more(count: u64) -> u64
    ensures { Counts true count result }
{
    count.saturating_add(1)
}

impl<W: Write> Sink for Counted<W> {
    ghost use Rattle.rdlpp_source.specs.Counted.{counted_writer, counted_failed_writes, counted_failed_flushes, counted_flushes};

    ghost taken = { λ counted. W.contents (counted_writer counted) };

    ghost failed_writes = { counted_failed_writes };

    ghost failed_flushes = { counted_failed_flushes };

    ghost flushes = { counted_flushes };

    fn write(&mut self, part: &[u8]) -> Result<usize, SinkFault> {
        let Ok(len) = self.writer.write(part) else {
            self.failed_writes = one_more(self.failed_writes);
            return Err(SinkFault);
        };
        if len == 0 && !part.is_empty() {
            self.failed_writes = one_more(self.failed_writes);
        }
        Ok(len)
    }

    fn flush(&mut self) -> Result<(), SinkFault> {
        self.flushes = one_more(self.flushes);
        let Ok(()) = self.writer.flush() else {
            self.failed_flushes = one_more(self.failed_flushes);
            return Err(SinkFault);
        };
        Ok(())
    }
}
