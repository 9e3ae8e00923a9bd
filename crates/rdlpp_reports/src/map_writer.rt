//! A watcher that writes the line map of what it is shown.
use crate::lines::{MappedLines, write_map_start, write_run};
use rdlpp_state::{Placed, Watcher};
use std::io::{self, Write};

/// Writes the line map of the output that it is shown, run by run.
///
/// The first error of the writer is kept, and nothing is written after it.
#[derive(Drop)]
pub struct MapWriter<W> {
    lines: MappedLines,
    writer: W,
    failure: Option<io::Error>,
}

impl<W: Write> MapWriter<W> {
    /// A line map that is written to `writer`, of which the first line is written.
    pub fn new(mut writer: W) -> MapWriter<W> {
        let failure = write_map_start(&mut writer).err();
        MapWriter {
            lines: MappedLines::new(),
            writer,
            failure,
        }
    }

    /// Writes the last run, and flushes the writer.
    ///
    /// # Errors
    /// The first error of the writer.
    pub fn finish(&mut self) -> io::Result<()> {
        if let Some(error) = self.failure {
            return Err(error);
        }
        if self.lines.finish() {
            write_run(self.lines.ended(), &mut self.writer)?;
        }
        self.writer.flush()
    }

    // Writes the run that ended last, where no write has failed.
    #[inline(never)]
    fn write_ended(&mut self) {
        if self.failure.is_none() {
            self.failure = write_run(self.lines.ended(), &mut self.writer).err();
        }
    }
}

impl<W: Write> Watcher for MapWriter<W> {
    fn is_looking(&self) -> bool {
        true
    }

    fn saw<P: Placed>(&mut self, piece: &[u8], placed: &P) {
        if self.lines.take(piece, placed) {
            self.write_ended();
        }
    }
}
