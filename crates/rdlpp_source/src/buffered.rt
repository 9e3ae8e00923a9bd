//! A sink that gathers bytes in front of a writer.
ghost use Rattle.std.specs.Prelude.{◌≡◌, ◌+◌, ◌-◌, ◌≤◌, [], ◌++◌, true, length, take, drop, IfOk, OnOk, IsTrue, is_err, vec_len, vec_capacity};
ghost use Rattle.std.specs.Io.{WritesAtMost};
ghost use Rattle.std.specs.Io.KnownBytes.{Keeps, Appends, WriteAppends};
ghost use Rattle.rdlpp_source.specs.Counts.{Counts};
ghost use Rattle.rdlpp_source.specs.Sinks.{is_failed_write};
ghost use Rattle.rdlpp_source.specs.Buffered.{buffered_writer, buffered_held, buffered_bytes, buffered_capacity, buffered_failed_writes, buffered_failed_flushes, buffered_flushes, SameCounts};

use crate::counted::one_more;
use crate::{Sink, SinkFault};
use std::alloc::{AllocError, Global};
use std::io::{ErrorKind, Write};

/// A sink that gathers bytes in front of a writer, as a `BufWriter` under a `Counted` does.
///
/// What it took is what the writer holds and then what is held back. A part that fits is held back,
/// with no call of the writer's. Where one doesn't fit, what is held back is passed on first, and a
/// part as long as the buffer, or longer, is then one write of the writer's. A flush passes on what
/// is held back and flushes the writer; a drop passes it on too, and tells no failure. Passing on
/// repeats a write that was interrupted, and keeps what the writer didn't take.
pub struct Buffered<W: Write + Drop> {
    writer: W,
    // what is held back; its capacity never grows
    held: Vec<u8>,
    failed_writes: u64,
    failed_flushes: u64,
    flushes: u64,
}

impl<W: Write + Drop> Buffered<W> {
    /// A sink in front of `writer`, with room for `capacity` bytes, no failure and no flush yet.
    ///
    /// # Errors
    /// There is no memory for the room; `writer` is then dropped.
    pub fn with_capacity(alloc: Global, capacity: usize, writer: W) -> Result<Self, AllocError>
        ensures writer { IfOk result (λ buffered. buffered_writer buffered ≡ writer) }
        ensures held { IfOk result (λ buffered. buffered_held buffered ≡ []) }
        ensures capacity { IfOk result (λ buffered. buffered_capacity buffered ≡ capacity) }
        ensures failed_writes { IfOk result (λ buffered. buffered_failed_writes buffered ≡ 0) }
        ensures failed_flushes { IfOk result (λ buffered. buffered_failed_flushes buffered ≡ 0) }
        ensures flushes { IfOk result (λ buffered. buffered_flushes buffered ≡ 0) }
    {
        let held = Vec::with_capacity(alloc, capacity)?;
        Ok(Buffered {
            writer,
            held,
            failed_writes: 0,
            failed_flushes: 0,
            flushes: 0,
        })
    }

    /// The writer as it stands, which has yet to get what is held back.
    pub fn writer(&self) -> &W
        ensures { result.now ≡ buffered_writer self.now }
    {
        &self.writer
    }

    // Passes on what is held back, and answers whether all of it was taken. The rest stays held back.
    fn pass_on(&mut self) -> bool
        ensures empty { IsTrue result → buffered_held self.new ≡ [] }
        ensures room { IsTrue result → vec_len self.new.held ≡ 0 }
        ensures capacity { buffered_capacity self.new ≡ buffered_capacity self.old }
        ensures bytes { Keeps (buffered_bytes W.contents self.old) (buffered_bytes W.contents self.new) }
        ensures counts { SameCounts self.old self.new }
    {
        let written = write_out(self.held.as_slice(), &mut self.writer);
        let len = self.held.len();
        self.held.as_mut_slice().copy_within(written..len, 0);
        self.held.truncate(len - written);
        written == len
    }

    // Takes the first bytes of a part for which there may be no room; no count changes here.
    fn take_beyond(&mut self, part: &[u8]) -> Result<usize, SinkFault>
        ensures bound { WritesAtMost result part.now }
        ensures bytes { WriteAppends (buffered_bytes W.contents self.old) (buffered_bytes W.contents self.new) result part.now }
        ensures counts { SameCounts self.old self.new }
    {
        if part.len() > self.held.capacity() - self.held.len() && !self.pass_on() {
            return Err(SinkFault);
        }
        if part.len() >= self.held.capacity() {
            return self.writer.write(part).map_err(|_| SinkFault);
        }
        hold(&mut self.held, part);
        Ok(part.len())
    }

    // Takes the first bytes of a part for which there may be no room. It stands apart, so that the
    // test for room is inlined.
    #[cold]
    #[inline(never)]
    fn write_beyond(&mut self, part: &[u8]) -> Result<usize, SinkFault>
        ensures bound { WritesAtMost result part.now }
        ensures bytes { WriteAppends (buffered_bytes W.contents self.old) (buffered_bytes W.contents self.new) result part.now }
        ensures writes { Counts (is_failed_write result part.now) (buffered_failed_writes self.old) (buffered_failed_writes self.new) }
        ensures unflushed { (buffered_failed_flushes self.new ≡ buffered_failed_flushes self.old) × (buffered_flushes self.new ≡ buffered_flushes self.old) }
    {
        let Ok(len) = self.take_beyond(part) else {
            self.failed_writes = one_more(self.failed_writes);
            return Err(SinkFault);
        };
        if len == 0 && !part.is_empty() {
            self.failed_writes = one_more(self.failed_writes);
        }
        Ok(len)
    }
}

impl<W: Write + Drop> Sink for Buffered<W> {
    ghost taken = { buffered_bytes W.contents };

    ghost failed_writes = { buffered_failed_writes };

    ghost failed_flushes = { buffered_failed_flushes };

    ghost flushes = { buffered_flushes };

    #[inline(always)]
    fn write(&mut self, part: &[u8]) -> Result<usize, SinkFault> {
        if part.len() < self.held.capacity() - self.held.len() {
            hold(&mut self.held, part);
            return Ok(part.len());
        }
        self.write_beyond(part)
    }

    fn flush(&mut self) -> Result<(), SinkFault>
        ensures bytes { Keeps (buffered_bytes W.contents self.old) (buffered_bytes W.contents self.new) }
        ensures asked { Counts true (buffered_flushes self.old) (buffered_flushes self.new) }
        ensures failures { Counts (is_err result) (buffered_failed_flushes self.old) (buffered_failed_flushes self.new) }
        ensures writes { buffered_failed_writes self.new ≡ buffered_failed_writes self.old }
        ensures passed { OnOk result (buffered_held self.new ≡ []) }
    {
        self.flushes = one_more(self.flushes);
        if self.pass_on()
            && let Ok(()) = self.writer.flush()
        {
            return Ok(());
        }
        self.failed_flushes = one_more(self.failed_flushes);
        Err(SinkFault)
    }
}

impl<W: Write + Drop> Drop for Buffered<W> {
    fn drop(mut self) {
        let _is_whole = self.pass_on();
        let Buffered {
            writer: _writer,
            held: _,
            failed_writes: _,
            failed_flushes: _,
            flushes: _,
        } = self;
    }
}

// Writes bytes until all are written or a write fails, and answers how many were written.
fn write_out<W: Write>(bytes: &[u8], to: &mut W) -> usize
    ensures bound { result ≤ length bytes.now }
    ensures bytes { Appends (W.contents to.old) (W.contents to.new) (take result bytes.now) }
{
    let mut written = 0;
    for _ in 0..u64::MAX {
        if written == bytes.len() {
            return written;
        }
        match to.write(&bytes[written..]) {
            Ok(0) => return written,
            Ok(len) => written += len,
            Err(error) => {
                if error.kind() != ErrorKind::Interrupted {
                    return written;
                }
            }
        }
    }
    written
}

// Appends a part for which there is room; a single byte without a call.
#[inline(always)]
fn hold(held: &mut Vec<u8>, part: &[u8])
    requires { vec_len held.old + length part.now ≤ vec_capacity held.old }
    ensures { held.new.items ≡ held.old.items ++ part.now }
{
    if part.len() == 1 {
        let Ok(()) = held.push(part[0]) else {
            unreachable!()
        };
        return;
    }
    let Ok(()) = held.extend_from_slice(part) else {
        unreachable!()
    };
}
