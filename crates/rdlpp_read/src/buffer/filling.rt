// What stands before the next byte of a source: reading by lines.
ghost use Rattle.std.specs.Prelude.{◌≡◌, ℕ, ◌+◌, ◌-◌, ◌≤◌, ◌<◌, length, max, take, drop, Option, None, IfSome, IfNone, IsSome, IfOk, IfErr, vec_len};
ghost use Rattle.rdlpp_source.specs.Sources.{Reads, is_device};
ghost use Rattle.rdlpp_source.specs.Counts.{Counts};
ghost use Rattle.rdlpp_scan.specs.Lines.{whole_lines_len};
ghost use Rattle.rdlpp_read.specs.Calls.{SourcesRead};
ghost use Rattle.std.specs.Vec.{vec_capacity};
ghost use Rattle.rdlpp_read.specs.Buffer.{EndsHeld, IsBuffer, ahead_of};
ghost use Rattle.rdlpp_read.specs.Filling.{Fills, Finds, Grows, Turns, is_failed, is_failed_turn};

use super::SourceBuffer;
use super::ahead::{Ahead, look_ahead};
use rdlpp_source::{SourceFault, Sources};

// How many bytes the first read of a source asks for at most: room is cleared, and many included files are short.
const FIRST_ROOM: usize = 512;

/// What stands before the next byte of a source.
#[derive(Clone, Copy)]
pub enum Fill {
    /// At least one byte of a line that the limits accept.
    Held,
    /// The end of the text.
    End,
    /// A line with which the text has more bytes than a source may have.
    SourceLong,
    /// A line that has more bytes than a line may have.
    LineLong,
    /// A read that failed.
    Failed,
}

impl<R: Drop> SourceBuffer<R> {
    // Accepts what can be, where the first `seen` bytes after the accepted lines have no LF.
    fn accept(&mut self, seen: usize) -> Option<Fill>
        requires inside { seen ≤ length (ahead_of self.old) }
        requires none { whole_lines_len (take seen (ahead_of self.old)) ≡ 0 }
        ensures found { IfSome result (λ fill. Finds fill self.old self.new) }
        ensures more { IfNone result ((self.new ≡ self.old) × (whole_lines_len (ahead_of self.old) ≡ 0) × IsSome self.old.reader) }
        ensures buffer { IsBuffer self.old }
    {
        let ended = self.reader.is_none();
        match look_ahead(self.ahead(), seen, self.bytes_left, ended) {
            Ahead::Unended => None,
            Ahead::Lines(len) => {
                self.accepted += len;
                self.bytes_left -= len;
                Some(Fill::Held)
            }
            Ahead::Nothing => Some(Fill::End),
            Ahead::TooLong => Some(Fill::SourceLong),
        }
    }
}

/// Fills the room of bytes with zeros, up to `len` bytes, in the memory that is reserved for them; bytes that are there stay.
pub fn fill_room(bytes: &mut Vec<u8>, len: usize)
    requires reserved { len ≤ vec_capacity bytes.old }
    ensures len { vec_len bytes.new ≡ max (vec_len bytes.old) len }
    ensures kept { (n : ℕ) → n ≤ vec_len bytes.old → take n bytes.new.items ≡ take n bytes.old.items }
    ensures capacity { vec_capacity bytes.new ≡ vec_capacity bytes.old }
{
    while bytes.len() < len {
        bytes.push_reserved(0);
    }
}

// Makes room after the first `filled` bytes where there is none: a little for the first read of a source, and as much again
// where a read took all, so that a short source touches no more of the memory that is reserved than it needs.
fn make_room(bytes: &mut Vec<u8>, filled: usize, line_bytes: usize)
    requires inside { filled ≤ vec_len bytes.old }
    requires within { vec_len bytes.old ≤ line_bytes }
    requires reserved { line_bytes ≤ vec_capacity bytes.old }
    ensures room { filled < line_bytes → filled < vec_len bytes.new }
    ensures inside { filled ≤ vec_len bytes.new }
    ensures within { vec_len bytes.new ≤ line_bytes }
    ensures kept { take filled bytes.new.items ≡ take filled bytes.old.items }
    ensures capacity { vec_capacity bytes.new ≡ vec_capacity bytes.old }
{
    if filled == bytes.len() {
        fill_room(
            bytes,
            filled + filled.max(FIRST_ROOM).min(line_bytes - filled),
        );
    }
}

// Reads into a buffer after its first `filled` bytes.
fn read_into<S: Sources>(
    sources: &mut S,
    reader: &mut S::Reader,
    buffer: &mut Vec<u8>,
    filled: usize,
) -> Result<usize, SourceFault>
    requires { filled ≤ vec_len buffer.old }
    ensures len { vec_len buffer.new ≡ vec_len buffer.old }
    ensures capacity { vec_capacity buffer.new ≡ vec_capacity buffer.old }
    ensures kept { take filled buffer.new.items ≡ take filled buffer.old.items }
    ensures bound { IfOk result (λ n. filled + n ≤ vec_len buffer.old) }
    ensures only { IfErr result (λ fault. fault ≡ SourceFault.Device) }
    ensures bytes { S.has_known_texts sources.old → Reads (S.unread reader.old) (S.unread reader.new) result (drop filled buffer.new.items) }
    ensures failures { Counts (is_device result) (S.failures sources.old) (S.failures sources.new) }
    ensures refusals { S.refusals sources.new ≡ S.refusals sources.old }
    ensures has_known_texts { S.has_known_texts sources.old → S.has_known_texts sources.new }
    ensures catalog { S.catalog sources.new ≡ S.catalog sources.old }
{
    sources.read(reader, &mut buffer[filled..])
}

// Reads into the room after the window, or tells that the line is too long.
fn read_on<S: Sources>(buffer: &mut SourceBuffer<S::Reader>, sources: &mut S) -> Option<Fill>
    requires { IsSome buffer.old.reader }
    ensures turn { Turns (S.has_known_texts sources.old) S.unread result buffer.old buffer.new }
    ensures call { SourcesRead S.Sources (is_failed_turn result) sources.old sources.new }
{
    if buffer.filled >= buffer.line_bytes {
        return probe_end(buffer, sources);
    }
    let mut reader = buffer.reader.take().unwrap();
    make_room(&mut buffer.bytes, buffer.filled, buffer.line_bytes);
    match read_into(sources, &mut reader, &mut buffer.bytes, buffer.filled) {
        Ok(0) => None,
        Ok(len) => {
            buffer.filled += len;
            buffer.reader = Some(reader);
            make_room(&mut buffer.bytes, buffer.filled, buffer.line_bytes);
            None
        }
        Err(_) => {
            buffer.reader = Some(reader);
            Some(Fill::Failed)
        }
    }
}

// Tells by a read of one byte whether the text ends with a full window.
fn probe_end<S: Sources>(buffer: &mut SourceBuffer<S::Reader>, sources: &mut S) -> Option<Fill>
    requires open { IsSome buffer.old.reader }
    requires full { length buffer.old.window ≡ buffer.old.line_bytes }
    ensures turn { Turns (S.has_known_texts sources.old) S.unread result buffer.old buffer.new }
    ensures call { SourcesRead S.Sources (is_failed_turn result) sources.old sources.new }
{
    let mut reader = buffer.reader.take().unwrap();
    let mut one = [0];
    match sources.read(&mut reader, &mut one) {
        Ok(0) => None,
        Ok(_) => {
            buffer.reader = Some(reader);
            Some(Fill::LineLong)
        }
        Err(_) => {
            buffer.reader = Some(reader);
            Some(Fill::Failed)
        }
    }
}

// Moves what isn't used to the front, accepts lines after those that are held, and reads on until there are some, or tells why
// there are none.
pub(crate) fn take_lines<S: Sources>(buffer: &mut SourceBuffer<S::Reader>, sources: &mut S) -> Fill
    requires { EndsHeld buffer.old }
    ensures ends { EndsHeld buffer.new }
    ensures grows { Grows (S.has_known_texts sources.old) S.unread result buffer.old buffer.new }
    ensures call { SourcesRead S.Sources (is_failed result) sources.old sources.new }
{
    buffer.compact();
    let mut seen = 0;
    'reading: loop {
        if let Some(fill) = buffer.accept(seen) {
            return fill;
        }
        seen = buffer.ahead().len();
        if let Some(fill) = read_on(buffer, sources) {
            return fill;
        }
    }
}
