// One open source: the part of its text that is held, by lines.
ghost use Rattle.std.specs.Prelude.{◌≡◌, ◌+◌, ◌-◌, ◌^◌, ◌≤◌, ◌<◌, [], length, take, drop, slice_range, Option, None, IfOk};
ghost use Rattle.rdlpp_read.specs.Buffer.{EndsHeld, IsBuffer, ahead_of, closed_buffer, entered_mode, held_of, reading_line_of};

mod ahead;
mod extending;
mod filling;

pub use extending::{LogicalLine, hold_logical_line};
pub(crate) use filling::take_lines;
pub use filling::{Fill, fill_room};
use rdlpp_scan::{Mode, line_ends_in};
use std::alloc::{AllocError, Global};
use std::marker::Model;

/// One open source.
#[derive(Drop)]
pub struct SourceBuffer<R> {
    // of these the first `filled` are the held part of the text; there are none before the first read, and then as many
    // as its reads came to need, up to those of a line
    bytes: Vec<u8>,
    line_bytes: usize,
    at: usize,
    accepted: usize,
    filled: usize,
    reader: Option<R>,
    bytes_left: usize,
    line: u64,
    // whether the next byte stands in a string or in a block comment, and the line on which that opened
    mode: Mode,
    open_token_line: u64,
}

impl<R> Model for SourceBuffer<R> {
    ghost use Rattle.std.specs.Prelude.{◌≡◌, ◌+◌, ◌-◌, ◌^◌, ◌≤◌, ◌<◌, take, vec_len};
    ghost use Rattle.std.specs.Vec.{vec_capacity};
    ghost use Rattle.rdlpp_read.specs.Buffer.{BufferView, IsBuffer};

    ghost Value = { BufferView R };

    ghost view = { λ f. record {
      window = take f.filled f.bytes.items;
      at = f.at;
      accepted = f.accepted;
      reader = f.reader;
      bytes_left = f.bytes_left;
      line = f.line;
      line_bytes = f.line_bytes;
      mode = f.mode;
      open_token_line = f.open_token_line;
    } };

    ghost invariant = { λ f. (f.at ≤ f.accepted) × (f.accepted ≤ f.filled) × (f.filled ≤ vec_len f.bytes)
        × (f.line + (f.bytes_left + (f.accepted - f.at)) + 1 < 2 ^ 31)
        × (f.open_token_line ≤ f.line)
        × (vec_len f.bytes ≤ f.line_bytes) × (vec_capacity f.bytes ≡ f.line_bytes) };
}

impl<R: Drop> SourceBuffer<R> {
    /// A source that isn't open, with room for lines of `line_bytes` bytes: one growth, and no other call
    /// takes memory. The room is reserved, and isn't touched before the first read.
    ///
    /// # Errors
    ///
    /// `AllocError` where the growth was refused.
    pub fn new(alloc: Global, line_bytes: usize) -> Result<Self, AllocError>
        ensures { IfOk result (λ buffer. buffer ≡ closed_buffer 0 line_bytes) }
    {
        Ok(SourceBuffer {
            bytes: Vec::with_capacity(alloc, line_bytes)?,
            line_bytes,
            at: 0,
            accepted: 0,
            filled: 0,
            reader: None,
            bytes_left: 0,
            line: 0,
            mode: Mode::Plain,
            open_token_line: 0,
        })
    }

    /// Opens a source of at most `bytes_left` bytes, which are at most 2,147,483,645, at its first line.
    pub fn open(&mut self, reader: R, bytes_left: usize)
        requires { bytes_left + 2 < 2 ^ 31 }
        ensures opened { self.new ≡ record { window = []; at = 0; accepted = 0; reader = Option.Some reader; bytes_left = bytes_left; line = 1; line_bytes = self.old.line_bytes; mode = Mode.Plain; open_token_line = 1 } }
        ensures ends { EndsHeld self.new }
    {
        self.at = 0;
        self.accepted = 0;
        self.filled = 0;
        self.reader = Some(reader);
        self.bytes_left = bytes_left;
        self.line = 1;
        self.mode = Mode::Plain;
        self.open_token_line = 1;
    }

    /// Closes the source.
    pub fn close(&mut self)
        ensures closed { self.new ≡ record { window = []; at = 0; accepted = 0; reader = None; bytes_left = 0; line = self.old.line; line_bytes = self.old.line_bytes; mode = Mode.Plain; open_token_line = 0 } }
        ensures ends { EndsHeld self.new }
    {
        self.at = 0;
        self.accepted = 0;
        self.filled = 0;
        self.reader = None;
        self.bytes_left = 0;
        self.mode = Mode::Plain;
        self.open_token_line = 0;
    }

    /// The physical line of the next byte.
    pub fn line(&self) -> u64
        ensures { result ≡ self.now.line }
    {
        self.line
    }

    /// Whether the next byte stands in a string or in a block comment.
    pub fn mode(&self) -> Mode
        ensures { result ≡ self.now.mode }
    {
        self.mode
    }

    /// The physical line on which the string or the comment opened in which the next byte stands.
    pub fn open_token_line(&self) -> u64
        ensures { result ≡ self.now.open_token_line }
    {
        self.open_token_line
    }

    /// Changes whether the next byte stands in a string or in a comment, at a token on its line.
    #[tactic(auto, unfolding(crate::specs::Buffer::entered_mode, rdlpp_scan::specs::Resumed::opening))]
    pub fn enter_mode(&mut self, next: Mode)
        ensures { self.new ≡ entered_mode self.old next }
    {
        if self.mode == Mode::Plain {
            self.open_token_line = self.line;
        }
        self.mode = next;
    }

    /// The bytes of accepted lines that aren't used.
    pub fn held(&self) -> &[u8]
        ensures value { result.now ≡ held_of self.now }
        ensures buffer { IsBuffer self.now }
    {
        &self.bytes[self.at..self.accepted]
    }

    /// A part of the held text.
    pub fn part(&self, start: usize, end: usize) -> &[u8]
        requires ordered { start ≤ end }
        requires inside { end ≤ length self.now.window }
        ensures { result.now ≡ slice_range self.now.window start end }
    {
        &self.bytes[start..end]
    }

    /// What always holds of it.
    pub fn facts(&self)
        ensures { IsBuffer self.now }
    {
        let _at = self.at;
    }

    /// How many bytes of the text are held.
    pub fn len(&self) -> usize
        ensures { result ≡ length self.now.window }
    {
        self.filled
    }

    /// How many bytes there is memory for: those of one line, however many are held.
    pub fn capacity(&self) -> usize
        ensures { result ≡ self.now.line_bytes }
    {
        self.bytes.capacity()
    }

    /// Uses `len` bytes, which have `lines` line ends, and answers where they begin.
    pub fn consume(&mut self, len: usize, lines: usize) -> usize
        requires inside { len ≤ length (held_of self.old) }
        requires lines { lines ≤ len }
        ensures start { result ≡ self.old.at }
        ensures passed { self.new ≡ record self.old { at = self.old.at + len; line = self.old.line + lines } }
        ensures ends { EndsHeld self.old → EndsHeld self.new }
    {
        let start = self.at;
        self.at = start + len;
        self.line += lines as u64;
        start
    }

    /// The physical line of the first byte that isn't held yet, which is the one that a read is in.
    ///
    /// Costs time linear in what is held.
    pub fn reading_line(&self) -> u64
        ensures { result ≡ reading_line_of self.now }
    {
        self.line + line_ends_in(self.held()) as u64
    }

    // The bytes in the window after the accepted lines.
    fn ahead(&self) -> &[u8]
        ensures { result.now ≡ ahead_of self.now }
    {
        &self.bytes[self.accepted..self.filled]
    }

    // Moves what isn't used to the front.
    fn compact(&mut self)
        ensures before { IsBuffer self.old }
        ensures sound { IsBuffer self.new }
        ensures becomes { self.new ≡ record self.old { window = drop self.old.at self.old.window; at = 0; accepted = self.old.accepted - self.old.at } }
    {
        let (at, filled) = (self.at, self.filled);
        if at > 0 {
            self.bytes.copy_within(at..filled, 0);
            self.filled = filled - at;
            self.accepted -= at;
            self.at = 0;
        }
    }
}
