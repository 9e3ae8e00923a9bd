// The open sources of a run, each with its buffer.
ghost use Rattle.std.specs.Prelude.{◌≡◌, ◌+◌, ◌-◌, ◌*◌, ◌^◌, ◌==◌, ◌≤◌, ◌<◌, ◌∷◌, [], length, drop, slice_get, IfOk, Some, false};
ghost use Rattle.rdlpp_meaning.specs.State.{shown_line};
ghost use Rattle.rdlpp_read.specs.Calls.{SourcesRead};
ghost use Rattle.rdlpp_read.specs.Buffer.{EndsHeld, entered_mode, held_of};
ghost use Rattle.rdlpp_read.specs.Filling.{Fills, is_failed};
ghost use Rattle.rdlpp_read.specs.LogicalLines.{HoldsLine, is_failed_line};
ghost use Rattle.rdlpp_read.specs.Files.{
  AreOpen,
  consumed_file,
  entered_file,
  held_bytes,
  inner_buffer,
  shift_of,
  ends_mid_line_after,
  with_buffer,
  with_inner,
};

use crate::blanks::only_blanks;
use crate::buffer::{Fill, LogicalLine, SourceBuffer, hold_logical_line, take_lines};
use arrayvec::ArrayString;
use rdlpp_scan::Mode;
use rdlpp_source::{Found, Sources};
use std::alloc::{AllocError, Global};
use std::marker::Model;

/// Which number a physical line is shown with: from line `from` on the lines count from `number`
/// (IEEE 1364-2001, `line`).
#[derive(Clone, Copy)]
pub struct Shift {
    /// The physical line from which on it holds.
    pub from: u64,
    /// The number that this line is shown with.
    pub number: u64,
}

/// A source that is open, or was, with its buffer.
#[derive(Drop)]
pub struct File<R> {
    /// The part of its text that is held.
    pub buffer: SourceBuffer<R>,
    /// Its path, from which the folder of its includes is taken.
    pub path: ArrayString<1024>,
    /// The name that it shows.
    pub name: ArrayString<1024>,
    /// The numbers that its lines show.
    pub shift: Shift,
    /// Whether only blanks stand before the next byte on its physical line.
    pub blanks: bool,
    /// How many conditionals of the sources around it are open.
    pub conditions_below: usize,
    /// The physical line of the `include` in the source around it, or 0.
    pub include_line: u64,
    /// Whether the last byte that was used isn't LF, and there was one.
    pub ends_mid_line: bool,
}

/// The open sources, the innermost first, in slots that are made once, each with its buffer.
///
/// No call but `new` takes memory. A slot whose source was left has no reader.
#[derive(Drop)]
pub struct Files<R> {
    slots: Vec<File<R>>,
    // the open sources stand from here on, the innermost first
    first: usize,
    line_bytes: usize,
}

impl Shift {
    /// The number that a physical line is shown with.
    #[tactic(auto, unfolding(rdlpp_meaning::specs::State::shown_line))]
    pub fn shown_line(&self, line: u64) -> u64
        requires { self.now.number + line < 2 ^ 64 }
        ensures { result ≡ shown_line (shift_of self.now) line }
    {
        self.number + line.saturating_sub(self.from)
    }
}

impl<R> Model for Files<R> {
    ghost use Rattle.std.specs.Prelude.{drop, vec_len};
    ghost use Rattle.rdlpp_read.specs.Files.{AreSlots, FilesView};

    ghost Value = { FilesView R };

    ghost view = { λ f. record {
      include_stack = drop f.first f.slots.items;
      slots = vec_len f.slots;
      line_bytes = f.line_bytes;
    } };

    ghost invariant = { λ f. AreSlots f.line_bytes f.first f.slots.items };
}

impl<R: Drop> File<R> {
    // Uses `len` held bytes, which have `lines` line ends, and answers where they begin.
    fn consume(&mut self, len: usize, lines: usize) -> usize
        requires inside { len ≤ length (held_of self.old.buffer) }
        requires lines { lines ≤ len }
        ensures start { result ≡ self.old.buffer.at }
        ensures used { self.new ≡ consumed_file len lines self.old }
        ensures ends { EndsHeld self.old.buffer → EndsHeld self.new.buffer }
    {
        let used = &self.buffer.held()[..len];
        self.blanks = only_blanks(self.blanks, used);
        let used = &self.buffer.held()[..len];
        self.ends_mid_line = goes_mid_line(self.ends_mid_line, used);
        self.buffer.consume(len, lines)
    }
}

// Whether the last byte of bytes isn't LF, where `ends_mid_line` says so of what stands before them.
fn goes_mid_line(ends_mid_line: bool, bytes: &[u8]) -> bool
    ensures { result ≡ ends_mid_line_after ends_mid_line bytes.now }
{
    if bytes.is_empty() {
        ends_mid_line
    } else {
        bytes[bytes.len() - 1] != b'\n'
    }
}

impl<R: Drop> Files<R> {
    /// So many slots without a source, each with a buffer for lines of `line_bytes` bytes: one growth
    /// for the list, and one for each buffer, whose room isn't touched before its first read.
    ///
    /// # Errors
    ///
    /// `AllocError` where a growth was refused.
    pub fn new(alloc: Global, slots: usize, line_bytes: usize) -> Result<Self, AllocError>
        ensures { IfOk result (λ files. files ≡ record { include_stack = []; slots = slots; line_bytes = line_bytes }) }
    {
        let mut list = Vec::with_capacity(alloc, slots)?;
        for _slot in 0..slots {
            list.push_reserved(File {
                buffer: SourceBuffer::new(alloc, line_bytes)?,
                path: ArrayString::new(),
                name: ArrayString::new(),
                shift: Shift { from: 0, number: 0 },
                blanks: true,
                conditions_below: 0,
                include_line: 0,
                ends_mid_line: false,
            });
        }
        Ok(Files {
            slots: list,
            first: slots,
            line_bytes,
        })
    }

    /// How many sources are open.
    pub fn len(&self) -> usize
        ensures { result ≡ length self.now.include_stack }
    {
        self.slots.len() - self.first
    }

    /// Whether no more source can be opened.
    pub fn is_full(&self) -> bool
        ensures full { result ≡ (length self.now.include_stack == self.now.slots) }
        ensures room { result ≡ false → length self.now.include_stack < self.now.slots }
    {
        self.first == 0
    }

    /// The innermost source.
    pub fn file(&self) -> &File<R>
        requires { 0 < length self.now.include_stack }
        ensures inner { self.now.include_stack ≡ result.now ∷ drop 1 self.now.include_stack }
        ensures buffer { result.now.buffer ≡ inner_buffer self.now.include_stack }
        ensures ends { EndsHeld result.now.buffer }
    {
        &self.slots[self.first]
    }

    /// The open source at a place, counted from the innermost one.
    pub fn at(&self, place: usize) -> &File<R>
        requires { place < length self.now.include_stack }
        ensures { slice_get self.now.include_stack place ≡ Some result.now }
    {
        &self.slots[self.first + place]
    }

    /// Opens one more source, of at most `source_bytes` bytes, which are at most 2,147,483,645, inside of
    /// those that are open. It shows its path and its own lines.
    pub fn enter(
        &mut self,
        found: Found<R>,
        source_bytes: usize,
        conditions_below: usize,
        include_line: u64,
    )
        requires room { length self.old.include_stack < self.old.slots }
        requires bytes { source_bytes + 2 < 2 ^ 31 }
        ensures { self.new ≡ record self.old { include_stack = entered_file found source_bytes self.old.line_bytes conditions_below include_line ∷ self.old.include_stack } }
    {
        let at = self.first - 1;
        let file = &mut self.slots[at];
        file.buffer.open(found.reader, source_bytes);
        file.buffer.facts();
        file.path = found.path;
        file.name = file.path;
        file.shift = Shift { from: 0, number: 0 };
        file.blanks = true;
        file.conditions_below = conditions_below;
        file.include_line = include_line;
        file.ends_mid_line = false;
        self.first = at;
    }

    /// Leaves the innermost source, whose reader is dropped; the one around it goes on as it was.
    pub fn leave(&mut self)
        requires { 0 < length self.old.include_stack }
        ensures { self.new ≡ record self.old { include_stack = drop 1 self.old.include_stack } }
    {
        let at = self.first;
        let buffer = &mut self.slots[at].buffer;
        buffer.close();
        buffer.facts();
        self.first = at + 1;
    }

    /// Leaves all sources, the innermost first: none is open.
    pub fn clear(&mut self)
        ensures { self.new ≡ record self.old { include_stack = [] } }
    {
        while self.len() > 0 {
            self.leave();
        }
    }

    /// Fills the buffer of the innermost source with at least one whole line within the limits, where no byte is held, or tells
    /// why there is none: the end of the text, a line that breaks it, or a read that failed, after which nothing is lost. Reads
    /// only where no byte is held.
    ///
    /// # Rules
    ///
    /// A line has at most as many bytes as the buffer, with its LF, and all lines of a source together at
    /// most as many as it was opened with; the last line needs no LF (this project's profile).
    pub fn fill<S: Sources<Reader = R>>(&mut self, sources: &mut S) -> Fill
        requires { 0 < length self.old.include_stack }
        ensures only { self.new ≡ record self.old { include_stack = with_buffer (inner_buffer self.new.include_stack) self.old.include_stack } }
        ensures fills { Fills (S.has_known_texts sources.old) S.unread result (inner_buffer self.old.include_stack) (inner_buffer self.new.include_stack) }
        ensures call { SourcesRead S.Sources (is_failed result) sources.old sources.new }
    {
        if !self.file().buffer.held().is_empty() {
            return Fill::Held;
        }
        let at = self.first;
        let buffer = &mut self.slots[at].buffer;
        let fill = take_lines(buffer, sources);
        buffer.facts();
        fill
    }

    /// Takes in the logical line at the front of what is held of the innermost source, as
    /// `hold_logical_line` does.
    pub fn hold_line<S: Sources<Reader = R>>(&mut self, sources: &mut S) -> LogicalLine
        requires { 0 < length self.old.include_stack }
        ensures only { self.new ≡ record self.old { include_stack = with_buffer (inner_buffer self.new.include_stack) self.old.include_stack } }
        ensures holds { HoldsLine (S.has_known_texts sources.old) S.unread result (inner_buffer self.old.include_stack) (inner_buffer self.new.include_stack) }
        ensures call { SourcesRead S.Sources (is_failed_line result) sources.old sources.new }
    {
        let at = self.first;
        let buffer = &mut self.slots[at].buffer;
        let line = hold_logical_line(buffer, sources);
        buffer.facts();
        line
    }

    /// Uses `len` held bytes of the innermost source, which have `lines` line ends, and answers where in
    /// what is held they begin.
    pub fn consume(&mut self, len: usize, lines: usize) -> usize
        requires some { 0 < length self.old.include_stack }
        requires inside { len ≤ length (held_of (inner_buffer self.old.include_stack)) }
        requires lines { lines ≤ len }
        ensures start { result ≡ (inner_buffer self.old.include_stack).at }
        ensures used { self.new ≡ record self.old { include_stack = with_inner (consumed_file len lines) self.old.include_stack } }
    {
        let at = self.first;
        let file = &mut self.slots[at];
        let start = file.consume(len, lines);
        file.buffer.facts();
        start
    }

    /// Changes whether the next byte of the innermost source stands in a string or in a comment, at a
    /// token on its line.
    pub fn enter_mode(&mut self, next: Mode)
        requires { 0 < length self.old.include_stack }
        ensures { self.new ≡ record self.old { include_stack = with_buffer (entered_mode (inner_buffer self.old.include_stack) next) self.old.include_stack } }
    {
        let at = self.first;
        let buffer = &mut self.slots[at].buffer;
        buffer.enter_mode(next);
        buffer.facts();
    }

    /// Gives the innermost source another name to show, and from a physical line on other numbers
    /// (IEEE 1364-2001, `line`).
    pub fn renumber(&mut self, from: u64, number: u64, name: ArrayString<1024>)
        requires some { 0 < length self.old.include_stack }
        requires number { number < 2 ^ 32 }
        ensures { self.new ≡ record self.old { include_stack = with_inner (λ f. record f { name = name; shift = record { from = from; number = number } }) self.old.include_stack } }
    {
        let at = self.first;
        let file = &mut self.slots[at];
        file.name = name;
        file.shift = Shift { from, number };
    }

    /// How many bytes of the texts of the open sources are held.
    pub fn held_len(&self) -> usize
        requires { self.now.slots * self.now.line_bytes < 2 ^ 64 }
        ensures { result ≡ held_bytes self.now.include_stack }
    {
        let mut len = 0;
        for file in &self.slots[self.first..] {
            len += file.buffer.len();
        }
        len
    }

    /// How many bytes of texts there is memory for, of all slots: one line for each, however many sources are open.
    pub fn capacity(&self) -> usize
        requires { self.now.slots * self.now.line_bytes < 2 ^ 64 }
        ensures { result ≡ self.now.slots * self.now.line_bytes }
    {
        let mut bytes = 0;
        for file in &self.slots {
            bytes += file.buffer.capacity();
        }
        bytes
    }

    /// What always holds of the open sources.
    pub fn facts(&self)
        ensures { AreOpen self.now }
    {
        let _first = self.first;
    }
}
