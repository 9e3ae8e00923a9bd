// What a handle owns, and how a read of it is told.
ghost use Rattle.std.specs.Prelude.{◌≡◌, ◌≤◌, true, length};
ghost use Rattle.std.specs.Option.{option_map};
ghost use Rattle.rdlpp_meaning.specs.Outcome.{report_of};
ghost use Rattle.rdlpp_source.specs.Asked.{wanted_of};
ghost use Rattle.rdlpp_state.specs.Marks.{told_position};
ghost use Rattle.rdlpp_state.specs.Positions.{position_of};
ghost use Rattle.rdlpp_expand.specs.Reading.{ended_with};
ghost use Rattle.rdlpp_c.specs.Placing.{part_position, stream_place};
ghost use Rattle.rdlpp_c.specs.Reopening.{IsUnread, no_part};
ghost use Rattle.rdlpp_c.specs.Streaming.{IsQuiet, ReadsBytes, ReadsPiece, ReadsStream, StaysQuiet, TakesUp, TellsRead, read_wanted, stream_fault};

use crate::once::Once;
use crate::telling::{MORE, Outcome, STOPPED, WANTED, WHOLE, numbered, tell_text};
use arrayvec::ArrayString;
use rdlpp::{Fault, FaultKind, Limits, ReadEnd, ReadPart, Reading};
use rdlpp_expand::{LineStep, Position, READ_ALLOWANCE};
use rdlpp_reports::MappedLines;
use rdlpp_scan::line_ends_in;
use rdlpp_source::{AskedTexts, Sources};
use std::alloc::Global;

/// An output that is read piece by piece, over texts that it owns.
#[derive(Drop)]
pub struct Stream {
    pub(crate) reading: Reading<AskedTexts>,
    // the path of the main text
    path: String,
    // the marks of the texts that were given once
    pub(crate) once: Once,
    // the path that was asked for when another text was given of it than before
    pub(crate) changed: Option<ArrayString<1024>>,
    // the parts so far of the text that is given next
    pub(crate) parts: Vec<u8>,
    // whether a read ends with its piece
    pieces: bool,
    // what the last read gave of its piece
    pub(crate) part: Part,
    // the lines that mapped reads gave
    pub(crate) lines: MappedLines,
}

// A part of a piece that a read gave.
#[derive(Clone, Copy)]
pub(crate) struct Part {
    // the LF bytes of the piece in front of it
    lines_before: u64,
    // its LF bytes
    lines: u64,
    // whether it has no bytes
    is_empty: bool,
}

impl Part {
    // What is given before the first read.
    fn none() -> Part
        ensures { result ≡ no_part }
    {
        Part {
            lines_before: 0,
            lines: 0,
            is_empty: true,
        }
    }
}

impl Stream {
    // An output of which nothing was read.
    pub(crate) fn of(
        alloc: Global,
        reading: Reading<AskedTexts>,
        path: String,
        pieces: bool,
    ) -> Stream
        ensures reading { result.reading ≡ reading }
        ensures path { result.path ≡ path }
        ensures pieces { result.pieces ≡ pieces }
        ensures unread { IsUnread result }
    {
        Stream {
            reading,
            path,
            once: Once::empty(alloc),
            changed: None,
            parts: Vec::new(alloc),
            pieces,
            part: Part::none(),
            lines: MappedLines::new(),
        }
    }

    // Is an output of which nothing was read, of another main text that its reading has opened.
    pub(crate) fn begin(&mut self, alloc: Global, path: String, pieces: bool)
        ensures reading { self.new.reading ≡ self.old.reading }
        ensures path { self.new.path ≡ path }
        ensures pieces { self.new.pieces ≡ pieces }
        ensures unread { IsUnread self.new }
    {
        self.path = path;
        self.once = Once::empty(alloc);
        self.changed = None;
        self.parts = Vec::new(alloc);
        self.pieces = pieces;
        self.part = Part::none();
        self.lines = MappedLines::new();
    }

    // Whether it was opened by these limits.
    pub(crate) fn has_limits(&self, limits: &Limits) -> bool
        ensures { result ≡ true → self.now.reading.engine.limits ≡ limits.now }
    {
        *self.reading.engine().limits() == *limits
    }

    // Searches again for what was asked for.
    pub(crate) fn take_up(&mut self)
        ensures { TakesUp (wanted_of self.old.reading.engine.sources) self.old self.new }
    {
        if self.reading.engine().sources().wanted.is_some() {
            // The search that asked is made once more: that of an `include`, or that of the main text.
            self.reading.retry();
            let _started = self.reading.start_again(self.path.as_str());
        }
    }

    // Reads the next bytes.
    fn read(&mut self, out: &mut [u8]) -> ReadPart
        ensures { ReadsBytes self.old.pieces self.old self.new out.old out.new result.len result.ending }
    {
        if self.pieces {
            let mut left = READ_ALLOWANCE;
            self.read_piece(out, &mut left)
        } else {
            self.reading.read(out)
        }
    }

    // Reads the next bytes of one piece, by what is left for steps without bytes, and counts their lines.
    #[tactic(auto, unfolding(rdlpp_scan::specs::SourceTokens::line_ends, rdlpp_scan::specs::Bytes::is_line_end))]
    pub(crate) fn read_piece(&mut self, out: &mut [u8], left: &mut usize) -> ReadPart
        requires { left.old ≤ 65535 }
        ensures piece { ReadsPiece self.old self.new out.old out.new result.len result.ending }
        ensures inside { result.len ≤ length out.new }
        ensures left { left.new ≤ left.old }
    {
        let is_next = self.reading.rest_len() == 0;
        let part = self.reading.read_piece_within(out, left);
        self.part = Part {
            lines_before: if is_next {
                0
            } else {
                self.part.lines_before.saturating_add(self.part.lines)
            },
            lines: line_ends_in(&out[..part.len]) as u64,
            is_empty: part.len == 0,
        };
        part
    }

    // The place of what the last read gave, where reads end with their pieces.
    pub(crate) fn place(&self) -> Option<Position<'_>>
        ensures { told_position result ≡ stream_place self.now }
    {
        if !self.pieces {
            return None;
        }
        part_place(&self.reading, &self.part)
    }

    // The path that is asked for, where a read ended with a search that asked.
    #[tactic(auto, unfolding(rdlpp_meaning::specs::Outcome::report_of, rdlpp_state::specs::Steps::is_read_failed))]
    pub(crate) fn wanted(&self, ending: Option<ReadEnd>) -> Option<&ArrayString<1024>>
        ensures { option_map (λ path. path.now.bytes) result ≡ read_wanted (ended_with ending self.now.reading.engine.kept) self.now.reading.engine.sources }
    {
        let wanted = self.reading.engine().sources().wanted.as_ref()?;
        match ended_fault(&self.reading, ending) {
            Some(fault) => {
                if fault.kind == FaultKind::ReadFailed {
                    Some(wanted)
                } else {
                    None
                }
            }
            None => None,
        }
    }

    // The fault that ended the output, if one did: none where a source is asked for.
    pub(crate) fn fault(&self) -> Option<Fault>
        ensures { option_map report_of result ≡ stream_fault self.now }
    {
        match self.wanted(Some(ReadEnd::Stopped)) {
            Some(_) => None,
            None => self.reading.fault(),
        }
    }
}

// The place of a part of the piece that was lent last, where it has bytes.
pub(crate) fn part_place<'a>(reading: &'a Reading<AskedTexts>, part: &Part) -> Option<Position<'a>>
    ensures { told_position result ≡ part_position part.now.is_empty part.now.lines_before (position_of reading.now.engine) }
{
    if part.is_empty {
        return None;
    }
    let place = reading.engine().position()?;
    let passed = match place.step {
        LineStep::Next => part.lines_before,
        LineStep::Same => 0,
    };
    Some(Position {
        name: place.name,
        line: place.line.saturating_add(passed),
        step: place.step,
    })
}

// The fault that a read ended with, if it did.
pub(crate) fn ended_fault<S: Sources>(
    reading: &Reading<S>,
    ending: Option<ReadEnd>,
) -> Option<Fault>
    ensures { option_map report_of result ≡ ended_with ending reading.now.engine.kept }
{
    match ending {
        Some(ReadEnd::Stopped) => reading.fault(),
        Some(ReadEnd::Finished) => None,
        None => None,
    }
}

// Reads the next bytes of an output, and tells how that ended.
pub(crate) fn read_stream(
    stream: &mut Stream,
    out: &mut [u8],
    name: &mut [u8],
    word: &mut [u8],
) -> Outcome
    ensures reads { ReadsStream (record { out = out.old; name = name.old; word = word.old }) (record { out = out.new; name = name.new; word = word.new }) stream.old stream.new result }
    ensures quiet { IsQuiet stream.old.reading.engine → StaysQuiet stream.new result }
{
    stream.take_up();
    let part = stream.read(out);
    told_read(stream, &part, name, word)
}

// Tells what a read gave, and how it ended.
#[tactic(auto, unfolding(rdlpp_meaning::specs::Outcome::report_of))]
pub(crate) fn told_read(
    stream: &Stream,
    part: &ReadPart,
    name: &mut [u8],
    word: &mut [u8],
) -> Outcome
    ensures { TellsRead part.now.len part.now.ending (ended_with part.now.ending stream.now.reading.engine.kept)
        (read_wanted (ended_with part.now.ending stream.now.reading.engine.kept) stream.now.reading.engine.sources)
        (record { name = name.old; word = word.old }) (record { name = name.new; word = word.new }) result }
{
    if let Some(path) = stream.wanted(part.ending) {
        return Outcome {
            length: part.len as u64,
            name_length: tell_text(path.as_bytes(), name),
            ..numbered(WANTED, 0)
        };
    }
    match ended_fault(&stream.reading, part.ending) {
        Some(fault) => Outcome {
            status: STOPPED,
            number: fault.kind.number(),
            line: fault.line,
            length: part.len as u64,
            name_length: tell_text(fault.name.as_bytes(), name),
            word_length: tell_text(fault.word.as_bytes(), word),
        },
        None => Outcome {
            length: part.len as u64,
            ..numbered(if part.ending.is_none() { MORE } else { WHOLE }, 0)
        },
    }
}
