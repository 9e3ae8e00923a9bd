// Where pieces of the output stand in the sources.
ghost use Rattle.std.specs.Prelude.{◌≡◌, ◌<◌, ◌^◌};
ghost use Rattle.rdlpp_read.specs.Files.{shift_of};
ghost use Rattle.rdlpp_state.specs.Marks.{ends_line, lends_line, lends_pending, lends_usage, lent_line, marked_place, no_marks, told_position};

use crate::pending::Pending;
use arrayvec::ArrayString;
use rdlpp_read::Shift;
use std::marker::Model;

/// How the lines of a piece go on after its first byte.
#[derive(Clone, Copy, Debug, PartialEq, Eq)]
pub enum LineStep {
    /// Each LF byte of the piece begins the next line of its source.
    Next,
    /// All of the piece stands at one place.
    Same,
}

/// The place of the first byte of a piece: the one that a fault there would name.
#[derive(Clone, Copy, Debug, PartialEq, Eq)]
pub struct Position<'a> {
    /// The name that the source shows.
    pub name: &'a str,
    /// The line that the source shows, counted from 1.
    pub line: u64,
    /// How the lines go on after the first byte.
    pub step: LineStep,
}

/// What an open source shows.
#[derive(Clone, Copy, Debug)]
pub struct OpenSource<'a> {
    /// The name that it shows.
    pub name: &'a str,
    /// The number that the line of its next byte shows.
    pub line: u64,
}

// Where the piece begins that was lent last.
#[derive(Clone, Copy)]
enum Lent {
    // No piece was lent.
    Nothing,
    // On a physical line of the innermost source.
    Line(u64),
    // In a usage whose backquote stands on a physical line of the innermost source.
    Usage(u64),
    // After a `line` or after an included source.
    Ending,
    // In an origin line with a number.
    Origin(u64),
}

/// Where the piece stands that was lent last, and the LF that is pending after a `line` or after an
/// included source.
#[derive(Drop)]
pub struct Marks {
    lent: Lent,
    // whether the LF that is pending stands after a `line` or after an included source
    ending: bool,
    // the name and the line that such an LF shows
    name: ArrayString<1024>,
    line: u64,
}

impl Model for Marks {
    ghost use Rattle.rdlpp_state.specs.Marks.{MarksView, IsLineCounted};

    ghost Value = { MarksView };

    ghost view = { λ m. record { lent = m.lent; ending = m.ending; name = m.name.bytes; line = m.line } };

    ghost invariant = { λ m. IsLineCounted m.lent };
}

impl Marks {
    /// Those of an engine that has lent nothing.
    #[tactic(auto, unfolding(crate::specs::Marks::no_marks))]
    pub fn new() -> Self
        ensures { result ≡ no_marks }
    {
        Marks {
            lent: Lent::Nothing,
            ending: false,
            name: ArrayString::new(),
            line: 0,
        }
    }

    /// They are those of an engine that has lent nothing.
    #[tactic(auto, unfolding(crate::specs::Marks::no_marks))]
    pub fn clear(&mut self)
        ensures { self.new ≡ no_marks }
    {
        self.lent = Lent::Nothing;
        self.ending = false;
        self.name.clear();
        self.line = 0;
    }

    /// A piece is lent that begins on a physical line of the innermost source.
    #[tactic(auto, unfolding(crate::specs::Marks::lends_line))]
    pub fn lend_line(&mut self, line: u64)
        requires { line < 2 ^ 63 }
        ensures { self.new ≡ lends_line line self.old }
    {
        self.lent = Lent::Line(line);
    }

    /// A piece is lent that comes of a usage whose backquote stands on a physical line of the innermost
    /// source.
    #[tactic(auto, unfolding(crate::specs::Marks::lends_usage))]
    pub fn lend_usage(&mut self, line: u64)
        requires { line < 2 ^ 63 }
        ensures { self.new ≡ lends_usage line self.old }
    {
        self.lent = Lent::Usage(line);
    }

    /// The first piece of what is pending is lent, where the innermost source stands on a physical line;
    /// nothing changes where nothing is pending.
    #[tactic(auto, unfolding(crate::specs::Marks::lends_pending))]
    pub fn lend_pending(&mut self, pending: &Pending, line: u64)
        requires { line < 2 ^ 63 }
        ensures { self.new ≡ lends_pending pending.now line self.old }
    {
        let line_ends = pending.line_ends();
        if line_ends == 0 {
            if let Some(number) = pending.origin_number() {
                self.lent = Lent::Origin(number);
            }
            return;
        }
        if self.ending {
            self.lent = Lent::Ending;
            self.ending = false;
            return;
        }
        self.lent = Lent::Line(line.saturating_sub(line_ends as u64));
    }

    /// So many LF bytes are pending after a `line` or after an included source, at most one, which show a
    /// name and a line.
    #[tactic(auto, unfolding(crate::specs::Marks::ends_line))]
    pub fn end_line(&mut self, line_ends: usize, name: &ArrayString<1024>, line: u64)
        ensures { self.new ≡ ends_line line_ends name.now.bytes line self.old }
    {
        self.ending = line_ends != 0;
        self.name = *name;
        self.line = line;
    }

    /// The physical line of the innermost source on which the piece begins that was lent last, where it is text of that source
    /// or the LF bytes that end lines of it.
    pub fn source_line(&self) -> Option<u64>
        ensures { result ≡ lent_line self.now.lent }
    {
        match self.lent {
            Lent::Line(line) => Some(line),
            _ => None,
        }
    }

    /// The place of the piece that was lent last, where the innermost source shows a name and numbers its
    /// lines.
    #[tactic(auto, unfolding(crate::specs::Marks::marked_place))]
    pub fn position<'a>(&'a self, name: &'a str, shift: &Shift) -> Option<Position<'a>>
        requires { shift.now.number < 2 ^ 32 }
        ensures { told_position result ≡ marked_place self.now name.now (shift_of shift.now) }
    {
        match self.lent {
            Lent::Nothing => None,
            Lent::Line(line) => Some(Position {
                name,
                line: shift.shown_line(line),
                step: LineStep::Next,
            }),
            Lent::Usage(line) => Some(Position {
                name,
                line: shift.shown_line(line),
                step: LineStep::Same,
            }),
            Lent::Ending => Some(Position {
                name: self.name.as_str(),
                line: self.line,
                step: LineStep::Next,
            }),
            Lent::Origin(number) => Some(Position {
                name,
                line: number,
                step: LineStep::Same,
            }),
        }
    }
}
