//! The line map: for each line of the output the place of its first byte, in runs.
ghost use Rattle.std.specs.Prelude.{◌≡◌, ◌≤◌, [], None, length};
ghost use Rattle.rdlpp_meaning.specs.Output.{name_cut};
ghost use Rattle.rdlpp_reports.specs.Lines.{added, ends_run, finished, follows, gone_on, map_start, may_step, next_line, no_lines, run_bytes, run_view, step_bytes, step_to, with_step};
ghost use Rattle.rdlpp_reports.specs.Writes.{Writes};

use crate::writing::{write_parts, write_whole};
use arrayvec::ArrayString;
use itoa::Buffer;
use rdlpp_state::{LineStep, Placed, Position};
use std::io::{self, Write};
use std::marker::Model;

// How many bytes of a name are told at most.
const NAME_BYTES: usize = 1_024;

/// Lines of the output whose places follow each other: the first one has the place `name:line`, and each later one that of the
/// line before it, or the line after that.
#[derive(Clone, Copy)]
pub struct LineRun {
    /// The first line of the output, counted from 1.
    pub out: u64,
    /// The shown line of its first byte.
    pub line: u64,
    /// How the places go on; none where the run has one line.
    pub step: Option<LineStep>,
    /// The shown name, of at most 1,024 bytes.
    pub name: ArrayString<1024>,
}

impl Model for MappedLines {
    ghost use Rattle.rdlpp_reports.specs.Lines.{LinesView, RunView};

    ghost Value = { LinesView };

    ghost view = { λ m. record {
      begun = m.begun;
      lines = m.lines;
      has_run = m.has_run;
      run = record { out = m.run.out; line = m.run.line; step = m.run.step; name = m.run.name.bytes };
      last = m.last;
      ended = record { out = m.ended.out; line = m.ended.line; step = m.ended.step; name = m.ended.name.bytes };
    } };
}

impl LineRun {
    // No lines.
    fn new() -> LineRun
        ensures { run_view result ≡ record { out = 0; line = 0; step = None; name = [] } }
    {
        LineRun {
            out: 0,
            line: 0,
            step: None,
            name: ArrayString::new(),
        }
    }
}

/// Makes the line map of an output out of its pieces and their places, and keeps the last run only.
///
/// The place of a line is that of its first byte. Runs are as long as can be, read from the first line on. Numbers stay at
/// `u64::MAX` where they would pass it.
#[derive(Drop)]
pub struct MappedLines {
    // whether the line at hand has a byte
    begun: bool,
    // how many lines were begun
    lines: u64,
    // whether there is a last run
    has_run: bool,
    run: LineRun,
    // the shown line of the last line of the run
    last: u64,
    // the run that ended last
    ended: LineRun,
}

impl MappedLines {
    /// No lines.
    pub fn new() -> MappedLines
        ensures { result ≡ no_lines }
    {
        MappedLines {
            begun: false,
            lines: 0,
            has_run: false,
            run: LineRun::new(),
            last: 0,
            ended: LineRun::new(),
        }
    }

    /// Takes the next piece of the output, and asks for the place of its first byte where a line begins in it. Answers whether a
    /// run ended, which is then `ended`: a piece ends one at most.
    pub fn take<P: Placed>(&mut self, piece: &[u8], placed: &P) -> bool {
        let Some(last) = piece.last() else {
            return false;
        };
        let line_ends = placed.line_ends(piece);
        let is_first = !self.begun;
        self.begun = *last != b'\n';
        let more = if self.begun {
            line_ends
        } else {
            line_ends.saturating_sub(1)
        };
        if more == 0 && !is_first {
            return false;
        }
        self.begin_lines(is_first, more, placed)
    }

    /// Takes away the last run, which ends with the output. Answers whether there was one, which is then `ended`.
    pub fn finish(&mut self) -> bool
        ensures run { result ≡ self.old.has_run }
        ensures new { self.new ≡ finished self.old }
    {
        let is_ended = self.has_run;
        self.has_run = false;
        if is_ended {
            self.ended = self.run;
        }
        is_ended
    }

    /// The run that ended last.
    pub fn ended(&self) -> &LineRun
        ensures { run_view result.now ≡ self.now.ended }
    {
        &self.ended
    }

    // Adds the lines that begin in a piece: one at its first byte, where it is the first of a line, and so many after it. Answers
    // whether a run ended. It stands apart, so that a piece in which no line begins passes none of it.
    #[inline(never)]
    fn begin_lines<P: Placed>(&mut self, is_first: bool, more: u64, placed: &P) -> bool {
        let position = placed.place();
        let ends_first = is_first && self.add_line(position.name, position.line);
        let ends_later = more > 0 && self.add_lines(&position, more);
        ends_first || ends_later
    }

    // Adds so many lines, of which the first one's place is the line after a position by its step. Answers whether a run ended.
    #[inline(always)]
    fn add_lines(&mut self, position: &Position<'_>, count: u64) -> bool {
        let name = position.name;
        let step = position.step;
        let mut line = next_line(position.line, step);
        let mut left = count;
        while left > 0 {
            if self.follows(name, line, step) {
                self.go_on(step, left);
                return false;
            }
            left -= 1;
            if self.add_line(name, line) {
                self.go_on(step, left);
                return true;
            }
            line = next_line(line, step);
        }
        false
    }

    // Adds a line. Answers whether the last run ended, as the line isn't of it.
    fn add_line(&mut self, name: &str, line: u64) -> bool
        ensures new { self.new ≡ added self.old (record { name = name.now; line = line }) }
        ensures run { result ≡ ends_run self.old (record { name = name.now; line = line }) }
    {
        self.lines = self.lines.saturating_add(1);
        if let Some(step) = self.step_to(name, line) {
            self.run.step = Some(step);
            self.last = line;
            return false;
        }
        self.start_run(name, line)
    }

    // Begins a run with the line that was counted last. Answers whether a run ended.
    #[cold]
    #[inline(never)]
    fn start_run(&mut self, name: &str, line: u64) -> bool
        ensures new { self.new ≡ with_step self.old (record { name = name.now; line = line }) None }
        ensures run { result ≡ self.old.has_run }
    {
        let is_ended = self.has_run;
        if is_ended {
            self.ended = self.run;
        }
        self.has_run = true;
        self.run.out = self.lines;
        self.run.line = line;
        self.run.step = None;
        self.run.name.clear();
        self.run.name.push_str(shown_name(name));
        self.last = line;
        is_ended
    }

    // The step by which a line goes on the last run, if it does.
    fn step_to(&self, name: &str, line: u64) -> Option<LineStep>
        ensures { result ≡ step_to self.now (record { name = name.now; line = line }) }
    {
        if self.follows(name, line, LineStep::Next) {
            return Some(LineStep::Next);
        }
        if self.follows(name, line, LineStep::Same) {
            return Some(LineStep::Same);
        }
        None
    }

    // Whether a line goes on the last run by a step.
    #[inline(always)]
    fn follows(&self, name: &str, line: u64, step: LineStep) -> bool
        ensures { result ≡ follows self.now (record { name = name.now; line = line }) step }
    {
        self.has_run
            && line == next_line(self.last, step)
            && may_step(self.run.step, step)
            && self.run.name.as_bytes() == shown_name(name).as_bytes()
    }

    // Adds so many lines that go on the last run by a step.
    fn go_on(&mut self, step: LineStep, count: u64)
        ensures { self.new ≡ gone_on self.old step count }
    {
        if count == 0 {
            return;
        }
        self.run.step = Some(step);
        self.lines = self.lines.saturating_add(count);
        if step == LineStep::Next {
            self.last = self.last.saturating_add(count);
        }
    }
}

// The first 1,024 bytes of a name, or fewer at a character's boundary.
fn shown_name(name: &str) -> &str
    ensures value { result.now ≡ name_cut name.now }
    ensures bound { length result.now ≤ 1024 }
{
    let len = name.floor_char_boundary(NAME_BYTES);
    &name[..len]
}

// Whether a run may go on by a step.
fn may_step(own: Option<LineStep>, step: LineStep) -> bool
    ensures { result ≡ may_step own step }
{
    match own {
        Some(other) => other == step,
        None => true,
    }
}

// The line after a line by a step.
fn next_line(line: u64, step: LineStep) -> u64
    ensures { result ≡ next_line line step }
{
    match step {
        LineStep::Next => line.saturating_add(1),
        LineStep::Same => line,
    }
}

/// Writes the first line of a line map file.
///
/// # Errors
/// As of `write_whole`; the first bytes of the line, or none, are then written.
pub fn write_map_start<W: Write>(writer: &mut W) -> io::Result<()>
    ensures { Writes (W.contents writer.old) (W.contents writer.new) map_start result }
{
    write_whole(b"# rdlpp line map 1\n", writer)
}

/// Writes a run as a line of a line map file: the output's line, the shown line, how many lines each later one is after the one
/// before it, 1 or 0, and the shown name, with a tab between them.
///
/// # Errors
/// As of `write_whole`; the first bytes of the line, or none, are then written.
#[inline(never)]
pub fn write_run<W: Write>(run: &LineRun, writer: &mut W) -> io::Result<()>
    ensures { Writes (W.contents writer.old) (W.contents writer.new) (run_bytes (run_view run.now)) result }
{
    let mut out = Buffer::new();
    let mut line = Buffer::new();
    let step = step_text(&run.step);
    let parts = [
        out.format(run.out).as_bytes(),
        b"\t",
        line.format(run.line).as_bytes(),
        step.as_bytes(),
        run.name.as_bytes(),
        b"\n",
    ];
    write_parts(&parts, writer)
}

// The mark of a step.
fn step_text(step: &Option<LineStep>) -> &str
    ensures { result.now ≡ step_bytes step.now }
{
    match step {
        Some(LineStep::Same) => "\t0\t",
        Some(LineStep::Next) => "\t1\t",
        None => "\t1\t",
    }
}
