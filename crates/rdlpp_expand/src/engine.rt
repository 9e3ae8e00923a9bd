// The engine: it reads sources by lines, expands usages, and lends its output piece by piece.
ghost use Rattle.std.specs.Prelude.{◌≡◌, ◌↔◌, ℕ, ◌+◌, ◌-◌, ◌^◌, ◌≤◌, ◌<◌, true, false, [], List, length, take, drop, Option, None, Some, Result, Ok, IfSome, IfOk, IfErr, IsTrue, not};
ghost use Rattle.std.specs.Borrow.{sem};
ghost use Rattle.std.specs.Option.{option_map};
ghost use Rattle.std.specs.Io.BufRead.{Rests};
ghost use Rattle.rdlpp_scan.specs.Names.{IsWordBytes};
ghost use Rattle.rdlpp_scan.specs.SourceTokens.{logical_len};
ghost use Rattle.rdlpp_scan.specs.declared.token.Directive.TheVariants.{Define, Undef};
ghost use Rattle.rdlpp_meaning.specs.Outcome.{Report, report_of};
ghost use Rattle.rdlpp_meaning.specs.State.{fault_at};
ghost use Rattle.rdlpp_read.specs.Buffer.{entered_mode, held_of, reading_line_of};
ghost use Rattle.rdlpp_read.specs.Calls.{SourcesRead};
ghost use Rattle.rdlpp_read.specs.Files.{AreOpen, consumed_file, inner_buffer, with_buffer, with_inner};
ghost use Rattle.rdlpp_read.specs.LogicalLines.{HoldsLine, is_failed_line};
ghost use Rattle.rdlpp_texts.specs.Places.{IsPlaced as IsTextPlaced, place_bytes};
ghost use Rattle.rdlpp_front.specs.SourceItems.{IsDirective, IsNamed, IsText};
ghost use Rattle.rdlpp_usages.specs.Usages.{IsRoomy};
ghost use Rattle.rdlpp_state.specs.Conditionals.{unclosed_fault};
ghost use Rattle.rdlpp_state.specs.Engine.{AreOpenTexts, EngineView, IsSoundEngine};
ghost use Rattle.rdlpp_state.specs.Held.{HoldsDefinitions, IsBounded, bound_of, held_told};
ghost use Rattle.rdlpp_state.specs.Moves.{Ends, IsReady, IsDrained, LooksAtName, ReadsDefine};
ghost use Rattle.rdlpp_state.specs.OpenConditionals.{inner_below};
ghost use Rattle.rdlpp_state.specs.Pending.{nothing_pending};
ghost use Rattle.rdlpp_state.specs.Pieces.{IsPlaced, Lends, answer_of, halted_answer, held_texts, lent_answer, silent_answer, step_answer};
ghost use Rattle.rdlpp_state.specs.Stored.{LetsGo};
ghost use Rattle.rdlpp_state.specs.Remaining.{output_fault, state_of};
ghost use Rattle.rdlpp_expand.specs.Run.{write_fault};
ghost use Rattle.rdlpp_expand.specs.Texts.{IsInTexts, further_parts};
ghost use Rattle.rdlpp_state.specs.Steps.{IsStarted, Step, UncutStep, UncutStepWithin, is_write_failed};
ghost use Rattle.rdlpp_state.specs.Silences.{most_silent};
ghost use Rattle.rdlpp_expand.specs.contracts.engine.Engine.{the_row};

mod asking;
mod conditional;
mod costs;
mod fronts;
mod include;
mod line;
mod looking;
mod opening;
mod positions;
mod renewing;
mod skipping;
mod texts;
mod usage;

use arrayvec::ArrayString;
use fronts::location_of;
use rdlpp_define::{Limits, word_of};
use rdlpp_front::{Argument, SourceItem, next_item};
use rdlpp_meaning::{Fault, FaultKind};
use rdlpp_read::{Conditions, Files, Fill, LogicalLine};
use rdlpp_scan::{Directive, Mode, line_ends_in, reserved};
use rdlpp_source::Sources;
use rdlpp_state::{
    Halt, Held, Marks, Pending, PendingPart, PendingPiece, Phase, Piece, PieceLocation, copied,
    copied_fault, fault_kind,
};
use rdlpp_table::Table;
use rdlpp_texts::{CursorFault, TextPlace};
use rdlpp_usages::Expansion;
use std::alloc::Global;
use std::marker::Model;
pub(crate) use texts::TextStep;

/// What the steps that come to no bytes may cost in one read, or in one call of `Engine::next`, before one more: a step over open
/// texts costs 1, the opening of a usage 16, and another one, which may take a line, 256. Each byte of a `define`, of what is kept of
/// a call, and of a call in macro text costs 1 more; of skipped text, which is passed faster, each fourth one.
pub const READ_ALLOWANCE: usize = 65_535;

// No bytes, as of no LF bytes that are pending.
const NO_BYTES: PendingPiece = PendingPiece {
    part: PendingPart::LineEnds,
    len: 0,
};

/// Preprocesses one main text of its sources.
#[derive(Drop)]
pub struct Engine<S: Sources> {
    limits: Limits,
    origins: bool,
    phase: Phase,
    // how many bytes of output may still be lent
    quota: u64,
    kept: Option<Fault>,
    // the path that was asked for, cut to 1,024 bytes or fewer at a character's boundary
    main: ArrayString<1024>,
    pending: Pending,
    // where the piece stands that was lent last
    marks: Marks,
    // how many bytes were taken of a `define` or of skipped text, whose cost isn't counted yet
    taken: usize,
    // the physical line of the `define` that was read last, until it is told
    defined: Option<u64>,
    table: Table,
    conditions: Conditions,
    sources: S,
    expansion: Expansion,
    // Dropped last, and made first: `Engine::new` says why.
    files: Files<S::Reader>,
}

impl<S: Sources> Model for Engine<S> {
    ghost use Rattle.std.specs.Option.{option_map};
    ghost use Rattle.rdlpp_meaning.specs.Outcome.{report_of};
    ghost use Rattle.rdlpp_state.specs.Engine.{EngineView, IsWholeEngine};

    ghost Value = { EngineView S S.Reader };

    ghost view = { λ e. record {
      limits = e.limits;
      origins = e.origins;
      phase = e.phase;
      quota = e.quota;
      kept = option_map report_of e.kept;
      main = e.main.bytes;
      pending = e.pending;
      marks = e.marks;
      table = e.table;
      conditions = e.conditions;
      sources = e.sources;
      files = e.files;
      expansion = e.expansion;
    } };

    ghost invariant = { λ e. IsWholeEngine e.limits e.phase e.table e.files e.conditions e.expansion };
}

impl<S: Sources> Engine<S> {
    /// Whether the engine wasn't started yet.
    pub fn is_fresh(&self) -> bool
        ensures { IsTrue result ↔ (self.now.phase ≡ Phase.Fresh) }
    {
        self.phase == Phase::Fresh
    }

    /// What the engine holds. After the end of the output that is definitions alone.
    pub fn held(&self) -> Held
        ensures value { result ≡ held_told self.now }
        ensures bounded { IsBounded self.now }
        ensures closed { self.now.phase ≡ Phase.Closed → self.now.kept ≡ None → LetsGo self.now → HoldsDefinitions (held_told self.now) }
    {
        self.facts();
        Held {
            definitions: self.table.bytes().len(),
            arguments: self.expansion.arguments().len(),
            buffers: self.files.held_len(),
            cursors: self.expansion.len(),
            bindings: self.expansion.bound(),
            conditions: self.conditions.len(),
            sources: self.files.len(),
        }
    }

    /// How many bytes of definitions, of arguments and of sources the engine has memory for: as many as its limits allow,
    /// from the time when it is made, however many are held.
    pub fn capacity(&self) -> usize
        ensures { result ≡ bound_of self.now.limits }
    {
        self.table.capacity() + (self.expansion.capacity() + self.files.capacity())
    }

    /// The next piece of the output, or its end, or the fault that ends it, which the engine keeps.
    ///
    /// The engine must have been started. A fault is kept: every later call answers it again and
    /// changes nothing. After the end every later call answers the end. A piece may have no bytes:
    /// so is one that is lent where steps came to no bytes that cost more than `READ_ALLOWANCE`.
    pub fn next(&mut self) -> Result<Piece<'_>, &Fault>
        requires { IsStarted self.old }
        ensures* after { sem 𝓛 (Rests (the_row S.row S.Reader.row S.Sources) self.entry (λ new.
            Step S.Sources self.old new (answer_of result) × Lends new (answer_of result))) }
    {
        let mut left = READ_ALLOWANCE;
        let place = self.advance(&mut left);
        self.answer(place)
    }

    // The step of `next`: goes on to the next piece, cut to what the limit on the output leaves, and answers where it stands.
    // The steps on the way that come to no bytes are taken from what is left for them, and so is a text that is opened after the
    // piece. Where that is too little for a step, the piece is that of no LF bytes that are pending.
    pub(crate) fn advance(&mut self, left: &mut usize) -> PieceLocation
        requires started { IsStarted self.old }
        requires left { left.old ≤ 65535 }
        ensures place { IsPlaced self.new result }
        ensures left { left.new ≤ left.old }
        ensures steps { Step S.Sources self.old self.new (lent_answer self.new result) }
    {
        match self.walk(left) {
            Some(place) => self.clip_to_quota(place),
            None => {
                self.facts();
                PieceLocation::Pending(NO_BYTES)
            }
        }
    }

    // Cuts a piece, to which a walk has led, to what the limit on the output leaves.
    pub(crate) fn clip_to_quota(&mut self, place: PieceLocation) -> PieceLocation
        requires placed { IsPlaced self.old place }
        requires open { (lent : List ℕ) → lent_answer self.old place ≡ Ok (Some lent) → self.old.phase ≡ Phase.Open }
        ensures place { IsPlaced self.new result }
        ensures steps { (before : EngineView S S.Reader) → UncutStepWithin S.Sources most_silent before self.old (lent_answer self.old place) → Step S.Sources before self.new (lent_answer self.new result) }
    {
        match place {
            PieceLocation::Source(start, end) => {
                let len = self.charge_quota(end - start);
                PieceLocation::Source(start, start + len)
            }
            PieceLocation::Text(place) => {
                let len = self.charge_quota(place.end - place.from);
                PieceLocation::Text(TextPlace {
                    source: place.source,
                    from: place.from,
                    end: place.from + len,
                })
            }
            PieceLocation::Pending(piece) => {
                let len = self.charge_quota(piece.len);
                PieceLocation::Pending(piece.cut(len))
            }
            PieceLocation::Halt(halt) => PieceLocation::Halt(halt),
        }
    }

    // Takes so many bytes from what may still be lent, and answers how many of them may be.
    fn charge_quota(&mut self, len: usize) -> usize
        requires { self.old.phase ≡ Phase.Open }
        ensures fits { len ≤ self.old.quota → (result ≡ len) × (self.new ≡ record self.old { quota = self.old.quota - len }) }
        ensures passes { self.old.quota < len → (result ≡ self.old.quota) × (self.new ≡ record self.old { phase = Phase.OverLimit; quota = 0 }) }
    {
        if len as u64 <= self.quota {
            self.quota -= len as u64;
            return len;
        }
        let left = self.quota as usize;
        self.quota = 0;
        self.phase = Phase::OverLimit;
        left
    }

    // Goes on to the next piece, however many bytes may still be lent, and answers where it stands; none where too little is left
    // for the steps that come to no bytes.
    fn walk(&mut self, left: &mut usize) -> Option<PieceLocation>
        requires { IsStarted self.old }
        ensures place { IfSome result (IsPlaced self.new) }
        ensures left { left.new ≤ left.old }
        ensures uncut_step { UncutStepWithin S.Sources (left.old - left.new + 1) self.old self.new (step_answer self.new result) }
    {
        loop {
            let in_texts = self.is_in_texts();
            let depth = self.expansion.len();
            if let Some(place) = self.step(in_texts) {
                *left = left.saturating_sub(self.opened_bytes(depth));
                return Some(place);
            }
            let cost = self.cost(in_texts, depth);
            if *left < cost {
                return None;
            }
            *left -= cost;
        }
    }

    // Takes one step, over open texts or not, which may lend nothing.
    fn step(&mut self, in_texts: bool) -> Option<PieceLocation>
        requires started { IsStarted self.old }
        requires texts { IsTrue in_texts ↔ IsInTexts self.old }
        ensures place { IfSome result (IsPlaced self.new) }
        ensures uncut_step { UncutStepWithin S.Sources (further_parts in_texts) self.old self.new (step_answer self.new result) }
    {
        if !in_texts {
            return self.step_outside();
        }
        let step = self.step_text();
        self.facts();
        step.place()
    }

    // Takes one step that is none over the open texts of a usage; it may lend nothing.
    #[inline(always)]
    pub(crate) fn step_outside(&mut self) -> Option<PieceLocation>
        requires started { IsStarted self.old }
        requires outside { IsDrained self.old → self.old.expansion.opens ≡ [] }
        ensures place { IfSome result (IsPlaced self.new) }
        ensures uncut_step { UncutStepWithin S.Sources 1 self.old self.new (step_answer self.new result) }
    {
        self.facts();
        if self.kept.is_some() {
            return Some(PieceLocation::Halt(Halt::Fault));
        }
        if !self.is_open() {
            let halt = self.stop();
            self.facts();
            return Some(PieceLocation::Halt(halt));
        }
        if let Some(piece) = self.take_pending() {
            self.facts();
            return Some(PieceLocation::Pending(piece));
        }
        if self.files.file().buffer.held().is_empty() {
            if let Err(halt) = self.hold_bytes() {
                self.facts();
                return location_of(halt);
            }
        }
        let place = self.take_held();
        self.facts();
        place
    }

    // Why nothing more is lent of an engine that isn't open and keeps no fault: the output has ended, or more bytes are due than it may
    // have, which is a fault.
    #[cold]
    fn stop(&mut self) -> Halt
        requires started { IsStarted self.old }
        requires free { self.old.kept ≡ None }
        requires stopped { self.old.phase ≡ Phase.Open → ⊥ }
        ensures { IsBounded self.new → UncutStep S.Sources self.old self.new (halted_answer self.new result) }
    {
        match self.phase {
            Phase::OverLimit => {
                self.record_output_fault();
                Halt::Fault
            }
            _ => Halt::End,
        }
    }

    // Sees to it that bytes of the innermost source are held. An error is where that led in their place: the source has ended, or what
    // breaks it was refused. It stands apart, so that a step over what is held or pending has no more of it than the test.
    #[inline(never)]
    fn hold_bytes(&mut self) -> Result<(), Option<Halt>>
        requires { IsReady self.old }
        ensures ready { IfOk result (λ held. IsReady self.new) }
        ensures some { IfOk result (λ held. 0 < length (held_of (inner_buffer self.new.files.include_stack))) }
        ensures silent { IfOk result (λ held. (new : EngineView S S.Reader) → (answer : Result (Option (List ℕ)) Report) → UncutStep S.Sources self.new new answer → UncutStepWithin S.Sources 1 self.old new answer) }
        ensures uncut_step { IfErr result (λ halt. IsBounded self.new → UncutStepWithin S.Sources 1 self.old self.new (silent_answer self.new halt)) }
    {
        match self.files.fill(&mut self.sources) {
            Fill::Held => {
                self.facts();
                Ok(())
            }
            Fill::End => Err(self.end()),
            Fill::SourceLong => Err(Some(self.record_fault(FaultKind::SourceTooLong))),
            Fill::LineLong => Err(Some(self.record_fault(FaultKind::LineTooLong))),
            Fill::Failed => Err(Some(self.record_read_fault())),
        }
    }

    // Takes what the held bytes begin with, which is no text that is copied.
    fn take_front(&mut self) -> Option<Halt>
        requires ready { IsReady self.old }
        requires live { self.old.conditions.skipped ≡ None }
        requires some { 0 < length (held_of (inner_buffer self.old.files.include_stack)) }
        requires none { (len : ℕ) → (next : Mode) → IsText (inner_buffer self.old.files.include_stack).mode (held_of (inner_buffer self.old.files.include_stack)) len next → ⊥ }
        ensures { IsBounded self.new → UncutStep S.Sources self.old self.new (silent_answer self.new result) }
    {
        let buffer = &self.files.file().buffer;
        match next_item(buffer.mode(), buffer.held()) {
            SourceItem::Text(..) => unreachable!(),
            SourceItem::Usage(len) => self.expand(len),
            SourceItem::Define => self.define_line(),
            SourceItem::Undef(argument) => self.undefine(argument),
            SourceItem::Ifdef(argument) => self.open_conditional(true, argument),
            SourceItem::Ifndef(argument) => self.open_conditional(false, argument),
            SourceItem::Elsif(argument) => self.take_branch(Directive::Elsif, argument),
            SourceItem::Else => self.take_branch(Directive::Else, None),
            SourceItem::Endif => self.take_endif(),
            SourceItem::Include(argument) => self.take_include(argument),
            SourceItem::Line => self.take_line(),
            SourceItem::Refused(kind) => Some(self.record_fault(kind)),
        }
    }

    // Takes in the logical line of the `define` with which the held bytes begin, and reads it.
    #[inline(never)]
    fn define_line(&mut self) -> Option<Halt>
        requires ready { IsReady self.old }
        requires live { self.old.conditions.skipped ≡ None }
        requires some { 0 < length (held_of (inner_buffer self.old.files.include_stack)) }
        requires mode { (inner_buffer self.old.files.include_stack).mode ≡ Mode.Plain }
        requires define { IsDirective Define (held_of (inner_buffer self.old.files.include_stack)) }
        ensures { IsBounded self.new → UncutStep S.Sources self.old self.new (silent_answer self.new result) }
    {
        match self.hold_line() {
            LogicalLine::Whole(len) => {
                self.facts();
                self.read_define(len)
            }
            LogicalLine::TooLong => Some(self.record_fault(FaultKind::LineTooLong)),
            LogicalLine::SourceLong => Some(self.record_fault(FaultKind::SourceTooLong)),
            LogicalLine::Failed => Some(self.record_read_fault()),
        }
    }

    // Reads the `define` whose logical line has `len` bytes, and owes the LF bytes of that line.
    fn read_define(&mut self, len: usize) -> Option<Halt>
        requires include_stack { 0 < length self.old.files.include_stack }
        requires inside { len ≤ length (held_of (inner_buffer self.old.files.include_stack)) }
        requires line { IfSome (logical_len 0 0 (drop 7 (take len (held_of (inner_buffer self.old.files.include_stack))))) (λ n. n ≡ length (drop 7 (take len (held_of (inner_buffer self.old.files.include_stack))))) }
        requires nothing { self.old.pending ≡ nothing_pending }
        requires idle { self.old.expansion.opens ≡ [] }
        requires files { AreOpen self.old.files }
        ensures { ReadsDefine len self.old self.new result }
    {
        let file = self.files.file();
        let at = file.buffer.line();
        let line = &file.buffer.held()[..len];
        let lines = line_ends_in(line);
        match self
            .table
            .read_define(&line[len.min(Directive::Define.word_len())..])
        {
            Err(fault) => Some(self.record_word_fault(fault_kind(fault.kind), fault.word)),
            Ok(()) => {
                let _count = self.table.len();
                self.taken = len;
                self.defined = Some(at);
                self.consume(len, lines);
                self.pending.queue_line_ends(lines);
                None
            }
        }
    }

    // Takes out the macro of an `undef`, which is given a name or none, and lends nothing.
    #[inline(never)]
    fn undefine(&mut self, argument: Option<Argument>) -> Option<Halt>
        requires ready { IsReady self.old }
        requires live { self.old.conditions.skipped ≡ None }
        requires some { 0 < length (held_of (inner_buffer self.old.files.include_stack)) }
        requires mode { (inner_buffer self.old.files.include_stack).mode ≡ Mode.Plain }
        requires undef { IsNamed Undef (held_of (inner_buffer self.old.files.include_stack)) argument }
        ensures { IsBounded self.new → UncutStep S.Sources self.old self.new (silent_answer self.new result) }
    {
        match self.named(argument) {
            Err(halt) => Some(halt),
            Ok(given) => {
                let name = &self.files.file().buffer.held()[given.start..given.stop];
                let _found = self.table.remove(name);
                let _count = self.table.len();
                self.consume(given.stop, 0);
                None
            }
        }
    }

    // The name that a directive is given; or that its fault is kept: none stands there, or it is reserved.
    fn named(&mut self, argument: Option<Argument>) -> Result<Argument, Halt>
        requires include_stack { 0 < length self.old.files.include_stack }
        requires given { (word : Directive) × IsNamed word (held_of (inner_buffer self.old.files.include_stack)) argument }
        ensures { LooksAtName argument self.old self.new result }
    {
        match argument {
            None => Err(self.record_fault(FaultKind::NameExpected)),
            Some(given) => {
                let name = &self.files.file().buffer.held()[given.start..given.stop];
                if reserved(name).is_some() {
                    let word = word_of(name);
                    return Err(self.record_word_fault(FaultKind::ReservedName, word));
                }
                Ok(given)
            }
        }
    }

    // Ends the innermost source, which has no more bytes; a string, a comment or a conditional that is open
    // is a fault.
    fn end(&mut self) -> Option<Halt>
        requires open { self.old.phase ≡ Phase.Open }
        requires some { 0 < length self.old.files.include_stack }
        requires nothing { self.old.pending ≡ nothing_pending }
        requires idle { self.old.expansion.opens ≡ [] }
        ensures { Ends self.old self.new result }
    {
        self.files.facts();
        let buffer = &self.files.file().buffer;
        let opened = buffer.open_token_line();
        match buffer.mode() {
            Mode::Plain => self.end_plain(),
            Mode::InStr => Some(self.record_fault_at(
                FaultKind::OpenString,
                opened,
                ArrayString::new(),
            )),
            Mode::InBlock => Some(self.record_fault_at(
                FaultKind::OpenComment,
                opened,
                ArrayString::new(),
            )),
        }
    }

    // Ends the innermost source, in which no string and no comment is open; a conditional that is open is a
    // fault.
    fn end_plain(&mut self) -> Option<Halt>
        requires open { self.old.phase ≡ Phase.Open }
        requires some { 0 < length self.old.files.include_stack }
        requires nothing { self.old.pending ≡ nothing_pending }
        requires idle { self.old.expansion.opens ≡ [] }
        requires mode { (inner_buffer self.old.files.include_stack).mode ≡ Mode.Plain }
        ensures { Ends self.old self.new result }
    {
        let below = self.files.file().conditions_below;
        match self.conditions.unclosed(below) {
            None => self.end_whole(),
            Some(line) => Some(self.record_unclosed_fault(line)),
        }
    }

    // Ends the innermost source, in which nothing is open: closes the main text, or leaves an included source.
    fn end_whole(&mut self) -> Option<Halt>
        requires open { self.old.phase ≡ Phase.Open }
        requires some { 0 < length self.old.files.include_stack }
        requires nothing { self.old.pending ≡ nothing_pending }
        requires idle { self.old.expansion.opens ≡ [] }
        requires mode { (inner_buffer self.old.files.include_stack).mode ≡ Mode.Plain }
        requires ended { length self.old.conditions.open_now ≡ inner_below self.old.files.include_stack }
        ensures { Ends self.old self.new result }
    {
        if self.files.len() > 1 {
            self.leave();
            return None;
        }
        self.close();
        Some(Halt::End)
    }

    // Closes the main text, which has ended.
    fn close(&mut self)
        requires some { 0 < length self.old.files.include_stack }
        requires alone { length self.old.files.include_stack ≤ 1 }
        requires idle { self.old.expansion.opens ≡ [] }
        requires ended { length self.old.conditions.open_now ≡ inner_below self.old.files.include_stack }
        ensures { self.new ≡ record self.old { phase = Phase.Closed; files = record self.old.files { include_stack = [] } } }
    {
        self.phase = Phase::Closed;
        self.files.leave();
    }

    // Takes in the logical line at the front of what is held of the innermost source.
    fn hold_line(&mut self) -> LogicalLine
        requires { 0 < length self.old.files.include_stack }
        ensures becomes { self.new ≡ record self.old { files = self.new.files; sources = self.new.sources } }
        ensures only { self.new.files ≡ record self.old.files { include_stack = with_buffer (inner_buffer self.new.files.include_stack) self.old.files.include_stack } }
        ensures holds { HoldsLine (S.has_known_texts self.old.sources) S.unread result (inner_buffer self.old.files.include_stack) (inner_buffer self.new.files.include_stack) }
        ensures call { SourcesRead S.Sources (is_failed_line result) self.old.sources self.new.sources }
    {
        self.files.hold_line(&mut self.sources)
    }

    // Uses `len` held bytes, which have `lines` line ends, and answers where they begin.
    fn consume(&mut self, len: usize, lines: usize) -> usize
        requires some { 0 < length self.old.files.include_stack }
        requires inside { len ≤ length (held_of (inner_buffer self.old.files.include_stack)) }
        requires lines { lines ≤ len }
        ensures start { result ≡ (inner_buffer self.old.files.include_stack).at }
        ensures used { self.new ≡ record self.old { files = record self.old.files { include_stack = with_inner (consumed_file len lines) self.old.files.include_stack } } }
    {
        self.files.consume(len, lines)
    }

    // Changes whether the next byte stands in a string or in a comment.
    fn enter_mode(&mut self, next: Mode)
        requires { 0 < length self.old.files.include_stack }
        ensures { self.new ≡ record self.old { files = record self.old.files { include_stack = with_buffer (entered_mode (inner_buffer self.old.files.include_stack) next) self.old.files.include_stack } } }
    {
        self.files.enter_mode(next);
    }

    // Keeps a fault without a word, at the line of the next byte. It stands apart, so that no step clears room for the word of a fault
    // that seldom comes.
    #[cold]
    #[inline(never)]
    fn record_fault(&mut self, kind: FaultKind) -> Halt
        requires { 0 < length self.old.files.include_stack }
        ensures halt { result ≡ Halt.Fault }
        ensures kept { self.new ≡ record self.old { kept = Some (fault_at kind (inner_buffer self.old.files.include_stack).line [] (state_of self.old)) } }
    {
        self.record_word_fault(kind, ArrayString::new())
    }

    // Keeps a fault with its word, at the line of the next byte.
    fn record_word_fault(&mut self, kind: FaultKind, word: ArrayString<128>) -> Halt
        requires { 0 < length self.old.files.include_stack }
        ensures halt { result ≡ Halt.Fault }
        ensures kept { self.new ≡ record self.old { kept = Some (fault_at kind (inner_buffer self.old.files.include_stack).line word.bytes (state_of self.old)) } }
    {
        let line = self.files.file().buffer.line();
        self.files.facts();
        self.record_fault_at(kind, line, word)
    }

    // Keeps a fault of the open texts of a usage, at the line of the usage in the source.
    fn record_text_fault(&mut self, fault: CursorFault) -> Halt
        requires include_stack { 0 < length self.old.files.include_stack }
        requires line { self.old.expansion.line < 2 ^ 63 }
        requires placed { IsTextPlaced (held_texts self.old) fault.word }
        requires word { IsWordBytes (place_bytes (held_texts self.old) fault.word) }
        ensures halt { result ≡ Halt.Fault }
        ensures kept { self.new ≡ record self.old { kept = Some (fault_at fault.kind self.old.expansion.line (place_bytes (held_texts self.old) fault.word) (state_of self.old)) } }
    {
        let word = word_of(self.text(fault.word));
        let line = self.expansion.line();
        self.record_fault_at(fault.kind, line, word)
    }

    // Keeps that a read failed, at the line that is read.
    fn record_read_fault(&mut self) -> Halt
        requires { 0 < length self.old.files.include_stack }
        ensures halt { result ≡ Halt.Fault }
        ensures kept { self.new ≡ record self.old { kept = Some (fault_at FaultKind.ReadFailed (reading_line_of (inner_buffer self.old.files.include_stack)) [] (state_of self.old)) } }
    {
        let line = self.files.file().buffer.reading_line();
        self.files.facts();
        self.record_fault_at(FaultKind::ReadFailed, line, ArrayString::new())
    }

    // Keeps a fault at a physical line of the innermost source.
    fn record_fault_at(&mut self, kind: FaultKind, line: u64, word: ArrayString<128>) -> Halt
        requires open { 0 < length self.old.files.include_stack }
        requires line { line < 2 ^ 63 }
        ensures halt { result ≡ Halt.Fault }
        ensures kept { self.new ≡ record self.old { kept = Some (fault_at kind line word.bytes (state_of self.old)) } }
    {
        self.files.facts();
        let file = self.files.file();
        let _len = word.len();
        self.kept = Some(Fault {
            kind,
            name: copied(&file.name),
            line: file.shift.shown_line(line),
            word,
        });
        Halt::Fault
    }

    // Keeps that a conditional is open where its source ends, at the line that the conditional showed.
    fn record_unclosed_fault(&mut self, line: u64) -> Halt
        requires { 0 < length self.old.files.include_stack }
        ensures halt { result ≡ Halt.Fault }
        ensures kept { self.new ≡ record self.old { kept = Some (unclosed_fault line (state_of self.old)) } }
    {
        self.kept = Some(Fault {
            kind: FaultKind::OpenConditional,
            name: copied(&self.files.file().name),
            line,
            word: ArrayString::new(),
        });
        Halt::Fault
    }

    // Keeps that more bytes are due than the output may have, which is told at line 0 under the main
    // text's name.
    #[tactic(auto, unfolding(rdlpp_meaning::specs::Outcome::report_of, rdlpp_state::specs::Remaining::output_fault))]
    fn record_output_fault(&mut self)
        ensures { self.new ≡ record self.old { kept = Some (output_fault self.old.main) } }
    {
        self.kept = Some(Fault {
            kind: FaultKind::OutputBytes,
            name: copied(&self.main),
            line: 0,
            word: ArrayString::new(),
        });
    }

    // Keeps that a write failed, which is told at line 0 under the main text's name.
    #[tactic(auto, unfolding(rdlpp_meaning::specs::Outcome::report_of, crate::specs::Run::write_fault))]
    pub(crate) fn record_write_fault(&mut self)
        ensures { self.new ≡ record self.old { kept = Some (write_fault self.old.main) } }
    {
        self.kept = Some(Fault {
            kind: FaultKind::WriteFailed,
            name: copied(&self.main),
            line: 0,
            word: ArrayString::new(),
        });
    }

    // Whether the fault that is kept is that of a write that failed.
    #[tactic(auto, unfolding(rdlpp_state::specs::Steps::is_write_failed))]
    pub(crate) fn keeps_write_failure(&self) -> bool
        ensures { (f : Report) → self.now.kept ≡ Some f → result ≡ is_write_failed f.kind }
    {
        match &self.kept {
            Some(fault) => fault.kind == FaultKind::WriteFailed,
            None => false,
        }
    }

    /// The fault that is kept, once more.
    pub fn kept_fault(&self) -> Option<Fault>
        ensures { option_map report_of result ≡ self.now.kept }
    {
        match &self.kept {
            Some(fault) => Some(copied_fault(fault)),
            None => None,
        }
    }

    // Lends the piece at a place, or the fault that is kept.
    pub(crate) fn answer(&self, place: PieceLocation) -> Result<Piece<'_>, &Fault>
        requires { IsPlaced self.now place }
        ensures { answer_of result ≡ lent_answer self.now place }
    {
        match place {
            PieceLocation::Source(start, end) => {
                Ok(Piece::Bytes(self.files.file().buffer.part(start, end)))
            }
            PieceLocation::Text(place) => Ok(Piece::Bytes(self.text(place))),
            PieceLocation::Pending(piece) => {
                let name = self.files.file().name.as_str();
                Ok(Piece::Bytes(self.pending.bytes(piece, name)))
            }
            PieceLocation::Halt(Halt::End) => Ok(Piece::Done),
            PieceLocation::Halt(Halt::Fault) => match &self.kept {
                Some(fault) => Err(fault),
                None => Ok(Piece::Done),
            },
        }
    }

    // What always holds of it.
    fn facts(&self)
        ensures bounded { IsBounded self.now }
        ensures sound { IsSoundEngine self.now.limits self.now.phase self.now.table self.now.files self.now.conditions }
        ensures files { AreOpen self.now.files }
        ensures texts { AreOpenTexts self.now.limits self.now.phase self.now.table.macros self.now.expansion }
        ensures room { IsRoomy self.now.expansion }
    {
        self.files.facts();
        self.expansion.facts();
    }
}
