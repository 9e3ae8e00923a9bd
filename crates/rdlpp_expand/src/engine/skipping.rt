// Skipped text in the open sources.
ghost use Rattle.std.specs.Prelude.{◌≡◌, ◌≢◌, ◌<◌, ◌≤◌, None, length};
ghost use Rattle.rdlpp_scan.specs.Reserved.{directive_word};
ghost use Rattle.rdlpp_scan.specs.declared.token.Directive.TheVariants.{Define, Line};
ghost use Rattle.rdlpp_read.specs.Buffer.{held_of};
ghost use Rattle.rdlpp_read.specs.Files.{inner_buffer};
ghost use Rattle.rdlpp_front.specs.SourceItems.{IsDirective, IsRefused, IsText};
ghost use Rattle.rdlpp_state.specs.Conditionals.{IsSkippedWord, opening_word, passes_over};
ghost use Rattle.rdlpp_state.specs.Held.{IsBounded};
ghost use Rattle.rdlpp_state.specs.Moves.{IsReady};
ghost use Rattle.rdlpp_state.specs.Pending.{nothing_pending};
ghost use Rattle.rdlpp_state.specs.Pieces.{silent_answer};
ghost use Rattle.rdlpp_state.specs.Steps.{UncutStep};

use super::Engine;
use rdlpp_front::{SourceItem, next_item, skip_text};
use rdlpp_meaning::FaultKind;
use rdlpp_read::LogicalLine;
use rdlpp_scan::{Directive, Mode, line_ends_in, line_len};
use rdlpp_source::Sources;
use rdlpp_state::Halt;

impl<S: Sources> Engine<S> {
    // Passes skipped text: a stretch of it in which nothing counts, or what counts in front.
    pub(super) fn skip_front(&mut self) -> Option<Halt>
        requires ready { IsReady self.old }
        requires skipped { self.old.conditions.skipped ≢ None }
        requires some { 0 < length (held_of (inner_buffer self.old.files.include_stack)) }
        ensures { IsBounded self.new → UncutStep S.Sources self.old self.new (silent_answer self.new result) }
    {
        let buffer = &self.files.file().buffer;
        let stretch = skip_text(buffer.mode(), buffer.held());
        if stretch.len == 0 {
            return self.skip_counted();
        }
        self.enter_mode(stretch.mode);
        self.pass(stretch.len, stretch.line_ends);
        None
    }

    // Passes what stands in front of skipped text: a word that counts there, or a string or a comment that
    // stays open.
    fn skip_counted(&mut self) -> Option<Halt>
        requires ready { IsReady self.old }
        requires skipped { self.old.conditions.skipped ≢ None }
        requires some { 0 < length (held_of (inner_buffer self.old.files.include_stack)) }
        ensures { IsBounded self.new → UncutStep S.Sources self.old self.new (silent_answer self.new result) }
    {
        let buffer = &self.files.file().buffer;
        match next_item(buffer.mode(), buffer.held()) {
            SourceItem::Text(len, next) => self.skip_part(len, next),
            SourceItem::Ifdef(_) => self.skip_opening(true),
            SourceItem::Ifndef(_) => self.skip_opening(false),
            SourceItem::Elsif(argument) => self.take_branch(Directive::Elsif, argument),
            SourceItem::Else => self.take_branch(Directive::Else, None),
            SourceItem::Endif => self.take_endif(),
            SourceItem::Define => self.skip_define(),
            SourceItem::Line => self.skip_line(),
            SourceItem::Refused(kind) => self.skip_refused(kind),
            SourceItem::Usage(len) => self.skip_word(len),
            SourceItem::Undef(_) => self.skip_word(Directive::Undef.word_len()),
            SourceItem::Include(_) => self.skip_word(Directive::Include.word_len()),
        }
    }

    // Passes `len` bytes of a text that is skipped, after which it stands in a mode.
    fn skip_part(&mut self, len: usize, next: Mode) -> Option<Halt>
        requires ready { IsReady self.old }
        requires skipped { self.old.conditions.skipped ≢ None }
        requires some { 0 < length (held_of (inner_buffer self.old.files.include_stack)) }
        requires text { IsText (inner_buffer self.old.files.include_stack).mode (held_of (inner_buffer self.old.files.include_stack)) len next }
        ensures { IsBounded self.new → UncutStep S.Sources self.old self.new (silent_answer self.new result) }
    {
        let lines = line_ends_in(&self.files.file().buffer.held()[..len]);
        self.enter_mode(next);
        self.pass(len, lines);
        None
    }

    // Refuses `<%` in skipped text; or passes a lone backquote, which doesn't count there.
    fn skip_refused(&mut self, kind: FaultKind) -> Option<Halt>
        requires ready { IsReady self.old }
        requires skipped { self.old.conditions.skipped ≢ None }
        requires some { 0 < length (held_of (inner_buffer self.old.files.include_stack)) }
        requires refused { IsRefused (inner_buffer self.old.files.include_stack).mode (held_of (inner_buffer self.old.files.include_stack)) kind }
        ensures { IsBounded self.new → UncutStep S.Sources self.old self.new (silent_answer self.new result) }
    {
        match kind {
            FaultKind::EmbeddedPerl => Some(self.record_fault(kind)),
            _ => self.skip_word(1),
        }
    }

    // Passes a word of `len` bytes that doesn't count in skipped text.
    fn skip_word(&mut self, len: usize) -> Option<Halt>
        requires ready { IsReady self.old }
        requires skipped { self.old.conditions.skipped ≢ None }
        requires some { 0 < length (held_of (inner_buffer self.old.files.include_stack)) }
        requires mode { (inner_buffer self.old.files.include_stack).mode ≡ Mode.Plain }
        requires word { IsSkippedWord (held_of (inner_buffer self.old.files.include_stack)) len }
        ensures { IsBounded self.new → UncutStep S.Sources self.old self.new (silent_answer self.new result) }
    {
        self.pass(len, 0);
        None
    }

    // Counts a conditional that opens in skipped text, whose first directive wants its name defined or not.
    fn skip_opening(&mut self, defined: bool) -> Option<Halt>
        requires ready { IsReady self.old }
        requires skipped { self.old.conditions.skipped ≢ None }
        requires some { 0 < length (held_of (inner_buffer self.old.files.include_stack)) }
        requires mode { (inner_buffer self.old.files.include_stack).mode ≡ Mode.Plain }
        requires opening { IsDirective (opening_word defined) (held_of (inner_buffer self.old.files.include_stack)) }
        ensures { IsBounded self.new → UncutStep S.Sources self.old self.new (silent_answer self.new result) }
    {
        self.consume(opening_len(defined), 0);
        self.conditions.open_skipped();
        None
    }

    // Passes the logical line of a `define` in skipped text.
    #[inline(never)]
    fn skip_define(&mut self) -> Option<Halt>
        requires ready { IsReady self.old }
        requires skipped { self.old.conditions.skipped ≢ None }
        requires some { 0 < length (held_of (inner_buffer self.old.files.include_stack)) }
        requires mode { (inner_buffer self.old.files.include_stack).mode ≡ Mode.Plain }
        requires define { IsDirective Define (held_of (inner_buffer self.old.files.include_stack)) }
        ensures { IsBounded self.new → UncutStep S.Sources self.old self.new (silent_answer self.new result) }
    {
        match self.hold_line() {
            LogicalLine::Whole(len) => {
                self.facts();
                let lines = line_ends_in(&self.files.file().buffer.held()[..len]);
                self.pass(len, lines);
                None
            }
            LogicalLine::TooLong => Some(self.record_fault(FaultKind::LineTooLong)),
            LogicalLine::SourceLong => Some(self.record_fault(FaultKind::SourceTooLong)),
            LogicalLine::Failed => Some(self.record_read_fault()),
        }
    }

    // Passes the line of a `line` in skipped text.
    fn skip_line(&mut self) -> Option<Halt>
        requires ready { IsReady self.old }
        requires skipped { self.old.conditions.skipped ≢ None }
        requires some { 0 < length (held_of (inner_buffer self.old.files.include_stack)) }
        requires mode { (inner_buffer self.old.files.include_stack).mode ≡ Mode.Plain }
        requires line { IsDirective Line (held_of (inner_buffer self.old.files.include_stack)) }
        ensures { IsBounded self.new → UncutStep S.Sources self.old self.new (silent_answer self.new result) }
    {
        let held = self.files.file().buffer.held();
        let len = line_len(held);
        let lines = line_ends_in(&held[..len]);
        self.pass(len, lines);
        None
    }

    // Passes `len` held bytes of skipped text, and owes their `lines` LF bytes. Each fourth byte counts, since they are passed faster
    // than a `define` is read.
    fn pass(&mut self, len: usize, lines: usize)
        requires include_stack { 0 < length self.old.files.include_stack }
        requires inside { len ≤ length (held_of (inner_buffer self.old.files.include_stack)) }
        requires lines { lines ≤ len }
        requires nothing { self.old.pending ≡ nothing_pending }
        ensures { self.new ≡ passes_over len lines self.old }
    {
        self.taken = len / 4;
        self.consume(len, lines);
        self.pending.queue_line_ends(lines);
    }
}

// How many bytes the word has that opens a conditional.
fn opening_len(defined: bool) -> usize
    ensures { result ≡ length (directive_word (opening_word defined)) }
{
    let word = if defined {
        Directive::Ifdef
    } else {
        Directive::Ifndef
    };
    word.word_len()
}
