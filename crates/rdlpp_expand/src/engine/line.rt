// The directive `line` in the open sources.
ghost use Rattle.std.specs.Prelude.{◌≡◌, ◌+◌, ◌<◌, ◌≤◌, ◌^◌, None, length};
ghost use Rattle.rdlpp_scan.specs.declared.token.Directive.TheVariants.{Line};
ghost use Rattle.rdlpp_read.specs.Buffer.{held_of};
ghost use Rattle.rdlpp_read.specs.Files.{inner_buffer, with_inner};
ghost use Rattle.rdlpp_front.specs.SourceItems.{IsDirective};
ghost use Rattle.rdlpp_state.specs.Held.{IsBounded};
ghost use Rattle.rdlpp_state.specs.Lines.{Renumbers, renumbered_file};
ghost use Rattle.rdlpp_state.specs.Moves.{IsReady};
ghost use Rattle.rdlpp_state.specs.Pending.{nothing_pending};
ghost use Rattle.rdlpp_state.specs.Pieces.{silent_answer};
ghost use Rattle.rdlpp_state.specs.Steps.{UncutStep};

use super::Engine;
use arrayvec::ArrayString;
use rdlpp_front::{GivenLine, given_line};
use rdlpp_meaning::FaultKind;
use rdlpp_scan::{Directive, Mode, line_ends_in};
use rdlpp_source::Sources;
use rdlpp_state::Halt;

impl<S: Sources> Engine<S> {
    // Takes the `line` with which the held bytes begin, and lends nothing; or refuses it.
    #[inline(never)]
    pub(super) fn take_line(&mut self) -> Option<Halt>
        requires ready { IsReady self.old }
        requires live { self.old.conditions.skipped ≡ None }
        requires some { 0 < length (held_of (inner_buffer self.old.files.include_stack)) }
        requires mode { (inner_buffer self.old.files.include_stack).mode ≡ Mode.Plain }
        requires line { IsDirective Line (held_of (inner_buffer self.old.files.include_stack)) }
        ensures { IsBounded self.new → UncutStep S.Sources self.old self.new (silent_answer self.new result) }
    {
        let file = self.files.file();
        if !file.blanks {
            return Some(self.record_fault(FaultKind::BadLine));
        }
        match given_line(&file.buffer.held()[Directive::Line.word_len()..]) {
            None => Some(self.record_fault(FaultKind::BadLine)),
            Some(given) => {
                self.renumber(given);
                None
            }
        }
    }

    // Uses a `line` that is given a number and a name, and owes its LF byte and the origin line.
    fn renumber(&mut self, given: GivenLine)
        requires include_stack { 0 < length self.old.files.include_stack }
        requires inside { 5 + given.stop ≤ length (held_of (inner_buffer self.old.files.include_stack)) }
        requires few { 5 + given.stop < 2 ^ 63 }
        requires number { given.number < 2 ^ 32 }
        requires nothing { self.old.pending ≡ nothing_pending }
        ensures { Renumbers given self.old self.new }
    {
        let len = Directive::Line.word_len() + given.stop;
        let buffer = &self.files.file().buffer;
        let lines = line_ends_in(&buffer.held()[..len]);
        let from = buffer.line() + 1;
        let place = self.shown_place();
        self.consume(len, lines);
        self.show(from, given.number, given.name);
        self.pending.queue_line_ends(lines);
        self.pending.queue_origin(self.origins, given.number);
        self.marks.end_line(lines, &place.name, place.line);
    }

    // Gives the innermost source another name to show, and from a physical line on other numbers.
    fn show(&mut self, from: u64, number: u64, name: ArrayString<1024>)
        requires some { 0 < length self.old.files.include_stack }
        requires number { number < 2 ^ 32 }
        ensures { self.new ≡ record self.old { files = record self.old.files { include_stack = with_inner (renumbered_file from number name) self.old.files.include_stack } } }
    {
        self.files.renumber(from, number, name);
    }
}
