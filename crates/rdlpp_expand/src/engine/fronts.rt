// Steps that take what is held of a source, and the lending of text that is copied.
ghost use Rattle.std.specs.Prelude.{◌≡◌, ◌<◌, IfSome, None, length, take};
ghost use Rattle.std.specs.Option.{option_map};
ghost use Rattle.rdlpp_scan.specs.SourceTokens.{line_ends};
ghost use Rattle.rdlpp_read.specs.Buffer.{held_of};
ghost use Rattle.rdlpp_read.specs.Files.{inner_buffer};
ghost use Rattle.rdlpp_front.specs.SourceItems.{IsText};
ghost use Rattle.rdlpp_state.specs.Held.{IsBounded};
ghost use Rattle.rdlpp_state.specs.Moves.{IsReady};
ghost use Rattle.rdlpp_state.specs.Pieces.{IsPlaced, lent_answer, step_answer};
ghost use Rattle.rdlpp_state.specs.Steps.{UncutStep};

use crate::engine::Engine;
use rdlpp_front::{Copied, copied_text};
use rdlpp_source::Sources;
use rdlpp_state::{Halt, Phase, PieceLocation};

impl<S: Sources> Engine<S> {
    // Takes what the held bytes begin with, or passes skipped text. Text that is copied, which is most of a source, is found and its
    // line ends are counted in one pass.
    #[inline(always)]
    pub(super) fn take_held(&mut self) -> Option<PieceLocation>
        requires ready { IsReady self.old }
        requires some { 0 < length (held_of (inner_buffer self.old.files.include_stack)) }
        ensures place { IfSome result (IsPlaced self.new) }
        ensures uncut_step { IsBounded self.new → UncutStep S.Sources self.old self.new (step_answer self.new result) }
    {
        if !self.conditions.is_live() {
            return location_of(self.skip_front());
        }
        let buffer = &self.files.file().buffer;
        match copied_text(buffer.mode(), buffer.held()) {
            Some(copied) => Some(self.lend_copied(copied)),
            None => location_of(self.take_front()),
        }
    }

    // Lends text that is copied, whose line ends are counted.
    #[inline(always)]
    fn lend_copied(&mut self, copied: Copied) -> PieceLocation
        requires ready { IsReady self.old }
        requires live { self.old.conditions.skipped ≡ None }
        requires some { 0 < length (held_of (inner_buffer self.old.files.include_stack)) }
        requires text { IsText (inner_buffer self.old.files.include_stack).mode (held_of (inner_buffer self.old.files.include_stack)) copied.len copied.next }
        requires lines { copied.lines ≡ line_ends (take copied.len (held_of (inner_buffer self.old.files.include_stack))) }
        ensures place { IsPlaced self.new result }
        ensures uncut_step { IsBounded self.new → UncutStep S.Sources self.old self.new (lent_answer self.new result) }
    {
        let Copied { len, lines, next } = copied;
        let line = self.files.file().buffer.line();
        self.enter_mode(next);
        let start = self.consume(len, lines);
        self.marks.lend_line(line);
        PieceLocation::Source(start, start + len)
    }
}

// Where a step has led that lends nothing, as of other steps.
#[inline(always)]
pub(super) fn location_of(halt: Option<Halt>) -> Option<PieceLocation>
    ensures { result ≡ option_map PieceLocation.Halt halt }
{
    match halt {
        None => None,
        Some(halt) => Some(PieceLocation::Halt(halt)),
    }
}
