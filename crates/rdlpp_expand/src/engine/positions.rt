// Where the piece stands that was lent last.
ghost use Rattle.std.specs.Prelude.{◌≡◌, ◌<◌, IfNone, IfSome, length};
ghost use Rattle.rdlpp_meaning.specs.State.{shown_line};
ghost use Rattle.rdlpp_read.specs.Files.{inner_buffer};
ghost use Rattle.rdlpp_state.specs.Engine.{is_open};
ghost use Rattle.rdlpp_state.specs.Marks.{told_position};
ghost use Rattle.rdlpp_state.specs.Pending.{nothing_pending};
ghost use Rattle.rdlpp_state.specs.Positions.{TakesPending, position_of};
ghost use Rattle.rdlpp_state.specs.Remaining.{state_of};

use super::Engine;
use arrayvec::ArrayString;
use rdlpp_source::Sources;
use rdlpp_state::{PendingPiece, Phase, Position};

// A name and a line that a source shows.
#[derive(Drop)]
pub(super) struct ShownPlace {
    pub(super) name: ArrayString<1024>,
    pub(super) line: u64,
}

impl<S: Sources> Engine<S> {
    /// The place of the piece that was lent last, which a fault at its first byte would name; none before
    /// the first piece, at the end, and where a fault is kept.
    ///
    /// Text of a source has the shown name and the shown line of its first byte, and all text of a usage
    /// those of the backquote of the outermost usage. The LF bytes that a directive or skipped text leaves
    /// stand on its lines, that of a `line` under the name and the number from before it; the one that is
    /// written after an included text which ended in mid-line stands on the line of the `include`. An
    /// origin line has the place that it names. A piece without bytes may leave the place as it was. The
    /// rules are this project's.
    pub fn position(&self) -> Option<Position<'_>>
        ensures { told_position result ≡ position_of self.now }
    {
        if self.kept.is_some() {
            return None;
        }
        if !has_text(self.phase) {
            return None;
        }
        self.facts();
        let file = self.files.file();
        self.marks.position(file.name.as_str(), &file.shift)
    }

    // How many lines of the innermost source end in the piece that was lent last, where it is text of that source and no limit cut
    // it: they were counted as it was read. Of the LF bytes that are pending it may be only the first that are lent.
    #[tactic(auto, unfolding(rdlpp_state::specs::Engine::is_open))]
    #[inline(always)]
    pub(crate) fn passed_lines(&self) -> Option<u64> {
        if self.phase != Phase::Open {
            return None;
        }
        let line = self.marks.source_line()?;
        self.facts();
        Some(self.files.file().buffer.line().saturating_sub(line))
    }

    // Takes out the first piece of what is pending, and marks its place.
    pub(super) fn take_pending(&mut self) -> Option<PendingPiece>
        requires { 0 < length self.old.files.include_stack }
        ensures nothing { IfNone result ((self.old.pending ≡ nothing_pending) × (self.new ≡ self.old)) }
        ensures piece { IfSome result (TakesPending self.old self.new) }
    {
        self.facts();
        let file = self.files.file();
        let name_len = file.name.len();
        self.marks.lend_pending(&self.pending, file.buffer.line());
        self.pending.take(name_len)
    }

    // The place that a fault at the next byte of the innermost source would name.
    pub(super) fn shown_place(&self) -> ShownPlace
        requires { 0 < length self.now.files.include_stack }
        ensures name { result.name.bytes ≡ (state_of self.now).name }
        ensures line { result.line ≡ shown_line (state_of self.now).shift (inner_buffer self.now.files.include_stack).line }
    {
        self.files.facts();
        let file = self.files.file();
        ShownPlace {
            name: file.name,
            line: file.shift.shown_line(file.buffer.line()),
        }
    }
}

// Whether a main text is open.
#[tactic(auto, unfolding(rdlpp_state::specs::Engine::is_open))]
fn has_text(phase: Phase) -> bool
    ensures { result ≡ is_open phase }
{
    match phase {
        Phase::Fresh => false,
        Phase::Open => true,
        Phase::OverLimit => true,
        Phase::Closed => false,
    }
}
