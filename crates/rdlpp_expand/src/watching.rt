// The place of what an engine lent last, for those who watch a run.
use crate::engine::Engine;
use rdlpp_scan::line_ends_in;
use rdlpp_source::Sources;
use rdlpp_state::{LineStep, Placed, Position};

impl<S: Sources> Placed for Engine<S> {
    #[inline(always)]
    fn place(&self) -> Position<'_> {
        match self.position() {
            Some(position) => position,
            None => Position {
                name: "",
                line: 0,
                step: LineStep::Same,
            },
        }
    }

    // Those of text of a source were counted as it was read.
    #[inline(always)]
    fn line_ends(&self, piece: &[u8]) -> u64 {
        match self.passed_lines() {
            Some(lines) => lines.min(piece.len() as u64),
            None => counted_line_ends(piece),
        }
    }
}

// How many LF bytes the text of a usage has. It stands apart, so that text of a source, whose line ends are known, passes none of it.
#[inline(never)]
fn counted_line_ends(piece: &[u8]) -> u64 {
    line_ends_in(piece) as u64
}
