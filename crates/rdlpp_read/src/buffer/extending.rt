// A logical line that goes over several physical lines: more lines are taken in after what is held.
ghost use Rattle.rdlpp_read.specs.Calls.{SourcesRead};
ghost use Rattle.rdlpp_read.specs.Buffer.{EndsHeld};
ghost use Rattle.rdlpp_read.specs.LogicalLines.{HoldsLine, is_failed_line};

use super::SourceBuffer;
use super::filling::{Fill, take_lines};
use rdlpp_scan::logical_line;
use rdlpp_source::Sources;

/// What is found of the logical line at the front of what is held.
#[derive(Clone, Copy)]
pub enum LogicalLine {
    /// It is held whole, and has so many bytes: with the LF that ends it, or up to the end of the text.
    Whole(usize),
    /// With its next line it has more bytes than a line may have.
    TooLong,
    /// It goes on with a line with which the text has more bytes than a source may have.
    SourceLong,
    /// A read failed.
    Failed,
}

/// Takes in lines after what is held, until the logical line at its front is held whole, or tells why
/// that can't be. What is held stays, and after a read that failed nothing is lost.
///
/// # Rules
///
/// A logical line goes on after an LF after `\`, or after `\` and CR (IEEE 1364-2001, `define`). It
/// has at most as many bytes as a line may have, and that goes before the limit of its source (this
/// project's profile).
///
/// Costs time linear in the logical line and in what was read after it, however it is cut by reads.
pub fn hold_logical_line<S: Sources>(
    buffer: &mut SourceBuffer<S::Reader>,
    sources: &mut S,
) -> LogicalLine
    requires { EndsHeld buffer.old }
    ensures ends { EndsHeld buffer.new }
    ensures holds { HoldsLine (S.has_known_texts sources.old) S.unread result buffer.old buffer.new }
    ensures call { SourcesRead S.Sources (is_failed_line result) sources.old sources.new }
{
    let mut seen = 0;
    'lines: loop {
        let held = buffer.held();
        if let Some(len) = logical_line(&held[seen..]) {
            return LogicalLine::Whole(seen + len);
        }
        seen = held.len();
        match take_lines(buffer, sources) {
            Fill::Held => {}
            Fill::End => return LogicalLine::Whole(seen),
            Fill::LineLong => return LogicalLine::TooLong,
            Fill::SourceLong => return LogicalLine::SourceLong,
            Fill::Failed => return LogicalLine::Failed,
        }
    }
}
