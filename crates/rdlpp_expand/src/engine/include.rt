// The directive `include` in the open sources, and the end of the source that it opened.
ghost use Rattle.std.specs.Prelude.{◌≡◌, ◌<◌, ◌≤◌, None, IfNone, IfSome, false, true, length};
ghost use Rattle.rdlpp_meaning.specs.Meaning.{unquoted};
ghost use Rattle.rdlpp_read.specs.Buffer.{held_of};
ghost use Rattle.rdlpp_read.specs.Files.{inner_buffer};
ghost use Rattle.rdlpp_front.specs.SourceItems.{IsGivenString, include_name};
ghost use Rattle.rdlpp_state.specs.Held.{IsBounded};
ghost use Rattle.rdlpp_state.specs.Includes.{SearchMade, included_engine, is_bad_name, left_engine};
ghost use Rattle.rdlpp_state.specs.Moves.{IsReady};
ghost use Rattle.rdlpp_state.specs.OpenConditionals.{inner_below};
ghost use Rattle.rdlpp_state.specs.Pending.{nothing_pending};
ghost use Rattle.rdlpp_state.specs.Pieces.{silent_answer};
ghost use Rattle.rdlpp_state.specs.Steps.{UncutStep};

use super::Engine;
use super::opening::source_kind;
use rdlpp_front::Argument;
use rdlpp_meaning::FaultKind;
use rdlpp_scan::Mode;
use rdlpp_source::{Found, Sources};
use rdlpp_state::{Halt, Phase};

impl<S: Sources> Engine<S> {
    // Takes an `include`, which is given a string or none, and lends nothing: opens the source that is found.
    #[inline(never)]
    pub(super) fn take_include(&mut self, argument: Option<Argument>) -> Option<Halt>
        requires ready { IsReady self.old }
        requires live { self.old.conditions.skipped ≡ None }
        requires some { 0 < length (held_of (inner_buffer self.old.files.include_stack)) }
        requires mode { (inner_buffer self.old.files.include_stack).mode ≡ Mode.Plain }
        requires include { IsGivenString (held_of (inner_buffer self.old.files.include_stack)) argument }
        ensures { IsBounded self.new → UncutStep S.Sources self.old self.new (silent_answer self.new result) }
    {
        match argument {
            None => Some(self.record_fault(FaultKind::IncludeName)),
            Some(given) => match self.seek(given.start, given.stop) {
                Ok(found) => {
                    self.enter(found, given.stop);
                    None
                }
                Err(kind) => Some(self.record_fault(kind)),
            },
        }
    }

    // Searches for the source that a string names, from the folder of the innermost source, where one more
    // may be opened.
    fn seek(&mut self, start: usize, stop: usize) -> Result<Found<S::Reader>, FaultKind>
        requires include_stack { 0 < length self.old.files.include_stack }
        requires some { start < stop }
        requires inside { stop ≤ length (held_of (inner_buffer self.old.files.include_stack)) }
        ensures becomes { self.new ≡ record self.old { sources = self.new.sources } }
        ensures sought { SearchMade S.Sources self.old (include_name (held_of (inner_buffer self.old.files.include_stack)) start stop) self.new.sources result }
    {
        let file = self.files.file();
        let Some(name) = name_in(&file.buffer.held()[start..stop]) else {
            return Err(FaultKind::IncludeName);
        };
        if self.files.is_full() {
            return Err(FaultKind::TooManyIncludes);
        }
        match self.sources.find(file.path.as_str(), name) {
            Ok(found) => Ok(found),
            Err(fault) => Err(source_kind(fault)),
        }
    }

    // Opens a source inside of those that are open, after the `include` in front, which has `stop` bytes.
    fn enter(&mut self, found: Found<S::Reader>, stop: usize)
        requires live { self.old.conditions.skipped ≡ None }
        requires include_stack { 0 < length self.old.files.include_stack }
        requires open { self.old.phase ≡ Phase.Open }
        requires inside { stop ≤ length (held_of (inner_buffer self.old.files.include_stack)) }
        requires room { length self.old.files.include_stack < self.old.files.slots }
        requires nothing { self.old.pending ≡ nothing_pending }
        ensures { self.new ≡ included_engine found stop self.old }
    {
        self.files.facts();
        let line = self.files.file().buffer.line();
        self.consume(stop, 0);
        let source_bytes = self.limits.source_bytes;
        let below = self.conditions.len();
        self.files.enter(found, source_bytes, below, line);
        self.pending.queue_origin(self.origins, 1);
    }

    // Leaves an included source, which has ended, and owes what is written after it.
    #[inline(never)]
    pub(super) fn leave(&mut self)
        requires open { self.old.phase ≡ Phase.Open }
        requires inner { 1 < length self.old.files.include_stack }
        requires ended { length self.old.conditions.open_now ≡ inner_below self.old.files.include_stack }
        requires nothing { self.old.pending ≡ nothing_pending }
        ensures { self.new ≡ left_engine self.old }
    {
        self.files.facts();
        let file = self.files.file();
        let line_ends = if file.ends_mid_line { 1 } else { 0 };
        let line = file.include_line;
        self.files.leave();
        let around = self.files.file();
        let shown = around.shift.shown_line(line);
        self.marks.end_line(line_ends, &around.name, shown);
        self.pending.queue_line_ends(line_ends);
        self.pending.queue_origin(self.origins, shown);
    }
}

// The name in a string with its quotes, where it isn't empty and is UTF-8.
fn name_in(string: &[u8]) -> Option<&str>
    requires { 0 < length string.now }
    ensures bad { IfNone result (is_bad_name (unquoted string.now) ≡ true) }
    ensures name { IfSome result (λ name. (name.now ≡ unquoted string.now) × (is_bad_name (unquoted string.now) ≡ false)) }
{
    let name = &string[1..string.len().max(2) - 1];
    if name.is_empty() {
        return None;
    }
    match str::from_utf8(name) {
        Ok(name) => Some(name),
        Err(_) => None,
    }
}
