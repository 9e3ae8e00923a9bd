// Searches that failed at a device or for memory, and are tried again.
ghost use Rattle.std.specs.Prelude.{◌≡◌, ◌&&◌};
ghost use Rattle.rdlpp_read.specs.Buffer.{held_of};
ghost use Rattle.rdlpp_read.specs.Files.{inner_buffer};
ghost use Rattle.rdlpp_state.specs.Opening.{start_fault};
ghost use Rattle.rdlpp_state.specs.Searches.{Retries, StartsAgain, begins_include, is_failed_call, is_failed_search, is_failed_start};
ghost use Rattle.rdlpp_state.specs.Steps.{is_call_failed, may_follow};

use super::Engine;
use rdlpp_meaning::{Fault, FaultKind};
use rdlpp_scan::Directive;
use rdlpp_source::Sources;
use rdlpp_state::Phase;

impl<S: Sources> Engine<S> {
    /// Forgets the fault that is kept, where it is that of a search for an included source that failed at a device or for
    /// memory: the next step searches again, and what remained of the output remains.
    ///
    /// Nothing else changes, and where no such fault is kept nothing does: a fault of a read, of the main text's opening or
    /// of a text is never forgotten. The rules are this project's.
    pub fn retry(&mut self)
        ensures { Retries S.Sources self.old self.new }
    {
        if self.keeps_failed_search() {
            self.kept = None;
            // A `define` before the stop is no news to a run that goes on.
            self.defined = None;
        }
    }

    /// Opens the main text, whose path is `path`, once more, where its opening failed at a device or for memory.
    ///
    /// Then it is as `start` of an engine that wasn't started, with the same definitions. Where no such fault is kept nothing
    /// changes, and the fault that is kept is answered, if one is. The rules are this project's.
    ///
    /// # Errors
    /// As of `start`.
    pub fn start_again(&mut self, path: &str) -> Result<(), Fault>
        ensures { StartsAgain S.Sources self.old self.new path.now (start_fault result) }
    {
        if self.keeps_failed_start() {
            self.phase = Phase::Fresh;
            self.kept = None;
            return self.start(path);
        }
        match self.kept_fault() {
            Some(fault) => Err(fault),
            None => Ok(()),
        }
    }

    // Whether the fault of a search for an included source that failed is kept.
    fn keeps_failed_search(&self) -> bool
        ensures { result ≡ is_failed_search self.now }
    {
        self.keeps_failed_call() && self.is_at_include()
    }

    // Whether the fault of an opening of the main text that failed is kept.
    pub(crate) fn keeps_failed_start(&self) -> bool
        ensures { result ≡ is_failed_start self.now }
    {
        self.keeps_failed_call() && self.phase == Phase::Closed
    }

    // Whether the fault that is kept is that of a device that failed, or of memory that was refused.
    fn keeps_failed_call(&self) -> bool
        ensures { result ≡ is_failed_call self.now.kept }
    {
        match &self.kept {
            Some(fault) => is_call_failure(fault.kind),
            None => false,
        }
    }

    // Whether the main text is open, and what is held of the innermost source begins with the word of an `include`.
    #[tactic(auto, unfolding(rdlpp_state::specs::Searches::begins_include))]
    fn is_at_include(&self) -> bool
        ensures { result ≡ (may_follow self.now.phase && begins_include (held_of (inner_buffer self.now.files.include_stack))) }
    {
        has_open(self.phase) && self.front().starts_with(Directive::Include.word())
    }
}

// Whether the main text is open, and more may be lent.
#[tactic(auto, unfolding(rdlpp_state::specs::Steps::may_follow))]
fn has_open(phase: Phase) -> bool
    ensures { result ≡ may_follow phase }
{
    phase == Phase::Open
}

// Whether a kind is that of a source that couldn't be read or searched for: a device failed, or memory was refused.
#[tactic(auto, unfolding(rdlpp_state::specs::Steps::is_call_failed, rdlpp_state::specs::Steps::is_read_failed, rdlpp_state::specs::Steps::is_memory_kind))]
fn is_call_failure(kind: FaultKind) -> bool
    ensures { result ≡ is_call_failed kind }
{
    kind == FaultKind::ReadFailed || kind == FaultKind::SourceMemory
}
