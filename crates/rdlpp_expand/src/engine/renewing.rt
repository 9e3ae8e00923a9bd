// How an engine is made fresh again.
ghost use Rattle.std.specs.Prelude.{◌≡◌};
ghost use Rattle.rdlpp_state.specs.Opening.{fresh_engine};

use super::Engine;
use super::opening::forget;
use arrayvec::ArrayString;
use rdlpp_source::Sources;
use rdlpp_state::{Pending, Phase};
use std::mem;

impl<S: Sources> Engine<S> {
    /// Makes the engine fresh again, over other sources; those that it had are answered.
    ///
    /// It may have been anywhere: not started, between two pieces, at the end, or at a fault. Then it is as a new one of the same
    /// limits, with an empty table, and nothing of an earlier run is left: no macro, no open source, whose readers are dropped, and
    /// no fault. It asks for no memory and gives none back, and costs what was used of it, not what its limits reserve.
    #[tactic(auto, unfolding(rdlpp_state::specs::Opening::fresh_engine))]
    pub fn renew(&mut self, sources: S, origins: bool) -> S
        ensures fresh { self.new ≡ fresh_engine self.old.limits sources origins }
        ensures sources { result ≡ self.old.sources }
    {
        self.origins = origins;
        self.phase = Phase::Fresh;
        self.quota = self.limits.output_bytes;
        forget(&mut self.kept);
        self.main.clear();
        self.pending = Pending::nothing();
        self.marks.clear();
        self.taken = 0;
        self.defined = None;
        self.table.clear();
        self.conditions.clear();
        self.files.clear();
        self.expansion.clear();
        mem::replace(&mut self.sources, sources)
    }

    // Ends the output of an engine that wasn't started: it has no bytes.
    pub(crate) fn end_unstarted(&mut self)
        requires { self.old.phase ≡ Phase.Fresh }
        ensures { self.new ≡ record self.old { phase = Phase.Closed } }
    {
        self.phase = Phase::Closed;
    }

    // Is as one that wasn't started, where no main text is open.
    pub(crate) fn await_start(&mut self)
        requires { self.old.phase ≡ Phase.Closed }
        ensures { self.new ≡ record self.old { phase = Phase.Fresh } }
    {
        self.phase = Phase::Fresh;
    }
}
