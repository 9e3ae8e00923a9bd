// Steps over the open texts of a usage.
ghost use Rattle.std.specs.Prelude.{◌≡◌, ◌↔◌, ◌<◌, IfSome, IsTrue};
ghost use Rattle.rdlpp_texts.specs.Places.{IsPlaced as IsTextPlaced, place_bytes};
ghost use Rattle.rdlpp_state.specs.Held.{IsBounded};
ghost use Rattle.rdlpp_state.specs.Pieces.{IsPlaced, held_texts, step_answer};
ghost use Rattle.rdlpp_state.specs.Steps.{Step, UncutStep, UncutStepWithin};
ghost use Rattle.rdlpp_expand.specs.Texts.{IsInTexts, LeavesTexts, StaysDrained, place_of};

use crate::engine::Engine;
use rdlpp_source::Sources;
use rdlpp_state::{Halt, Phase, PieceLocation};
use rdlpp_texts::{CursorStep, TextPlace, text_at};

// How many steps of a run that come to no bytes are taken in a row, before one more: 256 in all.
const FURTHER_STEPS: usize = 255;

// What steps over open texts come to.
#[derive(Clone, Copy)]
pub(crate) enum TextStep {
    // The piece at a place of a text is lent.
    Lent(TextPlace),
    // Nothing is lent.
    Silent,
    // The engine keeps a fault.
    Fault,
}

impl TextStep {
    // Where it stands, as of other steps.
    pub(super) fn place(self) -> Option<PieceLocation>
        ensures { result ≡ place_of self }
    {
        match self {
            TextStep::Lent(place) => Some(PieceLocation::Text(place)),
            TextStep::Silent => None,
            TextStep::Fault => Some(PieceLocation::Halt(Halt::Fault)),
        }
    }
}

impl<S: Sources> Engine<S> {
    // Whether the next step is one over the open texts of a usage.
    pub(crate) fn is_in_texts(&self) -> bool
        ensures { IsTrue result ↔ IsInTexts self.now }
    {
        self.kept.is_none()
            && self.phase == Phase::Open
            && self.pending.is_nothing()
            && !self.expansion.is_empty()
    }

    // Whether more may be lent of the text.
    pub(crate) fn is_open(&self) -> bool
        ensures { IsTrue result ↔ (self.now.phase ≡ Phase.Open) }
    {
        self.phase == Phase::Open
    }

    // The step of `run` over the open texts of a usage: goes on to the next piece of one of them, cut to what the limit on the
    // output leaves, or until none is open, or 256 steps came to no bytes.
    pub(crate) fn advance_text(&mut self) -> TextStep
        requires { IsInTexts self.old }
        ensures place { IfSome (place_of result) (IsPlaced self.new) }
        ensures steps { Step S.Sources self.old self.new (step_answer self.new (place_of result)) }
        ensures leaves { LeavesTexts result self.new }
    {
        let step = self.walk_texts();
        self.facts();
        match step {
            TextStep::Lent(place) => {
                let len = self.charge_quota(place.end - place.from);
                TextStep::Lent(TextPlace {
                    source: place.source,
                    from: place.from,
                    end: place.from + len,
                })
            }
            step => step,
        }
    }

    // Takes steps over the open texts of a usage, until one lends something, or no text is open any more, or 256 came to no
    // bytes.
    fn walk_texts(&mut self) -> TextStep
        requires { IsInTexts self.old }
        ensures place { IfSome (place_of result) (IsPlaced self.new) }
        ensures uncut_step { IsBounded self.new → UncutStepWithin S.Sources 255 self.old self.new (step_answer self.new (place_of result)) }
        ensures leaves { LeavesTexts result self.new }
    {
        let mut silent = 0;
        loop {
            match self.step_text() {
                TextStep::Silent => {
                    self.facts();
                    if silent == FURTHER_STEPS || self.expansion.is_empty() {
                        return TextStep::Silent;
                    }
                    silent += 1;
                }
                step => return step,
            }
        }
    }

    // Takes one step over the open texts of a usage.
    pub(super) fn step_text(&mut self) -> TextStep
        requires { IsInTexts self.old }
        ensures place { IfSome (place_of result) (IsPlaced self.new) }
        ensures uncut_step { IsBounded self.new → UncutStep S.Sources self.old self.new (step_answer self.new (place_of result)) }
        ensures stays { StaysDrained result self.new }
    {
        self.facts();
        let step = self.expansion.step(&self.table);
        self.expansion.facts();
        match step {
            CursorStep::Lends(place) => {
                let line = self.expansion.line();
                self.marks.lend_usage(line);
                TextStep::Lent(place)
            }
            CursorStep::Silent => TextStep::Silent,
            CursorStep::Refused(fault) => {
                let _kept = self.record_text_fault(fault);
                TextStep::Fault
            }
        }
    }

    // The bytes at a place of a text.
    pub(crate) fn text(&self, place: TextPlace) -> &[u8]
        requires { IsTextPlaced (held_texts self.now) place }
        ensures { result.now ≡ place_bytes (held_texts self.now) place }
    {
        text_at(&self.table, self.expansion.arguments(), place)
    }
}
