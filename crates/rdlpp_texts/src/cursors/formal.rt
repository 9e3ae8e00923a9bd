// The opening of what a formal stands for.
ghost use Rattle.std.specs.Prelude.{[], length, ◌+◌, ◌<◌, ◌≡◌};
ghost use Rattle.std.specs.Option.{option_map};
ghost use Rattle.rdlpp_texts.specs.TextItems.{IsPeek};
ghost use Rattle.rdlpp_texts.specs.Opened.{open_of};
ghost use Rattle.rdlpp_texts.specs.Places.{source_formals, texts_of};
ghost use Rattle.rdlpp_meaning.specs.Opens.{found_standing, scope_open};
ghost use Rattle.rdlpp_texts.specs.Scopes.{found_source, front_scope, AreBound};
ghost use Rattle.rdlpp_texts.specs.Steps.{AreSound, IsUnlent};
ghost use Rattle.rdlpp_texts.specs.TakenSteps.{TakesStep};

use crate::cursors::Cursors;
use crate::frame::Frame;
use crate::peek::{Peek, TextItem};
use crate::scopes::{front_scope, standing};
use crate::step::{CursorStep, wordless};
use rdlpp_meaning::FaultKind;
use rdlpp_table::Table;

impl Cursors {
    // Opens the actual of the formal whose name stands at the front of the innermost text, which goes on after that name; its
    // default, where the actual is empty and it has one (this project's profile).
    //
    // Where no frame is left it is a fault (`DepthPassed`) without a word, also for an empty actual, and nothing changes then.
    pub(super) fn formal(
        &mut self,
        table: &Table,
        arguments: &[u8],
        peek: &Peek,
        len: usize,
        place: usize,
    ) -> CursorStep
        requires some { 0 < length self.old.opens }
        requires sound { AreSound (texts_of table.now.macros arguments.now) self.old.opens }
        requires peek { IsPeek (texts_of table.now.macros arguments.now) self.old.opens peek.now }
        requires front { peek.now.front ≡ TextItem.Formal len place }
        ensures step { TakesStep (texts_of table.now.macros arguments.now) self.old result self.new }
        ensures open { 0 < length self.new.opens }
        ensures unlent { IsUnlent result }
    {
        let peek = *peek;
        let _macros = table.len();
        let _arguments = arguments.len();
        let Some(new) = self.standing(table, place) else {
            return wordless(FaultKind::DepthPassed);
        };
        if self.is_full() {
            return wordless(FaultKind::DepthPassed);
        }
        self.move_to(peek.at + len);
        self.push_text(new);
        CursorStep::Silent
    }

    // What the formal at a place stands for in the scope of the innermost text.
    fn standing(&self, table: &Table, place: usize) -> Option<Frame>
        requires some { 0 < length self.now.opens }
        requires bound { AreBound table.now.macros self.now.opens }
        requires place { place < length (source_formals (texts_of table.now.macros []) (found_source (scope_open self.now.opens (front_scope self.now.opens)))) }
        ensures { option_map (λ frame. open_of frame []) result ≡ found_standing table.now.macros (scope_open self.now.opens (front_scope self.now.opens)) (front_scope self.now.opens) place }
    {
        let frames = &self.frames.as_slice()[self.first..];
        let scope = front_scope(frames);
        standing(frames, self.bindings.as_slice(), table, scope, place)
    }
}
