// Usages in open texts: their names, their faults, and the bodies of macros without a list.
ghost use Rattle.std.specs.Prelude.{◌≡◌, IfErr, true, ◌==◌, ◌∷◌, ◌+◌, ◌<◌, ◌^◌, [], length};
ghost use Rattle.std.specs.List.{list_any};
ghost use Rattle.std.specs.Result.{MatchResult};
ghost use Rattle.rdlpp_scan.specs.Reserved.{is_reserved};
ghost use Rattle.rdlpp_meaning.specs.Opens.{open_body};
ghost use Rattle.rdlpp_texts.specs.Opened.{moved_to};
ghost use Rattle.rdlpp_texts.specs.Places.{texts_of};
ghost use Rattle.rdlpp_texts.specs.Scopes.{front_scope, hidden_ids, AreFurtherOut};
ghost use Rattle.rdlpp_texts.specs.Steps.{IsUnlent};
ghost use Rattle.rdlpp_texts.specs.TakenSteps.{PeeksAt, TakesStep};
ghost use Rattle.rdlpp_texts.specs.Usages.{front_name, is_text_fault, unknown_kind, IsRefused, IsUsed};

use crate::cursors::Cursors;
use crate::frame::{Frame, FrameKind};
use crate::frames::free_frame;
use crate::peek::{Peek, TextItem};
use crate::place::TextPlace;
use crate::scopes::{body_bounds, front_scope, is_front_in};
use crate::step::{CursorFault, CursorStep, wordless};
use rdlpp_meaning::FaultKind;
use rdlpp_scan::reserved;
use rdlpp_table::{MacroId, Table};

impl Cursors {
    // One step at a usage of so many bytes, which stands at the front of the innermost text: it opens the body of its macro, or
    // is refused (IEEE 1364-2001, `define`), and nothing changes then.
    pub(super) fn usage(
        &mut self,
        table: &Table,
        arguments: &[u8],
        text: &[u8],
        peek: &Peek,
        len: usize,
    ) -> CursorStep
        requires peek { PeeksAt (texts_of table.now.macros arguments.now) self.old.opens peek.now text.now }
        requires front { peek.now.front ≡ TextItem.Usage len }
        ensures step { TakesStep (texts_of table.now.macros arguments.now) self.old result self.new }
        ensures open { 0 < length self.new.opens }
        ensures unlent { IsUnlent result }
    {
        let _macros = table.len();
        let id = match self.used_macro(table, arguments, text, peek, len) {
            Ok(id) => id,
            Err(kind) => {
                let word = word_of(peek, len);
                return CursorStep::Refused(CursorFault { kind, word });
            }
        };
        if table.arity(id).is_some() {
            return self.call(table, arguments, text, peek, len, id);
        }
        if self.is_full() {
            return wordless(FaultKind::DepthPassed);
        }
        self.enter(table, id, peek.at + len);
        CursorStep::Silent
    }

    // The macro of the usage at the front of the innermost text, or why it is refused.
    fn used_macro(
        &mut self,
        table: &Table,
        arguments: &[u8],
        text: &[u8],
        peek: &Peek,
        len: usize,
    ) -> Result<MacroId, FaultKind>
        requires peek { PeeksAt (texts_of table.now.macros arguments.now) self.old.opens peek.now text.now }
        requires front { peek.now.front ≡ TextItem.Usage len }
        ensures same { self.new ≡ self.old }
        ensures fault { IfErr result (λ kind. is_text_fault kind ≡ true) }
        ensures used { MatchResult result (λ id. IsUsed (texts_of table.now.macros arguments.now) self.old.opens (front_name (texts_of table.now.macros arguments.now) self.old.opens len) id) (λ kind. IsRefused (texts_of table.now.macros arguments.now) self.old.opens (front_name (texts_of table.now.macros arguments.now) self.old.opens len) kind) }
    {
        let name = &text[peek.at + 1..peek.at + len];
        let Some(id) = self.hints.find(table, name) else {
            return Err(unknown_kind(name));
        };
        if self.is_inside(id) {
            return Err(FaultKind::RecursiveMacro);
        }
        Ok(id)
    }

    // Whether the innermost text is in the text of a macro.
    fn is_inside(&self, id: MacroId) -> bool
        requires some { 0 < length self.now.opens }
        requires parented { AreFurtherOut self.now.opens }
        ensures { result ≡ list_any (λ own. id == own) (hidden_ids self.now.opens (front_scope self.now.opens)) }
    {
        let frames = self.frames.as_slice();
        is_front_in(&frames[self.first..], id)
    }

    // Opens the body of a macro without a list in front of the innermost text, which goes on at a place.
    fn enter(&mut self, table: &Table, id: MacroId, at: usize)
        requires some { 0 < length self.old.opens }
        requires room { length self.old.opens < self.old.depth }
        requires id { id < length table.now.macros }
        ensures { self.new ≡ record self.old { opens = open_body (texts_of table.now.macros []) id [] (front_scope self.old.opens) ∷ moved_to at self.old.opens } }
    {
        let end = table.body(id).len();
        let first = self.first;
        let bound = self.bindings.len();
        let frames = &self.frames.as_slice()[first..];
        let parent = front_scope(frames);
        let bounds = body_bounds(frames, parent, id);
        self.frames[first].from = at;
        let place = free_frame(&mut self.frames, first, self.depth);
        self.frames[place] = Frame {
            from: 0,
            end,
            parent,
            kind: FrameKind::Body { id, first: bound },
            bounds,
        };
        self.first = place;
    }

    // The scope of the innermost text.
    pub(super) fn scope(&self) -> usize
        requires { 0 < length self.now.opens }
        ensures { result ≡ front_scope self.now.opens }
    {
        let frames = self.frames.as_slice();
        front_scope(&frames[self.first..])
    }
}

// The fault of a usage whose name no macro has.
#[cold]
#[inline(never)]
fn unknown_kind(name: &[u8]) -> FaultKind
    ensures { result ≡ unknown_kind (is_reserved name.now) }
{
    if reserved(name).is_some() {
        FaultKind::DirectiveInText
    } else {
        FaultKind::UndefinedMacro
    }
}

// Where the name of a usage stands: after its backquote.
pub(super) fn word_of(peek: &Peek, len: usize) -> TextPlace
    requires short { peek.now.at + len < 2 ^ 64 }
    requires some { 0 < len }
    ensures { result ≡ record { source = peek.now.source; from = peek.now.at + 1; end = peek.now.at + len } }
{
    TextPlace {
        source: peek.source,
        from: peek.at + 1,
        end: peek.at + len,
    }
}
