// Usages of macros with a list in an open text.
ghost use Rattle.std.specs.Prelude.{[], IfErr, IfOk, is_some, length, slice_range, true, ◌<◌, ◌≡◌, ◌≤◌};
ghost use Rattle.rdlpp_define.specs.Table.{macro_at};
ghost use Rattle.rdlpp_meaning.specs.Substitution.{body_tokens};
ghost use Rattle.rdlpp_texts.specs.BoundCalls.{KeepsAll};
ghost use Rattle.rdlpp_texts.specs.Calls.{IsCallFault, IsCallMiscounted, IsCallStarted, IsOpening};
ghost use Rattle.rdlpp_texts.specs.Places.{texts_of};
ghost use Rattle.rdlpp_texts.specs.Steps.{IsUnlent};
ghost use Rattle.rdlpp_texts.specs.TakenSteps.{PeeksAt, TakesStep};
ghost use Rattle.rdlpp_texts.specs.Usages.{front_name, IsUsed};

use crate::cursors::Cursors;
use crate::cursors::usage::word_of;
use crate::frame::{Frame, FrameKind};
use crate::frames::free_frame;
use crate::peek::{Peek, TextItem};
use crate::scopes::body_bounds;
use crate::step::{CursorFault, CursorStep, wordless};
use crate::{bind_call, bind_parts, keeps_each};
use rdlpp_meaning::FaultKind;
use rdlpp_table::{MacroId, Table};

// What a call in an open text comes to.
enum Opening {
    // The body is opened.
    Opened,
    // The call is refused.
    Refused(FaultKind),
    // The call is bound, and no further text may be open.
    Deep,
}

impl Cursors {
    // Opens the body of a macro with a list of formals for a call that stands in a source at a line.
    pub fn open_call(
        &mut self,
        table: &Table,
        arguments: &[u8],
        id: MacroId,
        line: u64,
    ) -> Result<(), FaultKind>
        requires id { id < length table.now.macros }
        requires list { is_some (macro_at table.now.macros id).formals ≡ true }
        requires closed { self.old.opens ≡ [] }
        requires room { 0 < self.old.depth }
        ensures opens { IfOk result (λ _. IsCallStarted (texts_of table.now.macros arguments.now) id line self.old self.new) }
        ensures refused { IfErr result (λ kind. IsCallMiscounted (texts_of table.now.macros arguments.now) id kind self.old self.new) }
    {
        let _macros = table.len();
        let formals = table.arity(id).unwrap_or(0);
        let bound = self.bindings.len();
        let bounds = body_bounds(&self.frames.as_slice()[self.first..], 0, id);
        if !keeps_each(arguments) {
            return Err(FaultKind::ArgumentCount);
        }
        bind_parts(arguments, formals, &mut self.bindings)?;
        let first = free_frame(&mut self.frames, self.first, self.depth);
        self.frames[first] = Frame {
            from: 0,
            end: table.body(id).len(),
            parent: 0,
            kind: FrameKind::Body { id, first: bound },
            bounds,
        };
        self.first = first;
        self.line = line;
        Ok(())
    }

    // The usage, with so many bytes, of a macro with a list at the front of the innermost text: it opens the body, or is
    // refused (IEEE 1364-2001, `define`), and nothing changes then.
    pub(super) fn call(
        &mut self,
        table: &Table,
        arguments: &[u8],
        text: &[u8],
        peek: &Peek,
        len: usize,
        id: MacroId,
    ) -> CursorStep
        requires peek { PeeksAt (texts_of table.now.macros arguments.now) self.old.opens peek.now text.now }
        requires front { peek.now.front ≡ TextItem.Usage len }
        requires used { IsUsed (texts_of table.now.macros arguments.now) self.old.opens (front_name (texts_of table.now.macros arguments.now) self.old.opens len) id }
        requires list { is_some (macro_at table.now.macros id).formals ≡ true }
        ensures step { TakesStep (texts_of table.now.macros arguments.now) self.old result self.new }
        ensures open { 0 < length self.new.opens }
        ensures unlent { IsUnlent result }
    {
        let _macros = table.len();
        let parent = self.scope();
        let at = peek.at + len;
        match self.open_bound(table, text, at, peek.end, id, parent) {
            Opening::Opened => CursorStep::Silent,
            Opening::Refused(kind) => CursorStep::Refused(CursorFault {
                kind,
                word: word_of(peek, len),
            }),
            Opening::Deep => wordless(FaultKind::DepthPassed),
        }
    }

    // Binds a call in the innermost text, from one place of that text up to another, goes on after it, and opens the body of
    // the macro. Nothing changes where that isn't so.
    fn open_bound(
        &mut self,
        table: &Table,
        text: &[u8],
        at: usize,
        end: usize,
        id: MacroId,
        parent: usize,
    ) -> Opening
        requires some { 0 < length self.old.opens }
        requires range { (at ≤ end) × (end ≤ length text.now) }
        requires keeps { KeepsAll (body_tokens (slice_range text.now at end)) }
        requires id { id < length table.now.macros }
        ensures opening { IsOpening table.now.macros text.now at end id parent self.old result self.new }
        ensures fault { IsCallFault result }
    {
        let _macros = table.len();
        let formals = table.arity(id).unwrap_or(0);
        let first = self.first;
        let full = self.is_full();
        let bound = self.bindings.len();
        let bounds = body_bounds(&self.frames.as_slice()[first..], parent, id);
        let following = match bind_call(text, at, end, formals, &mut self.bindings) {
            Ok(following) => following,
            Err(kind) => return Opening::Refused(kind),
        };
        if full {
            self.bindings.truncate(bound);
            return Opening::Deep;
        }
        self.frames[first].from = following;
        let place = free_frame(&mut self.frames, first, self.depth);
        self.frames[place] = Frame {
            from: 0,
            end: table.body(id).len(),
            parent,
            kind: FrameKind::Body { id, first: bound },
            bounds,
        };
        self.first = place;
        Opening::Opened
    }
}
