// The stack of open texts.
ghost use Rattle.std.specs.Prelude.{[], length, true, IfOk, List, None, ℕ, ◌==◌, ◌<◌, ◌≡◌, ◌≤◌, ◌∷◌, ◌^◌, ◌+◌, ◌*◌, drop, nat_le};
ghost use Rattle.std.specs.Option.{option_map};
ghost use Rattle.rdlpp_define.specs.Table.{macro_at};
ghost use Rattle.rdlpp_meaning.specs.Opens.{open_body, Texts};
ghost use Rattle.rdlpp_texts.specs.TextItems.{IsPeekAhead};
ghost use Rattle.rdlpp_texts.specs.Opened.{bound_by, is_spent, kept_by, moved_to, open_of, IsNoBody, StaysOutermost};
ghost use Rattle.rdlpp_texts.specs.Places.{source_text, texts_of};
ghost use Rattle.rdlpp_texts.specs.Scopes.{innermost_place};
ghost use Rattle.rdlpp_texts.specs.Steps.{AreSound};
ghost use Rattle.rdlpp_texts.specs.TakenSteps.{TakesStep};
ghost use Rattle.rdlpp_texts.specs.Turns.{Closes};
ghost use Rattle.rdlpp_texts.specs.declared.step.CursorStep.TheVariants.{Silent};

mod call;
mod usage;

use crate::Range;
use crate::frame::{Frame, FrameKind};
use crate::frames::{FIRST_FRAMES, free_frame, push_closed};
use crate::hints::{LookupHints, NO_HINTS};
use crate::peek::{PeekedText, peek_at};
use crate::place::{TextPlace, TextSource};
use crate::scopes::{body_bounds, innermost_place, scope_bounds};
use crate::step::CursorStep;
use rdlpp_table::{MacroId, Table};
use std::alloc::{AllocError, Global};
use std::marker::Model;

mod formal;
mod opening;

// The most ranges that the call of one open body binds: one for each formal of its macro (this project's profile).
const MOST_BINDINGS: usize = 255;

// The open texts of a usage in a source that lie in frames, the innermost first: bodies, actuals and default texts, as ranges of
// bytes.
//
// No call but `new` takes memory.
#[derive(Drop)]
pub struct Cursors {
    // the open texts stand at the back, the innermost first; a few frames are made at first, and more where texts need them, in
    // the memory that is reserved for `depth` of them
    frames: Vec<Frame>,
    // the open texts stand from here on
    first: usize,
    // so many texts may be open
    depth: usize,
    // the ranges that the calls of the open bodies have bound, those of the innermost last
    bindings: Vec<Range>,
    line: u64,
    hints: LookupHints,
}

impl Model for Cursors {
    ghost use Rattle.std.specs.Prelude.{drop, vec_capacity};
    ghost use Rattle.rdlpp_texts.specs.Opened.{opens_of, CursorsView, IsStack};

    ghost Value = { CursorsView };

    ghost view = { λ c. record {
      opens = opens_of (drop c.first c.frames.items) c.bindings.items;
      line = c.line;
      depth = c.depth;
    } };

    ghost invariant = { λ c. IsStack c.frames.items (vec_capacity c.frames) c.depth c.first c.bindings };
}

// How many of so many ranges are kept where a frame is closed.
fn kept_by(frame: &Frame, bound: usize) -> usize
    ensures { result ≡ kept_by frame.now.kind bound }
{
    match frame.kind {
        FrameKind::Body { first, .. } => first,
        _ => bound,
    }
}

impl Cursors {
    // No open texts, with room for `depth` of them, each of which may bind 255 ranges (this project's profile).
    pub fn new(alloc: Global, depth: usize) -> Result<Cursors, AllocError>
        requires { depth ≤ 1024 }
        ensures { IfOk result (λ c. c ≡ record { opens = []; line = 0; depth = depth }) }
    {
        // The list of frames is asked for last: where it is small, an allocator may keep it for the next that asks for one, and then
        // gives nothing back of what lies before it.
        let bindings = Vec::with_capacity(alloc, (depth + 1) * MOST_BINDINGS)?;
        let mut frames = Vec::with_capacity(alloc, depth)?;
        let first = depth.min(FIRST_FRAMES);
        push_closed(&mut frames, first);
        Ok(Cursors {
            frames,
            first,
            depth,
            bindings,
            line: 0,
            hints: NO_HINTS,
        })
    }

    // Closes all texts: there is none, as when they were made.
    pub fn clear(&mut self)
        ensures { self.new ≡ record { opens = []; line = 0; depth = self.old.depth } }
    {
        self.first = self.frames.len();
        self.bindings.clear();
        self.line = 0;
        self.hints = NO_HINTS;
    }

    // Whether no text is open.
    pub fn is_empty(&self) -> bool
        ensures { result ≡ (length self.now.opens == 0) }
    {
        self.len() == 0
    }

    // How many texts are open.
    pub fn len(&self) -> usize
        ensures value { result ≡ length self.now.opens }
        ensures few { length self.now.opens ≤ self.now.depth }
        ensures short { self.now.depth < 2 ^ 64 }
    {
        self.frames.len() - self.first
    }

    // The line of the usage in the source that opened them.
    pub fn line(&self) -> u64
        ensures { result ≡ self.now.line }
    {
        self.line
    }

    // Where what is left of the innermost text lies, if one is open.
    pub fn innermost(&self) -> Option<TextPlace>
        ensures { result ≡ innermost_place self.now.opens }
    {
        let frames = self.frames.as_slice();
        innermost_place(&frames[self.first..])
    }

    // How many ranges the calls of the open bodies have bound.
    pub fn bound(&self) -> usize
        ensures value { result ≡ bound_by self.now.opens }
        ensures few { bound_by self.now.opens ≤ self.now.depth * 255 }
    {
        let _first = self.first;
        self.bindings.len()
    }

    // Whether as many texts are open as may be.
    fn is_full(&self) -> bool
        ensures { result ≡ nat_le self.now.depth (length self.now.opens) }
    {
        self.first == 0 && self.frames.len() == self.depth
    }

    // Closes the innermost text, with the ranges that its call has bound.
    fn close(&mut self)
        requires { 0 < length self.old.opens }
        ensures { self.new ≡ record self.old { opens = drop 1 self.old.opens } }
    {
        let kept = kept_by(&self.frames[self.first], self.bindings.len());
        self.bindings.truncate(kept);
        self.first += 1;
    }

    // Whether nothing is left of the innermost text.
    fn is_spent(&self) -> bool
        requires { 0 < length self.now.opens }
        ensures { result ≡ is_spent self.now.opens }
    {
        let frame = &self.frames[self.first];
        frame.end <= frame.from
    }

    // Closes the innermost text, of which nothing is left, and those around it of which nothing is left either, up to the
    // outermost, which stays open if it isn't the innermost.
    fn close_spent(&mut self)
        requires { 0 < length self.old.opens }
        ensures spent { (texts : Texts) → AreSound texts self.old.opens → is_spent self.old.opens ≡ true → TakesStep texts self.old Silent self.new }
        ensures keeps { 1 < length self.old.opens → 0 < length self.new.opens }
        ensures fewer { length self.new.opens < length self.old.opens }
        ensures outer { StaysOutermost self.old.opens self.new.opens }
        ensures closes { Closes self.old.opens self.new.opens }
    {
        self.close();
        while self.len() > 1 && self.is_spent() {
            self.close();
        }
    }

    // Goes on at a place of the innermost text.
    fn move_to(&mut self, at: usize)
        requires { 0 < length self.old.opens }
        ensures { self.new ≡ record self.old { opens = moved_to at self.old.opens } }
    {
        let first = self.first;
        self.frames[first].from = at;
    }

    // Opens an actual or a default.
    #[inline(always)]
    fn push_text(&mut self, mut new: Frame)
        requires text { IsNoBody new.kind }
        requires room { length self.old.opens < self.old.depth }
        ensures { self.new ≡ record self.old { opens = open_of new [] ∷ self.old.opens } }
    {
        new.bounds = scope_bounds(&self.frames.as_slice()[self.first..], new.parent);
        let first = free_frame(&mut self.frames, self.first, self.depth);
        self.frames[first] = new;
        self.first = first;
    }

    // Where the innermost text lies, where it goes on and ends, up to where it is copied, and what stands there, with the bytes of
    // the text in which it lies.
    fn peek<'a>(&self, table: &'a Table, arguments: &'a [u8]) -> PeekedText<'a>
        requires some { 0 < length self.now.opens }
        requires sound { AreSound (texts_of table.now.macros arguments.now) self.now.opens }
        ensures peek { IsPeekAhead (texts_of table.now.macros arguments.now) self.now.opens result.peek }
        ensures short { result.peek.end < 2 ^ 64 }
        ensures text { result.text.now ≡ source_text (texts_of table.now.macros arguments.now) result.peek.source }
    {
        let frames = self.frames.as_slice();
        peek_at(
            &frames[self.first..],
            self.bindings.as_slice(),
            table,
            arguments,
        )
    }

    // Opens the body of a macro for a usage without arguments, which stands in a source at a line.
    pub fn open_body(&mut self, table: &Table, id: MacroId, line: u64)
        requires id { id < length table.now.macros }
        requires plain { option_map length (macro_at table.now.macros id).formals ≡ None }
        requires closed { self.old.opens ≡ [] }
        requires room { 0 < self.old.depth }
        ensures opens { self.new ≡ record { opens = open_body (texts_of table.now.macros []) id [] 0 ∷ []; line = line; depth = self.old.depth } }
        ensures sound { (arguments : List ℕ) → AreSound (texts_of table.now.macros arguments) self.new.opens }
    {
        let _macros = table.len();
        let end = table.body(id).len();
        let bound = self.bindings.len();
        let bounds = body_bounds(&self.frames.as_slice()[self.first..], 0, id);
        let first = free_frame(&mut self.frames, self.first, self.depth);
        self.frames[first] = Frame {
            from: 0,
            end,
            parent: 0,
            kind: FrameKind::Body { id, first: bound },
            bounds,
        };
        self.first = first;
        self.line = line;
    }

    /// One step of the innermost text, by what stands at its front. `arguments` is what is kept of the call in the source.
    ///
    /// It lends the longest run of bytes that are copied, in one piece as they lie. It opens the actual of a formal, its default
    /// where the actual is empty, or the body of a macro, and goes on after the name or the call. Or it closes a text of which
    /// nothing is left, and those around it of which nothing is left either, but for the outermost. Where it lends a run, what
    /// stands after that is opened in the same step, or a text that ends there is closed while others are open around it.
    pub fn step(&mut self, table: &Table, arguments: &[u8]) -> CursorStep
        requires some { 0 < length self.old.opens }
        requires sound { AreSound (texts_of table.now.macros arguments.now) self.old.opens }
        ensures { TakesStep (texts_of table.now.macros arguments.now) self.old result self.new }
    {
        let sight = self.peek(table, arguments);
        let peek = sight.peek;
        let lent = peek.from < peek.at;
        self.move_to(peek.at);
        let opened = self.open_front(table, arguments, sight.text, &peek, lent);
        if lent {
            CursorStep::Lends(TextPlace {
                source: peek.source,
                from: peek.from,
                end: peek.at,
            })
        } else {
            opened
        }
    }
}
