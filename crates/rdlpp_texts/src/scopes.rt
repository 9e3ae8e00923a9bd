// The scopes of open texts, which lie in frames, the innermost first.
ghost use Rattle.std.specs.Prelude.{[], length, nat_le, slice_index_or, if◌then◌else◌, List, ◌+◌, ◌==◌, ◌<◌, ◌≡◌, ◌≤◌, ◌∷◌};
ghost use Rattle.std.specs.List.{list_any, AllByRecursion};
ghost use Rattle.std.specs.Option.{option_map};
ghost use Rattle.rdlpp_define.specs.Table.{formal_at, macro_at};
ghost use Rattle.rdlpp_define.specs.Macros.{formals_of};
ghost use Rattle.rdlpp_meaning.specs.Opens.{open_standing, part_at, Part, found_standing, scope_open};
ghost use Rattle.rdlpp_texts.specs.Opened.{is_body_of, open_of, opens_of, outer_of, frame_source, AreBounded, AreParentedFrames, IsWithin};
ghost use Rattle.rdlpp_texts.specs.Places.{place_bytes, source_formals, source_text, texts_of, IsPlaced, IsSource};
ghost use Rattle.rdlpp_texts.specs.Scopes.{found_source, front_scope, front_source, innermost_place, hidden_ids, AreBound};
ghost use Rattle.rdlpp_texts.specs.BoundCalls.{range_part};
ghost use Rattle.rdlpp_texts.specs.declared.bindings.Range.{Range as Bound};

use crate::Range;
use crate::frame::{Bounds, Frame, FrameKind, NO_BOUNDS, is_excluded};
use crate::place::{TextPlace, TextSource};
use rdlpp_table::{MacroId, Table};

// The bytes of a text.
#[tactic(auto, unfolding(crate::specs::Places::source_text))]
pub(crate) fn text_of<'a>(table: &'a Table, arguments: &'a [u8], source: TextSource) -> &'a [u8]
    requires { IsSource (texts_of table.now.macros arguments.now) source }
    ensures { result.now ≡ source_text (texts_of table.now.macros arguments.now) source }
{
    match source {
        TextSource::Arguments => arguments,
        TextSource::Body(id) => table.body(id),
        TextSource::Default { id, place } => table.default_text(id, place),
    }
}

/// The bytes at a place of a text, as a step lends them or tells the word of a fault. `arguments` is what is kept of the call in
/// the source.
#[tactic(auto, unfolding(crate::specs::Places::place_bytes))]
pub fn text_at<'a>(table: &'a Table, arguments: &'a [u8], place: TextPlace) -> &'a [u8]
    requires { IsPlaced (texts_of table.now.macros arguments.now) place }
    ensures { result.now ≡ place_bytes (texts_of table.now.macros arguments.now) place }
{
    let text = text_of(table, arguments, place.source);
    &text[place.from..place.end]
}

// The scope of what is written in the innermost open text: an actual is no scope of its own.
pub(crate) fn front_scope(frames: &[Frame]) -> usize
    requires { 0 < length frames.now }
    ensures { (bindings : List Bound) → result ≡ front_scope (opens_of frames.now bindings) }
{
    let frame = &frames[0];
    match frame.kind {
        FrameKind::Actual => frame.parent,
        _ => frames.len(),
    }
}

// Where the text of a frame lies, if it is a body or a default.
fn source_of(frame: &Frame) -> TextSource
    ensures { result ≡ frame_source frame.now.kind }
{
    match frame.kind {
        FrameKind::Body { id, .. } => TextSource::Body(id),
        FrameKind::Actual => TextSource::Arguments,
        FrameKind::Default { id, place } => TextSource::Default { id, place },
    }
}

// Where the text of a scope lies.
fn source_at(frames: &[Frame], scope: usize) -> TextSource
    ensures { (bindings : List Bound) → result ≡ found_source (scope_open (opens_of frames.now bindings) scope) }
{
    if scope == 0 || frames.len() < scope {
        return TextSource::Arguments;
    }
    source_of(&frames[frames.len() - scope])
}

// Where the innermost open text lies.
pub(crate) fn front_source(frames: &[Frame]) -> TextSource
    requires { 0 < length frames.now }
    ensures { (bindings : List Bound) → result ≡ front_source (opens_of frames.now bindings) }
{
    let frame = &frames[0];
    match frame.kind {
        FrameKind::Actual => source_at(&frames[1..], frame.parent),
        _ => source_of(frame),
    }
}

// Where what is left of the innermost open text lies, if one is open.
pub(crate) fn innermost_place(frames: &[Frame]) -> Option<TextPlace>
    ensures { (bindings : List Bound) → result ≡ innermost_place (opens_of frames.now bindings) }
{
    if frames.is_empty() {
        return None;
    }
    let frame = &frames[0];
    Some(TextPlace {
        source: front_source(frames),
        from: frame.from.min(frame.end),
        end: frame.end,
    })
}

// The range that the formal at a place has, among ranges of which those of its call begin at a place.
fn range_at(bindings: &[Range], first: usize, place: usize) -> Range
    requires { first + place < length bindings.now }
    ensures { result ≡ slice_index_or bindings.now (first + place) result }
{
    bindings[first + place]
}

// How long the default text of a formal is, where the range that is its actual is empty.
fn default_len(table: &Table, id: MacroId, place: usize, range: Range) -> usize
    requires id { id < length table.now.macros }
    requires place { place < length (formals_of (macro_at table.now.macros id)) }
    ensures { result ≡ (if nat_le range.to range.from then length (formal_at (formals_of (macro_at table.now.macros id)) place).text else 0) }
{
    if range.to <= range.from {
        table.default_text(id, place).len()
    } else {
        0
    }
}

// The text that the formal at a place of a macro stands for in a scope, whose call is written in its parent: a range, or its
// default where the range is empty.
fn standing_of(
    table: &Table,
    id: MacroId,
    place: usize,
    range: Range,
    scope: usize,
    parent: usize,
) -> Frame
    requires id { id < length table.now.macros }
    requires place { place < length (formals_of (macro_at table.now.macros id)) }
    ensures { (own : List Bound) (parts : List Part) → part_at parts place ≡ range_part range → open_of result own ≡ open_standing (formals_of (macro_at table.now.macros id)) id scope parent parts place }
{
    let end = default_len(table, id, place, range);
    if end > 0 {
        return Frame {
            from: 0,
            end,
            parent: scope,
            kind: FrameKind::Default { id, place },
            bounds: NO_BOUNDS,
        };
    }
    Frame {
        from: range.from,
        end: range.to,
        parent,
        kind: FrameKind::Actual,
        bounds: NO_BOUNDS,
    }
}

// The text that the formal at a place stands for in a scope: its actual, or its default where the actual is empty.
pub(crate) fn standing(
    frames: &[Frame],
    bindings: &[Range],
    table: &Table,
    scope: usize,
    place: usize,
) -> Option<Frame>
    requires bound { AreBound table.now.macros (opens_of frames.now bindings.now) }
    requires place { place < length (source_formals (texts_of table.now.macros []) (found_source (scope_open (opens_of frames.now bindings.now) scope))) }
    ensures { (own : List Bound) → option_map (λ frame. open_of frame own) result ≡ found_standing table.now.macros (scope_open (opens_of frames.now bindings.now) scope) scope place }
{
    if scope == 0 || frames.len() < scope {
        return None;
    }
    let frame = &frames[frames.len() - scope];
    match frame.kind {
        FrameKind::Body { id, first } => {
            let range = range_at(bindings, first, place);
            Some(standing_of(table, id, place, range, scope, frame.parent))
        }
        _ => None,
    }
}

// The bounds of a scope.
pub(crate) fn scope_bounds(frames: &[Frame], scope: usize) -> Bounds
    requires { AreBounded frames.now }
    ensures { (bindings : List Bound) → AllByRecursion (IsWithin result) (hidden_ids (opens_of frames.now bindings) scope) }
{
    if scope == 0 || frames.len() < scope {
        return NO_BOUNDS;
    }
    frames[frames.len() - scope].bounds
}

// The bounds of the body of a macro whose call is written in a scope.
pub(crate) fn body_bounds(frames: &[Frame], scope: usize, id: MacroId) -> Bounds
    requires { AreBounded frames.now }
    ensures { (bindings : List Bound) → AllByRecursion (IsWithin result) (id ∷ hidden_ids (opens_of frames.now bindings) scope) }
{
    let outer = scope_bounds(frames, scope);
    Bounds {
        least: outer.least.min(id.index()),
        greatest: outer.greatest.max(id.index()),
    }
}

// Whether a frame has the body of a macro.
fn is_body_of(frame: &Frame, id: MacroId) -> bool
    ensures { result ≡ is_body_of frame.now.kind id }
{
    match frame.kind {
        FrameKind::Body { id: own, .. } => id == own,
        _ => false,
    }
}

// The scope in which the call of a frame's text is written; the source, after which nothing is sought, for an actual.
fn outer_of(frame: &Frame) -> usize
    ensures { result ≡ outer_of frame.now }
{
    match frame.kind {
        FrameKind::Actual => 0,
        _ => frame.parent,
    }
}

// Whether a scope is in the text of a macro: its own, or that of a parent further out.
fn is_hidden(frames: &[Frame], scope: usize, id: MacroId) -> bool
    requires parented { AreParentedFrames frames.now }
    requires bounded { AreBounded frames.now }
    requires inside { scope ≤ length frames.now }
    ensures { (bindings : List Bound) → result ≡ list_any (λ own. id == own) (hidden_ids (opens_of frames.now bindings) scope) }
{
    let mut at = scope;
    while at > 0 {
        let frame = &frames[frames.len() - at];
        if is_body_of(frame, id) {
            return true;
        }
        if is_excluded(frame.bounds, id) {
            return false;
        }
        at = outer_of(frame);
    }
    false
}

// Whether what is written in the innermost open text is in the text of a macro. Most macros that are used there are outside the bounds
// of that text, which tells it at once.
pub(crate) fn is_front_in(frames: &[Frame], id: MacroId) -> bool
    requires some { 0 < length frames.now }
    requires parented { AreParentedFrames frames.now }
    requires bounded { AreBounded frames.now }
    ensures { (bindings : List Bound) → result ≡ list_any (λ own. id == own) (hidden_ids (opens_of frames.now bindings) (front_scope (opens_of frames.now bindings))) }
{
    let scope = front_scope(frames);
    let frame = &frames[0];
    if scope == frames.len() && is_excluded(frame.bounds, id) {
        return false;
    }
    is_hidden(frames, scope, id)
}
