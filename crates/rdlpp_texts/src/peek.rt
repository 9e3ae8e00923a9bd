// What stands at the front of an open text.
ghost use Rattle.std.specs.Prelude.{[], length, slice_range, List, ℕ, ◌+◌, ◌<◌, ◌≡◌, ◌≤◌, ◌^◌};
ghost use Rattle.rdlpp_scan.specs.Tokens.{tokens_from};
ghost use Rattle.rdlpp_table.specs.ExpansionPoints.{point_in, point_of};
ghost use Rattle.rdlpp_define.specs.Macros.{Formal};
ghost use Rattle.rdlpp_define.specs.Table.{macro_at};
ghost use Rattle.rdlpp_texts.specs.TextItems.{run_len, IsNextItem, IsTextItem, IsPeekAhead};
ghost use Rattle.rdlpp_texts.specs.Opened.{opens_of};
ghost use Rattle.rdlpp_texts.specs.Places.{source_formals, source_text, texts_of, IsSource};
ghost use Rattle.rdlpp_texts.specs.Steps.{AreSound};

use crate::Range;
use crate::frame::Frame;
use crate::place::TextSource;
use crate::scopes::{front_source, text_of};
use memchr::{memchr, memchr2};
use rdlpp_scan::{Kind, Mode, first_token};
use rdlpp_table::{ExpansionPoint, MacroId, Table};

// What stands at the front of an open text.
#[derive(Clone, Copy)]
pub(crate) enum TextItem {
    // Nothing.
    Ended,
    // The name of a formal.
    Formal { len: usize, place: usize },
    // A backquote and a name, with so many bytes together.
    Usage(usize),
    // A backquote without a name.
    Bare,
}

// Where what is copied at the front of an open text ends, and what stands there.
#[derive(Clone, Copy)]
pub(crate) struct NextItem {
    pub(crate) at: usize,
    pub(crate) front: TextItem,
}

// A look at the innermost open text: where it lies, where it goes on and ends, up to where it is copied, and what stands there.
#[derive(Clone, Copy)]
pub(crate) struct Peek {
    pub(crate) source: TextSource,
    pub(crate) from: usize,
    pub(crate) end: usize,
    pub(crate) at: usize,
    pub(crate) front: TextItem,
}

// A look at the innermost open text, with the bytes of the text in which that lies.
#[derive(Clone, Copy, Drop)]
pub(crate) struct PeekedText<'a> {
    pub(crate) peek: Peek,
    pub(crate) text: &'a [u8],
}

// A look at open texts, which lie in frames, the innermost first.
pub(crate) fn peek_at<'a>(
    frames: &[Frame],
    bindings: &[Range],
    table: &'a Table,
    arguments: &'a [u8],
) -> PeekedText<'a>
    requires some { 0 < length frames.now }
    requires sound { AreSound (texts_of table.now.macros arguments.now) (opens_of frames.now bindings.now) }
    ensures peek { IsPeekAhead (texts_of table.now.macros arguments.now) (opens_of frames.now bindings.now) result.peek }
    ensures short { result.peek.end < 2 ^ 64 }
    ensures text { result.text.now ≡ source_text (texts_of table.now.macros arguments.now) result.peek.source }
{
    let _bound = bindings.len();
    let frame = &frames[0];
    let (from, end) = (frame.from, frame.end);
    let source = front_source(frames);
    let text = text_of(table, arguments, source);
    let ahead = peek_in(table, arguments, text, &source, from, end);
    PeekedText {
        peek: Peek {
            source,
            from,
            end,
            at: ahead.at,
            front: ahead.front,
        },
        text,
    }
}

// What stands ahead in a range of a text, whose bytes are given.
#[inline(always)]
pub(crate) fn peek_in(
    table: &Table,
    arguments: &[u8],
    text: &[u8],
    source: &TextSource,
    from: usize,
    end: usize,
) -> NextItem
    requires source { IsSource (texts_of table.now.macros arguments.now) source.now }
    requires text { text.now ≡ source_text (texts_of table.now.macros arguments.now) source.now }
    requires inside { end ≤ length (source_text (texts_of table.now.macros arguments.now) source.now) }
    ensures { IsNextItem (source_formals (texts_of table.now.macros arguments.now) source.now) (slice_range (source_text (texts_of table.now.macros arguments.now) source.now) from end) from result }
{
    if end <= from {
        return NextItem {
            at: from,
            front: TextItem::Ended,
        };
    }
    if let TextSource::Body(id) = *source {
        return point_front(body_point(table, id, from, end), end);
    }
    let text = &text[from..end];
    let len = run_len(text);
    NextItem {
        at: from + len,
        front: plain_point(&text[len..]),
    }
}

// The first expansion point of a range of the body of a macro.
#[inline(always)]
fn body_point(table: &Table, id: MacroId, from: usize, end: usize) -> ExpansionPoint
    requires id { id < length table.now.macros }
    requires order { from ≤ end }
    requires inside { end ≤ length (macro_at table.now.macros id).body }
    ensures { result ≡ point_in (macro_at table.now.macros id) from end }
{
    match table.kept_point(id, from, end) {
        Some(point) => point,
        None => unkept_point(table, id, from, end),
    }
}

// The same, where the range has to be read. The room for the answer of the call is cleared here, and not where a point is kept.
#[inline(always)]
fn unkept_point(table: &Table, id: MacroId, from: usize, end: usize) -> ExpansionPoint
    requires id { id < length table.now.macros }
    requires order { from ≤ end }
    requires inside { end ≤ length (macro_at table.now.macros id).body }
    ensures { result ≡ point_in (macro_at table.now.macros id) from end }
{
    sought_point(table, id, from, end)
}

// The same by reading.
#[cold]
#[inline(never)]
fn sought_point(table: &Table, id: MacroId, from: usize, end: usize) -> ExpansionPoint
    requires id { id < length table.now.macros }
    requires order { from ≤ end }
    requires inside { end ≤ length (macro_at table.now.macros id).body }
    ensures { result ≡ point_in (macro_at table.now.macros id) from end }
{
    table.seek_point(id, from, end)
}

// What stands ahead in a text that ends at a place, by its first expansion point.
fn point_front(point: ExpansionPoint, end: usize) -> NextItem
    ensures { (formals : List Formal) (from : ℕ) (text : List ℕ) → from + length text ≡ end → point ≡ point_of formals from text → IsNextItem formals text from result }
{
    match point {
        ExpansionPoint::None => NextItem {
            at: end,
            front: TextItem::Ended,
        },
        ExpansionPoint::Formal { at, len, place } => NextItem {
            at,
            front: TextItem::Formal { len, place },
        },
        ExpansionPoint::Usage { at, len } => NextItem {
            at,
            front: TextItem::Usage(len),
        },
        ExpansionPoint::Bare { at } => NextItem {
            at,
            front: TextItem::Bare,
        },
    }
}

// What stands at the front of a text without formals that begins with no run.
fn plain_point(text: &[u8]) -> TextItem
    requires { run_len [] (tokens_from Mode.Plain 0 text.now) text.now ≡ 0 }
    ensures { IsTextItem [] text.now result }
{
    if text.is_empty() {
        return TextItem::Ended;
    }
    let token = first_token(Mode::Plain, text);
    match token.kind {
        Kind::Back => TextItem::Usage(token.len),
        _ => TextItem::Bare,
    }
}

// How many bytes of a text without formals are copied up to its first usage or lone backquote.
//
// The run ends at the first backquote, if no string and no comment can begin before it. Else all up to where one may begin is passed
// at once, whatever tokens it has.
fn run_len(text: &[u8]) -> usize
    ensures value { result ≡ run_len [] (tokens_from Mode.Plain 0 text.now) text.now }
    ensures inside { result ≤ length text.now }
{
    let Some(at) = memchr(b'`', text) else {
        return text.len();
    };
    match memchr2(b'"', b'/', &text[..at]) {
        None => at,
        Some(near) => near + run_by_tokens(&text[near..]),
    }
}

// The same, token by token.
#[inline(never)]
fn run_by_tokens(text: &[u8]) -> usize
    ensures value { result ≡ run_len [] (tokens_from Mode.Plain 0 text.now) text.now }
    ensures inside { result ≤ length text.now }
{
    let mut mode = Mode::Plain;
    let mut at = 0;
    while at < text.len() {
        let token = first_token(mode, &text[at..]);
        if let Kind::Back | Kind::BareBackquote = token.kind {
            return at;
        }
        mode = token.next_mode;
        at += token.len;
    }
    at
}
