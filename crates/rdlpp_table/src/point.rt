// Where the text of a body isn't copied as it stands.
ghost use Rattle.std.specs.Prelude.{length, slice_index_or, true, ◌+◌, ◌<◌, ◌≡◌, ◌≤◌, ◌^◌};
ghost use Rattle.rdlpp_scan.specs.Tokens.{token_of};
ghost use Rattle.rdlpp_table.specs.Shapes.{AreShapes, shape};
ghost use Rattle.rdlpp_table.specs.PointCache.{point_end};
ghost use Rattle.rdlpp_table.specs.ExpansionPoints.{is_none, point_at, point_of};
ghost use Rattle.rdlpp_table.specs.Store.{formals_read, AreStoredFormals};

use crate::offsets::{StoredFormals, place_of};
use crate::stored::shape;
use memchr::memchr;
use rdlpp_scan::{Kind, Mode, Token, first_token, inert_bytes, is_letter, word_bytes};

/// The first place of a range of a body that isn't copied as it stands.
///
/// Places and lengths are bytes, and places are counted from the front of the body.
#[derive(Clone, Copy)]
pub enum ExpansionPoint {
    /// There is none: the range is copied.
    None,
    /// A name that is a formal of the macro.
    Formal {
        /// Where the name begins.
        at: usize,
        /// How long it is.
        len: usize,
        /// Which formal it is, counted from 0.
        place: usize,
    },
    /// A backquote and a name.
    Usage {
        /// Where the backquote stands.
        at: usize,
        /// How long the backquote and the name are.
        len: usize,
    },
    /// A backquote without a name.
    Bare {
        /// Where it stands.
        at: usize,
    },
}

// Whether there is no expansion point.
#[tactic(auto, unfolding(crate::specs::ExpansionPoints::is_none))]
fn is_none(point: ExpansionPoint) -> bool
    ensures { result ≡ is_none point }
{
    matches!(point, ExpansionPoint::None)
}

// Whether a name may be a formal, where it is told of which shapes these are.
fn has_shape(shapes: &[bool], name: &[u8]) -> bool
    ensures { result ≡ slice_index_or shapes.now (shape name.now) true }
{
    shapes.get(shape(name)).copied().unwrap_or(true)
}

// What a token at a place is, among formals as they lie in a table.
#[tactic(auto, unfolding(crate::specs::ExpansionPoints::point_at))]
fn point_at(
    formals: &StoredFormals,
    shapes: &[bool],
    at: usize,
    token: Token,
    text: &[u8],
) -> ExpansionPoint
    requires listed { AreStoredFormals formals.now.count formals.now.list.now formals.now.formal_offsets.now }
    requires told { AreShapes (formals_read formals.now.count formals.now.list.now) shapes.now }
    ensures { result ≡ point_at (formals_read formals.now.count formals.now.list.now) at token text.now }
{
    match token.kind {
        Kind::Back => ExpansionPoint::Usage { at, len: token.len },
        Kind::BareBackquote => ExpansionPoint::Bare { at },
        Kind::Name if !has_shape(shapes, text) => ExpansionPoint::None,
        Kind::Name => match place_of(formals, text) {
            Some(place) => ExpansionPoint::Formal {
                at,
                len: token.len,
                place,
            },
            None => ExpansionPoint::None,
        },
        _ => ExpansionPoint::None,
    }
}

// The first token of a text that isn't empty. In plain text most tokens are names, which are told by their first byte.
#[inline(always)]
fn token_in_body(mode: Mode, text: &[u8]) -> Token
    requires { 0 < length text.now }
    ensures value { result ≡ token_of mode text.now }
    ensures not_empty { 0 < result.len }
    ensures inside { result.len ≤ length text.now }
{
    match mode {
        Mode::Plain if is_letter(text[0]) => Token {
            kind: Kind::Name,
            next_mode: Mode::Plain,
            len: word_bytes(text),
        },
        _ => first_token(mode, text),
    }
}

// The first expansion point of a text whose first byte stands at a place, among formals as they lie in a table. It may be told of
// which shapes their names are, so that most other words are passed without a look at them. Where there are no formals, a search
// for a backquote tells of most texts that they have none.
#[inline(always)]
pub(crate) fn next_expansion_point(
    formals: &StoredFormals,
    shapes: &[bool],
    text: &[u8],
    from: usize,
) -> ExpansionPoint
    requires listed { AreStoredFormals formals.now.count formals.now.list.now formals.now.formal_offsets.now }
    requires told { AreShapes (formals_read formals.now.count formals.now.list.now) shapes.now }
    requires short { from + length text.now < 2 ^ 64 }
    ensures value { result ≡ point_of (formals_read formals.now.count formals.now.list.now) from text.now }
    ensures end { point_end result ≤ from + length text.now }
{
    if formals.count == 0 && memchr(b'`', text).is_none() {
        return ExpansionPoint::None;
    }
    let mut mode = Mode::Plain;
    let mut rest = text;
    let mut at = from;
    while !rest.is_empty() {
        if let Mode::Plain = mode {
            // No inert byte is an expansion point, whatever tokens these are.
            let inert = inert_bytes(rest);
            if inert > 0 {
                at += inert;
                rest = &rest[inert..];
                continue;
            }
        }
        let token = token_in_body(mode, rest);
        let (here, after) = rest.split_at(token.len);
        let point = point_at(formals, shapes, at, token, here);
        if !is_none(point) {
            return point;
        }
        mode = token.next_mode;
        at += token.len;
        rest = after;
    }
    ExpansionPoint::None
}
