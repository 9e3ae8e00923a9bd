// The first expansion points of a body, which are looked for once and kept in its entry.
ghost use Rattle.std.specs.Prelude.{length, slice_range, IfSome, List, ℕ, ◌+◌, ◌<◌, ◌≡◌, ◌≤◌, ◌^◌};
ghost use Rattle.rdlpp_table.specs.PointCache.{before_point, plain_argument_kept, endless, cached_points, kept_from, kept_of, placed, point_by, point_end, point_known, point_within};
ghost use Rattle.rdlpp_table.specs.Shapes.{AreShapes};
ghost use Rattle.rdlpp_table.specs.ExpansionPoints.{point_of};
ghost use Rattle.rdlpp_table.specs.Store.{formals_read, AreStoredFormals};
ghost use Rattle.rdlpp_define.specs.Macros.{Formal};

use crate::offsets::{StoredFormals, shapes};
use crate::point::{ExpansionPoint, next_expansion_point};
use rdlpp_scan::{inert_bytes, plain_argument_bytes, word_bytes};

// What an expansion point is that is kept. With the place these are all there are; so few are told apart without a table of jumps.
#[derive(Clone, Copy, Drop)]
pub(crate) enum PackedKind {
    // None, where the place is 0, or unknown, since its numbers are too large.
    None,
    Formal,
    // A usage, where the place is 0, or a lone backquote.
    Back,
}

// An expansion point as it is kept: in small numbers, which all have but those far on in a long body and names that no macro has.
#[derive(Clone, Copy, Drop)]
pub(crate) struct PackedPoint {
    // Where it ends; 65,535 where there is none, or where it is unknown.
    pub(crate) end: u16,
    pub(crate) len: u8,
    // Which formal it is, or which of two things of its kind.
    pub(crate) place: u8,
    // How many plain argument bytes stand first in the text of which it is the first expansion point, and before it: 255, where
    // there are more.
    pub(crate) plain_argument: u8,
    pub(crate) kind: PackedKind,
}

// How many expansion points of a body are kept.
pub(crate) const CACHED_POINTS: usize = 10;

// The first expansion points of a body, each of them the first one after the one before.
#[derive(Clone, Copy, Drop)]
pub(crate) struct PointCache {
    pub(crate) all: [PackedPoint; CACHED_POINTS],
}

// What is kept where no expansion point is known to end.
#[tactic(auto, unfolding(crate::specs::PointCache::endless))]
fn endless(place: u8, plain_argument: u8) -> PackedPoint
    ensures { result ≡ endless place plain_argument }
{
    PackedPoint {
        end: 65535,
        len: 0,
        place,
        plain_argument,
        kind: PackedKind::None,
    }
}

// What is kept of an expansion point by its numbers.
#[tactic(auto, unfolding(crate::specs::PointCache::placed, crate::specs::PointCache::endless))]
fn placed(kind: PackedKind, at: usize, len: usize, place: usize, plain_argument: u8) -> PackedPoint
    ensures value { result ≡ placed kind at len place plain_argument }
    ensures end { result.end < 65535 → result.end ≡ at + len }
{
    if at < 65535 && len < 256 && place < 256 && at + len < 65535 {
        PackedPoint {
            end: (at + len) as u16,
            len: len as u8,
            place: place as u8,
            plain_argument,
            kind,
        }
    } else {
        endless(1, 0)
    }
}

// An expansion point as it is kept, with how many plain argument bytes stand first in its text.
#[tactic(auto, unfolding(crate::specs::PointCache::kept_of, crate::specs::PointCache::endless, crate::specs::PointCache::point_end))]
fn kept_of(point: ExpansionPoint, plain_argument: u8) -> PackedPoint
    ensures value { result ≡ kept_of point plain_argument }
    ensures end { result.end < 65535 → result.end ≡ point_end point }
{
    match point {
        ExpansionPoint::None => endless(0, plain_argument),
        ExpansionPoint::Formal { at, len, place } => placed(
            PackedKind::Formal,
            at,
            len,
            place,
            plain_argument,
        ),
        ExpansionPoint::Usage { at, len } => placed(PackedKind::Back, at, len, 0, plain_argument),
        ExpansionPoint::Bare { at } => placed(PackedKind::Back, at, 1, 1, plain_argument),
    }
}

// The expansion point of a kind at a place.
#[tactic(auto, unfolding(crate::specs::PointCache::point_by))]
fn point_by(kind: PackedKind, at: usize, len: usize, place: usize) -> Option<ExpansionPoint>
    ensures { result ≡ point_by kind at len place }
{
    match kind {
        PackedKind::Back if place == 0 => Some(ExpansionPoint::Usage { at, len }),
        PackedKind::Back => Some(ExpansionPoint::Bare { at }),
        PackedKind::Formal => Some(ExpansionPoint::Formal { at, len, place }),
        PackedKind::None if place == 0 => Some(ExpansionPoint::None),
        PackedKind::None => None,
    }
}

// A text that begins at a place, up to its first expansion point.
#[tactic(auto, unfolding(crate::specs::PointCache::before_point, crate::specs::PointCache::point_end))]
fn before_point(point: ExpansionPoint, from: usize, text: &[u8]) -> &[u8]
    requires { point_end point ≤ from + length text.now }
    ensures { result.now ≡ before_point point from text.now }
{
    match point {
        ExpansionPoint::None => text,
        ExpansionPoint::Formal { at, .. }
        | ExpansionPoint::Usage { at, .. }
        | ExpansionPoint::Bare { at } => { &text[..at.saturating_sub(from)] }
    }
}

// How many plain argument bytes a text begins with, as they are kept.
#[tactic(auto, unfolding(crate::specs::PointCache::plain_argument_kept))]
fn plain_argument_kept(text: &[u8]) -> u8
    ensures { result ≡ plain_argument_kept text.now }
{
    let near = text.len().min(255);
    plain_argument_bytes(&text[..near]) as u8
}

// The first expansion point of a body from a place on.
#[tactic(auto, unfolding(crate::specs::PointCache::kept_from, crate::specs::PointCache::kept_point, crate::specs::PointCache::endless))]
fn kept_from(formals: &StoredFormals, shapes: &[bool], body: &[u8], from: u16) -> PackedPoint
    requires listed { AreStoredFormals formals.now.count formals.now.list.now formals.now.formal_offsets.now }
    requires told { AreShapes (formals_read formals.now.count formals.now.list.now) shapes.now }
    requires short { length body.now < 2 ^ 64 }
    requires inside { from < 65535 → from ≤ length body.now }
    ensures value { result ≡ kept_from (formals_read formals.now.count formals.now.list.now) body.now from }
    ensures inside { result.end < 65535 → result.end ≤ length body.now }
{
    if from < 65535 {
        let from = from as usize;
        let text = &body[from..];
        let point = next_expansion_point(formals, shapes, text, from);
        kept_of(point, plain_argument_kept(before_point(point, from, text)))
    } else {
        endless(1, 0)
    }
}

// The first expansion points of a body, among formals as they lie in a table. After one that isn't known to end nothing is looked for.
pub(crate) fn cached_points(formals: &StoredFormals, body: &[u8]) -> PointCache
    requires listed { AreStoredFormals formals.now.count formals.now.list.now formals.now.formal_offsets.now }
    requires short { length body.now < 2 ^ 64 }
    ensures { result ≡ cached_points (formals_read formals.now.count formals.now.list.now) body.now }
{
    let shapes = shapes(formals);
    let mut all = [endless(1, 0); CACHED_POINTS];
    let mut count = 0;
    let mut from = 0;
    while count < CACHED_POINTS && from < 65535 {
        let next = kept_from(formals, &shapes, body, from);
        all[count] = next;
        from = next.end;
        count += 1;
    }
    PointCache { all }
}

// The first expansion point of a range of a body, after whose front no token goes on, where the expansion point that is kept as
// the first one from a place on tells it.
#[tactic(auto, unfolding(crate::specs::PointCache::point_within, crate::specs::PointCache::point_kept))]
fn point_within(body: &[u8], reach: usize, kept: PackedPoint, to: usize) -> Option<ExpansionPoint>
    requires { to ≤ length body.now }
    ensures { result ≡ point_within body.now reach kept to }
{
    let end = kept.end as usize;
    let len = kept.len as usize;
    let at = end.saturating_sub(len);
    if to == body.len() || (kept.len > 0 && (end <= to && at <= reach)) {
        return point_by(kept.kind, at, len, kept.place as usize);
    }
    if to <= at && (to <= reach && word_bytes(&body[to..to + 1]) == 0) {
        return Some(ExpansionPoint::None);
    }
    None
}

// The first expansion point of a range of a body, where the one that is kept as the first one from a place on tells it. No token goes
// on at that place, nor after plain argument bytes and an inert byte.
#[tactic(auto, unfolding(crate::specs::PointCache::point_known, crate::specs::PointCache::is_cut))]
fn point_known(
    body: &[u8],
    start: u16,
    kept: PackedPoint,
    from: usize,
    to: usize,
) -> Option<ExpansionPoint>
    requires order { (start ≤ from) × (from ≤ to) }
    requires inside { to ≤ length body.now }
    ensures { result ≡ point_known body.now start kept from to }
{
    let start = start as usize;
    let reach = start + kept.plain_argument as usize;
    if from == start || (from <= reach && inert_bytes(&body[from - 1..from]) == 1) {
        point_within(body, reach, kept, to)
    } else {
        None
    }
}

// An expansion point that is kept, and the place from which on it is the first one.
#[derive(Clone, Copy, Drop)]
struct Candidate<'a> {
    start: u16,
    kept: &'a PackedPoint,
}

// The first of the expansion points that are kept that ends after a place, or else the last of them. One whose end isn't known is
// kept with the end 65,535, and those after it tell nothing.
fn candidate_at(points: &PointCache, from: usize) -> Candidate<'_>
    ensures order { result.start ≤ from }
    ensures kept { (formals : List Formal) (text : List ℕ) → points.now ≡ cached_points formals text → result.kept.now ≡ kept_from formals text result.start }
{
    let mut start = 0;
    for kept in &points.all[..CACHED_POINTS - 1] {
        if from < kept.end as usize {
            return Candidate { start, kept };
        }
        start = kept.end;
    }
    Candidate {
        start,
        kept: &points.all[CACHED_POINTS - 1],
    }
}

// The first expansion point of a range of a body, where one that is kept tells it.
pub(crate) fn cached_point(
    points: &PointCache,
    body: &[u8],
    from: usize,
    to: usize,
) -> Option<ExpansionPoint>
    requires order { from ≤ to }
    requires inside { to ≤ length body.now }
    ensures { (formals : List Formal) → points.now ≡ cached_points formals body.now → IfSome result (λ point. point ≡ point_of formals from (slice_range body.now from to)) }
{
    let found = candidate_at(points, from);
    point_known(body, found.start, *found.kept, from, to)
}
