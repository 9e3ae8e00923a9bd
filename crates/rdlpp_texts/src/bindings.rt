// The actuals of a call as ranges of the text in which the call stands.
ghost use Rattle.std.specs.Prelude.{◌≡◌, ◌+◌, ◌≤◌, ◌<◌, ◌++◌, ◌∷◌, [], List, true, length, drop, slice_range, IfOk, IfErr, is_ok, vec_len, vec_capacity};
ghost use Rattle.rdlpp_meaning.specs.Expansion.{bound_parts, is_count};
ghost use Rattle.rdlpp_meaning.specs.Substitution.{body_tokens};
ghost use Rattle.rdlpp_meaning.specs.declared.fault.FaultKind.TheVariants.{ArgumentCount};
ghost use Rattle.rdlpp_define.specs.Macros.{Formal};
ghost use Rattle.rdlpp_texts.specs.BoundCalls.{actuals_of, added, is_call_fault, ranges_tokens, Binds, IsBound, IsBoundCall, KeepsAll};
ghost use Rattle.rdlpp_texts.specs.CallParts.{actuals_in, inner_size};

use crate::parts::{PartEnd, call_start, next_part};
use rdlpp_meaning::FaultKind;

/// Where an actual stands in the text of its call: from one byte up to another.
#[derive(Clone, Copy)]
pub struct Range {
    /// Where it begins.
    pub from: usize,
    /// Where it ends.
    pub to: usize,
}

// What the parts of a call come to.
#[derive(Clone, Copy)]
enum Bound {
    // They are bound, and the call ends at a place.
    To(usize),
    // No `)` closes the call.
    Open,
    // There are more or fewer of them than formals.
    Miscounted,
}

// How many parts of a call follow the first one, and where the call ends.
#[derive(Clone, Copy)]
struct Pushed {
    further: usize,
    to: usize,
}

/// Binds the call of a macro with so many formals: the text between two places stands after the macro's name. Appends where
/// each actual stands, as [`bind_parts`] does, and answers the place after the `)` of the call (IEEE 1364-2001, `define`;
/// what a call may hold is this project's profile). There must be room for so many ranges.
///
/// # Errors
///
/// [`FaultKind::ArgumentsMissing`] where no `(` follows, but for white space, line ends and comments; else
/// [`FaultKind::ArgumentsOpen`] where no `)` closes the call outside strings, comments and further openers; else
/// [`FaultKind::ArgumentCount`] where the call has more or fewer parts. No binding is appended then.
#[tactic(auto, unfolding(crate::specs::BoundCalls::is_call_fault))]
pub fn bind_call(
    text: &[u8],
    at: usize,
    end: usize,
    formals: usize,
    bindings: &mut Vec<Range>,
) -> Result<usize, FaultKind>
    requires range { (at ≤ end) × (end ≤ length text.now) }
    requires room { vec_len bindings.old + formals ≤ vec_capacity bindings.old }
    ensures binds { Binds at end formals bindings.old bindings.new }
    ensures refused { IfErr result (λ _. bindings.new.items ≡ bindings.old.items) }
    ensures kind { IfErr result (λ kind. is_call_fault kind ≡ true) }
    ensures place { IfOk result (λ following. (at ≤ following) × (following ≤ end)) }
    ensures call { KeepsAll (body_tokens (slice_range text.now at end)) → IsBoundCall text.now at end formals (added bindings.old.items bindings.new.items) result }
{
    let Some(len) = call_start(&text[at..end]) else {
        return Err(FaultKind::ArgumentsMissing);
    };
    match bind(&text[..end], at + len, true, formals, bindings) {
        Bound::To(to) => Ok(to + 1),
        Bound::Open => Err(FaultKind::ArgumentsOpen),
        Bound::Miscounted => Err(FaultKind::ArgumentCount),
    }
}

/// Binds the actuals of a call whose text between its parentheses is kept: appends where each part stands, without the white
/// space at both of its ends (IEEE 1364-2001, `define`; what a part is, is this project's profile). There must be room for so
/// many ranges.
///
/// # Rules
///
/// So many formals need as many parts. A list of no formals needs one part, without items, and nothing is appended for it.
///
/// # Errors
///
/// [`FaultKind::ArgumentCount`] where there are more or fewer parts. No binding is appended then.
pub fn bind_parts(text: &[u8], formals: usize, bindings: &mut Vec<Range>) -> Result<(), FaultKind>
    requires room { vec_len bindings.old + formals ≤ vec_capacity bindings.old }
    ensures binds { Binds 0 (length text.now) formals bindings.old bindings.new }
    ensures refused { IfErr result (λ kind. (kind ≡ ArgumentCount) × (bindings.new.items ≡ bindings.old.items)) }
    ensures actuals { IfOk result (λ _. (fs : List Formal) → length fs ≡ formals → bound_parts fs (actuals_of text.now) ≡ ranges_tokens text.now (added bindings.old.items bindings.new.items)) }
    ensures count { (fs : List Formal) → length fs ≡ formals → is_ok result ≡ is_count fs (actuals_of text.now) }
{
    match bind(text, 0, false, formals, bindings) {
        Bound::To(_) => Ok(()),
        Bound::Open | Bound::Miscounted => Err(FaultKind::ArgumentCount),
    }
}

// Binds the parts of a call in a text from a place on to so many formals: appends where each part stands, or nothing where the
// call isn't closed, where a `)` has to close it, or has more or fewer parts.
fn bind(text: &[u8], from: usize, closes: bool, formals: usize, bindings: &mut Vec<Range>) -> Bound
    requires range { from ≤ length text.now }
    requires room { vec_len bindings.old + formals ≤ vec_capacity bindings.old }
    ensures binds { Binds from (length text.now) formals bindings.old bindings.new }
    ensures bound { IsBound closes text.now from formals bindings.old.items bindings.new.items result }
{
    let kept = bindings.len();
    let pushed = push_parts(text, from, closes, formals, bindings);
    if closes && pushed.to == text.len() {
        bindings.truncate(kept);
        return Bound::Open;
    }
    if !admits(text, from, closes, formals, pushed.further) {
        bindings.truncate(kept);
        return Bound::Miscounted;
    }
    Bound::To(pushed.to)
}

// Appends the ranges of the parts of a call in a text from a place on, but of no more than so many.
fn push_parts(
    text: &[u8],
    from: usize,
    closes: bool,
    most: usize,
    bindings: &mut Vec<Range>,
) -> Pushed
    requires range { from ≤ length text.now }
    requires room { vec_len bindings.old + most ≤ vec_capacity bindings.old }
    ensures binds { Binds from result.to most bindings.old bindings.new }
    ensures end { result.to ≡ from + inner_size closes (drop from text.now) }
    ensures inside { result.to ≤ length text.now }
    ensures count { length (actuals_in closes (drop from text.now)) ≡ result.further + 1 }
    ensures actuals { result.further < most → actuals_in closes (drop from text.now) ≡ ranges_tokens text.now (added bindings.old.items bindings.new.items) }
    ensures none { most ≡ 0 → bindings.new.items ≡ bindings.old.items }
{
    let mut at = from;
    let mut further = 0;
    'parts: loop {
        let part = next_part(&text[at..], closes);
        let range = Range {
            from: at + part.from,
            to: at + part.to,
        };
        put(bindings, further, most, range);
        match part.end {
            PartEnd::Comma(next) => {
                at += next;
                further += 1;
            }
            PartEnd::Last(end) => {
                let to = at + end;
                return Pushed { further, to };
            }
        }
    }
}

// Appends a range, where fewer than so many were appended before.
fn put(bindings: &mut Vec<Range>, count: usize, most: usize, range: Range)
    requires { count < most → vec_len bindings.old < vec_capacity bindings.old }
    ensures puts { count < most → bindings.new.items ≡ bindings.old.items ++ range ∷ [] }
    ensures stays { most ≤ count → bindings.new.items ≡ bindings.old.items }
    ensures longer { count < most → vec_len bindings.new ≡ vec_len bindings.old + 1 }
    ensures len { most ≤ count → vec_len bindings.new ≡ vec_len bindings.old }
    ensures capacity { vec_capacity bindings.new ≡ vec_capacity bindings.old }
{
    if count < most {
        bindings.push_reserved(range);
    }
}

// Whether a call in a text from a place on can have so many actuals, by how many parts follow its first one: for no formals that
// is the only one, and has no items.
fn admits(text: &[u8], from: usize, closes: bool, formals: usize, further: usize) -> bool
    requires range { from ≤ length text.now }
    requires count { length (actuals_in closes (drop from text.now)) ≡ further + 1 }
    ensures { (fs : List Formal) → length fs ≡ formals → result ≡ is_count fs (actuals_in closes (drop from text.now)) }
{
    if formals > 0 {
        return further == formals - 1;
    }
    further == 0 && !next_part(&text[from..], closes).has_items()
}
