// The formal list of a definition.
ghost use Rattle.std.specs.Prelude.{
  [],
  is_some,
  length,
  map,
  slice_index,
  sum_by,
  true,
  unwrap_or,
  vec_capacity,
  vec_len,
  IfSome,
  List,
  MatchOption,
  MatchResult,
  None,
  ◌+◌,
  ◌++◌,
  ◌<◌,
  ◌≡◌,
  ◌≢◌,
  ◌≤◌,
  ◌∷◌,
};
ghost use Rattle.std.specs.List.{flat_map};
ghost use Rattle.rdlpp_scan.specs.Continuations.{as_read};
ghost use Rattle.rdlpp_define.specs.Define.{default_in, formals_in, formals_of_list, FormalListFault};
ghost use Rattle.rdlpp_define.specs.Formals.{after_told, default_after, fault_after, formal_told, is_told, listed, IsDefault, IsPart, IsRead};
ghost use Rattle.rdlpp_define.specs.Macros.{formal_bytes, formal_size, Formal};

use crate::fault::DefineKind;
use crate::header::{after_space, leading_name};
use crate::name::MOST_NAME_BYTES;
use rdlpp_scan::{append_part, append_trimmed, split_first, trimmed_len};

// The most formals of a macro (this project's profile).
const MOST_FORMALS: usize = 255;

// What is wrong with the name of a formal, after formals of such names.
fn formal_fault(names: &[&[u8]], name: &[u8]) -> Option<DefineKind>
    ensures { result ≡ fault_after (map (λ n. n.now) names.now) name.now }
{
    if name.is_empty() {
        return Some(DefineKind::BadFormals);
    }
    if name.len() > MOST_NAME_BYTES {
        return Some(DefineKind::NameTooLong);
    }
    if names.contains(&name) {
        return Some(DefineKind::FormalTwice);
    }
    if names.len() >= MOST_FORMALS {
        return Some(DefineKind::TooManyFormals);
    }
    None
}

// A formal's name, and what stands after it and the white space after it.
#[derive(Clone, Copy, Drop)]
struct Part<'a> {
    name: &'a [u8],
    following: &'a [u8],
}

// The formal with which the text of a list begins.
fn first_part(text: &[u8]) -> Part<'_>
    ensures part { IsPart (as_read true text.now) result.name.now (as_read true result.following.now) }
    ensures inside { length result.name.now + length result.following.now ≤ length text.now }
{
    let rest = after_space(text);
    let name = leading_name(rest);
    Part {
        name,
        following: after_space(&rest[name.len()..]),
    }
}

// A default text: where it is read from, what it counts, and what stands after it; it counts nothing where there is none.
#[derive(Clone, Copy, Drop)]
struct DefaultText<'a> {
    from: &'a [u8],
    size: usize,
    following: &'a [u8],
}

// The default text after the `=` of a formal; `None` where it has a fault or no end.
fn read_default(from: &[u8]) -> Option<DefaultText<'_>>
    requires { length from.now < 18446744073709551615 }
    ensures is { MatchOption result (default_after (as_read true from.now) ≡ None) (λ d. IsDefault (default_after (as_read true from.now)) (as_read true d.from.now) (as_read true d.following.now) d.size) }
    ensures inside { IfSome result (λ d. d.size + length d.following.now ≤ length from.now + 1) }
{
    let Ok(measured) = trimmed_len(from, true, true) else {
        return None;
    };
    if measured.following.is_empty() {
        return None;
    }
    let size = if measured.len == 0 {
        0
    } else {
        1 + measured.len
    };
    Some(DefaultText {
        from,
        size,
        following: measured.following,
    })
}

// The default text of a formal, by what stands after its name; `None` where it has a fault or no end.
fn default_in(text: &[u8]) -> Option<DefaultText<'_>>
    ensures is { MatchOption result (default_in (as_read true text.now) ≡ None) (λ d. IsDefault (default_in (as_read true text.now)) (as_read true d.from.now) (as_read true d.following.now) d.size) }
    ensures inside { IfSome result (λ d. d.size + length d.following.now ≤ length text.now) }
{
    if let Some((b, from)) = split_first(text, true) {
        if b == b'=' {
            return read_default(from);
        }
    }
    Some(DefaultText {
        from: &[],
        size: 0,
        following: text,
    })
}

// A formal list that was read: how many formals it has, how many bytes they are, and the text after its `)`.
#[derive(Clone, Copy, Drop)]
pub(crate) struct ReadList<'a> {
    pub(crate) count: usize,
    pub(crate) size: usize,
    pub(crate) following: &'a [u8],
}

// Reads the formals of a list that has some.
fn read_some(text: &[u8]) -> Result<ReadList<'_>, DefineKind>
    ensures read { MatchResult result (λ read. (formals : List Formal) × IsRead (formals_in 255 [] (as_read true text.now)) (as_read true read.following.now) read.count read.size formals) (λ kind. formals_in 255 [] (as_read true text.now) ≡ FormalListFault kind) }
{
    let mut names: [&[u8]; MOST_FORMALS] = [&[]; MOST_FORMALS];
    let mut count = 0;
    let mut rest = text;
    let mut size = 0;
    loop {
        let part = first_part(rest);
        if let Some(kind) = formal_fault(&names[..count], part.name) {
            return Err(kind);
        }
        let Some(default) = default_in(part.following) else {
            return Err(DefineKind::BadFormals);
        };
        names[count] = part.name;
        count += 1;
        size += part.name.len() + default.size + 1;
        let Some((b, following)) = split_first(default.following, true) else {
            return Err(DefineKind::BadFormals);
        };
        if b == b')' {
            return Ok(ReadList {
                count,
                size,
                following,
            });
        }
        if b != b',' {
            return Err(DefineKind::BadFormals);
        }
        rest = following;
    }
}

// Reads a formal list, after its `(`.
pub(crate) fn read_list(text: &[u8]) -> Result<ReadList<'_>, DefineKind>
    ensures read { MatchResult result (λ read. (formals : List Formal) × IsRead (formals_of_list (as_read true text.now)) (as_read true read.following.now) read.count read.size formals) (λ kind. formals_of_list (as_read true text.now) ≡ FormalListFault kind) }
{
    if let Some((b, following)) = split_first(after_space(text), true) {
        if b == b')' {
            return Ok(ReadList {
                count: 0,
                size: 0,
                following,
            });
        }
    }
    read_some(text)
}

// Appends the formal with which a list's text begins, and answers the text after the `,` after it, where there is one.
fn append_formal<'a>(to: &mut Vec<u8>, text: &'a [u8]) -> Option<&'a [u8]>
    requires good { is_told (as_read true text.now) ≡ true }
    requires room { vec_len to.old + formal_size (formal_told (as_read true text.now)) ≤ vec_capacity to.old }
    ensures items { to.new.items ≡ to.old.items ++ formal_bytes (formal_told (as_read true text.now)) }
    ensures capacity { vec_capacity to.new ≡ vec_capacity to.old }
    ensures following { MatchOption result (slice_index (after_told (as_read true text.now)) 0 ≢ 44) (λ following. after_told (as_read true text.now) ≡ 44 ∷ as_read true following.now) }
    ensures less { IfSome result (λ following. length following.now < length text.now) }
{
    let part = first_part(text);
    let default = default_in(part.following)?;
    append_part(to, part.name);
    if default.size > 0 {
        to.push_reserved(b'=');
        append_trimmed(to, default.from, true, true, default.size - 1);
    }
    to.push_reserved(b',');
    if let Some((b, following)) = split_first(default.following, true) {
        if b == b',' {
            return Some(following);
        }
    }
    None
}

// Appends the formals of a list that was read.
pub(crate) fn append_list(to: &mut Vec<u8>, text: &[u8])
    requires listed { is_some (listed (formals_in 255 [] (as_read true text.now))) ≡ true }
    requires room { vec_len to.old + sum_by formal_size (unwrap_or (listed (formals_in 255 [] (as_read true text.now))) []) ≤ vec_capacity to.old }
    ensures items { to.new.items ≡ to.old.items ++ flat_map formal_bytes (unwrap_or (listed (formals_in 255 [] (as_read true text.now))) []) }
    ensures capacity { vec_capacity to.new ≡ vec_capacity to.old }
{
    let mut rest = text;
    while let Some(following) = append_formal(to, rest) {
        rest = following;
    }
}
