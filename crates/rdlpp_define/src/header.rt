// The header of a definition: white space, a name, and whether a formal list follows.
ghost use Rattle.std.specs.Prelude.{length, true, IfSome, MatchOption, None, ◌≡◌, ◌≤◌};
ghost use Rattle.rdlpp_scan.specs.SourceTokens.{logical_len};
ghost use Rattle.rdlpp_scan.specs.Continuations.{as_read};
ghost use Rattle.rdlpp_define.specs.Define.{after_space, formal_list, formals_of_list, leading_name, unended, Listed};

use rdlpp_scan::{is_letter, is_space, logical_line, split_first, word_bytes};

// A logical line without the LF that ends it, where one does.
#[tactic(auto, unfolding(crate::specs::Define::unended))]
pub(crate) fn unended(rest: &[u8]) -> &[u8]
    requires { IfSome (logical_len 0 0 rest.now) (λ n. n ≡ length rest.now) }
    ensures { result.now ≡ unended rest.now }
{
    match logical_line(rest) {
        Some(len) => &rest[..len.saturating_sub(1)],
        None => rest,
    }
}

// A text of a logical line without the white space with which it begins.
pub(crate) fn after_space(text: &[u8]) -> &[u8]
    ensures value { as_read true result.now ≡ after_space (as_read true text.now) }
    ensures inside { length result.now ≤ length text.now }
{
    let mut rest = text;
    while let Some((b, after)) = split_first(rest, true) {
        if !is_space(b) {
            return rest;
        }
        rest = after;
    }
    rest
}

// The name with which a text begins, or nothing.
#[tactic(auto, unfolding(crate::specs::Define::leading_name))]
pub(crate) fn leading_name(bytes: &[u8]) -> &[u8]
    ensures value { result.now ≡ leading_name bytes.now }
    ensures inside { length result.now ≤ length bytes.now }
{
    if is_letter(bytes.first().copied().unwrap_or(0)) {
        &bytes[..word_bytes(bytes)]
    } else {
        &[]
    }
}

// The text of a formal list, after its `(`, where one follows the name at once.
pub(crate) fn list_after(after: &[u8]) -> Option<&[u8]>
    ensures { MatchOption result (formal_list (as_read true after.now) ≡ Listed None (as_read true after.now)) (λ list. formal_list (as_read true after.now) ≡ formals_of_list (as_read true list.now)) }
{
    match split_first(after, true) {
        Some((b, list)) => { if b == b'(' { Some(list) } else { None } }
        None => None,
    }
}
