// What a directive is given after its word.
ghost use Rattle.std.specs.Prelude.{◌≤◌, length};
ghost use Rattle.rdlpp_front.specs.Arguments.{IsClosedString, IsLead};
ghost use Rattle.rdlpp_front.specs.SourceItems.{IsAfter};

mod line;

pub use line::{GivenLine, given_line};
use rdlpp_scan::{Kind, Mode, first_token, rest_of_line};

/// Where what a directive is given stands in held bytes that begin with the directive.
#[derive(Clone, Copy)]
pub struct Argument {
    /// The place of its first byte.
    pub start: usize,
    /// The place after its last byte, and after the directive.
    pub stop: usize,
}

// The name that stands, after blanks or at once, after the word of an `undef`, `ifdef`, `ifndef` or `elsif`, which has so many
// bytes; `None` where none stands there on the same line. The held bytes end at a line end or where the text ends.
// IEEE 1364-2001, compiler directives; that the name stands on the same line is this project's profile.
pub(crate) fn name_after(held: &[u8], word_len: usize) -> Option<Argument>
    requires { word_len ≤ length held.now }
    ensures { IsAfter (IsLead Kind.Name) word_len held.now result }
{
    let start = word_len + lead_of(Kind::Blank, &held[word_len..]);
    let len = lead_of(Kind::Name, &held[start..]);
    if len == 0 {
        return None;
    }
    Some(Argument {
        start,
        stop: start + len,
    })
}

// The string that stands, after blanks or at once, after the word of an `include`, which has so many bytes, with its quotes;
// `None` where none stands there that closes on the same line. The held bytes end at a line end or where the text ends.
// IEEE 1364-2001, `include`; that the string closes on the same line is this project's profile.
pub(crate) fn string_after(held: &[u8], word_len: usize) -> Option<Argument>
    requires { word_len ≤ length held.now }
    ensures { IsAfter IsClosedString word_len held.now result }
{
    let start = word_len + lead_of(Kind::Blank, &held[word_len..]);
    let len = closed_string(&held[start..]);
    if len == 0 {
        return None;
    }
    Some(Argument {
        start,
        stop: start + len,
    })
}

// How long the first token is, where it is of a kind; 0 where it isn't.
fn lead_of(kind: Kind, bytes: &[u8]) -> usize
    ensures lead { IsLead kind bytes.now result }
    ensures inside { result ≤ length bytes.now }
{
    if bytes.is_empty() {
        return 0;
    }
    let token = first_token(Mode::Plain, bytes);
    if token.kind == kind { token.len } else { 0 }
}

// How long the first token is, where it is a string that closes on its line; 0 where it isn't.
fn closed_string(bytes: &[u8]) -> usize
    ensures string { IsClosedString bytes.now result }
    ensures inside { result ≤ length bytes.now }
{
    if bytes.is_empty() {
        return 0;
    }
    let token = first_token(Mode::Plain, bytes);
    if token.kind != Kind::Str || token.next_mode != Mode::Plain {
        return 0;
    }
    match rest_of_line(&bytes[..token.len]) {
        Some(_) => 0,
        None => token.len,
    }
}
