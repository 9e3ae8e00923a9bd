// The first token of a text, by the rows of the token table.
ghost use Rattle.std.specs.Prelude.{◌≡◌, ◌+◌, ◌^◌, ◌≤◌, ◌<◌, ◌||◌, ◌==◌, length, slice_index, false};
ghost use Rattle.rdlpp_scan.specs.Bytes.{begins_perl, ends_block_comment};
ghost use Rattle.rdlpp_scan.specs.Pieces.{CutTokens};
ghost use Rattle.rdlpp_scan.specs.TokenParts.{kind_of, len_of, mark_kind, mode_after, opened, plain_kind, stop_of};
ghost use Rattle.rdlpp_scan.specs.Tokens.{first_place, string_stop, token_of};

use crate::bytes::{
    begins_perl, blanks, byte_at, is_blank, is_digit, is_letter, is_word, word_bytes,
};
use crate::lines::before_line_end;
use crate::token::{Kind, Mode, Token};
use memchr::{memchr3, memmem};

/// The first token of a text, or the part of it that `bytes` has.
///
/// # Rules
///
/// The token table of this project's profile: strings and names are those of IEEE 1364-2001, and
/// `<%` is the beginning of embedded Perl of SystemRDL 2.0. Lengths are bytes.
///
/// However a text is cut before or after its line ends, the tokens of the pieces, with the parts of
/// each string and of each block comment joined, are the tokens of the text (`pieces`).
///
/// Costs time linear in the token's length.
#[inline]
pub fn first_token(mode: Mode, bytes: &[u8]) -> Token
    requires { 0 < length bytes.now }
    ensures value { result ≡ token_of mode bytes.now }
    ensures not_empty { 0 < result.len }
    ensures inside { result.len ≤ length bytes.now }
    ensures pieces { CutTokens }
{
    // Scalars alone are handed on, and the token is built once: a copy of it costs more than most tokens.
    let kind = kind_of(mode, bytes);
    let stop = stop_of(mode, kind, bytes);
    let next_mode = mode_after(kind, stop, bytes);
    let len = len_of(kind, next_mode, stop);
    Token {
        kind,
        next_mode,
        len,
    }
}

// Whether a string ends here, at its quote or before `<%`.
fn ends_string(bytes: &[u8]) -> bool
    ensures { result ≡ (slice_index bytes.now 0 == 34 || begins_perl bytes.now) }
{
    byte_at(bytes, 0) == b'"' || begins_perl(bytes)
}

// Where a string stops whose part here begins these bytes.
#[inline(never)]
fn string_stop(bytes: &[u8]) -> usize
    ensures value { result ≡ string_stop false bytes.now }
    ensures inside { result ≤ length bytes.now }
{
    let mut at = 0;
    while let Some(step) = memchr3(b'"', b'\\', b'<', &bytes[at..]) {
        let here = at + step;
        if bytes[here] == b'\\' {
            at = bytes.len().min(here + 2);
        } else if ends_string(&bytes[here..]) {
            return here;
        } else {
            at = here + 1;
        }
    }
    bytes.len()
}

// Where the first `*/` begins, or the length.
#[inline(never)]
fn comment_stop(bytes: &[u8]) -> usize
    ensures value { result ≡ first_place ends_block_comment bytes.now }
    ensures inside { result ≤ length bytes.now }
{
    memmem::find(bytes, b"*/").unwrap_or(bytes.len())
}

// The kind of a token of plain text that begins with a byte that stands in no run, and the byte after it.
#[tactic(auto, unfolding(crate::specs::TokenParts::mark_kind, crate::specs::Bytes::is_line_end, crate::specs::Bytes::is_opener, crate::specs::Bytes::is_closer, crate::specs::Bytes::takes_word))]
fn mark_kind(b: u8, c: u8) -> Kind
    ensures { result ≡ mark_kind b c }
{
    if b == b',' {
        Kind::Comma
    } else if b == b'(' || b == b'[' || b == b'{' {
        Kind::Opener
    } else if b == b')' || b == b']' || b == b'}' {
        Kind::Closer
    } else if b == b'\n' {
        Kind::LineEnd
    } else if b == b'`' && is_letter(c) {
        Kind::Back
    } else if b == b'`' {
        Kind::BareBackquote
    } else if b == b'"' {
        Kind::Str
    } else if b == b'/' && c == b'/' {
        Kind::LineComment
    } else if b == b'/' && c == b'*' {
        Kind::BlockComment
    } else if b == b'<' && c == b'%' {
        Kind::Perl
    } else if (b == b'\'' || b == b'\\') && is_word(c) {
        Kind::Word
    } else {
        Kind::Other
    }
}

// The kind of a token of plain text: letters, blanks and digits are asked for first, since most tokens are runs of them.
#[tactic(auto, unfolding(crate::specs::TokenParts::plain_kind))]
fn plain_kind(b: u8, c: u8) -> Kind
    ensures { result ≡ plain_kind b c }
{
    if is_letter(b) {
        Kind::Name
    } else if is_blank(b) {
        Kind::Blank
    } else if is_digit(b) {
        Kind::Word
    } else {
        mark_kind(b, c)
    }
}

// The kind of the first token.
#[tactic(auto, unfolding(crate::specs::TokenParts::kind_of))]
fn kind_of(mode: Mode, bytes: &[u8]) -> Kind
    requires { 0 < length bytes.now }
    ensures { result ≡ kind_of mode bytes.now }
{
    match mode {
        Mode::Plain => plain_kind(byte_at(bytes, 0), byte_at(bytes, 1)),
        Mode::InStr => if begins_perl(bytes) {
            Kind::Perl
        } else {
            Kind::Str
        },
        Mode::InBlock => Kind::BlockComment,
    }
}

// How many bytes open a string or a block comment: none where it opened before.
#[tactic(auto, unfolding(crate::specs::TokenParts::opened))]
fn opened(mode: Mode, len: usize) -> usize
    ensures { result ≡ opened mode len }
{
    match mode {
        Mode::Plain => len,
        _ => 0,
    }
}

// Where the first token stops, without the bytes that close it.
#[tactic(auto, unfolding(crate::specs::TokenParts::stop_of))]
fn stop_of(mode: Mode, kind: Kind, bytes: &[u8]) -> usize
    requires some { 0 < length bytes.now }
    requires kind { kind ≡ kind_of mode bytes.now }
    ensures { result ≡ stop_of mode kind bytes.now }
{
    match kind {
        Kind::Name => word_bytes(bytes),
        Kind::Blank => blanks(bytes),
        Kind::Word if is_digit(byte_at(bytes, 0)) => word_bytes(bytes),
        Kind::Word | Kind::Back => 1 + word_bytes(&bytes[1..]),
        Kind::Str => {
            let from = opened(mode, 1);
            from + string_stop(&bytes[from..])
        }
        Kind::LineComment => before_line_end(bytes),
        Kind::BlockComment => {
            let from = opened(mode, 2);
            from + comment_stop(&bytes[from..])
        }
        Kind::Perl => 2,
        _ => 1,
    }
}

// Where the text stands after its first token, which stops at a place.
#[tactic(auto, unfolding(crate::specs::TokenParts::mode_after))]
fn mode_after(kind: Kind, stop: usize, bytes: &[u8]) -> Mode
    ensures { result ≡ mode_after kind stop bytes.now }
{
    match kind {
        Kind::Str if byte_at(bytes, stop) != b'"' => Mode::InStr,
        Kind::BlockComment if stop >= bytes.len() => Mode::InBlock,
        _ => Mode::Plain,
    }
}

// How long the first token is, which stops at a place before what closes it.
#[tactic(auto, unfolding(crate::specs::TokenParts::len_of))]
fn len_of(kind: Kind, next_mode: Mode, stop: usize) -> usize
    requires { stop + 2 < 2 ^ 64 }
    ensures { result ≡ len_of kind next_mode stop }
{
    match next_mode {
        Mode::Plain => match kind {
            Kind::Str => stop + 1,
            Kind::BlockComment => stop + 2,
            _ => stop,
        },
        _ => stop,
    }
}
