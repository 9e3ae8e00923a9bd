// The text of a body or of a default, token by token: the bytes that are kept.
ghost use Rattle.std.specs.Prelude.{
  [],
  false,
  length,
  true,
  unwrap_or,
  vec_capacity,
  vec_len,
  IfNone,
  IfOk,
  IfSome,
  MatchResult,
  None,
  Ok,
  Err,
  OnSome,
  Some,
  ◌+◌,
  ◌++◌,
  ◌<◌,
  ◌≡◌,
  ◌≤◌,
};
ghost use Rattle.std.specs.List.{prefix_len};
ghost use Rattle.rdlpp_scan.specs.Continuations.{as_read};
ghost use Rattle.rdlpp_scan.specs.KeptBytes.{left, unread, IsAdvanced, LevelFits};
ghost use Rattle.rdlpp_scan.specs.KeptText.{
  begun,
  cleared,
  is_space,
  level_by,
  start_level,
  stops_token,
  text_after,
  trimmed_left,
  trimmed_len,
  trims,
  IsNext,
};
ghost use Rattle.rdlpp_scan.specs.LineTokens.{kept_of};
ghost use Rattle.rdlpp_scan.specs.OnePiece.{is_one_piece};
ghost use Rattle.rdlpp_scan.specs.SimpleDefaults.{is_simple};

use crate::continuations::split_first;
use crate::line_tokens::line_token;
use crate::one_piece::{append_part, is_one_piece, trimmed};
use crate::{Kind, LexFault, Mode, byte_at, is_blank, is_perl, lex_fault, open_fault};

/// Whether a byte is white space of a header: a blank or an LF (this project's profile).
#[tactic(auto, unfolding(crate::specs::KeptText::is_space, crate::specs::Bytes::is_line_end))]
pub fn is_space(b: u8) -> bool
    ensures { result ≡ is_space b }
{
    is_blank(b) || b == b'\n'
}

// The bytes of a token that are kept: those of a `//` comment go.
fn kept_of(kind: Kind, bytes: &[u8]) -> &[u8]
    ensures value { result.now ≡ kept_of kind bytes.now }
    ensures inside { length result.now ≤ length bytes.now }
{
    match kind {
        Kind::LineComment => &[],
        _ => bytes,
    }
}

// Whether a default text ends at a token; a body has no level, and ends at none. b is the token's first byte.
#[tactic(auto, unfolding(crate::specs::KeptText::ends_default))]
fn stops_token(level: Option<usize>, kind: Kind, b: u8) -> bool
    ensures { result ≡ stops_token level kind b }
{
    match (level, kind) {
        (Some(level), Kind::Comma) => level == 0,
        (Some(level), Kind::Closer) => level == 0 && b == b')',
        _ => false,
    }
}

// The level after a token, where there is one.
#[tactic(auto, unfolding(crate::specs::KeptText::level_after))]
fn level_by(level: Option<usize>, kind: Kind) -> Option<usize>
    requires { unwrap_or level 0 < 18446744073709551615 }
    ensures value { result ≡ level_by level kind }
    ensures small { unwrap_or result 0 ≤ unwrap_or level 0 + 1 }
{
    match (level, kind) {
        (Some(level), Kind::Opener) => Some(level + 1),
        (Some(level), Kind::Closer) => Some(level.saturating_sub(1)),
        _ => level,
    }
}

// The level at which a text begins.
#[tactic(auto, unfolding(crate::specs::KeptText::start_level))]
fn start_level(is_default: bool) -> Option<usize>
    ensures value { result ≡ start_level is_default }
    ensures zero { unwrap_or result 0 ≡ 0 }
{
    if is_default { Some(0) } else { None }
}

// Whether a byte goes at both ends: a blank, and of a default text LF too.
#[tactic(auto, unfolding(crate::specs::KeptText::trims))]
pub(crate) fn trims(is_default: bool, b: u8) -> bool
    ensures { result ≡ trims is_default b }
{
    if is_default { is_space(b) } else { is_blank(b) }
}

// The bytes of a body or of a default text that are kept, one after another.
#[derive(Drop)]
pub(crate) struct KeptBytes<'a> {
    // What is left of the token that is read.
    token: &'a [u8],
    // The text after it, and where that stands.
    rest: &'a [u8],
    mode: Mode,
    // How deep in brackets; none in a body.
    level: Option<usize>,
    is_logical: bool,
}

impl<'a> KeptBytes<'a> {
    // All of a text, up to the end of the default text with which it begins where it is to be one;
    // of a logical line's text with LF in the place of each continuation.
    fn new(text: &'a [u8], is_logical: bool, is_default: bool) -> KeptBytes<'a>
        ensures is_logical { result.is_logical ≡ is_logical }
        ensures left { left result ≡ cleared (start_level is_default) (as_read is_logical text.now) }
        ensures unread { unread result ≡ length text.now }
        ensures fits { LevelFits result }
    {
        KeptBytes {
            token: &[],
            rest: text,
            mode: Mode::Plain,
            level: start_level(is_default),
            is_logical,
        }
    }

    // Goes on to the next token after one that is read whole; false at the end.
    fn advance(&mut self) -> Result<bool, LexFault>
        requires fits { LevelFits self.old }
        ensures next { IsAdvanced self.old result self.new }
        ensures inside { unread self.new ≤ unread self.old }
        ensures same { self.new.is_logical ≡ self.old.is_logical }
        ensures fits { LevelFits self.new }
    {
        let text = self.rest;
        if text.is_empty() {
            return match open_fault(self.mode) {
                Some(fault) => Err(fault),
                None => Ok(false),
            };
        }
        let token = line_token(self.mode, text, self.is_logical);
        if is_perl(token.kind) {
            return Err(LexFault::Perl);
        }
        if stops_token(self.level, token.kind, text[0]) {
            return Ok(false);
        }
        let (here, after) = text.split_at(token.len);
        self.token = kept_of(token.kind, here);
        self.rest = after;
        self.mode = token.next_mode;
        self.level = level_by(self.level, token.kind);
        Ok(true)
    }

    // The next byte that is kept; `None` at the end.
    fn next(&mut self) -> Result<Option<u8>, LexFault>
        requires { LevelFits self.old }
        ensures next { IsNext (left self.old) result (left self.new) }
        ensures less { IfOk result (λ found. OnSome found (unread self.new < unread self.old)) }
        ensures inside { unread self.new ≤ unread self.old }
        ensures end { IfOk result (λ found. IfNone found (text_after (left self.new) ≡ as_read self.new.is_logical self.new.rest.now)) }
        ensures same { self.new.is_logical ≡ self.old.is_logical }
        ensures fits { LevelFits self.new }
    {
        loop {
            if let Some((b, after)) = split_first(self.token, self.is_logical) {
                self.token = after;
                return Ok(Some(b));
            }
            match self.advance() {
                Ok(true) => {}
                Ok(false) => return Ok(None),
                Err(fault) => return Err(fault),
            }
        }
    }

    // The next byte that is kept and doesn't go at the ends.
    fn next_untrimmed(&mut self, is_default: bool) -> Result<Option<u8>, LexFault>
        requires { LevelFits self.old }
        ensures next { IsNext (begun (trims is_default) (left self.old)) result (left self.new) }
        ensures less { IfOk result (λ found. OnSome found (unread self.new < unread self.old)) }
        ensures inside { unread self.new ≤ unread self.old }
        ensures some { IfOk result (λ found. IfSome found (λ b. trims is_default b ≡ false)) }
        ensures end { IfOk result (λ found. IfNone found (text_after (left self.new) ≡ as_read self.new.is_logical self.new.rest.now)) }
        ensures same { self.new.is_logical ≡ self.old.is_logical }
        ensures fits { LevelFits self.new }
    {
        loop {
            match self.next() {
                Ok(Some(b)) => {
                    if !trims(is_default, b) {
                        return Ok(Some(b));
                    }
                }
                Ok(None) => return Ok(None),
                Err(fault) => return Err(fault),
            }
        }
    }
}

/// How long a text is without its `//` comments and what goes at both ends, and what stands after it.
#[derive(Clone, Copy, Drop)]
pub struct Measured<'a> {
    /// Its length in bytes.
    pub len: usize,
    /// What stands after it: nothing after a body.
    pub following: &'a [u8],
}

/// Measures a body, or the default text with which a text begins: its length without its `//`
/// comments and without the blanks, and of a default text LF too, at both ends.
///
/// A default text goes up to the first `,` or `)` outside brackets, strings and comments, or to the
/// end; brackets are counted by one level for all kinds (this project's profile). Of the text of a
/// logical line each continuation is read as its LF (IEEE 1364-2001, `define`).
///
/// # Errors
///
/// The first fault of the text up to its end: `<%` outside comments, or a string or a block comment
/// that isn't closed.
///
/// Costs time linear in the text's length.
pub fn trimmed_len(
    text: &[u8],
    is_logical: bool,
    is_default: bool,
) -> Result<Measured<'_>, LexFault>
    ensures len { MatchResult result (λ measured. trimmed_len (trims is_default) (cleared (start_level is_default) (as_read is_logical text.now)) ≡ Ok measured.len) (λ fault. trimmed_len (trims is_default) (cleared (start_level is_default) (as_read is_logical text.now)) ≡ Err fault) }
    ensures following { IfOk result (λ measured. text_after (cleared (start_level is_default) (as_read is_logical text.now)) ≡ as_read is_logical measured.following.now) }
    ensures inside { IfOk result (λ measured. measured.len + length measured.following.now ≤ length text.now) }
{
    if !is_default && is_one_piece(text) {
        return piece_len(text, is_logical);
    }
    kept_len(text, is_logical, is_default)
}

// Measures a body in one piece.
fn piece_len(text: &[u8], is_logical: bool) -> Result<Measured<'_>, LexFault>
    requires { is_one_piece text.now ≡ true }
    ensures len { MatchResult result (λ measured. trimmed_len (trims false) (cleared None (as_read is_logical text.now)) ≡ Ok measured.len) (λ fault. trimmed_len (trims false) (cleared None (as_read is_logical text.now)) ≡ Err fault) }
    ensures following { IfOk result (λ measured. text_after (cleared None (as_read is_logical text.now)) ≡ as_read is_logical measured.following.now) }
    ensures inside { IfOk result (λ measured. measured.len + length measured.following.now ≤ length text.now) }
{
    match lex_fault(text) {
        Some(fault) => Err(fault),
        None => Ok(Measured {
            len: trimmed(text).len(),
            following: &[],
        }),
    }
}

// Measures a text by the bytes that are kept, one after another.
fn kept_len(text: &[u8], is_logical: bool, is_default: bool) -> Result<Measured<'_>, LexFault>
    ensures len { MatchResult result (λ measured. trimmed_len (trims is_default) (cleared (start_level is_default) (as_read is_logical text.now)) ≡ Ok measured.len) (λ fault. trimmed_len (trims is_default) (cleared (start_level is_default) (as_read is_logical text.now)) ≡ Err fault) }
    ensures following { IfOk result (λ measured. text_after (cleared (start_level is_default) (as_read is_logical text.now)) ≡ as_read is_logical measured.following.now) }
    ensures inside { IfOk result (λ measured. measured.len + length measured.following.now ≤ length text.now) }
{
    let mut bytes = KeptBytes::new(text, is_logical, is_default);
    match bytes.next_untrimmed(is_default) {
        Ok(Some(_)) => {}
        Ok(None) => return Ok(Measured {
            len: 0,
            following: bytes.rest,
        }),
        Err(fault) => return Err(fault),
    }
    let mut count = 1;
    let mut end = 1;
    loop {
        match bytes.next() {
            Ok(Some(b)) => {
                count += 1;
                if !trims(is_default, b) {
                    end = count;
                }
            }
            Ok(None) => return Ok(Measured {
                len: end,
                following: bytes.rest,
            }),
            Err(fault) => return Err(fault),
        }
    }
}

/// Appends a body, or the default text with which a text begins, of which `trimmed_len` told the
/// length, to bytes that have room for it.
///
/// Costs time linear in the text's length.
pub fn append_trimmed(to: &mut Vec<u8>, text: &[u8], is_logical: bool, is_default: bool, len: usize)
    requires len { trimmed_len (trims is_default) (cleared (start_level is_default) (as_read is_logical text.now)) ≡ Ok len }
    requires room { vec_len to.old + len ≤ vec_capacity to.old }
    ensures items { to.new.items ≡ to.old.items ++ trimmed_left (trims is_default) (cleared (start_level is_default) (as_read is_logical text.now)) }
    ensures capacity { vec_capacity to.new ≡ vec_capacity to.old }
{
    if !is_default && is_one_piece(text) {
        append_part(to, trimmed(text));
    } else {
        append_kept(to, text, is_logical, is_default, len);
    }
}

// Appends a text by the bytes that are kept, one after another.
fn append_kept(to: &mut Vec<u8>, text: &[u8], is_logical: bool, is_default: bool, len: usize)
    requires len { trimmed_len (trims is_default) (cleared (start_level is_default) (as_read is_logical text.now)) ≡ Ok len }
    requires room { vec_len to.old + len ≤ vec_capacity to.old }
    ensures items { to.new.items ≡ to.old.items ++ trimmed_left (trims is_default) (cleared (start_level is_default) (as_read is_logical text.now)) }
    ensures capacity { vec_capacity to.new ≡ vec_capacity to.old }
{
    let mut bytes = KeptBytes::new(text, is_logical, is_default);
    let mut found = bytes.next_untrimmed(is_default).unwrap_or(None);
    for _ in 0..len {
        let Some(b) = found else {
            return;
        };
        to.push_reserved(b);
        found = bytes.next().unwrap_or(None);
    }
}

/// What stands after the default text with which bytes begin, from its `,` or `)` on, where no
/// byte is a continuation; nothing where the default text has a fault or goes up to the end.
///
/// Costs time linear in the default text's length.
pub fn after_default(bytes: &[u8]) -> &[u8]
    ensures value { result.now ≡ text_after (cleared (Some 0) bytes.now) }
    ensures inside { length result.now ≤ length bytes.now }
{
    // Most default texts are simple bytes alone, or nothing. None of these ends one or hides its end: the next byte tells.
    let len = simple_bytes(bytes);
    let next = byte_at(bytes, len);
    if next == b',' || next == b')' {
        return &bytes[len..];
    }
    after_by_tokens(&bytes[len..])
}

// How many simple bytes a text begins with.
fn simple_bytes(bytes: &[u8]) -> usize
    ensures value { result ≡ prefix_len is_simple bytes.now }
    ensures inside { result ≤ length bytes.now }
{
    bytes.iter().take_while(|b| is_simple(**b)).count()
}

// Whether a byte outside brackets neither ends a default text nor may begin a bracket, a string, a comment or `<%`.
#[tactic(auto, unfolding(crate::specs::SimpleDefaults::is_simple))]
fn is_simple(b: u8) -> bool
    ensures { result ≡ is_simple b }
{
    !(b == b','
        || b == b')'
        || b == b'('
        || b == b'['
        || b == b'{'
        || b == b'"'
        || b == b'/'
        || b == b'<')
}

// What stands after a default text, token by token.
#[inline(never)]
fn after_by_tokens(bytes: &[u8]) -> &[u8]
    ensures value { result.now ≡ text_after (cleared (Some 0) bytes.now) }
    ensures inside { length result.now ≤ length bytes.now }
{
    let mut reader = KeptBytes::new(bytes, false, true);
    loop {
        match reader.advance() {
            Ok(true) => {}
            Ok(false) => return reader.rest,
            Err(_) => return &[],
        }
    }
}
