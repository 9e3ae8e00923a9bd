// The `(` of a call in a text, and the parts after it.
ghost use Rattle.std.specs.Prelude.{◌≡◌, ◌≤◌, IfSome, length, drop, nat_lt};
ghost use Rattle.std.specs.List.{prefix_len};
ghost use Rattle.rdlpp_meaning.specs.Substitution.{body_tokens};
ghost use Rattle.rdlpp_texts.specs.CallParts.{IsNextPart, ends_text, is_white, opener_from, part_from, space_from};
ghost use Rattle.rdlpp_texts.specs.CallTokens.{role_meant};

use crate::plain_argument::{PassedBytes, is_white, pass_plain_argument};
use crate::tokens::{CallRole, ends_call, ends_part, level_after, token_in_call};
use rdlpp_scan::{Mode, byte_at, word_bytes};

/// Where a part of a call ends.
#[derive(Clone, Copy)]
pub enum PartEnd {
    /// At a comma: the next part begins here.
    Comma(usize),
    /// At the end of the call: its `)` stands here, or the text ends here.
    Last(usize),
}

/// A part of a call.
#[derive(Clone, Copy)]
pub struct Part {
    /// Where its text begins, without the white space in front of it.
    pub from: usize,
    /// Where its text ends, without the white space after it.
    pub to: usize,
    /// What follows it.
    pub end: PartEnd,
}

impl Part {
    /// Whether the part has items: anything but white space.
    pub fn has_items(&self) -> bool
        ensures { result ≡ nat_lt self.now.from self.now.to }
    {
        self.from < self.to
    }
}

/// How many bytes of a text stand up to and with the `(` of a call, after white space, line ends and comments; none where
/// anything else stands before it, or where the text ends (this project's profile).
pub fn call_start(text: &[u8]) -> Option<usize>
    ensures value { result ≡ opener_from 0 (body_tokens text.now) }
    ensures inside { IfSome result (λ n. n ≤ length text.now) }
{
    if byte_at(text, 0) == b'(' {
        return Some(1);
    }
    spaced_start(text)
}

// The same, token by token.
#[cold]
#[inline(never)]
fn spaced_start(text: &[u8]) -> Option<usize>
    ensures value { result ≡ opener_from 0 (body_tokens text.now) }
    ensures inside { IfSome result (λ n. n ≤ length text.now) }
{
    let mut at = 0;
    let mut mode = Mode::Plain;
    while at < text.len() {
        let token = token_in_call(mode, &text[at..]);
        at += token.len;
        mode = token.next_mode;
        match token.role {
            CallRole::Space | CallRole::LineComment | CallRole::BlockComment => {}
            CallRole::Start => return Some(at),
            _ => return None,
        }
    }
    None
}

/// The next part of a call, in the text after its `(` or after a comma of it. What is kept of a call has no `)` of the call;
/// in any other text that `closes` it.
///
/// # Rules
///
/// A comma ends a part outside strings, comments and further openers, and so does the `)` of the call. White space and line
/// ends at both ends of a part aren't of it; comments are (this project's profile). A part may have no bytes.
pub fn next_part(text: &[u8], closes: bool) -> Part
    ensures value { let start = space_from 0 (body_tokens text.now) in
        result ≡ part_from closes start start 0 start (body_tokens (drop start text.now)) }
    ensures part { IsNextPart closes text.now result }
{
    let from = white_bytes(text);
    part_at(text, from, closes)
}

// How many bytes of white space a text begins with.
fn white_bytes(text: &[u8]) -> usize
    ensures value { result ≡ prefix_len is_white text.now }
    ensures inside { result ≤ length text.now }
{
    text.iter().take_while(|b| is_white(**b)).count()
}

// The part that begins at a place of a text. Most parts are one word, or nothing.
fn part_at(text: &[u8], from: usize, closes: bool) -> Part
    requires { from ≤ length text.now }
    ensures { result ≡ part_from closes from from 0 from (body_tokens (drop from text.now)) }
{
    let to = from + word_bytes(&text[from..]);
    let next = byte_at(text, to);
    if next == b',' {
        return Part {
            from,
            to,
            end: PartEnd::Comma(to + 1),
        };
    }
    if closes && next == b')' {
        return Part {
            from,
            to,
            end: PartEnd::Last(to),
        };
    }
    part_by_tokens(text, from, closes)
}

// The same, token by token, where white space and plain argument bytes are passed at once.
#[inline(never)]
fn part_by_tokens(text: &[u8], from: usize, closes: bool) -> Part
    requires { from ≤ length text.now }
    ensures { result ≡ part_from closes from from 0 from (body_tokens (drop from text.now)) }
{
    let mut passed = PassedBytes { at: from, to: from };
    let mut level = 0;
    let mut mode = Mode::Plain;
    loop {
        passed = pass_plain_argument(mode, level, text, passed);
        if passed.at >= text.len() {
            break;
        }
        // It is no white space, all of which has been passed in front of it.
        let token = token_in_call(mode, &text[passed.at..]);
        if ends_text(closes, token.role, level) {
            break;
        }
        let following = passed.at + token.len;
        if ends_part(token.role, level) {
            return Part {
                from,
                to: passed.to,
                end: PartEnd::Comma(following),
            };
        }
        passed = PassedBytes {
            at: following,
            to: following,
        };
        level = level_after(token.role, level);
        mode = token.next_mode;
    }
    Part {
        from,
        to: passed.to,
        end: PartEnd::Last(passed.at),
    }
}

// Whether a token at a level of openers is the `)` of a call, where one may end it.
#[tactic(auto, unfolding(crate::specs::CallParts::ends_text))]
fn ends_text(closes: bool, role: CallRole, level: usize) -> bool
    ensures { result ≡ ends_text closes (role_meant role) level }
{
    closes && ends_call(role, level)
}
