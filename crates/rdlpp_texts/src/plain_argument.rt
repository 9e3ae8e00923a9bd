// The white space and the plain argument bytes of a call, which the search for the end of a part passes byte by byte.
ghost use Rattle.std.specs.Prelude.{◌≡◌, ◌≤◌, ◌==◌, ◌&&◌, not, ℕ, false, Bool, length, drop, if◌then◌else◌};
ghost use Rattle.rdlpp_scan.specs.declared.token.Mode.TheVariants.{Plain};
ghost use Rattle.rdlpp_meaning.specs.TextTokens.{text_tokens};
ghost use Rattle.rdlpp_texts.specs.CallParts.{is_white, part_from};
ghost use Rattle.rdlpp_texts.specs.PlainArgumentBytes.{begins_white, byte_class};
ghost use Rattle.rdlpp_texts.specs.declared.plain_argument.ByteClass.TheVariants.{PlainArgument, Mark};

use rdlpp_scan::{Mode, is_blank};

// What a byte of plain text is to the search for the end of a part.
#[derive(Clone, Copy)]
pub(crate) enum ByteClass {
    // White space.
    White,
    // Any other that opens, closes and cuts nothing, and begins no string, no comment and no `<%`.
    PlainArgument,
    // Any other: it takes its token to tell.
    Mark,
}

// How far the search for the end of a part came.
#[derive(Clone, Copy)]
pub(crate) struct PassedBytes {
    // Where what it passed ends.
    pub(crate) at: usize,
    // Where the last of that ends that isn't white space.
    pub(crate) to: usize,
}

// Passes the white space and the plain argument bytes that stand from a place on, at a level of openers. None stand in a string or
// in a comment.
pub(crate) fn pass_plain_argument(
    mode: Mode,
    level: usize,
    text: &[u8],
    from: PassedBytes,
) -> PassedBytes
    requires { from.at ≤ length text.now }
    ensures order { from.at ≤ result.at }
    ensures inside { result.at ≤ length text.now }
    ensures dark { begins_white mode (drop result.at text.now) ≡ false }
    ensures same { (closes : Bool) (start : ℕ) → part_from closes start result.at level result.to (text_tokens mode (drop result.at text.now))
        ≡ part_from closes start from.at level from.to (text_tokens mode (drop from.at text.now)) }
{
    match mode {
        Mode::Plain => pass_plain(level, text, from),
        _ => from,
    }
}

// The same in plain text.
fn pass_plain(level: usize, text: &[u8], from: PassedBytes) -> PassedBytes
    requires { from.at ≤ length text.now }
    ensures order { from.at ≤ result.at }
    ensures inside { result.at ≤ length text.now }
    ensures dark { begins_white Plain (drop result.at text.now) ≡ false }
    ensures same { (closes : Bool) (start : ℕ) → part_from closes start result.at level result.to (text_tokens Plain (drop result.at text.now))
        ≡ part_from closes start from.at level from.to (text_tokens Plain (drop from.at text.now)) }
{
    let mut at = from.at;
    let mut to = from.to;
    while at < text.len() {
        match byte_class(level, text[at]) {
            ByteClass::White => at += 1,
            ByteClass::PlainArgument => {
                at += 1;
                to = at;
            }
            ByteClass::Mark => break,
        }
    }
    PassedBytes { at, to }
}

// What a byte of plain text at a level of openers is: a comma cuts nothing within further ones. Letters are told first and then the
// blank, since most bytes are one of them; and of the marks those below 64 and the others are told apart: the compiler makes of either
// comparison a mask of bits, without a jump for each mark.
fn byte_class(level: usize, b: u8) -> ByteClass
    ensures { result ≡ byte_class level b }
{
    if b >= 64 {
        plain_argument_or_mark(is_plain_argument_letter(b))
    } else if b == b' ' {
        ByteClass::White
    } else if b < b' ' {
        if is_white(b) {
            ByteClass::White
        } else {
            ByteClass::PlainArgument
        }
    } else if b == b',' {
        plain_argument_or_mark(level > 0)
    } else {
        plain_argument_or_mark(is_plain_argument_mark(b))
    }
}

// What a byte is that is no white space.
fn plain_argument_or_mark(is_plain_argument: bool) -> ByteClass
    ensures { result ≡ (if is_plain_argument then PlainArgument else Mark) }
{
    if is_plain_argument {
        ByteClass::PlainArgument
    } else {
        ByteClass::Mark
    }
}

// Whether a byte is white space: a blank or LF.
#[tactic(auto, unfolding(crate::specs::CallParts::is_white, rdlpp_scan::specs::Bytes::is_line_end))]
pub(crate) fn is_white(b: u8) -> bool
    ensures { result ≡ is_white b }
{
    is_blank(b) || b == b'\n'
}

// Whether a byte between the blank and 64 other than a comma is a plain argument byte: no round bracket, no `"`, no `/` and no `<`.
fn is_plain_argument_mark(b: u8) -> bool
    ensures { result ≡ (not (b == 40) && (not (b == 41) && (not (b == 34) && (not (b == 47) && not (b == 60))))) }
{
    b != b'(' && b != b')' && b != b'"' && b != b'/' && b != b'<'
}

// Whether a byte from 64 on is a plain argument byte: no square bracket and no brace.
fn is_plain_argument_letter(b: u8) -> bool
    ensures { result ≡ (not (b == 91) && (not (b == 123) && (not (b == 93) && not (b == 125)))) }
{
    b != b'[' && b != b'{' && b != b']' && b != b'}'
}
