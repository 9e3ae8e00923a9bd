// What a `line` is given after its word.
ghost use Rattle.std.specs.Prelude.{◌≡◌, ◌≤◌, false, length};
ghost use Rattle.std.specs.List.{prefix_len};
ghost use Rattle.rdlpp_scan.specs.Bytes.{is_digit};
ghost use Rattle.rdlpp_meaning.specs.Meaning.{is_level, past_blank_bytes, quote_place};
ghost use Rattle.rdlpp_front.specs.Arguments.{IsLineGiven, IsLineNumber, IsShownName, IsQuoteWithin};

use arrayvec::ArrayString;
use rdlpp_scan::{blanks, is_digit, rest_of_line};

const MAX_NUMBER: u64 = 2_147_483_647;

/// What a `line` is given.
#[derive(Drop)]
pub struct GivenLine {
    /// The number that the next physical line shows: 1 to 2,147,483,647.
    pub number: u64,
    /// The name that is shown from there on: 1 to 1,024 bytes.
    pub name: ArrayString<1024>,
    /// How many bytes the directive takes after its word: the rest of its line, with the LF where it
    /// has one.
    pub stop: usize,
}

/// The number and the name that stand on the line at the front of `bytes`, as after the word of a
/// `line`; `None` where anything but a number, a string of 1 to 1,024 bytes of UTF-8, and one of `0`,
/// `1` and `2` stands there.
///
/// `bytes` are what is held after the word, with the LF of its line where it has one. That only blanks
/// stand before the directive on its line isn't looked at.
///
/// # Rules
///
/// IEEE 1364-2001, `line`; the ranges are this project's profile.
pub fn given_line(bytes: &[u8]) -> Option<GivenLine>
    ensures { IsLineGiven result bytes.now }
{
    let stop = rest_of_line(bytes).unwrap_or(bytes.len());
    let after_word = past_blanks(&bytes[..stop]);
    let len = digits(after_word);
    let number = line_number(&after_word[..len])?;
    let name = shown_name(past_blanks(&after_word[len..]))?;
    Some(GivenLine { number, name, stop })
}

// A text without the blanks at its front.
fn past_blanks(bytes: &[u8]) -> &[u8]
    ensures { result.now ≡ past_blank_bytes bytes.now }
{
    &bytes[blanks(bytes)..]
}

// How many digits a text begins with.
fn digits(bytes: &[u8]) -> usize
    ensures value { result ≡ prefix_len is_digit bytes.now }
    ensures inside { result ≤ length bytes.now }
{
    bytes.iter().take_while(|b| is_digit(**b)).count()
}

// The number that digits spell, where a line may have it.
fn line_number(digits: &[u8]) -> Option<u64>
    ensures { IsLineNumber result digits.now }
{
    let mut number: u64 = 0;
    for digit in digits {
        number = number * 10 + u64::from(digit.saturating_sub(b'0'));
        if number > MAX_NUMBER {
            return None;
        }
    }
    if number == 0 { None } else { Some(number) }
}

// The name between the quotes at the front, where a level ends the line after it.
fn shown_name(bytes: &[u8]) -> Option<ArrayString<1024>>
    ensures { IsShownName result bytes.now }
{
    if bytes.is_empty() || bytes[0] != b'"' {
        return None;
    }
    let len = quote_place(&bytes[1..])?;
    if len == 0 {
        return None;
    }
    if !is_level(past_blanks(&bytes[len + 2..])) {
        return None;
    }
    let Ok(name) = str::from_utf8(&bytes[1..len + 1]) else {
        return None;
    };
    ArrayString::from(name).ok()
}

// The place of the quote that closes a string, after its first quote.
fn quote_place(bytes: &[u8]) -> Option<usize>
    ensures place { result ≡ quote_place false bytes.now }
    ensures inside { IsQuoteWithin result bytes.now }
{
    let mut taken = false;
    for (place, byte) in bytes.iter().enumerate() {
        if taken {
            taken = false;
        } else if *byte == b'"' {
            return Some(place);
        } else {
            taken = *byte == b'\\';
        }
    }
    None
}

// Whether a text is a level, and blanks up to the end of its line.
fn is_level(bytes: &[u8]) -> bool
    ensures { result ≡ is_level bytes.now }
{
    if bytes.is_empty() || bytes[0] < b'0' || b'2' < bytes[0] {
        return false;
    }
    let rest = past_blanks(&bytes[1..]);
    rest.is_empty() || rest == b"\n".as_slice()
}
