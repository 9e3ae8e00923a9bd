// Physical lines and logical lines of a text.
ghost use Rattle.std.specs.Prelude.{◌≡◌, ◌+◌, ◌-◌, ◌<◌, ◌≤◌, ◌∷◌, not, length, slice_index};
ghost use Rattle.std.specs.List.{prefix_len};
ghost use Rattle.rdlpp_scan.specs.Bytes.{is_line_end};
ghost use Rattle.rdlpp_scan.specs.SourceTokens.{line_ends, line_len, logical_len};
ghost use Rattle.rdlpp_scan.specs.Lines.{ended_line_len, ends_continued, whole_lines_len};

use memchr::{memchr, memrchr};

// The bytes of a short text: whole vectors, and no more LF bytes than a byte counts.
const SHORT_BYTES: usize = 192;

/// The length in bytes of the first physical line, up to and with its LF; `None` where `bytes` has no
/// LF (this project's profile).
///
/// Costs time linear in that length, or in the whole length where there is no LF.
pub fn rest_of_line(bytes: &[u8]) -> Option<usize>
    ensures { result ≡ ended_line_len bytes.now }
{
    Some(memchr(b'\n', bytes)? + 1)
}

/// The length in bytes of the first physical line, with its LF where it has one (this project's profile).
///
/// Costs time linear in that length.
pub fn line_len(bytes: &[u8]) -> usize
    ensures value { result ≡ line_len bytes.now }
    ensures inside { result ≤ length bytes.now }
{
    rest_of_line(bytes).unwrap_or(bytes.len())
}

/// The length in bytes up to and with the last LF; 0 where `bytes` has no LF (this project's profile).
///
/// Costs time linear in what stands after the last LF, or in the whole length where there is no LF.
pub fn last_line_end(bytes: &[u8]) -> usize
    ensures { result ≡ whole_lines_len bytes.now }
{
    match memrchr(b'\n', bytes) {
        Some(at) => at + 1,
        None => 0,
    }
}

/// How many LF bytes `bytes` has.
///
/// Costs time linear in the length.
pub fn line_ends_in(bytes: &[u8]) -> usize
    ensures { result ≡ line_ends bytes.now }
{
    let mut count = 0;
    let mut at = 0;
    while at < bytes.len() {
        let end = at + (bytes.len() - at).min(SHORT_BYTES);
        count += short_line_ends(&bytes[at..end]) as usize;
        at = end;
    }
    count
}

/// The length in bytes of the first logical line, up to and with the first LF that no `\`, and no
/// `\` and CR, stands before (IEEE 1364-2001, `define`); `None` where `bytes` has no such LF.
///
/// Costs time linear in that length, or in the whole length where there is no such LF.
pub fn logical_line(bytes: &[u8]) -> Option<usize>
    ensures { result ≡ logical_len 0 0 bytes.now }
{
    let mut at = 0;
    while let Some(step) = memchr(b'\n', &bytes[at..]) {
        let end = at + step;
        if !is_continued(&bytes[at..end]) {
            return Some(end + 1);
        }
        at = end + 1;
    }
    None
}

// How many bytes stand before the first LF.
#[inline(never)]
pub(crate) fn before_line_end(bytes: &[u8]) -> usize
    ensures value { result ≡ prefix_len (λ x. not (is_line_end x)) bytes.now }
    ensures inside { result ≤ length bytes.now }
{
    memchr(b'\n', bytes).unwrap_or(bytes.len())
}

// How many LF bytes a short text has: one byte counts them, so that a vector counts as many as it has bytes.
fn short_line_ends(bytes: &[u8]) -> u8
    requires { length bytes.now ≤ 255 }
    ensures { result ≡ line_ends bytes.now }
{
    let mut count = 0;
    for at in 0..bytes.len() {
        if bytes[at] == b'\n' {
            count += 1;
        }
    }
    count
}

// The byte that stands one or two before the end, or 0 where there is none.
fn byte_back(bytes: &[u8], back: usize) -> u8
    requires some { 0 < back }
    requires two { back ≤ 2 }
    ensures { result ≡ slice_index (0 ∷ 0 ∷ bytes.now) (length bytes.now + 2 - back) }
{
    if back <= bytes.len() {
        bytes[bytes.len() - back]
    } else {
        0
    }
}

// Whether a line without its LF goes on after that LF: it ends with `\`, or with `\` and CR.
fn is_continued(line: &[u8]) -> bool
    ensures { result ≡ ends_continued 0 0 line.now }
{
    let before = byte_back(line, 2);
    let last = byte_back(line, 1);
    last == b'\\' || before == b'\\' && last == b'\r'
}
