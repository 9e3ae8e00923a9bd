// The text of a logical line, byte by byte: each continuation is read as its LF.
ghost use Rattle.std.specs.Prelude.{[], drop, length, slice_index, MatchOption, ◌-◌, ◌<◌, ◌≡◌, ◌≤◌, ◌∷◌};
ghost use Rattle.rdlpp_scan.specs.Continuations.{continuation_len, first_len, as_read};

use crate::byte_at;

/// The first byte of a text as it is read, and the text after it; `None` at the end.
///
/// In the text of a logical line a continuation, which is `\` and LF, or `\`, CR and LF, is read as
/// its LF (IEEE 1364-2001, `define`).
///
/// Costs constant time.
pub fn split_first(text: &[u8], is_logical: bool) -> Option<(u8, &[u8])>
    ensures { MatchOption result (as_read is_logical text.now ≡ []) (λ first. (as_read is_logical text.now ≡ first.0 ∷ as_read is_logical first.1.now) × (length first.1.now < length text.now)) }
{
    if text.is_empty() {
        return None;
    }
    let len = first_len(text, is_logical);
    Some((text[len - 1], &text[len..]))
}

// How many bytes stand before the LF of a continuation.
#[tactic(auto, unfolding(crate::specs::Continuations::continuation_len))]
pub(crate) fn continuation_len(text: &[u8]) -> usize
    ensures value { result ≡ continuation_len text.now }
    ensures small { result ≤ 2 }
{
    if byte_at(text, 0) == b'\\' && byte_at(text, 1) == b'\n' {
        1
    } else if byte_at(text, 0) == b'\\'
        && (byte_at(text, 1) == b'\r' && byte_at(text, 2) == b'\n')
    {
        2
    } else {
        0
    }
}

// How many bytes of a text are the first one that is read.
#[tactic(auto, unfolding(crate::specs::Continuations::first_len))]
fn first_len(text: &[u8], is_logical: bool) -> usize
    requires { 0 < length text.now }
    ensures value { result ≡ first_len is_logical text.now }
    ensures some { 0 < result }
    ensures inside { result ≤ length text.now }
    ensures first { as_read is_logical text.now ≡ slice_index text.now (result - 1) ∷ as_read is_logical (drop result text.now) }
{
    if is_logical {
        continuation_len(text) + 1
    } else {
        1
    }
}
