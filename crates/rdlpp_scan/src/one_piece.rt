// Bodies in one piece: texts with neither a `\` nor a `/`, in which no continuation and no comment stands.
ghost use Rattle.std.specs.Prelude.{false, length, take, vec_capacity, vec_len, ◌+◌, ◌++◌, ◌≡◌, ◌≤◌};
ghost use Rattle.rdlpp_scan.specs.OnePiece.{is_one_piece};
ghost use Rattle.rdlpp_scan.specs.KeptText.{trimmed_of, trims, without_end};

use crate::blanks;
use crate::kept_text::trims;
use memchr::memchr2;

// Whether a text has neither a `\` nor a `/`.
pub(crate) fn is_one_piece(text: &[u8]) -> bool
    ensures { result ≡ is_one_piece text.now }
{
    match memchr2(b'\\', b'/', text) {
        Some(_) => false,
        None => true,
    }
}

// How long a text is without the blanks at its end.
fn unblanked_len(text: &[u8]) -> usize
    ensures value { without_end (trims false) text.now ≡ take result text.now }
    ensures inside { result ≤ length text.now }
{
    for at in (0..text.len()).rev() {
        if !trims(false, text[at]) {
            return at + 1;
        }
    }
    0
}

// A text without the blanks at both ends.
#[tactic(auto, unfolding(crate::specs::KeptText::trimmed_of))]
pub(crate) fn trimmed(text: &[u8]) -> &[u8]
    ensures value { result.now ≡ trimmed_of (trims false) text.now }
    ensures inside { length result.now ≤ length text.now }
{
    let front = &text[blanks(text)..];
    &front[..unblanked_len(front)]
}

/// Appends bytes for which there is room, so that no memory is asked for.
///
/// Costs time linear in their number.
pub fn append_part(to: &mut Vec<u8>, part: &[u8])
    requires { vec_len to.old + length part.now ≤ vec_capacity to.old }
    ensures items { to.new.items ≡ to.old.items ++ part.now }
    ensures capacity { vec_capacity to.new ≡ vec_capacity to.old }
{
    for b in part {
        to.push_reserved(*b);
    }
}
