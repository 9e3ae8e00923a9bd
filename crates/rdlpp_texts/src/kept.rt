// Texts in which no call drops a token.
ghost use Rattle.std.specs.Prelude.{◌≡◌};
ghost use Rattle.rdlpp_meaning.specs.Substitution.{body_tokens};
ghost use Rattle.rdlpp_texts.specs.KeptTexts.{keeps_each};

use crate::tokens::{CallRole, token_in_call};
use memchr::memchr;
use rdlpp_scan::Mode;

/// Whether a call that stands in a text keeps each token: no `//` comment stands in the text (this project's profile).
pub fn keeps_each(text: &[u8]) -> bool
    ensures { result ≡ keeps_each (body_tokens text.now) }
{
    memchr(b'/', text).is_none() || keeps_each_token(text)
}

// The same, token by token.
fn keeps_each_token(text: &[u8]) -> bool
    ensures { result ≡ keeps_each (body_tokens text.now) }
{
    let mut at = 0;
    let mut mode = Mode::Plain;
    while at < text.len() {
        let token = token_in_call(mode, &text[at..]);
        if let CallRole::LineComment = token.role {
            return false;
        }
        at += token.len;
        mode = token.next_mode;
    }
    true
}
