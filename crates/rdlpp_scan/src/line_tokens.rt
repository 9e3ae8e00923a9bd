// The tokens of a logical line.
ghost use Rattle.std.specs.Prelude.{◌≡◌, ◌≤◌, ◌<◌, length, true};
ghost use Rattle.rdlpp_scan.specs.LineTokens.{line_token, IsRead};
ghost use Rattle.rdlpp_scan.specs.declared.token.Mode.TheVariants.{Plain};

use crate::continuations::continuation_len;
use crate::{Kind, Mode, Token, first_token};

/// The first token of a text, of a logical line or as it stands.
///
/// In plain text of a logical line a continuation is a line end (IEEE 1364-2001, `define`); else it
/// is the first token of the bytes as they lie. It is the first token of the text in which LF stands
/// in the place of each continuation, in kind, mode, bytes and what follows; only a `//` comment
/// keeps the `\` or the `\` and CR that stand before its line's end (`is_read`).
///
/// Costs time linear in the token's length.
#[tactic(auto, unfolding(crate::specs::LineTokens::line_token))]
pub fn line_token(mode: Mode, text: &[u8], is_logical: bool) -> Token
    requires { 0 < length text.now }
    ensures value { result ≡ line_token is_logical mode text.now }
    ensures is_read { IsRead is_logical mode text.now result }
    ensures not_empty { 0 < result.len }
    ensures inside { result.len ≤ length text.now }
{
    match (is_logical, mode) {
        (true, Mode::Plain) => plain_line_token(text),
        _ => first_token(mode, text),
    }
}

// The first token of plain text of a logical line.
#[tactic(auto, unfolding(crate::specs::LineTokens::line_token))]
fn plain_line_token(text: &[u8]) -> Token
    requires { 0 < length text.now }
    ensures value { result ≡ line_token true Plain text.now }
    ensures not_empty { 0 < result.len }
    ensures inside { result.len ≤ length text.now }
{
    let len = continuation_len(text);
    if len == 0 {
        first_token(Mode::Plain, text)
    } else {
        Token {
            kind: Kind::LineEnd,
            len: len + 1,
            next_mode: Mode::Plain,
        }
    }
}
