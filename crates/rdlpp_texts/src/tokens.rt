// The tokens of a text by the role that each has in a call.
ghost use Rattle.std.specs.Prelude.{◌≡◌, ◌+◌, ◌-◌, ◌<◌, ◌∷◌, ◌==◌, ◌||◌, [], length};
ghost use Rattle.rdlpp_scan.specs.Bytes.{is_closer, is_opener};
ghost use Rattle.rdlpp_scan.specs.declared.token.Mode.TheVariants.{Plain};
ghost use Rattle.rdlpp_meaning.specs.Actuals.{kind_role, level_after};
ghost use Rattle.rdlpp_texts.specs.CallParts.{ends_call, ends_part};
ghost use Rattle.rdlpp_texts.specs.CallTokens.{quick_role, role_meant, IsFirstToken};

use rdlpp_scan::{Kind, Mode, first_token};

/// What a token is in a call (this project's profile).
#[derive(Clone, Copy)]
pub enum CallRole {
    /// A run of blanks, or LF.
    Space,
    /// A `//` comment.
    LineComment,
    /// A block comment.
    BlockComment,
    /// `(`.
    Start,
    /// `[` or `{`.
    Opener,
    /// `)`.
    End,
    /// `]` or `}`.
    Closer,
    /// `,`.
    Comma,
    /// Anything else.
    Text,
}

// A token of a text: its role, how many bytes it has, and where the text stands after it.
#[derive(Clone, Copy)]
pub(crate) struct CallToken {
    pub(crate) role: CallRole,
    pub(crate) len: usize,
    pub(crate) next_mode: Mode,
}

// The first token of a text that isn't empty: a comma or a bracket, as most tokens are that are asked for, or any other by its kind. It
// is built once, from scalars: a copy of it costs more than most tokens.
#[inline(always)]
pub(crate) fn token_in_call(mode: Mode, text: &[u8]) -> CallToken
    requires { 0 < length text.now }
    ensures { IsFirstToken mode text.now result }
{
    match mode {
        Mode::Plain if is_mark(text[0]) => CallToken {
            role: quick_role(text[0]),
            len: 1,
            next_mode: Mode::Plain,
        },
        _ => other_token(mode, text),
    }
}

// The first token of a text that isn't empty, by its kind.
#[inline(always)]
fn other_token(mode: Mode, text: &[u8]) -> CallToken
    requires { 0 < length text.now }
    ensures { IsFirstToken mode text.now result }
{
    let token = first_token(mode, text);
    CallToken {
        role: role_of(token.kind, text[0]),
        len: token.len,
        next_mode: token.next_mode,
    }
}

// Whether a byte is a comma or a bracket.
#[tactic(auto, unfolding(rdlpp_scan::specs::Bytes::is_opener, rdlpp_scan::specs::Bytes::is_closer))]
fn is_mark(b: u8) -> bool
    ensures { result ≡ (b == 44 || (is_opener b || is_closer b)) }
{
    b == b',' || ((b == b'(' || b == b'[' || b == b'{') || (b == b')' || b == b']' || b == b'}'))
}

// The role of a comma or a bracket by its byte.
#[tactic(auto, unfolding(crate::specs::CallTokens::quick_role, rdlpp_scan::specs::Bytes::is_opener, rdlpp_scan::specs::Bytes::is_closer))]
fn quick_role(b: u8) -> CallRole
    ensures { result ≡ quick_role b }
{
    match b {
        b',' => CallRole::Comma,
        b'(' => CallRole::Start,
        b')' => CallRole::End,
        b'[' | b'{' => CallRole::Opener,
        b']' | b'}' => CallRole::Closer,
        _ => CallRole::Text,
    }
}

/// The role of a token of a kind with this first byte.
#[tactic(auto, unfolding(crate::specs::CallTokens::role_meant, rdlpp_meaning::specs::Actuals::kind_role))]
pub fn role_of(kind: Kind, first: u8) -> CallRole
    ensures { role_meant result ≡ kind_role kind (first ∷ []) }
{
    match kind {
        Kind::Blank | Kind::LineEnd => CallRole::Space,
        Kind::LineComment => CallRole::LineComment,
        Kind::BlockComment => CallRole::BlockComment,
        Kind::Opener => {
            if first == b'(' {
                CallRole::Start
            } else {
                CallRole::Opener
            }
        }
        Kind::Closer => {
            if first == b')' {
                CallRole::End
            } else {
                CallRole::Closer
            }
        }
        Kind::Comma => CallRole::Comma,
        _ => CallRole::Text,
    }
}

/// How many openers are open after a token, where so many are in front of it. `level` is less than
/// `usize::MAX`.
#[tactic(auto, unfolding(crate::specs::CallTokens::role_meant, rdlpp_meaning::specs::Actuals::level_after))]
pub fn level_after(role: CallRole, level: usize) -> usize
    requires { level < usize.MAX }
    ensures { result ≡ level_after (role_meant role) level }
{
    match role {
        CallRole::Start | CallRole::Opener => level + 1,
        CallRole::End | CallRole::Closer => level.saturating_sub(1),
        _ => level,
    }
}

/// Whether a token at a level of openers is the `)` of a call.
#[tactic(auto, unfolding(crate::specs::CallTokens::role_meant, crate::specs::CallParts::ends_call))]
pub fn ends_call(role: CallRole, level: usize) -> bool
    ensures { result ≡ ends_call (role_meant role) level }
{
    match role {
        CallRole::End => level == 0,
        _ => false,
    }
}

// Whether a token at a level of openers ends a part of a call.
#[tactic(auto, unfolding(crate::specs::CallTokens::role_meant, crate::specs::CallParts::ends_part))]
pub(crate) fn ends_part(role: CallRole, level: usize) -> bool
    ensures { result ≡ ends_part (role_meant role) level }
{
    match role {
        CallRole::Comma => level == 0,
        _ => false,
    }
}
