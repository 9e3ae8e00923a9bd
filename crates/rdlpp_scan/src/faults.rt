// What is wrong with a whole text, as tokens.
ghost use Rattle.std.specs.Prelude.{length, ◌≡◌, ◌≤◌};
ghost use Rattle.std.specs.List.{prefix_len};
ghost use Rattle.rdlpp_scan.specs.LexFaults.{plain_argument_len, is_plain_argument, is_perl, lex_fault_from, open_fault};
ghost use Rattle.rdlpp_scan.specs.declared.token.Mode.TheVariants.{Plain};

use crate::scan::first_token;
use crate::token::{Kind, LexFault, Mode};
use memchr::memchr3;

/// The first fault of a whole text, as tokens: `Perl` where `<%` stands outside comments,
/// `OpenString` and `OpenComment` where the text ends in a string or in a block comment.
///
/// Costs time linear in the length.
pub fn lex_fault(bytes: &[u8]) -> Option<LexFault>
    ensures { result ≡ lex_fault_from Plain bytes.now }
{
    // Whatever tokens plain argument bytes are, none of them has a fault: one search finds where the next string, comment or `<%`
    // may begin.
    let mut mode = Mode::Plain;
    let mut at = plain_argument_bytes(bytes);
    while at < bytes.len() {
        let token = first_token(mode, &bytes[at..]);
        if is_perl(token.kind) {
            return Some(LexFault::Perl);
        }
        mode = token.next_mode;
        at += token.len;
        at += plain_argument_len(mode, &bytes[at..]);
    }
    open_fault(mode)
}

// How many plain argument bytes stand at the front of a text from a mode on.
#[tactic(auto, unfolding(crate::specs::LexFaults::plain_argument_len))]
fn plain_argument_len(mode: Mode, bytes: &[u8]) -> usize
    ensures value { result ≡ plain_argument_len mode bytes.now }
    ensures inside { result ≤ length bytes.now }
{
    match mode {
        Mode::Plain => plain_argument_bytes(bytes),
        _ => 0,
    }
}

/// How many plain argument bytes a text begins with: none of them begins a string, a comment or `<%`, since it is no `"`, no `/`
/// and no `<`.
///
/// Costs time linear in the result.
pub fn plain_argument_bytes(bytes: &[u8]) -> usize
    ensures value { result ≡ prefix_len is_plain_argument bytes.now }
    ensures inside { result ≤ length bytes.now }
{
    memchr3(b'"', b'/', b'<', bytes).unwrap_or(bytes.len())
}

/// Whether a token is `<%`, which begins embedded Perl (SystemRDL 2.0, preprocessor clause).
#[tactic(auto, unfolding(crate::specs::LexFaults::is_perl))]
pub fn is_perl(kind: Kind) -> bool
    ensures { result ≡ is_perl kind }
{
    matches!(kind, Kind::Perl)
}

/// What is wrong with a text that ends in a mode: a string or a block comment that isn't closed.
#[tactic(auto, unfolding(crate::specs::LexFaults::open_fault))]
pub fn open_fault(mode: Mode) -> Option<LexFault>
    ensures { result ≡ open_fault mode }
{
    match mode {
        Mode::Plain => None,
        Mode::InStr => Some(LexFault::OpenString),
        Mode::InBlock => Some(LexFault::OpenComment),
    }
}
