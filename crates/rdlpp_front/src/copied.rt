// Text at the front of held bytes that is copied, in one pass over its bytes.
ghost use Rattle.std.specs.Prelude.{◌≡◌, ◌≢◌, ◌<◌, ℕ, IfNone, IfSome, true, length, slice_index, take};
ghost use Rattle.rdlpp_scan.specs.SourceTokens.{line_ends};
ghost use Rattle.rdlpp_scan.specs.Tokens.{stops_plain_text};
ghost use Rattle.rdlpp_scan.specs.declared.token.Mode.TheVariants.{Plain};
ghost use Rattle.rdlpp_front.specs.SourceItems.{IsText};

use rdlpp_scan::{Kind, Mode, first_token, line_ends_in, plain_text, stops_plain_text};

/// Text at the front of held bytes that is copied.
#[derive(Clone, Copy)]
pub struct Copied {
    /// How many bytes; at least one.
    pub len: usize,
    /// How many of them are LF.
    pub lines: usize,
    /// The mode after them.
    pub next: Mode,
}

/// The text that is copied with which held bytes begin: ordinary text, or a string or a comment, or
/// the part of one that is held; `None` where none stands there, but a backquote or `<%`.
///
/// It answers what `next_item` answers as `SourceItem::Text`, with the count of the line ends in it, in one
/// pass over ordinary text. There must be such bytes.
///
/// Costs time linear in the bytes of the answer.
///
/// # Rules
///
/// IEEE 1364-2001, compiler directives and macros; that `<%` ends ordinary text is this project's
/// profile.
pub fn copied_text(mode: Mode, held: &[u8]) -> Option<Copied>
    requires { 0 < length held.now }
    ensures text { IfSome result (λ copied. IsText mode held.now copied.len copied.next) }
    ensures lines { IfSome result (λ copied. copied.lines ≡ line_ends (take copied.len held.now)) }
    ensures none { IfNone result ((len : ℕ) → (next : Mode) → IsText mode held.now len next → ⊥) }
{
    if let Mode::Plain = mode {
        if held[0] == b'`' {
            return None;
        }
        if !stops_plain_text(held) {
            let text = plain_text(held);
            return Some(Copied {
                len: text.len,
                lines: text.lines,
                next: Mode::Plain,
            });
        }
    }
    token_copied(mode, held)
}

// The text that is copied with which held bytes begin that begin with a string, a comment or `<%`.
fn token_copied(mode: Mode, held: &[u8]) -> Option<Copied>
    requires some { 0 < length held.now }
    requires stops { mode ≡ Plain → (stops_plain_text held.now ≡ true) × (slice_index held.now 0 ≢ 96) }
    ensures text { IfSome result (λ copied. IsText mode held.now copied.len copied.next) }
    ensures lines { IfSome result (λ copied. copied.lines ≡ line_ends (take copied.len held.now)) }
    ensures none { IfNone result ((len : ℕ) → (next : Mode) → IsText mode held.now len next → ⊥) }
{
    let token = first_token(mode, held);
    let lines = match token.kind {
        Kind::Perl => return None,
        // It ends in front of its line's end.
        Kind::LineComment => 0,
        _ => line_ends_in(&held[..token.len]),
    };
    Some(Copied {
        len: token.len,
        lines,
        next: token.next_mode,
    })
}
