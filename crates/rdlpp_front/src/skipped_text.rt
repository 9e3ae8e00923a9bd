// The passing of skipped text.
ghost use Rattle.std.specs.Prelude.{◌≡◌, ◌≤◌, ◌<◌, length, take, drop, true, None, IfSome};
ghost use Rattle.rdlpp_scan.specs.SourceTokens.{line_ends};
ghost use Rattle.rdlpp_front.specs.SkippedText.{
  IsPassed,
  IsPassedOnce,
  counts_skipped,
  stops_at,
  stops_skipping,
};

use rdlpp_scan::{Directive, Kind, Mode, Token, first_token, line_ends_in, plain_text, reserved};

/// How much of skipped text was passed.
#[derive(Clone, Copy)]
pub struct SkippedText {
    /// How many bytes.
    pub len: usize,
    /// Where the text stands after them: in plain text, or as before them where there are none.
    pub mode: Mode,
    /// How many of them are LF, which are written.
    pub line_ends: usize,
}

/// Passes skipped text, which stands in `mode`, up to the next word that counts there, the next `<%`,
/// the next string or comment that stays open, or the end of `held`. The words that count are those of conditionals, and `define` and `line`, which
/// take their lines.
///
/// `held` ends at a line end or where the text ends. Costs time linear in what is passed, most of it a
/// search for a backquote, a quote or a comment.
///
/// # Rules
///
/// This project's profile.
pub fn skip_text(mode: Mode, held: &[u8]) -> SkippedText
    ensures passed { IsPassed mode held.now result.len result.mode }
    ensures inside { result.len ≤ length held.now }
    ensures stop { result.len < length held.now → stops_at result.mode (drop result.len held.now) ≡ true }
    ensures line_ends { result.line_ends ≡ line_ends (take result.len held.now) }
{
    let mut stretch = SkippedText {
        len: 0,
        mode,
        line_ends: 0,
    };
    while stretch.len < held.len() {
        let Some(step) = pass_once(stretch.mode, &held[stretch.len..]) else {
            return stretch;
        };
        stretch = SkippedText {
            len: stretch.len + step.len,
            mode: step.mode,
            line_ends: stretch.line_ends + step.line_ends,
        };
    }
    stretch
}

// Passes ordinary text as far as it goes, or one token; `None` where the first token stops it.
fn pass_once(mode: Mode, bytes: &[u8]) -> Option<SkippedText>
    requires { 0 < length bytes.now }
    ensures none { result ≡ None → stops_at mode bytes.now ≡ true }
    ensures some { IfSome result (λ step. IsPassedOnce mode bytes.now step.len step.mode) }
    ensures inside { IfSome result (λ step. (0 < step.len) × (step.len ≤ length bytes.now)) }
    ensures line_ends { IfSome result (λ step. step.line_ends ≡ line_ends (take step.len bytes.now)) }
{
    if let Mode::Plain = mode {
        let text = plain_text(bytes);
        if 0 < text.len {
            return Some(SkippedText {
                len: text.len,
                mode,
                line_ends: text.lines,
            });
        }
    }
    let token = first_token(mode, bytes);
    let word = &bytes[..token.len];
    if stops_skipping(token, word) {
        return None;
    }
    Some(SkippedText {
        len: token.len,
        mode: token.next_mode,
        line_ends: line_ends_in(word),
    })
}

// Whether a token with these bytes ends a stretch of skipped text.
#[tactic(auto, unfolding(crate::specs::SkippedText::stops_skipping, crate::specs::SkippedText::stops_closed))]
fn stops_skipping(token: Token, word: &[u8]) -> bool
    ensures { result ≡ stops_skipping token word.now }
{
    match token.next_mode {
        Mode::Plain => match token.kind {
            Kind::Perl => true,
            Kind::Back => counts_skipped(word),
            _ => false,
        },
        _ => true,
    }
}

// Whether a word counts in skipped text.
#[tactic(auto, unfolding(crate::specs::SkippedText::counts_skipped, crate::specs::SkippedText::counts, rdlpp_scan::specs::Reserved::directive_named))]
fn counts_skipped(word: &[u8]) -> bool
    ensures { result ≡ counts_skipped word.now }
{
    let Some((_backquote, name)) = word.split_first() else {
        return false;
    };
    match reserved(name) {
        None | Some(Directive::Undef | Directive::Include) => false,
        Some(_) => true,
    }
}
