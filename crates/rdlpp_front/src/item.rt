// What the held bytes of a source begin with.
ghost use Rattle.std.specs.Prelude.{◌≡◌, ◌≢◌, ◌<◌, ◌≤◌, length, slice_index, true};
ghost use Rattle.rdlpp_scan.specs.Tokens.{stops_plain_text, token_of};
ghost use Rattle.rdlpp_scan.specs.declared.token.Mode.TheVariants.{Plain};
ghost use Rattle.rdlpp_front.specs.SourceItems.{IsDirective, IsSourceItem};

use crate::arguments::{Argument, name_after, string_after};
use rdlpp_meaning::FaultKind;
use rdlpp_scan::{
    Directive, Kind, Mode, byte_at, first_token, is_letter, plain_text_len, reserved, word_bytes,
};

/// What the held bytes of a source begin with.
#[derive(Clone, Copy)]
pub enum SourceItem {
    /// So many bytes that are copied, and the mode after them: ordinary text, or a string or a
    /// comment, or the part of one that is held.
    Text(usize, Mode),
    /// A backquote and a name that isn't reserved, of so many bytes together.
    Usage(usize),
    /// A `define`, whose logical line may not all be held yet.
    Define,
    /// An `undef`, and the name that it is given, where one stands after it on its line.
    Undef(Option<Argument>),
    /// An `ifdef`, and the name that it is given, where one stands after it on its line.
    Ifdef(Option<Argument>),
    /// An `ifndef`, and its name likewise.
    Ifndef(Option<Argument>),
    /// An `elsif`, and its name likewise.
    Elsif(Option<Argument>),
    /// An `else`.
    Else,
    /// An `endif`.
    Endif,
    /// An `include`, and the string that it is given, with its quotes, where one stands after it that
    /// closes on its line.
    Include(Option<Argument>),
    /// A `line`.
    Line,
    /// What ends the output.
    Refused(FaultKind),
}

/// What held bytes begin with that stand in a mode: `held` is what is held of a source and not used.
///
/// There must be such bytes, and they end at a line end or where the text ends.
///
/// Costs time linear in the bytes of the answer and of what a directive is given.
///
/// # Rules
///
/// IEEE 1364-2001, compiler directives and macros; that `<%` and a backquote without a name end the
/// output is this project's profile.
pub fn next_item(mode: Mode, held: &[u8]) -> SourceItem
    requires { 0 < length held.now }
    ensures { IsSourceItem mode held.now result }
{
    if let Mode::Plain = mode {
        if held[0] == b'`' {
            return backquote_item(held);
        }
        let len = plain_text_len(held);
        if len > 0 {
            return SourceItem::Text(len, Mode::Plain);
        }
    }
    token_item(mode, held)
}

// What held bytes begin with that begin with a string, a comment or `<%`.
fn token_item(mode: Mode, held: &[u8]) -> SourceItem
    requires some { 0 < length held.now }
    requires stops { mode ≡ Plain → (stops_plain_text held.now ≡ true) × (slice_index held.now 0 ≢ 96) }
    ensures { IsSourceItem mode held.now result }
{
    let token = first_token(mode, held);
    match token.kind {
        Kind::Perl => SourceItem::Refused(FaultKind::EmbeddedPerl),
        _ => SourceItem::Text(token.len, token.next_mode),
    }
}

// What held bytes begin with that begin with a backquote.
fn backquote_item(held: &[u8]) -> SourceItem
    requires some { 0 < length held.now }
    requires backquote { slice_index held.now 0 ≡ 96 }
    ensures { IsSourceItem Plain held.now result }
{
    if is_letter(byte_at(held, 1)) {
        let len = 1 + word_bytes(&held[1..]);
        match reserved(&held[1..len]) {
            None => SourceItem::Usage(len),
            Some(directive) => directive_item(held, len, directive),
        }
    } else {
        SourceItem::Refused(FaultKind::BareBackquote)
    }
}

// What held bytes begin with that begin with the word of a directive, of so many bytes.
fn directive_item(held: &[u8], len: usize, directive: Directive) -> SourceItem
    requires some { 0 < length held.now }
    requires inside { len ≤ length held.now }
    requires word { IsDirective directive held.now }
    requires whole { len ≡ (token_of Plain held.now).len }
    ensures { IsSourceItem Plain held.now result }
{
    match directive {
        Directive::Define => SourceItem::Define,
        Directive::Undef => SourceItem::Undef(name_after(held, len)),
        Directive::Ifdef => SourceItem::Ifdef(name_after(held, len)),
        Directive::Ifndef => SourceItem::Ifndef(name_after(held, len)),
        Directive::Elsif => SourceItem::Elsif(name_after(held, len)),
        Directive::Else => SourceItem::Else,
        Directive::Endif => SourceItem::Endif,
        Directive::Include => SourceItem::Include(string_after(held, len)),
        Directive::Line => SourceItem::Line,
    }
}
