// Names, and those of them that are reserved for directives.
ghost use Rattle.std.specs.Prelude.{◌≡◌, bytes_eq, is_some, length};
ghost use Rattle.rdlpp_scan.specs.Names.{is_name};
ghost use Rattle.rdlpp_scan.specs.Reserved.{directive_name, directive_named, directive_word, is_reserved};

use crate::bytes::{byte_at, is_letter, word_bytes};
use crate::token::Directive;

/// Whether `bytes` is one name and nothing else: a letter or `_`, then letters, `_` and digits
/// (IEEE 1364-2001, identifiers). No bytes are no name.
///
/// Costs time linear in the length.
#[tactic(auto, unfolding(crate::specs::Names::is_name))]
pub fn is_name(bytes: &[u8]) -> bool
    ensures { result ≡ is_name bytes.now }
{
    is_letter(byte_at(bytes, 0)) && word_bytes(bytes) == bytes.len()
}

impl Directive {
    /// The word of this directive: its name after a backquote (IEEE 1364-2001, clause on compiler
    /// directives).
    pub fn word(self) -> &'static [u8]
        ensures { result.now ≡ directive_word self }
    {
        match self {
            Directive::Define => b"`define",
            Directive::Undef => b"`undef",
            Directive::Ifdef => b"`ifdef",
            Directive::Ifndef => b"`ifndef",
            Directive::Elsif => b"`elsif",
            Directive::Else => b"`else",
            Directive::Endif => b"`endif",
            Directive::Include => b"`include",
            Directive::Line => b"`line",
        }
    }

    /// How many bytes its word has.
    pub fn word_len(self) -> usize
        ensures { result ≡ length (directive_word self) }
    {
        self.word().len()
    }

    // Whether this is its name.
    #[inline(always)]
    fn is_named(self, name: &[u8]) -> bool
        ensures { result ≡ bytes_eq name.now (directive_name self) }
    {
        name == &self.word()[1..]
    }
}

/// The directive of this name; `None` where the name isn't reserved (IEEE 1364-2001, clause on
/// compiler directives).
///
/// Costs time bounded by the lengths of the nine names.
#[tactic(auto, unfolding(crate::specs::Reserved::directive_named, crate::specs::Reserved::is_reserved, crate::specs::Reserved::reserved_names))]
pub fn reserved(name: &[u8]) -> Option<Directive>
    ensures value { result ≡ directive_named name.now }
    ensures reserved { is_some result ≡ is_reserved name.now }
{
    if Directive::Define.is_named(name) {
        Some(Directive::Define)
    } else if Directive::Undef.is_named(name) {
        Some(Directive::Undef)
    } else if Directive::Ifdef.is_named(name) {
        Some(Directive::Ifdef)
    } else if Directive::Ifndef.is_named(name) {
        Some(Directive::Ifndef)
    } else if Directive::Elsif.is_named(name) {
        Some(Directive::Elsif)
    } else if Directive::Else.is_named(name) {
        Some(Directive::Else)
    } else if Directive::Endif.is_named(name) {
        Some(Directive::Endif)
    } else if Directive::Include.is_named(name) {
        Some(Directive::Include)
    } else if Directive::Line.is_named(name) {
        Some(Directive::Line)
    } else {
        None
    }
}
