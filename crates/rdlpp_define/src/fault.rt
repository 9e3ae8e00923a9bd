// Why a definition is refused.
ghost use Rattle.std.specs.Prelude.{◌≡◌, []};
ghost use Rattle.rdlpp_define.specs.Define.{lexical};

use arrayvec::ArrayString;
use rdlpp_scan::LexFault;

/// Why a definition is refused; each kind with its number among all faults.
#[derive(Clone, Copy, Debug, PartialEq, Eq)]
pub enum DefineKind {
    /// F1: `<%` outside comments, in the body.
    EmbeddedPerl,
    /// F2: a string of the body isn't closed.
    OpenString,
    /// F3: a block comment of the body isn't closed.
    OpenComment,
    /// F15: no name stands where one is asked for.
    NameExpected,
    /// F16: the name is that of a directive.
    ReservedName,
    /// F17: a name has more than 128 bytes.
    NameTooLong,
    /// F18: the formal list isn't one, or a default text in it is broken.
    BadFormals,
    /// F19: a formal is given twice.
    FormalTwice,
    /// F20: there are more than 255 formals.
    TooManyFormals,
    /// F21: the live definitions would have too many bytes. A table says so, not the reading of a definition.
    DefinitionBytes,
    /// F22: there would be too many live definitions. A table says so, not the reading of a definition.
    TooManyDefinitions,
}

/// A definition that is refused: why, and for a reserved name that name, else no word.
#[derive(Clone, Debug, Drop)]
pub struct DefineFault {
    /// Why.
    pub kind: DefineKind,
    /// The reserved name, or nothing.
    pub word: ArrayString<128>,
}

impl DefineFault {
    /// The reason alone, without a word.
    pub fn without_word(kind: DefineKind) -> DefineFault
        ensures kind { result.kind ≡ kind }
        ensures word { result.word.bytes ≡ [] }
    {
        DefineFault {
            kind,
            word: ArrayString::new(),
        }
    }
}

// A fault of a body's tokens, as a reason to refuse the definition.
#[tactic(auto, unfolding(crate::specs::Define::lexical))]
pub(crate) fn lexical(fault: LexFault) -> DefineKind
    ensures { result ≡ lexical fault }
{
    match fault {
        LexFault::Perl => DefineKind::EmbeddedPerl,
        LexFault::OpenString => DefineKind::OpenString,
        LexFault::OpenComment => DefineKind::OpenComment,
    }
}
