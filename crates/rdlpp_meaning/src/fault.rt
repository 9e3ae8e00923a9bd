// The faults that end the output, and their numbers and texts.

ghost use Rattle.std.specs.Prelude.{◌≡◌};
ghost use Rattle.rdlpp_meaning.specs.FaultNumbers.{fault_number};

use arrayvec::ArrayString;
use thiserror::Error;

/// A kind of fault (this project's profile).
#[derive(Clone, Copy, Debug, PartialEq, Eq, Error)]
pub enum FaultKind {
    /// F1: `<%` outside comments (SystemRDL 2.0, preprocessor clause).
    #[error("embedded Perl")]
    EmbeddedPerl,
    /// F2: a string that the text doesn't close.
    #[error("string not closed")]
    OpenString,
    /// F3: a block comment that the text doesn't close.
    #[error("comment not closed")]
    OpenComment,
    /// F4: a physical line, or the logical line of a `define`, that passes the limit on lines.
    #[error("line too long")]
    LineTooLong,
    /// F5: a source that passes the limit on sources.
    #[error("source too long")]
    SourceTooLong,
    /// F6: a backquote with no name after it.
    #[error("backquote without a name")]
    BareBackquote,
    /// F7: a usage of a macro that isn't defined.
    #[error("undefined macro")]
    UndefinedMacro,
    /// F8: a usage of a macro that is written in its own body, or in a body that was reached from there.
    #[error("recursive macro")]
    RecursiveMacro,
    /// F9: a directive in a body, an actual or a default text.
    #[error("directive in macro text")]
    DirectiveInText,
    /// F10: a usage of a macro with a list, without arguments.
    #[error("arguments missing")]
    ArgumentsMissing,
    /// F11: arguments that their text doesn't close.
    #[error("arguments not closed")]
    ArgumentsOpen,
    /// F12: arguments that pass the limit on their bytes.
    #[error("argument bytes passed")]
    ArgumentBytes,
    /// F13: more or fewer actuals than formals.
    #[error("wrong number of arguments")]
    ArgumentCount,
    /// F14: more bodies, actuals and default texts open than the limit on depth allows.
    #[error("depth passed")]
    DepthPassed,
    /// F15: a directive without the name that it needs.
    #[error("name expected")]
    NameExpected,
    /// F16: the name of a directive, where a macro's name is needed.
    #[error("reserved name")]
    ReservedName,
    /// F17: a name of more than 128 bytes.
    #[error("name too long")]
    NameTooLong,
    /// F18: a list of formals that isn't one.
    #[error("bad formal list")]
    BadFormals,
    /// F19: a formal that the list gave before.
    #[error("formal given twice")]
    FormalTwice,
    /// F20: more formals than a macro may have.
    #[error("too many formals")]
    TooManyFormals,
    /// F21: definitions that pass the limit on their bytes.
    #[error("definition bytes passed")]
    DefinitionBytes,
    /// F22: more definitions than their limit allows.
    #[error("too many definitions")]
    TooManyDefinitions,
    /// F23: a branch or an `endif` where no conditional is open.
    #[error("branch or endif without conditional")]
    StrayBranch,
    /// F24: a branch after the `else` of its conditional.
    #[error("branch after else")]
    BranchAfterElse,
    /// F25: a conditional that its file doesn't close.
    #[error("conditional not closed")]
    OpenConditional,
    /// F26: more open conditionals than their limit allows.
    #[error("too many open conditionals")]
    TooManyConditionals,
    /// F27: an `include` without the name of a source.
    #[error("include name expected")]
    IncludeName,
    /// F28: a source that no search finds.
    #[error("source not found")]
    SourceNotFound,
    /// F29: more open included sources than their limit allows.
    #[error("too many open includes")]
    TooManyIncludes,
    /// F30: a `line` directive that isn't one.
    #[error("bad line directive")]
    BadLine,
    /// F31: a path of more than 1,024 bytes.
    #[error("path too long")]
    PathTooLong,
    /// F32: a source that couldn't be opened or read.
    #[error("read failed")]
    ReadFailed,
    /// F33: a write or a flush that failed, or a write that took nothing.
    #[error("write failed")]
    WriteFailed,
    /// F34: no memory for a source.
    #[error("no memory for a source")]
    SourceMemory,
    /// F35: output that passes the limit on its bytes.
    #[error("output bytes passed")]
    OutputBytes,
}

impl FaultKind {
    /// The number by which a fault is told: 1 to 35 (this project's profile).
    pub fn number(&self) -> u32
        ensures { result ≡ fault_number self.now }
    {
        match self {
            FaultKind::EmbeddedPerl => 1,
            FaultKind::OpenString => 2,
            FaultKind::OpenComment => 3,
            FaultKind::LineTooLong => 4,
            FaultKind::SourceTooLong => 5,
            FaultKind::BareBackquote => 6,
            FaultKind::UndefinedMacro => 7,
            FaultKind::RecursiveMacro => 8,
            FaultKind::DirectiveInText => 9,
            FaultKind::ArgumentsMissing => 10,
            FaultKind::ArgumentsOpen => 11,
            FaultKind::ArgumentBytes => 12,
            FaultKind::ArgumentCount => 13,
            FaultKind::DepthPassed => 14,
            FaultKind::NameExpected => 15,
            FaultKind::ReservedName => 16,
            FaultKind::NameTooLong => 17,
            FaultKind::BadFormals => 18,
            FaultKind::FormalTwice => 19,
            FaultKind::TooManyFormals => 20,
            FaultKind::DefinitionBytes => 21,
            FaultKind::TooManyDefinitions => 22,
            FaultKind::StrayBranch => 23,
            FaultKind::BranchAfterElse => 24,
            FaultKind::OpenConditional => 25,
            FaultKind::TooManyConditionals => 26,
            FaultKind::IncludeName => 27,
            FaultKind::SourceNotFound => 28,
            FaultKind::TooManyIncludes => 29,
            FaultKind::BadLine => 30,
            FaultKind::PathTooLong => 31,
            FaultKind::ReadFailed => 32,
            FaultKind::WriteFailed => 33,
            FaultKind::SourceMemory => 34,
            FaultKind::OutputBytes => 35,
        }
    }
}

/// Where and why the output ends before its text does.
#[derive(Clone, Copy, Debug)]
pub struct Fault {
    /// Why.
    pub kind: FaultKind,
    /// The shown name of the source, cut to its first 1,024 bytes or fewer at a character's boundary.
    pub name: ArrayString<1024>,
    /// The shown line, counted from 1; 0 where no line is meant.
    pub line: u64,
    /// The first 128 bytes of the name that the fault is about; empty where it is about none.
    pub word: ArrayString<128>,
}
