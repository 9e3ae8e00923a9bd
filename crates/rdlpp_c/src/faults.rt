// The text of each kind of fault, and the kind of each number.
ghost use Rattle.std.specs.Prelude.{◌≡◌};
ghost use Rattle.rdlpp_c.specs.Faults.{fault_text, kind_text};

use rdlpp::FaultKind;

// The kinds of faults, by their numbers from 1.
pub(crate) const KINDS: [FaultKind; 35] = [
    FaultKind::EmbeddedPerl,
    FaultKind::OpenString,
    FaultKind::OpenComment,
    FaultKind::LineTooLong,
    FaultKind::SourceTooLong,
    FaultKind::BareBackquote,
    FaultKind::UndefinedMacro,
    FaultKind::RecursiveMacro,
    FaultKind::DirectiveInText,
    FaultKind::ArgumentsMissing,
    FaultKind::ArgumentsOpen,
    FaultKind::ArgumentBytes,
    FaultKind::ArgumentCount,
    FaultKind::DepthPassed,
    FaultKind::NameExpected,
    FaultKind::ReservedName,
    FaultKind::NameTooLong,
    FaultKind::BadFormals,
    FaultKind::FormalTwice,
    FaultKind::TooManyFormals,
    FaultKind::DefinitionBytes,
    FaultKind::TooManyDefinitions,
    FaultKind::StrayBranch,
    FaultKind::BranchAfterElse,
    FaultKind::OpenConditional,
    FaultKind::TooManyConditionals,
    FaultKind::IncludeName,
    FaultKind::SourceNotFound,
    FaultKind::TooManyIncludes,
    FaultKind::BadLine,
    FaultKind::PathTooLong,
    FaultKind::ReadFailed,
    FaultKind::WriteFailed,
    FaultKind::SourceMemory,
    FaultKind::OutputBytes,
];

// The text of a kind of fault: what its `Display` writes.
pub(crate) fn kind_text(kind: FaultKind) -> &'static [u8]
    ensures { result.now ≡ kind_text kind }
{
    match kind {
        FaultKind::EmbeddedPerl => b"embedded Perl",
        FaultKind::OpenString => b"string not closed",
        FaultKind::OpenComment => b"comment not closed",
        FaultKind::LineTooLong => b"line too long",
        FaultKind::SourceTooLong => b"source too long",
        FaultKind::BareBackquote => b"backquote without a name",
        FaultKind::UndefinedMacro => b"undefined macro",
        FaultKind::RecursiveMacro => b"recursive macro",
        FaultKind::DirectiveInText => b"directive in macro text",
        FaultKind::ArgumentsMissing => b"arguments missing",
        FaultKind::ArgumentsOpen => b"arguments not closed",
        FaultKind::ArgumentBytes => b"argument bytes passed",
        FaultKind::ArgumentCount => b"wrong number of arguments",
        FaultKind::DepthPassed => b"depth passed",
        FaultKind::NameExpected => b"name expected",
        FaultKind::ReservedName => b"reserved name",
        FaultKind::NameTooLong => b"name too long",
        FaultKind::BadFormals => b"bad formal list",
        FaultKind::FormalTwice => b"formal given twice",
        FaultKind::TooManyFormals => b"too many formals",
        FaultKind::DefinitionBytes => b"definition bytes passed",
        FaultKind::TooManyDefinitions => b"too many definitions",
        FaultKind::StrayBranch => b"branch or endif without conditional",
        FaultKind::BranchAfterElse => b"branch after else",
        FaultKind::OpenConditional => b"conditional not closed",
        FaultKind::TooManyConditionals => b"too many open conditionals",
        FaultKind::IncludeName => b"include name expected",
        FaultKind::SourceNotFound => b"source not found",
        FaultKind::TooManyIncludes => b"too many open includes",
        FaultKind::BadLine => b"bad line directive",
        FaultKind::PathTooLong => b"path too long",
        FaultKind::ReadFailed => b"read failed",
        FaultKind::WriteFailed => b"write failed",
        FaultKind::SourceMemory => b"no memory for a source",
        FaultKind::OutputBytes => b"output bytes passed",
    }
}

// The text that is told of a number; empty where no kind of fault has it.
pub(crate) fn text_of(number: u32) -> &'static [u8]
    ensures { result.now ≡ fault_text number }
{
    let place = number as usize;
    if place == 0 || place > KINDS.len() {
        return b"";
    }
    kind_text(KINDS[place - 1])
}
