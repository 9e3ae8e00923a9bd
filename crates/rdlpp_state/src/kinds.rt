// Kinds of faults.
ghost use Rattle.std.specs.Prelude.{◌≡◌};
ghost use Rattle.rdlpp_meaning.specs.Profile.{define_fault};

use rdlpp_define::DefineKind;
use rdlpp_meaning::FaultKind;

/// The kind of fault that a refused definition is: the one of the same name (this project's profile).
#[tactic(auto, unfolding(rdlpp_meaning::specs::Profile::define_fault))]
pub fn fault_kind(kind: DefineKind) -> FaultKind
    ensures { result ≡ define_fault kind }
{
    match kind {
        DefineKind::EmbeddedPerl => FaultKind::EmbeddedPerl,
        DefineKind::OpenString => FaultKind::OpenString,
        DefineKind::OpenComment => FaultKind::OpenComment,
        DefineKind::NameExpected => FaultKind::NameExpected,
        DefineKind::ReservedName => FaultKind::ReservedName,
        DefineKind::NameTooLong => FaultKind::NameTooLong,
        DefineKind::BadFormals => FaultKind::BadFormals,
        DefineKind::FormalTwice => FaultKind::FormalTwice,
        DefineKind::TooManyFormals => FaultKind::TooManyFormals,
        DefineKind::DefinitionBytes => FaultKind::DefinitionBytes,
        DefineKind::TooManyDefinitions => FaultKind::TooManyDefinitions,
    }
}
