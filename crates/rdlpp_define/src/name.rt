// The names of macros.
ghost use Rattle.std.specs.Prelude.{length, MatchResult, None, OnOk, Some, take, ◌≡◌, ◌≤◌};
ghost use Rattle.rdlpp_scan.specs.Names.{IsWordBytes};
ghost use Rattle.rdlpp_define.specs.Define.{name_fault, refused_word};

use crate::fault::{DefineFault, DefineKind};
use arrayvec::ArrayString;
use rdlpp_scan::reserved;

// The most bytes of a name (this project's profile).
pub(crate) const MOST_NAME_BYTES: usize = 128;

/// The first 128 bytes of a name, which are letters, digits or `_`.
pub fn word_of(name: &[u8]) -> ArrayString<128>
    requires { IsWordBytes name.now }
    ensures { result.bytes ≡ take 128 name.now }
{
    let mut word = ArrayString::new();
    if let Ok(text) = str::from_utf8(&name[..name.len().min(MOST_NAME_BYTES)]) {
        word.push_str(text);
    }
    word
}

// Whether a name may be that of a macro: it isn't empty, isn't that of a directive, and has at most 128 bytes.
pub(crate) fn check_name(name: &[u8]) -> Result<(), DefineFault>
    ensures value { MatchResult result (λ _. name_fault name.now ≡ None) (λ fault. (name_fault name.now ≡ Some fault.kind) × (fault.word.bytes ≡ refused_word fault.kind name.now)) }
    ensures short { OnOk result (length name.now ≤ 128) }
{
    if name.is_empty() {
        return Err(DefineFault::without_word(DefineKind::NameExpected));
    }
    if reserved(name).is_some() {
        return Err(DefineFault {
            kind: DefineKind::ReservedName,
            word: word_of(name),
        });
    }
    if name.len() > MOST_NAME_BYTES {
        return Err(DefineFault::without_word(DefineKind::NameTooLong));
    }
    Ok(())
}
