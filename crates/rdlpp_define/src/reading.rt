// The macro of a `define`, and of a name and a text.
ghost use Rattle.std.specs.Prelude.{◌≡◌, length, true, IfSome, None};
ghost use Rattle.rdlpp_scan.specs.Continuations.{as_read};
ghost use Rattle.rdlpp_scan.specs.SourceTokens.{logical_len};
ghost use Rattle.rdlpp_define.specs.Define.{drafted, macro_of, macro_set, name_fault, with_list};

use crate::fault::{DefineFault, DefineKind};
use crate::formals::read_list;
use crate::header::{after_space, leading_name, list_after, unended};
use crate::name::check_name;
use crate::new_macro::{NewMacro, with_body};
use rdlpp_scan::is_name;

/// Reads the macro of a `define` (IEEE 1364-2001, `define`); `rest` is what follows that word, up to the end of its logical line or
/// of the text.
///
/// `\` LF and `\` CR LF are read as LF. A formal list is read where `(` follows the name at once. The body loses its `//` comments,
/// and then the blanks at both ends.
///
/// # Errors
/// The first fault of the definition: of its name (`NameExpected`, `ReservedName` with that name, `NameTooLong` past 128 bytes); of
/// its formals from left to right (`BadFormals`, `NameTooLong`, `FormalTwice`, `TooManyFormals` past 255, which are this project's
/// bounds, and `BadFormals` for a default text with `<%` outside comments, or without an end); of its body (`EmbeddedPerl`,
/// `OpenString`, `OpenComment`).
pub fn read_define(rest: &[u8]) -> Result<NewMacro<'_>, DefineFault>
    requires line { IfSome (logical_len 0 0 rest.now) (λ n. n ≡ length rest.now) }
    ensures { drafted result ≡ macro_of rest.now }
{
    let text = after_space(unended(rest));
    let name = leading_name(text);
    match check_name(name) {
        Ok(()) => read_after(name, &text[name.len()..]),
        Err(fault) => Err(fault),
    }
}

/// Reads a macro without a formal list. `text` is its body, in which a continuation isn't read; its `//` comments and the blanks at
/// both ends go (this project's profile).
///
/// # Errors
/// The first fault: of the name, which has to be one name as a whole (`NameExpected`, `ReservedName` with that name, `NameTooLong`
/// past 128 bytes), or of the body (`EmbeddedPerl`, `OpenString`, `OpenComment`).
pub fn read_named<'a>(name: &'a [u8], text: &'a [u8]) -> Result<NewMacro<'a>, DefineFault>
    ensures { drafted result ≡ macro_set name.now text.now }
{
    if !is_name(name) {
        return Err(DefineFault::without_word(DefineKind::NameExpected));
    }
    match check_name(name) {
        Ok(()) => with_body(name, None, &[], 0, false, text),
        Err(fault) => Err(fault),
    }
}

// The macro of a name with what stands after the name in a logical line.
fn read_after<'a>(name: &'a [u8], after: &'a [u8]) -> Result<NewMacro<'a>, DefineFault>
    requires named { name_fault name.now ≡ None }
    ensures { drafted result ≡ with_list name.now (as_read true after.now) }
{
    let Some(text) = list_after(after) else {
        return with_body(name, None, &[], 0, true, after);
    };
    match read_list(text) {
        Ok(read) => with_body(
            name,
            Some(read.count),
            text,
            read.size,
            true,
            read.following,
        ),
        Err(kind) => Err(DefineFault::without_word(kind)),
    }
}
