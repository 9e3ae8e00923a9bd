// The calls that a program in C makes.
ghost use Rattle.std.specs.Prelude.{◌≡◌, ℕ, List, [], codes};
ghost use Rattle.rdlpp_c.specs.Faults.{TellsFault};
ghost use Rattle.rdlpp_c.specs.Request.{requested};
ghost use Rattle.rdlpp_c.specs.Telling.{Answers, TellsText};

use crate::arrays::{Limits, Request};
use crate::asking::answer_of;
use crate::faults::text_of;
use crate::telling::{Outcome, outcome_of, tell_fault, tell_text};
use std::alloc::Global;

/// Preprocesses the main text of a request over sources in memory (this project's profile). Whether it
/// `asks` and whether it reads `pieces` is of no account here.
///
/// The front of the output is written to `out`, as much as there is room for, and its whole length is
/// told; so it is with the shown name and the word of the fault that ended it. The bytes after them
/// stay as they are. Where a limit is out of its range, bytes aren't UTF-8 or memory was refused,
/// nothing is written. The limits are looked at first, and then what has to be UTF-8: the paths, and
/// the names and bodies of definitions.
#[unsafe(no_mangle)]
pub extern "C" fn rdlpp_preprocess(
    alloc: Global,
    request: &Request<'_>,
    out: &mut [u8],
    name: &mut [u8],
    word: &mut [u8],
) -> Outcome
    ensures { Answers (requested request.now)
        (record { out = out.old; name = name.old; word = word.old }) (record { out = out.new; name = name.new; word = word.new }) result }
{
    let answer = answer_of(alloc, request, out);
    tell_fault(&answer, name, word);
    outcome_of(&answer)
}

/// The standard limits (this project's profile).
#[unsafe(no_mangle)]
pub extern "C" fn rdlpp_standard_limits() -> Limits
    ensures { result ≡ record { depth = 256; includes = 16; line_bytes = 65536; source_bytes = 1073741824; argument_bytes = 65536; definition_bytes = 1048576; definitions = 4096; conditions = 256; output_bytes = 18446744073709551615 } }
{
    let standard = rdlpp::Limits::standard();
    Limits {
        depth: standard.depth,
        includes: standard.includes,
        line_bytes: standard.line_bytes,
        source_bytes: standard.source_bytes,
        argument_bytes: standard.argument_bytes,
        definition_bytes: standard.definition_bytes,
        definitions: standard.definitions,
        conditions: standard.conditions,
        output_bytes: standard.output_bytes,
    }
}

/// Writes the front of the text of the kind of fault with a number to `out`, as much as there is room
/// for, and answers the text's whole length: 0 for a number that no kind of fault has. The text is what
/// the `Display` of the kind writes.
#[unsafe(no_mangle)]
pub extern "C" fn rdlpp_fault_text(number: u32, out: &mut [u8]) -> usize
    ensures { TellsFault number out.old out.new result }
{
    tell_text(text_of(number), out)
}

/// Writes the front of the version's text to `out`, as much as there is room for, and answers the
/// text's whole length.
#[unsafe(no_mangle)]
pub extern "C" fn rdlpp_version(out: &mut [u8]) -> usize
    ensures { TellsText (codes "0.1.0") out.old out.new result }
{
    tell_text(b"0.1.0", out)
}
