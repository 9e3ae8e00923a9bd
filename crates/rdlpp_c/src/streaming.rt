// The calls that a program in C makes to read an output piece by piece.
ghost use Rattle.std.specs.Prelude.{◌≡◌, IfSome, None};
ghost use Rattle.rdlpp_c.specs.Request.{requested};
ghost use Rattle.rdlpp_c.specs.Reopening.{IsUnread, TellsOpening};
ghost use Rattle.rdlpp_c.specs.Streaming.{Opens, Reads, ReadsQuietly, boxed_answer};

use crate::arrays::Request;
use crate::asking::Answer;
use crate::handle::{Handle, put, take};
use crate::opening::{open_stream, reopen_stream};
use crate::stream::{Stream, read_stream};
use crate::telling::{CLOSED, Outcome, WHOLE, numbered, outcome_of, tell_fault};
use std::alloc::Global;

/// Opens the main text of a request over sources in memory, which are copied, for reads by a handle (this
/// project's profile).
///
/// What the handle owned before is closed. Where the output isn't opened the handle is closed then, and
/// the answer is that of `rdlpp_preprocess`: a limit out of its range, bytes that aren't UTF-8, want of
/// memory, or the fault of a definition. A fault of the opening is answered by the first read, and so is
/// a main text that is asked for.
#[unsafe(no_mangle)]
pub extern "C" fn rdlpp_open(
    alloc: Global,
    request: &Request<'_>,
    name: &mut [u8],
    word: &mut [u8],
    handle: &mut Handle,
) -> Outcome
    ensures { Opens (requested request.now)
        (record { name = name.old; word = word.old }) (record { name = name.new; word = word.new }) handle.new.slot.value result }
{
    let _before = take(alloc, handle);
    let opened = open_stream(alloc, request);
    tell_opening(opened, name, word, handle)
}

/// Opens the main text of a request as `rdlpp_open` does, with the same answers, but in the engine of an open handle where the
/// limits are those by which it was opened (this project's profile).
///
/// No memory is asked for then but for what is copied of the request. Nothing of the output before is seen, wherever it ended:
/// no macro, no fault, no line of a map, no text that was given, and no path that was asked for. A closed handle, and one of
/// other limits, is opened as by `rdlpp_open`. Where the output isn't opened the handle is closed, and all that it owned is
/// given back.
#[unsafe(no_mangle)]
pub extern "C" fn rdlpp_reopen(
    alloc: Global,
    request: &Request<'_>,
    name: &mut [u8],
    word: &mut [u8],
    handle: &mut Handle,
) -> Outcome
    ensures opens { Opens (requested request.now)
        (record { name = name.old; word = word.old }) (record { name = name.new; word = word.new }) handle.new.slot.value result }
    ensures unread { IfSome handle.new.slot.value IsUnread }
{
    let before = take(alloc, handle);
    let opened = reopen_stream(alloc, request, before);
    tell_opening(opened, name, word, handle)
}

// Puts what was opened into a closed handle, or tells why nothing was.
fn tell_opening(
    opened: Result<Box<Stream>, Answer>,
    name: &mut [u8],
    word: &mut [u8],
    handle: &mut Handle,
) -> Outcome
    requires { handle.old.slot.value ≡ None }
    ensures { TellsOpening (boxed_answer opened)
        (record { name = name.old; word = word.old }) (record { name = name.new; word = word.new }) handle.new.slot.value result }
{
    match opened {
        Ok(stream) => {
            put(handle, stream);
            numbered(WHOLE, 0)
        }
        Err(answer) => {
            tell_fault(&answer, name, word);
            outcome_of(&answer)
        }
    }
}

/// Writes the next bytes of an output to `out`, until it is full or the output ends.
///
/// The shown name and the word of the fault that ended it are told as by `rdlpp_preprocess`. After the
/// end, and after a fault, each later read answers the same again with no bytes; but an empty `out` is
/// always full. It asks for no memory. Of an output that doesn't ask for its sources no read ends by status
/// 7, and none meets the fault of a device.
#[unsafe(no_mangle)]
pub extern "C" fn rdlpp_read(
    alloc: Global,
    handle: &mut Handle,
    out: &mut [u8],
    name: &mut [u8],
    word: &mut [u8],
) -> Outcome
    ensures reads { Reads (record { out = out.old; name = name.old; word = word.old }) (record { out = out.new; name = name.new; word = word.new }) handle.old.slot.value handle.new.slot.value result }
    ensures quiet { ReadsQuietly handle.old.slot.value handle.new.slot.value result }
{
    let Some(mut stream) = take(alloc, handle) else {
        return numbered(CLOSED, 0);
    };
    let outcome = read_stream(&mut stream, out, name, word);
    put(handle, stream);
    outcome
}

/// Closes a handle: all that it owns is given back. A closed one stays closed.
#[unsafe(no_mangle)]
pub extern "C" fn rdlpp_close(alloc: Global, handle: &mut Handle)
    ensures { handle.new.slot.value ≡ None }
{
    let _closed = take(alloc, handle);
}
