// The call by which a program in C learns where a part of the output stands.
ghost use Rattle.std.specs.Prelude.{◌≡◌};
ghost use Rattle.rdlpp_c.specs.Buffers.{overwritten};
ghost use Rattle.rdlpp_c.specs.Placing.{Places, place_name, place_numbers, stream_place};

use crate::handle::{Handle, put, take};
use crate::stream::Stream;
use crate::telling::{CLOSED, MORE, Outcome, WHOLE, numbered, tell_text};
use rdlpp_expand::LineStep;
use std::alloc::Global;

/// Tells the place of the first byte that the last read wrote: the shown name, in `name`, and the line, with the
/// number 1 where each LF byte of what was read begins the next line, and 0 where all of it stands on that one.
///
/// The status is 0; 5 where there is no place: where reads don't end with their pieces, where the last one wrote
/// nothing, and after the end or a fault; and 6 where the handle is closed.
#[unsafe(no_mangle)]
pub extern "C" fn rdlpp_position(alloc: Global, handle: &mut Handle, name: &mut [u8]) -> Outcome
    ensures { Places handle.old.slot.value handle.new.slot.value name.old name.new result }
{
    let Some(stream) = take(alloc, handle) else {
        return numbered(CLOSED, 0);
    };
    let outcome = tell_place(&stream, name);
    put(handle, stream);
    outcome
}

// Tells the place of what the last read wrote.
fn tell_place(stream: &Stream, name: &mut [u8]) -> Outcome
    ensures numbers { result ≡ place_numbers (stream_place stream.now) }
    ensures name { name.new ≡ overwritten (place_name (stream_place stream.now)) name.old }
{
    let Some(place) = stream.place() else {
        return numbered(MORE, 0);
    };
    let goes_on = place.step == LineStep::Next;
    Outcome {
        line: place.line,
        name_length: tell_text(place.name.as_bytes(), name),
        ..numbered(WHOLE, if goes_on { 1 } else { 0 })
    }
}
