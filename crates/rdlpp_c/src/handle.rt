// The handle that C keeps of an open output.
ghost use Rattle.std.specs.Prelude.{◌≡◌, None, Some, true};
ghost use Rattle.std.specs.Option.{is_some, option_map};
ghost use Rattle.rdlpp_c.specs.Streaming.{boxed};

use crate::loose::Loose;
use crate::slot::Slot;
use crate::stream::Stream;
use std::alloc::Global;
use std::mem::replace;

/// An open output, or none. C makes one that is closed of zeros, and looks into none.
#[repr(C)]
pub struct Handle {
    is_open: bool,
    slot: Slot,
    ghost agrees: { is_open ≡ is_some slot.value },
}

// Takes out what a handle owns, which is closed then.
pub(crate) fn take(alloc: Global, handle: &mut Handle) -> Option<Box<Stream>>
    ensures value { option_map boxed result ≡ handle.old.slot.value }
    ensures closed { handle.new.slot.value ≡ None }
{
    if !handle.is_open {
        return None;
    }
    let slot = replace(&mut handle.slot, Slot::empty(alloc));
    handle.is_open = false;
    Some(slot.into_loose().into_box())
}

// Gives a closed handle what it then owns.
pub(crate) fn put(handle: &mut Handle, stream: Box<Stream>)
    requires { handle.old.slot.value ≡ None }
    ensures { handle.new.slot.value ≡ Some (boxed stream) }
{
    let _empty = replace(&mut handle.slot, Slot::of(Loose::of(stream)));
    handle.is_open = true;
}
