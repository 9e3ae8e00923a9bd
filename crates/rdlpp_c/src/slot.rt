// What a handle owns, by the pointer that C keeps.
ghost use Rattle.std.specs.Prelude.{◌≡◌, Option, Some, None, true};
ghost use Rattle.std.specs.Option.{is_some};
ghost use Rattle.std.specs.Coded.{coded_option};
ghost use Rattle.rdlpp_c.specs.declared.stream.Stream.{Stream};
ghost use Rattle.rdlpp_c.specs.contracts.stream.Stream.{the_row as stream_row};

use crate::loose::Loose;
use crate::stream::Stream;
use std::alloc::Global;
use std::marker::Model;

/// A box as a pointer without a type, or nothing. What it owns is let go where it is dropped: only an
/// empty one is.
#[repr(C)]
#[derive(Drop)]
pub struct Slot {
    at: *mut u8,
    alloc: Global,
    pub ghost value: { Option Stream } by { coded_option stream_row.coded },
}

impl Model for Slot {
    ghost use Rattle.rdlpp_c.specs.Kept.{kept};
    ghost use Rattle.rdlpp_c.specs.contracts.stream.Stream.{the_row};
    ghost use Rattle.std.specs.contracts.impls.GlobalAllocator.TheImpl.{ghosts};

    ghost also_owns = { λ s. kept (ghosts.dealloc_token s.alloc) the_row s.at s.value };
}

impl Slot {
    // Takes over what a loose box owns.
    pub(crate) fn of(loose: Loose<Stream, Global>) -> Slot
        ensures { result.value ≡ Some loose.value }
    {
        let Loose { at, alloc } = loose;
        Slot {
            at: at as *mut u8,
            alloc,
        }
    }

    // One that owns nothing.
    pub(crate) fn empty(alloc: Global) -> Slot
        ensures { result.value ≡ None }
    {
        Slot {
            at: std::ptr::null_mut(),
            alloc,
        }
    }

    // Hands on what it owns.
    pub(crate) fn into_loose(self) -> Loose<Stream, Global>
        requires { is_some self.value ≡ true }
        ensures { self.value ≡ Some result.value }
    {
        let Slot { at, alloc } = self;
        Loose {
            at: at as *mut Stream,
            alloc,
        }
    }
}
