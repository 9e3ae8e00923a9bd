// The store of a call's kept bytes.
ghost use Rattle.std.specs.Prelude.{◌≡◌, ◌+◌, ◌-◌, ◌≤◌, ◌++◌, [], length, IfOk};
ghost use Rattle.rdlpp_usages.specs.Store.{StoreView};

use rdlpp_read::fill_room;
use std::alloc::{AllocError, Global};
use std::marker::Model;

/// The kept bytes of a call, of which there may be so many. No call but `new` takes memory.
#[derive(Drop)]
pub struct ArgumentStore {
    // of these the first `kept` are the kept bytes; there are as many as were kept at once at most
    bytes: Vec<u8>,
    kept: usize,
    // how many bytes may be kept, for which there is room
    most: usize,
}

impl Model for ArgumentStore {
    ghost use Rattle.std.specs.Prelude.{◌≡◌, ◌≤◌, take, vec_capacity, vec_len};
    ghost use Rattle.rdlpp_usages.specs.Store.{StoreView};

    ghost Value = { StoreView };

    ghost view = { λ s. record { bytes = take s.kept s.bytes.items; most = s.most } };

    ghost invariant = { λ s. (s.kept ≤ vec_len s.bytes) × (vec_len s.bytes ≤ s.most) × (vec_capacity s.bytes ≡ s.most) };
}

impl ArgumentStore {
    /// An empty store with room for `argument_bytes` bytes: one growth, whose memory isn't touched before it is used.
    ///
    /// # Errors
    ///
    /// `AllocError` where the growth was refused.
    pub fn new(alloc: Global, argument_bytes: usize) -> Result<Self, AllocError>
        ensures { IfOk result (λ store. store ≡ record { bytes = []; most = argument_bytes }) }
    {
        Ok(ArgumentStore {
            bytes: Vec::with_capacity(alloc, argument_bytes)?,
            kept: 0,
            most: argument_bytes,
        })
    }

    /// Lets go of all kept bytes.
    pub fn clear(&mut self)
        ensures { self.new ≡ record self.old { bytes = [] } }
    {
        self.kept = 0;
    }

    /// The kept bytes.
    pub fn bytes(&self) -> &[u8]
        ensures value { result.now ≡ self.now.bytes }
        ensures fits { length self.now.bytes ≤ self.now.most }
    {
        &self.bytes[..self.kept]
    }

    /// How many bytes there is memory for: as many as may be kept, however many are.
    pub fn capacity(&self) -> usize
        ensures { result ≡ self.now.most }
    {
        self.bytes.capacity()
    }

    /// How many more bytes may be kept.
    pub fn room(&self) -> usize
        ensures value { result ≡ self.now.most - length self.now.bytes }
        ensures fits { length self.now.bytes ≤ self.now.most }
        ensures counted { self.now.most ≤ usize.MAX }
    {
        self.most - self.kept
    }

    /// Keeps bytes after those that are kept, for which there is room.
    pub fn append(&mut self, more: &[u8])
        requires { length self.old.bytes + length more.now ≤ self.old.most }
        ensures { self.new ≡ record self.old { bytes = self.old.bytes ++ more.now } }
    {
        let end = self.kept + more.len();
        fill_room(&mut self.bytes, end);
        self.bytes[self.kept..end].copy_from_slice(more);
        self.kept = end;
    }
}
