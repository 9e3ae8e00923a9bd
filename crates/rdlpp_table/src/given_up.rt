// What is given up at the fronts of a table's lists: the places of macros that were taken out near the front.
ghost use Rattle.std.specs.Prelude.{length, ◌≡◌, ◌≤◌};
ghost use Rattle.rdlpp_table.specs.Store.{live};

use crate::entry::Entry;

// How many bytes and how many entries are given up, and how many offsets the entries count that aren't there any more. An entry
// counts its bytes and its offsets from the front of all that was there, so that those after stay as they are when a front is
// given up. What the index gives up at the front of the offsets is a count of its own.
#[derive(Clone, Copy, Drop)]
pub(crate) struct GivenUp {
    pub(crate) bytes: usize,
    pub(crate) entries: usize,
    pub(crate) formal_offsets: usize,
}

// Nothing is given up.
pub(crate) const NOTHING: GivenUp = GivenUp {
    bytes: 0,
    entries: 0,
    formal_offsets: 0,
};

// The entries that aren't given up.
#[inline(always)]
pub(crate) fn live<'a>(entries: &'a [Entry], front: &GivenUp) -> &'a [Entry]
    requires { front.now.entries ≤ length entries.now }
    ensures { result.now ≡ live front.now.entries entries.now }
{
    &entries[front.entries..]
}
