// What steps cost that come to no bytes.
ghost use Rattle.std.specs.Prelude.{◌≡◌, ◌<◌, ◌≤◌};
ghost use Rattle.rdlpp_expand.specs.Texts.{further_parts};

use crate::engine::Engine;
use rdlpp_source::Sources;
use std::mem;

// What such a step costs that isn't one over open texts, and what one costs that opens a usage, beside the bytes that it takes.
const LINE_COST: usize = 256;

const USAGE_COST: usize = 16;

impl<S: Sources> Engine<S> {
    // What the step costs that was taken last and came to no bytes, where so many texts were open before it. That of a `define`, of
    // skipped text, of a call in a source and of a text that is opened rises with the bytes that they have. A `define` is then no news
    // any more.
    pub(super) fn cost(&mut self, in_texts: bool, depth: usize) -> usize
        ensures parts { further_parts in_texts < result }
        ensures same { self.new ≡ self.old }
    {
        let opened = self.opened_bytes(depth);
        if in_texts {
            opened.saturating_add(1)
        } else if self.expansion.is_empty() {
            self.defined = None;
            mem::take(&mut self.taken).saturating_add(LINE_COST)
        } else {
            self.expansion
                .arguments()
                .len()
                .saturating_add(opened)
                .saturating_add(USAGE_COST)
        }
    }

    // How many bytes the text has that the last step opened, where so many were open before it; 0 where it opened none. A call in it
    // is read once for each time that it is opened.
    pub(super) fn opened_bytes(&self, depth: usize) -> usize {
        if self.expansion.len() <= depth {
            return 0;
        }
        match self.expansion.innermost() {
            Some(place) => place.end.saturating_sub(place.from),
            None => 0,
        }
    }
}
