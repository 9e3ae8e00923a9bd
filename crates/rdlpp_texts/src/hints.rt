// Where the macros of names were found last.
ghost use Rattle.std.specs.Prelude.{length, min, slice_index, IfSome, ◌<◌, ◌≡◌};
ghost use Rattle.std.specs.Option.{option_map};
ghost use Rattle.rdlpp_define.specs.Table.{macro_named, macro_at, place_named, IsSound};
ghost use Rattle.rdlpp_texts.specs.LookupHints.{key_of};

use rdlpp_table::{MacroId, Table};

// How many places are kept.
const GUESSES: usize = 512;

// The largest place that is kept: the last of a table with the largest limits.
const MOST: usize = 65535;

// The place of the macro that was found last among those whose names have one key: a hint, since a later name of that key may
// be another one, and a place may have another macro by then.
#[derive(Clone, Copy)]
pub(crate) struct LookupHints {
    pub(crate) places: [u16; GUESSES],
}

// The first place for each name.
pub(crate) const NO_HINTS: LookupHints = LookupHints {
    places: [0; GUESSES],
};

impl LookupHints {
    // The macro of a name: the one at the place that is kept for it, or another one, whose place is kept from then on.
    pub(crate) fn find(&mut self, table: &Table, name: &[u8]) -> Option<MacroId>
        ensures value { result ≡ place_named table.now.macros name.now }
        ensures inside { IfSome result (λ id. id < length table.now.macros) }
        ensures named { macro_named table.now.macros name.now ≡ option_map (macro_at table.now.macros) result }
        ensures sound { IsSound table.now }
        ensures kept { IfSome result (λ id. slice_index self.new.places (key_of name.now) ≡ min id 65535) }
    {
        let key = key_of(name);
        match table.find_at(self.places[key] as usize, name) {
            Some(id) => Some(id),
            None => self.find_anew(table, key, name),
        }
    }

    // The macro of a name that has a key, whose place is kept from then on. It stands apart, so that a right hint keeps its values in
    // registers.
    #[cold]
    #[inline(never)]
    fn find_anew(&mut self, table: &Table, key: usize, name: &[u8]) -> Option<MacroId>
        requires { key < 512 }
        ensures value { result ≡ place_named table.now.macros name.now }
        ensures inside { IfSome result (λ id. id < length table.now.macros) }
        ensures named { macro_named table.now.macros name.now ≡ option_map (macro_at table.now.macros) result }
        ensures sound { IsSound table.now }
        ensures kept { IfSome result (λ id. slice_index self.new.places key ≡ min id 65535) }
    {
        let id = table.find(name)?;
        self.places[key] = id.index().min(MOST) as u16;
        Some(id)
    }
}

// The key of a name: its last two bytes and its length tell most names apart that are used near each other. Names of one length that end
// in different digits have different keys.
#[tactic(auto, unfolding(crate::specs::LookupHints::key_of))]
fn key_of(name: &[u8]) -> usize
    ensures value { result ≡ key_of name.now }
    ensures inside { result < 512 }
{
    let len = name.len();
    if len == 0 {
        return 0;
    }
    let before = name[len.saturating_sub(2)] as usize;
    (name[len - 1] as usize + len + 64 * before) % GUESSES
}
