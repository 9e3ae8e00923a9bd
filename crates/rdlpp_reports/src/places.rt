//! Where macros were defined.
ghost use Rattle.std.specs.Prelude.{◌≡◌, ◌<◌, ◌⊎◌, ℕ, List, None, Some, bytes_eq, length, if◌then◌else◌, IsOk, OnErr};
ghost use Rattle.std.specs.Option.{option_map};
ghost use Rattle.rdlpp_reports.specs.Places.{newest_name, shown_at, shown_by, shown_of, Forgets, NotesPlace};

use crate::writing::{NOTE, write_parts};
use indexmap::IndexMap;
use itoa::Buffer;
use rdlpp_meaning::{Fault, FaultKind};
use rdlpp_state::OpenSource;
use rdlpp_table::Table;
use std::alloc::{AllocError, Global};
use std::io::{self, Write};

// About so many macros that are gone are kept at most, beside as many as are there.
const MOST_GONE: usize = 64;

// Where a macro was defined: the name that its source showed, and the line of its `define`.
#[derive(Drop)]
struct ShownPlace {
    name: String,
    line: u64,
}

/// Where macros were defined, as far as that was noted.
///
/// After a definition it holds the name and the place of each macro of the table that was noted, and of as many others and 65 at
/// most.
#[derive(Drop)]
pub struct DefinitionPlaces {
    alloc: Global,
    // by the macros' names
    places: IndexMap<String, ShownPlace>,
}

impl DefinitionPlaces {
    /// None yet.
    pub fn new(alloc: Global) -> DefinitionPlaces
        ensures { (name : List ℕ) → shown_at result name ≡ None }
    {
        DefinitionPlaces {
            alloc,
            places: IndexMap::new(alloc),
        }
    }

    /// Where the macro of a name was defined last, if that was noted.
    pub fn find(&self, name: &str) -> Option<OpenSource<'_>>
        ensures { option_map shown_by result ≡ shown_at self.now name.now }
    {
        match self.places.get(name) {
            Some(place) => Some(OpenSource {
                name: place.name.as_str(),
                line: place.line,
            }),
            None => None,
        }
    }

    /// Notes where the newest macro of a table was defined. Where memory is refused for that, nothing is told of it any more.
    pub fn note(&mut self, table: &Table, place: OpenSource<'_>)
        ensures { 0 < length table.now.macros → NotesPlace self.old self.new (newest_name table.now.macros) (shown_by place.entry) }
    {
        if let Some(id) = table.newest() {
            self.note_named(table.name(id), place);
            if self.places.len() / 2 > table.len().saturating_add(MOST_GONE / 2) {
                self.drop_gone(table);
            }
        }
    }

    // Notes where the macro of a name was defined.
    fn note_named(&mut self, name: &[u8], place: OpenSource<'_>)
        ensures { NotesPlace self.old self.new name.now (shown_by place.entry) }
    {
        let Ok(name) = str::from_utf8(name) else {
            self.places = IndexMap::new(self.alloc);
            return;
        };
        if self.put(name, place).is_err() {
            let _place = self.places.swap_remove(name);
        }
    }

    // Puts the place of a name to the others.
    fn put(&mut self, name: &str, place: OpenSource<'_>) -> Result<(), AllocError>
        ensures put { IsOk result → (other : List ℕ) → shown_at self.new other ≡ (if bytes_eq name.now other then Some (shown_by place.entry) else shown_at self.old other) }
        ensures kept { OnErr result ((other : List ℕ) → shown_at self.new other ≡ shown_at self.old other) }
    {
        let shown = ShownPlace {
            name: String::from_str(self.alloc, place.name)?,
            line: place.line,
        };
        let name = String::from_str(self.alloc, name)?;
        match self.places.insert(name, shown) {
            Ok(_) => Ok(()),
            Err(_) => Err(AllocError),
        }
    }

    // Forgets the macros that a table doesn't have.
    fn drop_gone(&mut self, table: &Table)
        ensures { Forgets self.old self.new }
    {
        let mut at = self.places.len();
        while at > 0 {
            at -= 1;
            self.drop_unless_there(table, at);
        }
    }

    // Forgets the macro at a place, unless a table has it.
    fn drop_unless_there(&mut self, table: &Table, at: usize)
        ensures { Forgets self.old self.new }
    {
        if !self.is_there(table, at) {
            let _gone = self.places.swap_remove_index(at);
        }
    }

    // Whether a table has the macro at a place.
    fn is_there(&self, table: &Table, at: usize) -> bool {
        match self.places.get_index(at) {
            Some((name, _)) => table.find(name.as_bytes()).is_some(),
            None => false,
        }
    }
}

/// Writes the note where the macro was defined of which a fault tells that a call has the wrong number of arguments, if that was
/// noted: `rdlpp: note: macro 'NAME' was defined at SOURCE:LINE`. Of another fault there is none.
///
/// # Errors
/// As of `write_whole`; the first bytes of the note, or none, are then written.
pub fn write_defined<W: Write>(
    fault: &Fault,
    places: &DefinitionPlaces,
    writer: &mut W,
) -> io::Result<()> {
    if fault.kind != FaultKind::ArgumentCount {
        return Ok(());
    }
    let name = fault.word.as_str();
    let Some(place) = places.find(name) else {
        return Ok(());
    };
    let mut line = Buffer::new();
    let parts = [
        NOTE,
        b"macro '",
        name.as_bytes(),
        b"' was defined at ",
        place.name.as_bytes(),
        b":",
        line.format(place.line).as_bytes(),
        b"\n",
    ];
    write_parts(&parts, writer)
}
