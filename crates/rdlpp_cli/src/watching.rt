//! What a run is watched for: the place of each line, and where macros are defined, where these are asked for.
use crate::files::{RunFiles, WriteFault};
use crate::mapping::{Mapping, open_mapping};
use rdlpp::{DefinitionPlaces, OpenSource, Placed, Table, Watcher};
use rdlpp_words::Invocation;

/// What watches a run.
#[derive(Drop)]
pub struct Watching {
    mapping: Mapping,
    /// Where macros were defined, where notes are asked for.
    pub places: Option<DefinitionPlaces>,
    is_looking: bool,
}

impl Watching {
    /// What watches the run of a command line: its line map is opened.
    pub fn of(rt: &HostRuntime, invocation: &Invocation, files: &mut RunFiles) -> Watching {
        let mapping = open_mapping(rt, files, invocation.reports.line_map.as_ref());
        let places = if invocation.reports.notes {
            Some(DefinitionPlaces::new(rt.alloc()))
        } else {
            None
        };
        let is_looking = mapping.is_open() || places.is_some();
        Watching {
            mapping,
            places,
            is_looking,
        }
    }

    /// Writes what is left of the line map.
    ///
    /// # Errors
    /// As of `Mapping::finish`.
    pub fn finish(&mut self) -> Result<(), WriteFault> {
        self.mapping.finish()
    }
}

impl Watcher for Watching {
    ghost looks = { λ watching. watching.is_looking };

    #[inline(always)]
    fn is_looking(&self) -> bool {
        self.is_looking
    }

    fn saw<P: Placed>(&mut self, piece: &[u8], placed: &P) {
        self.mapping.saw(piece, placed);
    }

    fn defined(&mut self, table: &Table, place: OpenSource<'_>) {
        if let Some(places) = &mut self.places {
            places.note(table, place);
        }
    }
}
