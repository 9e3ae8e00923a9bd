// What is seen of an engine from outside: its parts, and where it stands.
ghost use Rattle.std.specs.Prelude.{◌≡◌, ◌≤◌, ◌⊎◌, [], IfNone, IfSome, length, slice_get};
ghost use Rattle.rdlpp_meaning.specs.State.{shown_line};
ghost use Rattle.rdlpp_read.specs.Buffer.{held_of};
ghost use Rattle.rdlpp_read.specs.Files.{inner_buffer};
ghost use Rattle.rdlpp_texts.specs.Places.{IsPlaced as IsTextPlaced};
ghost use Rattle.rdlpp_texts.specs.Scopes.{innermost_place};
ghost use Rattle.rdlpp_state.specs.Pieces.{held_texts};
ghost use Rattle.rdlpp_state.specs.Remaining.{inner_name, state_of};
ghost use Rattle.rdlpp_expand.specs.Looking.{Includes};

use super::Engine;
use rdlpp_define::Limits;
use rdlpp_source::Sources;
use rdlpp_state::OpenSource;
use rdlpp_table::Table;
use rdlpp_texts::TextPlace;
use std::mem;

impl<S: Sources> Engine<S> {
    /// The sources.
    pub fn sources(&self) -> &S
        ensures { result.now ≡ self.now.sources }
    {
        &self.sources
    }

    /// Puts other sources in the place of the sources, which are answered.
    pub fn replace_sources(&mut self, sources: S) -> S
        ensures old { result ≡ self.old.sources }
        ensures new { self.new ≡ record self.old { sources = sources } }
    {
        mem::replace(&mut self.sources, sources)
    }

    /// The table of the live definitions.
    pub fn table(&self) -> &Table
        ensures { result.now ≡ self.now.table }
    {
        &self.table
    }

    /// The limits.
    pub fn limits(&self) -> &Limits
        ensures { result.now ≡ self.now.limits }
    {
        &self.limits
    }

    /// How many sources are open.
    pub fn open_sources(&self) -> usize
        ensures { result ≡ length self.now.files.include_stack }
    {
        self.files.len()
    }

    /// What the innermost open source shows, where one is open.
    pub fn inner_source(&self) -> Option<OpenSource<'_>>
        ensures none { IfNone result (length self.now.files.include_stack ≡ 0) }
        ensures name { IfSome result (λ source. source.name.now ≡ inner_name self.now.files.include_stack) }
        ensures line { IfSome result (λ source. source.line ≡ shown_line (state_of self.now).shift (inner_buffer self.now.files.include_stack).line) }
    {
        if self.files.len() == 0 {
            return None;
        }
        self.facts();
        let file = self.files.file();
        Some(OpenSource {
            name: file.name.as_str(),
            line: file.shift.shown_line(file.buffer.line()),
        })
    }

    // The number that the line shows of the `define` which was read in the last step, if one was and it wasn't told yet. What stands
    // next in its source is no earlier line.
    pub(crate) fn take_definition(&mut self) -> Option<u64>
        ensures { self.new ≡ self.old }
    {
        let line = self.defined.take()?;
        if self.files.len() == 0 {
            return None;
        }
        self.facts();
        let file = self.files.file();
        Some(file.shift.shown_line(line.min(file.buffer.line())))
    }

    /// The bytes that are kept of the call that is open: none where none is.
    pub fn arguments(&self) -> &[u8]
        ensures { result.now ≡ self.now.expansion.arguments }
    {
        self.expansion.arguments()
    }

    /// Where what is left of the innermost open text of a usage lies: none where no text is open. A fault closes none, so after a
    /// fault of macro text it begins where that was met.
    pub fn innermost_text(&self) -> Option<TextPlace>
        ensures value { result ≡ innermost_place self.now.expansion.opens }
        ensures placed { IfSome result (IsTextPlaced (held_texts self.now)) }
    {
        self.facts();
        self.expansion.innermost()
    }

    /// The held bytes of the innermost source that aren't used, at which the engine stands: none where no source is open.
    pub fn front(&self) -> &[u8]
        ensures { result.now ≡ held_of (inner_buffer self.now.files.include_stack) }
    {
        if self.files.len() == 0 {
            return &[];
        }
        self.files.file().buffer.held()
    }
    /// The path of the innermost open source; empty where none is open.
    pub fn inner_path(&self) -> &str
        ensures some { IfSome (slice_get self.now.files.include_stack 0) (λ file. result.now ≡ file.path.bytes) }
        ensures none { length self.now.files.include_stack ≡ 0 → result.now ≡ [] }
    {
        if self.files.len() == 0 {
            return "";
        }
        self.files.file().path.as_str()
    }

    /// What the open source shows at a place that includes others, counted from the innermost source, which has the place 0: its
    /// name, and the line of its `include`.
    pub fn including(&self, place: usize) -> Option<OpenSource<'_>>
        ensures none { IfNone result ((place ≡ 0) ⊎ (length self.now.files.include_stack ≤ place)) }
        ensures shows { IfSome result (λ source. Includes self.now.files.include_stack place source.name.now source.line) }
    {
        if place == 0 || place >= self.files.len() {
            return None;
        }
        self.facts();
        let line = self.files.at(place - 1).include_line;
        let file = self.files.at(place);
        Some(OpenSource {
            name: file.name.as_str(),
            line: file.shift.shown_line(line),
        })
    }
}
