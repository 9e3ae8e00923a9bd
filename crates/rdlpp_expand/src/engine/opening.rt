// How an engine is made, and how its main text is opened.
ghost use Rattle.std.specs.Prelude.{◌≡◌, OnErr};
ghost use Rattle.rdlpp_define.specs.Defined.{observed, set_of};
ghost use Rattle.rdlpp_meaning.specs.Output.{name_cut, opening_fault};
ghost use Rattle.rdlpp_state.specs.Held.{IsBounded};
ghost use Rattle.rdlpp_state.specs.Includes.{kind_of_source};
ghost use Rattle.rdlpp_state.specs.Opening.{Makes, Starts, opened_engine, start_fault, unopened_engine};

use super::Engine;
use arrayvec::ArrayString;
use rdlpp_define::{DefineFault, Limits};
use rdlpp_meaning::{Fault, FaultKind};
use rdlpp_read::{Conditions, Files};
use rdlpp_source::{Found, SourceFault, Sources};
use rdlpp_state::{Marks, NewFault, Pending, Phase};
use rdlpp_table::Table;
use rdlpp_usages::Expansion;
use std::alloc::Global;

// How many bytes of a path are shown at most.
const SHOWN_BYTES: usize = 1_024;

impl<S: Sources> Engine<S> {
    /// A fresh engine with an empty table, which writes origin lines where `origins` says so.
    ///
    /// All memory that it ever uses for itself is reserved here: the table's, that of the open conditionals, the
    /// buffers of as many sources as may be open, each of one line, and that of the open texts of a usage: as many
    /// as may be open, each with 255 actuals, and the kept bytes of its call.
    ///
    /// # Errors
    /// `BadLimits` with the first limit, in the order of the fields, that is out of its range;
    /// `NoMemory` where memory was refused. The sources are dropped then. The ranges are this
    /// project's.
    pub fn new(
        alloc: Global,
        limits: Limits,
        sources: S,
        origins: bool,
    ) -> Result<Engine<S>, NewFault>
        ensures { Makes limits sources origins result }
    {
        if let Err(fault) = limits.check() {
            return Err(NewFault::BadLimits(fault));
        }
        // The sources' buffers are asked for first, and given back last: so they lie in front, and stay with the process. Of the large
        // blocks after them, which an allocator may hand back to the system, a short run touches little. The open texts come last:
        // their list of slots, where it is small, may keep all that lies before it from being handed back.
        let Ok(files) = Files::new(alloc, limits.includes + 1, limits.line_bytes) else {
            return Err(NewFault::NoMemory);
        };
        let Ok(conditions) = Conditions::new(alloc, limits.conditions) else {
            return Err(NewFault::NoMemory);
        };
        let Ok(table) = Table::new(alloc, &limits) else {
            return Err(NewFault::NoMemory);
        };
        let Ok(expansion) = Expansion::new(alloc, limits.depth, limits.argument_bytes) else {
            return Err(NewFault::NoMemory);
        };
        Ok(Engine {
            limits,
            origins,
            phase: Phase::Fresh,
            quota: limits.output_bytes,
            kept: None,
            main: ArrayString::new(),
            pending: Pending::nothing(),
            marks: Marks::new(),
            taken: 0,
            defined: None,
            table,
            conditions,
            sources,
            files,
            expansion,
        })
    }

    /// Defines a macro without a formal list, in the place of one of its name.
    ///
    /// The engine must be fresh. `text` is the text of a body without continuations: an LF and a
    /// backslash stay as they are, and comments and the blanks at both ends go.
    ///
    /// # Errors
    /// As of `Table::set`: F15, F16 and F17 for the name, F1 to F3 for the text, F21 and F22 for
    /// the room that the limits leave. The engine is unchanged then. The rules are this project's.
    pub fn define(&mut self, name: &[u8], text: &[u8]) -> Result<(), DefineFault>
        requires { self.old.phase ≡ Phase.Fresh }
        ensures outcome { observed result self.new.table.macros ≡ set_of self.old.table.most_bytes self.old.table.most_macros self.old.table.macros name.now text.now }
        ensures refused { OnErr result (self.new ≡ self.old) }
        ensures only { self.new ≡ record self.old { table = record self.old.table { macros = self.new.table.macros } } }
        ensures bounded { IsBounded self.new }
    {
        let outcome = self.table.set(name, text);
        let _len = self.table.len();
        self.facts();
        outcome
    }

    /// Opens the main text, whose path is `path`.
    ///
    /// The engine must be fresh. It is started afterwards in each case, with the sources' path as
    /// the shown name.
    ///
    /// # Errors
    /// With the path, cut to 1,024 bytes or fewer at a character's boundary, and line 0: F28 where
    /// there is no such text, F31 where the path is too long, F32 where a device failed, F34 where
    /// memory was refused. The fault is kept: every later call answers it. The rules are this
    /// project's.
    pub fn start(&mut self, path: &str) -> Result<(), Fault>
        requires { self.old.phase ≡ Phase.Fresh }
        ensures { Starts S.Sources self.old self.new path.now (start_fault result) }
    {
        self.open(path);
        match self.kept_fault() {
            Some(fault) => Err(fault),
            None => Ok(()),
        }
    }

    /// Opens the main text as `start` does, and only keeps a fault.
    pub fn open(&mut self, path: &str)
        requires { self.old.phase ≡ Phase.Fresh }
        ensures { Starts S.Sources self.old self.new path.now self.new.kept }
    {
        self.facts();
        match self.sources.top(path) {
            Ok(found) => {
                self.open_main(path, found);
                self.facts();
            }
            Err(fault) => self.record_main_fault(source_kind(fault), path),
        }
    }

    // Opens the main text that was found.
    #[tactic(auto, unfolding(rdlpp_state::specs::Opening::opened_engine, rdlpp_state::specs::Pending::nothing_pending))]
    fn open_main(&mut self, path: &str, found: Found<S::Reader>)
        requires { self.old.phase ≡ Phase.Fresh }
        ensures { self.new ≡ opened_engine self.old path.now found }
    {
        self.phase = Phase::Open;
        self.quota = self.limits.output_bytes;
        forget(&mut self.kept);
        set_cut(&mut self.main, path);
        self.pending = Pending::nothing();
        self.pending.queue_origin(self.origins, 1);
        let source_bytes = self.limits.source_bytes;
        self.files.enter(found, source_bytes, 0, 0);
    }

    // Keeps a fault of the opening of the main text. It stands apart, so that an opening has no room for it.
    #[cold]
    #[inline(never)]
    #[tactic(auto, unfolding(rdlpp_state::specs::Opening::unopened_engine, rdlpp_meaning::specs::Output::opening_fault, rdlpp_meaning::specs::Outcome::report_of))]
    fn record_main_fault(&mut self, kind: FaultKind, path: &str)
        requires { self.old.phase ≡ Phase.Fresh }
        ensures { self.new ≡ unopened_engine self.old (opening_fault kind path.now) }
    {
        let mut name = ArrayString::new();
        set_cut(&mut name, path);
        self.phase = Phase::Closed;
        self.kept = Some(Fault {
            kind,
            name,
            line: 0,
            word: ArrayString::new(),
        });
    }
}

// Forgets a fault that is kept. Where there is none its room isn't cleared, which has more than a kilobyte.
pub(super) fn forget(kept: &mut Option<Fault>)
    ensures { kept.new ≡ None }
{
    if kept.is_some() {
        *kept = None;
    }
}

// Sets a text to the first 1,024 bytes of a name, or fewer at a character's boundary.
fn set_cut(cut: &mut ArrayString<1024>, name: &str)
    ensures { cut.new.bytes ≡ name_cut name.now }
{
    let kept = name.floor_char_boundary(SHOWN_BYTES);
    cut.clear();
    cut.push_str(&name[..kept]);
}

// The kind of fault that a source's refusal is told as.
#[tactic(auto, unfolding(rdlpp_state::specs::Includes::kind_of_source))]
pub(super) fn source_kind(fault: SourceFault) -> FaultKind
    ensures { result ≡ kind_of_source fault }
{
    match fault {
        SourceFault::Absent => FaultKind::SourceNotFound,
        SourceFault::PathTooLong => FaultKind::PathTooLong,
        SourceFault::Device => FaultKind::ReadFailed,
        SourceFault::NoMemory => FaultKind::SourceMemory,
    }
}
