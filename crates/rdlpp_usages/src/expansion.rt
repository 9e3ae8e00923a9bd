// The expansion of a usage in a source.
ghost use Rattle.std.specs.Prelude.{◌≡◌, ◌*◌, ◌<◌, ◌≤◌, ◌==◌, [], length, IfOk, is_some, true};
ghost use Rattle.rdlpp_scan.specs.declared.token.Mode.TheVariants.{Plain};
ghost use Rattle.rdlpp_define.specs.Table.{macro_at};
ghost use Rattle.rdlpp_read.specs.Buffer.{held_of};
ghost use Rattle.rdlpp_read.specs.Calls.{SourcesRead};
ghost use Rattle.rdlpp_read.specs.Files.{inner_buffer};
ghost use Rattle.rdlpp_texts.specs.Opened.{bound_by};
ghost use Rattle.rdlpp_texts.specs.Places.{texts_of};
ghost use Rattle.rdlpp_texts.specs.Scopes.{innermost_place};
ghost use Rattle.rdlpp_texts.specs.Steps.{AreSound};
ghost use Rattle.rdlpp_usages.specs.Usages.{BindsKept, KeepsOpening, TakesUsageStep, TellsCallUsage, UsesCall, IsRoomy, LeavesOpen, OpensInFront, StandsInFront, is_failed_opening};

use crate::{ArgumentStore, CallRead, read_call};
use rdlpp_meaning::FaultKind;
use rdlpp_read::Files;
use rdlpp_source::Sources;
use rdlpp_table::{MacroId, Table};
use rdlpp_texts::{CursorStep, Cursors, TextPlace};
use std::alloc::{AllocError, Global};
use std::marker::Model;

/// What opening a usage comes to.
#[derive(Clone, Copy)]
pub enum Opening {
    /// The body of its macro is open.
    Opened,
    /// The usage is refused, at its line and about its name.
    Refused(FaultKind),
    /// Its call is broken by embedded Perl, by a string or a comment that isn't closed, or by a line or
    /// a source that is too long; and the physical line of that.
    Broken(FaultKind, u64),
    /// A read failed.
    Failed,
}

/// The expansion of a usage in a source: the kept bytes of its call, and the texts that are open in it.
///
/// No call but `new` takes memory.
#[derive(Drop)]
pub struct Expansion {
    arguments: ArgumentStore,
    texts: Cursors,
}

impl Model for Expansion {
    ghost use Rattle.rdlpp_usages.specs.Usages.{ExpansionView};

    ghost Value = { ExpansionView };

    ghost view = { λ e. record {
      opens = e.texts.opens;
      arguments = e.arguments.bytes;
      line = e.texts.line;
      depth = e.texts.depth;
      most = e.arguments.most;
    } };
}

impl Expansion {
    /// Nothing that is open, with room for `depth` open texts, each with 255 actuals, and for
    /// `argument_bytes` kept bytes: three growths.
    ///
    /// # Errors
    ///
    /// `AllocError` where a growth was refused.
    pub fn new(alloc: Global, depth: usize, argument_bytes: usize) -> Result<Self, AllocError>
        requires { depth ≤ 1024 }
        ensures { IfOk result (λ e. e ≡ record { opens = []; arguments = []; line = 0; depth = depth; most = argument_bytes }) }
    {
        let arguments = ArgumentStore::new(alloc, argument_bytes)?;
        let texts = Cursors::new(alloc, depth)?;
        Ok(Expansion { arguments, texts })
    }

    /// Closes all texts, and lets go of all kept bytes: nothing is open, as in a new one.
    pub fn clear(&mut self)
        ensures { self.new ≡ record { opens = []; arguments = []; line = 0; depth = self.old.depth; most = self.old.most } }
    {
        self.arguments.clear();
        self.texts.clear();
    }

    /// Whether no text is open.
    pub fn is_empty(&self) -> bool
        ensures { result ≡ (length self.now.opens == 0) }
    {
        self.texts.is_empty()
    }

    /// How many texts are open.
    pub fn len(&self) -> usize
        ensures { result ≡ length self.now.opens }
    {
        self.texts.len()
    }

    /// How many actuals are bound in them.
    pub fn bound(&self) -> usize
        ensures value { result ≡ bound_by self.now.opens }
        ensures few { bound_by self.now.opens ≤ self.now.depth * 255 }
    {
        self.texts.bound()
    }

    /// The kept bytes of the call.
    pub fn arguments(&self) -> &[u8]
        ensures value { result.now ≡ self.now.arguments }
        ensures fits { length self.now.arguments ≤ self.now.most }
    {
        self.arguments.bytes()
    }

    /// How many kept bytes of a call there is memory for: as many as may be kept, however many are.
    pub fn capacity(&self) -> usize
        ensures { result ≡ self.now.most }
    {
        self.arguments.capacity()
    }

    /// The line of the usage.
    pub fn line(&self) -> u64
        ensures { result ≡ self.now.line }
    {
        self.texts.line()
    }

    /// Where what is left of the innermost open text lies, if one is open.
    pub fn innermost(&self) -> Option<TextPlace>
        ensures { result ≡ innermost_place self.now.opens }
    {
        self.texts.innermost()
    }

    /// What always holds of it.
    pub fn facts(&self)
        ensures { IsRoomy self.now }
    {
        let _few = self.texts.len();
        let _bound = self.texts.bound();
        let _fits = self.arguments.bytes().len();
    }

    /// Takes one step in the innermost text, as `Cursors::step` does. After the last open text nothing is
    /// kept of the call.
    ///
    /// # Faults
    ///
    /// Those of `Cursors::step`. Nothing changes then.
    pub fn step(&mut self, table: &Table) -> CursorStep
        requires some { 0 < length self.old.opens }
        requires sound { AreSound (texts_of table.now.macros self.old.arguments) self.old.opens }
        ensures { TakesUsageStep table.now.macros self.old result self.new }
    {
        let step = self.texts.step(table, self.arguments.bytes());
        let CursorStep::Silent = step else {
            return step;
        };
        if self.texts.is_empty() {
            self.arguments.clear();
        }
        step
    }

    /// Opens the usage of `len` bytes that stands at the front of what is held of the innermost source:
    /// its backquote and the name of the macro `id`. Where that has a list of formals, its call is read
    /// from the source, over any number of lines, and its arguments are bound. The source goes on after
    /// it. Nothing may be open.
    ///
    /// After a usage that isn't opened no text is open, and the line is as it was; what was read of the source
    /// stays used, and what was kept of the call stays kept.
    ///
    /// # Rules
    ///
    /// IEEE 1364-2001, `define`; what a call may hold, and the order of its faults, are this project's
    /// profile.
    pub fn open_usage<S: Sources>(
        &mut self,
        files: &mut Files<S::Reader>,
        sources: &mut S,
        table: &Table,
        len: usize,
        id: MacroId,
    ) -> Opening
        requires { StandsInFront table.now.macros id len files.old self.old }
        ensures { OpensInFront S.Sources table.now.macros id len result self.old self.new files.old files.new sources.old sources.new }
    {
        let line = files.file().buffer.line();
        files.consume(len, 0);
        if table.arity(id).is_none() {
            self.arguments.clear();
            self.texts.open_body(table, id, line);
            return Opening::Opened;
        }
        let usage = Usage { id, line };
        open_call(
            files,
            sources,
            table,
            &mut self.arguments,
            &mut self.texts,
            usage,
        )
    }
}

// A usage in a source: the macro, and the line.
#[derive(Clone, Copy)]
struct Usage {
    id: MacroId,
    line: u64,
}

// Binds the kept call of a usage, and opens the body of its macro.
fn bind_kept(table: &Table, arguments: &ArgumentStore, texts: &mut Cursors, usage: Usage) -> Opening
    requires inside { usage.id < length table.now.macros }
    requires listed { is_some (macro_at table.now.macros usage.id).formals ≡ true }
    requires closed { texts.old.opens ≡ [] }
    requires room { 0 < texts.old.depth }
    ensures depth { texts.new.depth ≡ texts.old.depth }
    ensures binds { BindsKept table.now.macros usage.id usage.line arguments.now.bytes arguments.now.bytes result texts.new }
    ensures opens { LeavesOpen table.now.macros usage.id usage.line texts.old.line result texts.new.line texts.new.opens }
    ensures sound { AreSound (texts_of table.now.macros arguments.now.bytes) texts.new.opens }
{
    match texts.open_call(table, arguments.bytes(), usage.id, usage.line) {
        Ok(()) => Opening::Opened,
        Err(kind) => Opening::Refused(kind),
    }
}

// Reads the call after the name of a macro with a list from the innermost source, binds it, and opens the body.
fn open_call<S: Sources>(
    files: &mut Files<S::Reader>,
    sources: &mut S,
    table: &Table,
    arguments: &mut ArgumentStore,
    texts: &mut Cursors,
    usage: Usage,
) -> Opening
    requires some { 0 < length files.old.include_stack }
    requires plain { (inner_buffer files.old.include_stack).mode ≡ Plain }
    requires inside { usage.id < length table.now.macros }
    requires listed { is_some (macro_at table.now.macros usage.id).formals ≡ true }
    requires closed { texts.old.opens ≡ [] }
    requires room { 0 < texts.old.depth }
    ensures limits { (texts.new.depth ≡ texts.old.depth) × (arguments.new.most ≡ arguments.old.most) }
    ensures only { files.new ≡ record files.old { include_stack = files.new.include_stack } }
    ensures call { SourcesRead S.Sources (is_failed_opening result) sources.old sources.new }
    ensures uses { UsesCall (S.has_known_texts sources.old) S.unread result files.old.include_stack files.new.include_stack }
    ensures sound { AreSound (texts_of table.now.macros arguments.new.bytes) texts.new.opens }
    ensures opens { LeavesOpen table.now.macros usage.id usage.line texts.old.line result texts.new.line texts.new.opens }
    ensures keeps { KeepsOpening (S.has_known_texts sources.old) S.unread arguments.old.most result arguments.new.bytes (inner_buffer files.old.include_stack) (inner_buffer files.new.include_stack) }
    ensures unheld { is_failed_opening result ≡ true → held_of (inner_buffer files.new.include_stack) ≡ [] }
    ensures comes_to { TellsCallUsage (S.has_known_texts sources.old) S.unread arguments.old.most table.now.macros usage.id result texts.new.opens arguments.new.bytes (inner_buffer files.old.include_stack) (inner_buffer files.new.include_stack) }
{
    match read_call(files, sources, arguments) {
        CallRead::Closed => bind_kept(table, arguments, texts, usage),
        CallRead::Refused(kind) => Opening::Refused(kind),
        CallRead::Broken(kind, own) => Opening::Broken(kind, own),
        CallRead::Failed => Opening::Failed,
    }
}
