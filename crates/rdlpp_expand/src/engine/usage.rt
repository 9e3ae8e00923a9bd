// Usages of macros in the open sources.
ghost use Rattle.std.specs.Prelude.{[], ◌≡◌, ◌<◌, ◌≤◌, ◌^◌, length, None, Some};
ghost use Rattle.rdlpp_scan.specs.Names.{IsWordBytes};
ghost use Rattle.rdlpp_define.specs.Table.{macro_named, macro_at};
ghost use Rattle.rdlpp_meaning.specs.State.{fault_at};
ghost use Rattle.rdlpp_read.specs.Buffer.{held_of};
ghost use Rattle.rdlpp_read.specs.Files.{inner_buffer};
ghost use Rattle.rdlpp_front.specs.SourceItems.{IsUsage, usage_name};
ghost use Rattle.rdlpp_state.specs.Held.{IsBounded};
ghost use Rattle.rdlpp_state.specs.Moves.{IsReady};
ghost use Rattle.rdlpp_state.specs.Standing.{OpensUsage};
ghost use Rattle.rdlpp_state.specs.Pieces.{silent_answer};
ghost use Rattle.rdlpp_state.specs.Remaining.{state_of};
ghost use Rattle.rdlpp_state.specs.Steps.{UncutStep};

use super::Engine;
use arrayvec::ArrayString;
use rdlpp_define::word_of;
use rdlpp_meaning::FaultKind;
use rdlpp_scan::Mode;
use rdlpp_source::Sources;
use rdlpp_state::Halt;
use rdlpp_table::MacroId;
use rdlpp_usages::Opening;

impl<S: Sources> Engine<S> {
    // Expands the usage of `len` bytes with which the held bytes begin.
    pub(super) fn expand(&mut self, len: usize) -> Option<Halt>
        requires ready { IsReady self.old }
        requires live { self.old.conditions.skipped ≡ None }
        requires some { 0 < length (held_of (inner_buffer self.old.files.include_stack)) }
        requires mode { (inner_buffer self.old.files.include_stack).mode ≡ Mode.Plain }
        requires usage { IsUsage (held_of (inner_buffer self.old.files.include_stack)) len }
        ensures { IsBounded self.new → UncutStep S.Sources self.old self.new (silent_answer self.new result) }
    {
        let name = name_of(self.files.file().buffer.held(), len);
        match self.table.find(name) {
            None => {
                self.record_undefined(len);
                Some(Halt::Fault)
            }
            Some(id) => self.open_usage(len, id),
        }
    }

    // Keeps that the usage of `len` bytes with which the held bytes begin names no macro.
    #[cold]
    #[inline(never)]
    fn record_undefined(&mut self, len: usize)
        requires include_stack { 0 < length self.old.files.include_stack }
        requires some { 0 < length (held_of (inner_buffer self.old.files.include_stack)) }
        requires usage { IsUsage (held_of (inner_buffer self.old.files.include_stack)) len }
        ensures { self.new ≡ record self.old { kept = Some (fault_at FaultKind.UndefinedMacro (inner_buffer self.old.files.include_stack).line (usage_name (held_of (inner_buffer self.old.files.include_stack)) len) (state_of self.old)) } }
    {
        let word = word_of(name_of(self.files.file().buffer.held(), len));
        let _fault = self.record_word_fault(FaultKind::UndefinedMacro, word);
    }

    // Keeps that a usage of a macro, at a physical line of the innermost source, is refused.
    #[cold]
    #[inline(never)]
    fn record_refused(&mut self, kind: FaultKind, line: u64, id: MacroId)
        requires include_stack { 0 < length self.old.files.include_stack }
        requires line { line < 2 ^ 63 }
        requires inside { id < length self.old.table.macros }
        requires name { IsWordBytes (macro_at self.old.table.macros id).name }
        ensures { self.new ≡ record self.old { kept = Some (fault_at kind line (macro_at self.old.table.macros id).name (state_of self.old)) } }
    {
        let word = word_of(self.table.name(id));
        let _fault = self.record_fault_at(kind, line, word);
    }

    // Keeps that the call of a usage is broken, at a physical line of the innermost source.
    #[cold]
    #[inline(never)]
    fn record_broken(&mut self, kind: FaultKind, line: u64)
        requires include_stack { 0 < length self.old.files.include_stack }
        requires line { line < 2 ^ 63 }
        ensures { self.new ≡ record self.old { kept = Some (fault_at kind line [] (state_of self.old)) } }
    {
        let _fault = self.record_fault_at(kind, line, ArrayString::new());
    }

    // Opens a usage of a macro, and lends nothing yet.
    fn open_usage(&mut self, len: usize, id: MacroId) -> Option<Halt>
        requires ready { IsReady self.old }
        requires live { self.old.conditions.skipped ≡ None }
        requires some { 0 < length (held_of (inner_buffer self.old.files.include_stack)) }
        requires mode { (inner_buffer self.old.files.include_stack).mode ≡ Mode.Plain }
        requires usage { IsUsage (held_of (inner_buffer self.old.files.include_stack)) len }
        requires inside { id < length self.old.table.macros }
        requires named { macro_named self.old.table.macros (usage_name (held_of (inner_buffer self.old.files.include_stack)) len) ≡ Some (macro_at self.old.table.macros id) }
        ensures { IsBounded self.new → UncutStep S.Sources self.old self.new (silent_answer self.new result) }
    {
        let line = self.files.file().buffer.line();
        self.facts();
        match self.open_macro(len, id) {
            Opening::Opened => None,
            Opening::Refused(kind) => {
                self.record_refused(kind, line, id);
                Some(Halt::Fault)
            }
            Opening::Broken(kind, own) => {
                self.record_broken(kind, own);
                Some(Halt::Fault)
            }
            Opening::Failed => Some(self.record_read_fault()),
        }
    }

    // Opens the body of a macro, whose usage has `len` bytes, or tells why not.
    fn open_macro(&mut self, len: usize, id: MacroId) -> Opening
        requires ready { IsReady self.old }
        requires some { 0 < length (held_of (inner_buffer self.old.files.include_stack)) }
        requires mode { (inner_buffer self.old.files.include_stack).mode ≡ Mode.Plain }
        requires usage { IsUsage (held_of (inner_buffer self.old.files.include_stack)) len }
        requires inside { id < length self.old.table.macros }
        requires named { macro_named self.old.table.macros (usage_name (held_of (inner_buffer self.old.files.include_stack)) len) ≡ Some (macro_at self.old.table.macros id) }
        ensures { OpensUsage S.Sources len self.old self.new result }
    {
        self.facts();
        let table = &self.table;
        let opening = self
            .expansion
            .open_usage(&mut self.files, &mut self.sources, table, len, id);
        self.expansion.facts();
        opening
    }
}

// The name in a usage of `len` bytes.
fn name_of(held: &[u8], len: usize) -> &[u8]
    requires some { 0 < len }
    requires inside { len ≤ length held.now }
    ensures { result.now ≡ usage_name held.now len }
{
    &held[1..len]
}
