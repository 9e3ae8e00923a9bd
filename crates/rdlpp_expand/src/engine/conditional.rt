// The directives of conditionals in the open sources.
ghost use Rattle.std.specs.Prelude.{◌≡◌, ◌<◌, ◌≤◌, None, length};
ghost use Rattle.rdlpp_scan.specs.declared.token.Directive.TheVariants.{Endif};
ghost use Rattle.rdlpp_read.specs.Conditions.{place_of};
ghost use Rattle.rdlpp_read.specs.ConditionMoves.{IsBranch, turned_with};
ghost use Rattle.rdlpp_read.specs.Buffer.{held_of};
ghost use Rattle.rdlpp_read.specs.Files.{inner_buffer};
ghost use Rattle.rdlpp_front.specs.SourceItems.{IsDirective, IsNamed, given_len};
ghost use Rattle.rdlpp_state.specs.Conditionals.{IsGivenBranch, OpensOne, goes_past, opening_word, test_of};
ghost use Rattle.rdlpp_state.specs.Held.{IsBounded};
ghost use Rattle.rdlpp_state.specs.Moves.{IsReady};
ghost use Rattle.rdlpp_state.specs.OpenConditionals.{inner_below};
ghost use Rattle.rdlpp_state.specs.Pieces.{silent_answer};
ghost use Rattle.rdlpp_state.specs.Steps.{UncutStep};

use super::Engine;
use rdlpp_front::Argument;
use rdlpp_meaning::FaultKind;
use rdlpp_read::Branch;
use rdlpp_scan::{Directive, Mode};
use rdlpp_source::Sources;
use rdlpp_state::Halt;

impl<S: Sources> Engine<S> {
    // Opens a conditional in live text, whose first directive wants the name that it is given defined or
    // not, and lends nothing; or refuses it.
    pub(super) fn open_conditional(
        &mut self,
        defined: bool,
        argument: Option<Argument>,
    ) -> Option<Halt>
        requires ready { IsReady self.old }
        requires live { self.old.conditions.skipped ≡ None }
        requires some { 0 < length (held_of (inner_buffer self.old.files.include_stack)) }
        requires mode { (inner_buffer self.old.files.include_stack).mode ≡ Mode.Plain }
        requires opening { IsNamed (opening_word defined) (held_of (inner_buffer self.old.files.include_stack)) argument }
        ensures { IsBounded self.new → UncutStep S.Sources self.old self.new (silent_answer self.new result) }
    {
        match self.named(argument) {
            Err(halt) => Some(halt),
            Ok(given) => {
                let name = &self.files.file().buffer.held()[given.start..given.stop];
                let found = self.table.find(name).is_some();
                self.open_tested(test_of(defined, found), given.stop)
            }
        }
    }

    // Opens a conditional in live text whose test holds or doesn't, and uses its directive of `len` bytes.
    fn open_tested(&mut self, holds: bool, len: usize) -> Option<Halt>
        requires ready { IsReady self.old }
        requires live { self.old.conditions.skipped ≡ None }
        requires inside { len ≤ length (held_of (inner_buffer self.old.files.include_stack)) }
        ensures { OpensOne holds len self.old self.new result }
    {
        self.files.facts();
        let file = self.files.file();
        let line = file.shift.shown_line(file.buffer.line());
        match self.conditions.open(line, holds) {
            Err(kind) => Some(self.record_fault(kind)),
            Ok(()) => {
                self.consume(len, 0);
                None
            }
        }
    }

    // Takes an `elsif`, which is given a name or none, or an `else`, in live text or after text that is
    // skipped, and lends nothing; or refuses it.
    pub(super) fn take_branch(
        &mut self,
        word: Directive,
        argument: Option<Argument>,
    ) -> Option<Halt>
        requires ready { IsReady self.old }
        requires some { 0 < length (held_of (inner_buffer self.old.files.include_stack)) }
        requires mode { (inner_buffer self.old.files.include_stack).mode ≡ Mode.Plain }
        requires branch { IsGivenBranch word (held_of (inner_buffer self.old.files.include_stack)) argument }
        ensures { IsBounded self.new → UncutStep S.Sources self.old self.new (silent_answer self.new result) }
    {
        let below = self.files.file().conditions_below;
        match self.conditions.branch(below, word) {
            Branch::Inner => {
                self.consume(branch_len(word, None), 0);
                None
            }
            Branch::Refused(kind) => Some(self.record_fault(kind)),
            Branch::Decided(holds) => {
                self.turn(word, holds, branch_len(word, argument));
                None
            }
            Branch::Named => self.turn_named(word, argument),
        }
    }

    // Takes a branch of the innermost conditional, whose name decides.
    fn turn_named(&mut self, word: Directive, argument: Option<Argument>) -> Option<Halt>
        requires ready { IsReady self.old }
        requires some { 0 < length (held_of (inner_buffer self.old.files.include_stack)) }
        requires mode { (inner_buffer self.old.files.include_stack).mode ≡ Mode.Plain }
        requires branch { IsGivenBranch word (held_of (inner_buffer self.old.files.include_stack)) argument }
        requires decides { IsBranch (place_of (inner_below self.old.files.include_stack) self.old.conditions) word Branch.Named }
        ensures { IsBounded self.new → UncutStep S.Sources self.old self.new (silent_answer self.new result) }
    {
        match self.named(argument) {
            Err(halt) => Some(halt),
            Ok(given) => {
                let name = &self.files.file().buffer.held()[given.start..given.stop];
                let found = self.table.find(name).is_some();
                self.turn(word, found, given.stop);
                None
            }
        }
    }

    // Takes a branch of the innermost conditional, whose test holds or doesn't, and uses its directive of
    // `len` bytes.
    fn turn(&mut self, word: Directive, holds: bool, len: usize)
        requires own { inner_below self.old.files.include_stack < length self.old.conditions.open_now }
        requires include_stack { 0 < length self.old.files.include_stack }
        requires inside { len ≤ length (held_of (inner_buffer self.old.files.include_stack)) }
        ensures { self.new ≡ goes_past (turned_with word holds self.old.conditions) len self.old }
    {
        self.conditions.turn(word, holds);
        self.consume(len, 0);
    }

    // Takes an `endif`, in live text or after text that is skipped, and lends nothing; or refuses it.
    pub(super) fn take_endif(&mut self) -> Option<Halt>
        requires ready { IsReady self.old }
        requires some { 0 < length (held_of (inner_buffer self.old.files.include_stack)) }
        requires mode { (inner_buffer self.old.files.include_stack).mode ≡ Mode.Plain }
        requires closing { IsDirective Endif (held_of (inner_buffer self.old.files.include_stack)) }
        ensures { IsBounded self.new → UncutStep S.Sources self.old self.new (silent_answer self.new result) }
    {
        let below = self.files.file().conditions_below;
        match self.conditions.close(below) {
            Err(kind) => Some(self.record_fault(kind)),
            Ok(()) => {
                self.consume(Directive::Endif.word_len(), 0);
                None
            }
        }
    }
}

// Whether a test holds that wants a name defined or not, by whether it is.
fn test_of(defined: bool, found: bool) -> bool
    ensures { result ≡ test_of defined found }
{
    if defined { found } else { !found }
}

// How many bytes the word of a branch has with what it is given.
fn branch_len(word: Directive, argument: Option<Argument>) -> usize
    ensures { result ≡ given_len word argument }
{
    match argument {
        Some(given) => given.stop,
        None => word.word_len(),
    }
}
