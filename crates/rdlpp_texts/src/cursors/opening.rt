// The opening of what stands at the front of open texts.
ghost use Rattle.std.specs.Prelude.{false, length, true, ◌<◌, ◌≡◌};
ghost use Rattle.rdlpp_texts.specs.Places.{texts_of};
ghost use Rattle.rdlpp_texts.specs.Steps.{IsUnlent};
ghost use Rattle.rdlpp_texts.specs.TakenSteps.{is_idle, PeeksAt, TakesStep};

use crate::cursors::Cursors;
use crate::peek::{Peek, TextItem};
use crate::step::{CursorStep, wordless};
use rdlpp_meaning::FaultKind;
use rdlpp_table::Table;

impl Cursors {
    // Opens what stands at the front of the innermost text, or closes that text where nothing is left of it.
    //
    // After a run that is lent, the last open text isn't closed.
    //
    // `text` is the text in which the innermost lies, as it is for all that is opened there.
    pub(super) fn open_front(
        &mut self,
        table: &Table,
        arguments: &[u8],
        text: &[u8],
        peek: &Peek,
        lent: bool,
    ) -> CursorStep
        requires { PeeksAt (texts_of table.now.macros arguments.now) self.old.opens peek.now text.now }
        ensures taken { is_idle lent (length self.old.opens) peek.now.front ≡ false → TakesStep (texts_of table.now.macros arguments.now) self.old result self.new }
        ensures idle { is_idle lent (length self.old.opens) peek.now.front ≡ true → self.new ≡ self.old }
        ensures open { lent ≡ true → 0 < length self.new.opens }
        ensures unlent { IsUnlent result }
    {
        match peek.front {
            TextItem::Ended if lent && self.len() <= 1 => CursorStep::Silent,
            TextItem::Ended => {
                self.close_spent();
                CursorStep::Silent
            }
            TextItem::Formal { len, place } => self.formal(table, arguments, peek, len, place),
            TextItem::Usage(len) => self.usage(table, arguments, text, peek, len),
            TextItem::Bare => wordless(FaultKind::BareBackquote),
        }
    }
}
