// What one step of open texts comes to.
ghost use Rattle.std.specs.Prelude.{◌≡◌};
ghost use Rattle.rdlpp_texts.specs.Steps.{wordless};

use crate::place::{TextPlace, TextSource};
use rdlpp_meaning::FaultKind;

/// A fault in an open text, which is told at the line of the usage in the source.
#[derive(Clone, Copy)]
pub struct CursorFault {
    /// Its kind.
    pub kind: FaultKind,
    /// Where its word stands; an empty range where it has none.
    pub word: TextPlace,
}

/// What one step of open texts comes to.
#[derive(Clone, Copy)]
pub enum CursorStep {
    /// Bytes of a text are lent, as they lie there.
    Lends(TextPlace),
    /// A text was opened or closed.
    Silent,
    /// A fault ends the texts.
    Refused(CursorFault),
}

// A fault without a word.
pub(crate) fn wordless(kind: FaultKind) -> CursorStep
    ensures { result ≡ wordless kind }
{
    CursorStep::Refused(CursorFault {
        kind,
        word: TextPlace {
            source: TextSource::Arguments,
            from: 0,
            end: 0,
        },
    })
}
