// An open text, as it lies in its frame.
ghost use Rattle.std.specs.Prelude.{◌≡◌};
ghost use Rattle.rdlpp_texts.specs.Opened.{is_excluded};

use rdlpp_table::MacroId;

// The least and the greatest place in the table of the macros in whose text an open text's own scope is.
#[derive(Clone, Copy)]
pub(crate) struct Bounds {
    pub(crate) least: usize,
    pub(crate) greatest: usize,
}

// What an open text is.
#[derive(Clone, Copy)]
pub(crate) enum FrameKind {
    // The body of a macro. The ranges that its call has bound stand from `first` on.
    Body { id: MacroId, first: usize },
    // The actual of a formal.
    Actual,
    // The default text of the formal at a place.
    Default { id: MacroId, place: usize },
}

// An open text: the range that is left of it, its parent, which is the scope in which it or its call is written, what it is, and
// the bounds of its own scope. Scope 0 is the source, and scope n the n-th open text from the outermost.
#[derive(Clone, Copy)]
pub(crate) struct Frame {
    pub(crate) from: usize,
    pub(crate) end: usize,
    pub(crate) parent: usize,
    pub(crate) kind: FrameKind,
    pub(crate) bounds: Bounds,
}

// The bounds of a scope in no macro's text.
pub(crate) const NO_BOUNDS: Bounds = Bounds {
    least: usize::MAX,
    greatest: 0,
};

// Whether bounds tell that a scope isn't in the text of a macro.
pub(crate) fn is_excluded(bounds: Bounds, id: MacroId) -> bool
    ensures { result ≡ is_excluded bounds id }
{
    let index = id.index();
    index < bounds.least || bounds.greatest < index
}
