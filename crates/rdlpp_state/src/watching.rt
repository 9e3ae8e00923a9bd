// Watchers: who is shown what a run writes.
ghost use Rattle.std.specs.Prelude.{◌≡◌, ℕ, Bool, true, false, List, Option, None};
ghost use Rattle.std.specs.Io.KnownBytes.{Appends};

use crate::positions::{OpenSource, Position};
use rdlpp_scan::line_ends_in;
use rdlpp_table::Table;

/// What tells the place of the first byte of a piece, and its line ends, where these are asked for.
pub trait Placed {
    /// The place; one without a name, on line 0, where the piece has none.
    fn place(&self) -> Position<'_>;

    /// How many LF bytes the piece has, whose bytes are `piece`.
    fn line_ends(&self, piece: &[u8]) -> u64 {
        line_ends_in(piece) as u64
    }
}

impl Placed for Position<'_> {
    fn place(&self) -> Position<'_> {
        *self
    }
}

/// Is shown the output that a run writes, piece by piece, each with the place of its first byte, and told where macros are defined.
///
/// A watcher says in contracts whether it looks at what it is shown, and which bytes it was shown,
/// where it knows them. The rules are this project's.
pub trait Watcher {
    // the bytes that were shown, where they are known
    ghost seen: { Self → Option (List ℕ) } = { λ _. None };

    // whether it looks at what it is shown
    ghost looks: { Self → Bool } = { λ _. true };

    /// Whether it looks at what it is shown: one that doesn't isn't shown anything.
    fn is_looking(&self) -> bool
        ensures { result ≡ looks self.now };

    /// Is shown bytes that the writer took of a piece, at least one: all of it, unless a write failed; and what tells their place.
    /// It goes on looking.
    fn saw<P: Placed>(&mut self, piece: &[u8], placed: &P)
        ensures bytes { Appends (seen self.old) (seen self.new) piece.now }
        ensures looks { looks self.new ≡ looks self.old };

    /// Is told that a `define` was read, whose macro is now the newest of a table, and where: the name
    /// that its source shows, and the line of the directive. It goes on looking.
    fn defined(&mut self, _table: &Table, _place: OpenSource<'_>)
        ensures bytes { seen self.new ≡ seen self.old }
        ensures looks { looks self.new ≡ looks self.old }
    {}
}

/// Nobody watches: it is shown nothing.
#[derive(Drop)]
pub struct Unwatched {}

impl Watcher for Unwatched {
    ghost use Rattle.std.specs.Prelude.{false};

    ghost looks = { λ _. false };

    #[inline(always)]
    fn is_looking(&self) -> bool {
        false
    }

    #[inline(always)]
    fn saw<P: Placed>(&mut self, _piece: &[u8], _placed: &P) {}
}
