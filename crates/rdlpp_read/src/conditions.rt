// The open conditionals of a run.
ghost use Rattle.std.specs.Prelude.{◌≡◌, ◌+◌, ◌^◌, ◌≤◌, ◌<◌, ◌∷◌, [], drop, length, IfOk, IfSome, None};
ghost use Rattle.std.specs.Option.{is_none, unwrap_or};
ghost use Rattle.rdlpp_meaning.specs.Meaning.{is_else};
ghost use Rattle.rdlpp_read.specs.Conditions.{place_of, progress_of};
ghost use Rattle.rdlpp_read.specs.ConditionMoves.{
  Closes,
  IsBranch,
  IsTurn,
  IsUnclosed,
  Opens,
  skipped_by,
  turned_with,
  with_count,
};

use rdlpp_meaning::FaultKind;
use rdlpp_scan::Directive;
use std::alloc::{AllocError, Global};
use std::marker::Model;

// An open conditional.
#[derive(Clone, Copy)]
struct Progress {
    // the line that its first directive showed
    line: u64,
    // whether a branch was taken
    taken: bool,
    // whether its `else` came
    closing: bool,
}

/// What is told of an `elsif` or `else` before its name is looked at.
#[derive(Clone, Copy)]
pub enum Branch {
    /// It belongs to a conditional that opened in skipped text, and changes nothing.
    Inner,
    /// It is refused: no conditional of its source is open (F23), or its conditional had its `else`
    /// (F24).
    Refused(FaultKind),
    /// What follows is live, or is skipped, whatever name it is given.
    Decided(bool),
    /// The name that it is given decides.
    Named,
}

/// The open conditionals of all open sources, the innermost first, and whether text is skipped.
///
/// No call but `new` takes memory.
#[derive(Drop)]
pub struct Conditions {
    // the innermost last
    open: Vec<Progress>,
    // where text is skipped, how many conditionals opened in it
    skipped: Option<u64>,
    limit: usize,
}

impl Model for Conditions {
    ghost use Rattle.std.specs.Prelude.{◌≡◌, ◌≤◌, length};
    ghost use Rattle.std.specs.Vec.{vec_capacity};
    ghost use Rattle.rdlpp_read.specs.Conditions.{ConditionsView, seen_of};

    ghost Value = { ConditionsView };

    ghost view = { λ a. record { open_now = seen_of a.open.items; skipped = a.skipped; limit = a.limit } };

    ghost invariant = { λ a. (length a.open.items ≤ a.limit) × (vec_capacity a.open ≡ a.limit) };
}

impl Conditions {
    /// No conditional, with room for `limit` open ones: one growth.
    ///
    /// # Errors
    ///
    /// `AllocError` where the growth was refused.
    pub fn new(alloc: Global, limit: usize) -> Result<Self, AllocError>
        ensures { IfOk result (λ made. made ≡ record { open_now = []; skipped = None; limit = limit }) }
    {
        Ok(Conditions {
            open: Vec::with_capacity(alloc, limit)?,
            skipped: None,
            limit,
        })
    }

    /// Closes all conditionals: none is open, and text is live, as in a new one.
    pub fn clear(&mut self)
        ensures { self.new ≡ record { open_now = []; skipped = None; limit = self.old.limit } }
    {
        self.open.clear();
        self.skipped = None;
    }

    /// How many conditionals of all open sources are open.
    pub fn len(&self) -> usize
        ensures value { result ≡ length self.now.open_now }
        ensures bound { result ≤ self.now.limit }
    {
        self.open.len()
    }

    /// How many open conditionals there is memory for: as many as the limit allows, however many are open.
    pub fn capacity(&self) -> usize
        ensures { result ≡ self.now.limit }
    {
        self.open.capacity()
    }

    /// Whether text is live: no open conditional skips it.
    pub fn is_live(&self) -> bool
        ensures { result ≡ is_none self.now.skipped }
    {
        self.skipped.is_none()
    }

    /// How many conditionals opened in skipped text; none where text is live.
    pub fn inner(&self) -> u64
        ensures { result ≡ unwrap_or self.now.skipped 0 }
    {
        self.skipped.unwrap_or(0)
    }

    /// Opens a conditional in live text, whose first directive shows `line` and whose test holds or
    /// doesn't.
    ///
    /// # Errors
    ///
    /// `FaultKind::TooManyConditionals` where as many are open, over all sources, as the limit allows;
    /// nothing changes then.
    ///
    /// # Rules
    ///
    /// IEEE 1364-2001, `ifdef`, `ifndef`; the limit is this project's profile.
    pub fn open(&mut self, line: u64, holds: bool) -> Result<(), FaultKind>
        ensures { Opens result line holds self.old self.new }
    {
        if self.open.len() == self.limit {
            return Err(FaultKind::TooManyConditionals);
        }
        self.open.push_reserved(Progress {
            line,
            taken: holds,
            closing: false,
        });
        self.skipped = skipped_by(holds);
        Ok(())
    }

    /// Opens a conditional in skipped text, where only its balance counts; in live text nothing changes.
    pub fn open_skipped(&mut self)
        requires { unwrap_or self.old.skipped 0 + 1 < 2 ^ 64 }
        ensures skipped { IfSome self.old.skipped (λ n. self.new ≡ with_count (n + 1) self.old) }
        ensures live { self.old.skipped ≡ None → self.new ≡ self.old }
    {
        if let Some(inner) = self.skipped {
            self.skipped = Some(inner + 1);
        }
    }

    /// What an `elsif` or `else`, `word`, comes to, where `below` conditionals of the sources around the
    /// innermost one are open. Nothing changes: `turn` takes the branch.
    ///
    /// # Rules
    ///
    /// IEEE 1364-2001, `elsif`, `else`; that a conditional doesn't span sources, and that the name of an
    /// `elsif` after a branch that was taken isn't looked at, is this project's profile.
    pub fn branch(&self, below: usize, word: Directive) -> Branch
        requires { below ≤ length self.now.open_now }
        ensures { IsBranch (place_of below self.now) word result }
    {
        if self.open.len() == below {
            return Branch::Refused(FaultKind::StrayBranch);
        }
        if 0 < self.inner() {
            return Branch::Inner;
        }
        branch_of(self.innermost(), word)
    }

    /// Takes a branch of the innermost open conditional, `word`, whose test holds or doesn't.
    pub fn turn(&mut self, word: Directive, holds: bool)
        requires { 0 < length self.old.open_now }
        ensures { self.new ≡ turned_with word holds self.old }
    {
        let last = self.open.len() - 1;
        let progress = self.open[last];
        let turned = Progress {
            line: progress.line,
            taken: progress.taken || holds,
            closing: is_else(word),
        };
        self.open[last] = turned;
        self.skipped = skipped_by(holds);
    }

    /// Closes the innermost conditional that is open in the innermost source, or one that opened in
    /// skipped text, where `below` conditionals of the sources around it are open.
    ///
    /// # Errors
    ///
    /// `FaultKind::StrayBranch` where no conditional of the innermost source is open; nothing changes
    /// then.
    ///
    /// # Rules
    ///
    /// IEEE 1364-2001, `endif`; that a conditional doesn't span sources is this project's profile.
    pub fn close(&mut self, below: usize) -> Result<(), FaultKind>
        requires { below ≤ length self.old.open_now }
        ensures { Closes (place_of below self.old) result self.old self.new }
    {
        if self.open.len() == below {
            return Err(FaultKind::StrayBranch);
        }
        let inner = self.inner();
        if 0 < inner {
            self.skipped = Some(inner - 1);
        } else {
            self.open.truncate(self.open.len() - 1);
            self.skipped = None;
        }
        Ok(())
    }

    /// The line that the innermost conditional of the innermost source showed, which its end leaves open
    /// (F25), where `below` conditionals of the sources around it are open; `None` where it leaves none
    /// open.
    pub fn unclosed(&self, below: usize) -> Option<u64>
        requires { below ≤ length self.now.open_now }
        ensures { IsUnclosed (place_of below self.now) result }
    {
        if self.open.len() == below {
            return None;
        }
        Some(self.innermost().line)
    }

    // The innermost open conditional.
    fn innermost(&self) -> &Progress
        requires { 0 < length self.now.open_now }
        ensures { progress_of result.now ∷ drop 1 self.now.open_now ≡ self.now.open_now }
    {
        &self.open[self.open.len() - 1]
    }
}

// Whether text is skipped after a directive whose test holds or doesn't.
#[tactic(auto, unfolding(crate::specs::ConditionMoves::skipped_by))]
fn skipped_by(holds: bool) -> Option<u64>
    ensures { result ≡ skipped_by holds }
{
    if holds { None } else { Some(0) }
}

// Whether a directive is an `else`.
#[tactic(auto, unfolding(rdlpp_meaning::specs::Meaning::is_else))]
fn is_else(word: Directive) -> bool
    ensures { result ≡ is_else word }
{
    match word {
        Directive::Else => true,
        _ => false,
    }
}

// What a branch of an open conditional comes to.
fn branch_of(progress: &Progress, word: Directive) -> Branch
    ensures { IsTurn (progress_of progress.now) word result }
{
    if progress.closing {
        return Branch::Refused(FaultKind::BranchAfterElse);
    }
    if is_else(word) {
        return Branch::Decided(!progress.taken);
    }
    if progress.taken {
        return Branch::Decided(false);
    }
    Branch::Named
}
