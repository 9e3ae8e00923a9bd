// Readings: the output, read into buffers of a caller's.
ghost use Rattle.std.specs.Prelude.{◌≡◌, ◌+◌, ◌-◌, ◌≤◌, ◌++◌, if◌then◌else◌, [], length, min, take, drop, OnErr};
ghost use Rattle.std.specs.Option.{option_map};
ghost use Rattle.rdlpp_define.specs.Defined.{observed, set_of};
ghost use Rattle.rdlpp_meaning.specs.Outcome.{report_of};
ghost use Rattle.rdlpp_state.specs.Held.{IsBounded, held_told};
ghost use Rattle.rdlpp_state.specs.Steps.{IsStarted};
ghost use Rattle.rdlpp_state.specs.Opening.{Starts, fresh_engine, start_fault};
ghost use Rattle.rdlpp_state.specs.Searches.{Retries, StartsAgain, is_failed_start};
ghost use Rattle.rdlpp_expand.specs.Reading.{Fills, FillsPart, GivesPiece, Leaves, Turns, unstarted};

use crate::engine::{Engine, READ_ALLOWANCE};
use rdlpp_define::DefineFault;
use rdlpp_meaning::Fault;
use rdlpp_source::Sources;
use rdlpp_state::{Halt, Held, Phase, Piece, PieceLocation};
use std::marker::Model;

/// How an output ended.
#[derive(Clone, Copy, Debug, PartialEq, Eq)]
pub enum ReadEnd {
    /// It is whole.
    Finished,
    /// The engine keeps the fault that ended it.
    Stopped,
}

/// What a read gave: how many bytes, and how the output ended with them, if it did.
#[derive(Clone, Copy, Debug, PartialEq, Eq)]
pub struct ReadPart {
    /// How many bytes of the buffer were written.
    pub len: usize,
    /// How the output ended; nothing where more may follow.
    pub ending: Option<ReadEnd>,
}

/// An output that is read into buffers of a caller's, however large its pieces are: what doesn't fit
/// stays where the engine holds it, and the next read begins there.
#[derive(Drop)]
pub struct Reading<S: Sources> {
    engine: Engine<S>,
    // where the piece stands that was lent last
    place: PieceLocation,
    // how many bytes of it were given
    given: usize,
}

impl<S: Sources> Model for Reading<S> {
    ghost use Rattle.rdlpp_expand.specs.Reading.{IsHeldAt, ReadingView, rest_at};

    ghost Value = { ReadingView S S.Reader };

    ghost view = { λ r. record { engine = r.engine; rest = rest_at r.engine r.place r.given } };

    ghost invariant = { λ r. IsHeldAt r.engine r.place r.given };
}

impl<S: Sources> Reading<S> {
    /// The output of an engine, which must have been started, from where it stands.
    pub fn of(engine: Engine<S>) -> Reading<S>
        requires { IsStarted engine }
        ensures { result ≡ record { engine = engine; rest = [] } }
    {
        Reading {
            engine,
            place: PieceLocation::Halt(Halt::End),
            given: 0,
        }
    }

    /// What the engine holds.
    pub fn held(&self) -> Held
        ensures value { result ≡ held_told self.now.engine }
        ensures bounded { IsBounded self.now.engine }
    {
        self.engine.held()
    }

    /// The fault that the engine keeps, if it does.
    pub fn fault(&self) -> Option<Fault>
        ensures { option_map report_of result ≡ self.now.engine.kept }
    {
        self.engine.kept_fault()
    }

    /// The engine.
    pub fn engine(&self) -> &Engine<S>
        ensures { result.now ≡ self.now.engine }
    {
        &self.engine
    }

    /// Puts other sources in the place of the engine's, which are answered.
    pub fn replace_sources(&mut self, sources: S) -> S
        ensures old { result ≡ self.old.engine.sources }
        ensures new { self.new ≡ record self.old { engine = record self.old.engine { sources = sources } } }
    {
        self.engine.replace_sources(sources)
    }

    /// Forgets the fault of a search that failed, as `Engine::retry` does.
    pub fn retry(&mut self)
        ensures engine { Retries S.Sources self.old.engine self.new.engine }
        ensures rest { self.new.rest ≡ self.old.rest }
    {
        self.engine.retry();
    }

    /// Opens the main text once more where its opening failed, as `Engine::start_again` does.
    ///
    /// # Errors
    /// As of `Engine::start_again`.
    pub fn start_again(&mut self, path: &str) -> Result<(), Fault>
        ensures engine { StartsAgain S.Sources self.old.engine self.new.engine path.now (start_fault result) }
        ensures rest { self.new.rest ≡ (if is_failed_start self.old.engine then [] else self.old.rest) }
    {
        if self.engine.keeps_failed_start() {
            self.place = PieceLocation::Halt(Halt::End);
            self.given = 0;
        }
        self.engine.start_again(path)
    }

    /// Makes the engine fresh again, over other sources, as `Engine::renew` does; those that it had are answered.
    ///
    /// The output has no bytes then, and is at its end, until another main text is started. What was left of the piece that was
    /// lent last is dropped.
    pub fn renew(&mut self, sources: S, origins: bool) -> S
        ensures reading { self.new ≡ unstarted (fresh_engine self.old.engine.limits sources origins) }
        ensures sources { result ≡ self.old.engine.sources }
    {
        self.place = PieceLocation::Halt(Halt::End);
        self.given = 0;
        let before = self.engine.renew(sources, origins);
        self.engine.end_unstarted();
        before
    }

    /// Defines a macro without a formal list in the engine, as `Engine::define` does, before another main text is started.
    ///
    /// The main text must have ended, as after `renew`.
    ///
    /// # Errors
    /// As of `Engine::define`. The engine is unchanged then.
    pub fn define(&mut self, name: &[u8], text: &[u8]) -> Result<(), DefineFault>
        requires { self.old.engine.phase ≡ Phase.Closed }
        ensures outcome { observed result self.new.engine.table.macros ≡ set_of self.old.engine.table.most_bytes self.old.engine.table.most_macros self.old.engine.table.macros name.now text.now }
        ensures refused { OnErr result (self.new.engine ≡ self.old.engine) }
        ensures only { self.new ≡ record { engine = record self.old.engine { table = record self.old.engine.table { macros = self.new.engine.table.macros } }; rest = [] } }
    {
        self.place = PieceLocation::Halt(Halt::End);
        self.given = 0;
        self.engine.await_start();
        let outcome = self.engine.define(name, text);
        self.engine.end_unstarted();
        outcome
    }

    /// Opens another main text, whose path is `path`, as `Engine::start` does.
    ///
    /// The main text before it must have ended, as after `renew`; the definitions stay.
    ///
    /// # Errors
    /// As of `Engine::start`.
    pub fn start(&mut self, path: &str) -> Result<(), Fault>
        requires { self.old.engine.phase ≡ Phase.Closed }
        ensures engine { Starts S.Sources (record self.old.engine { phase = Phase.Fresh }) self.new.engine path.now (start_fault result) }
        ensures rest { self.new.rest ≡ [] }
    {
        self.place = PieceLocation::Halt(Halt::End);
        self.given = 0;
        self.engine.await_start();
        self.engine.start(path)
    }

    /// How many bytes of the piece that was lent last weren't given yet.
    pub fn rest_len(&self) -> usize
        ensures { result ≡ length self.now.rest }
    {
        match self.engine.answer(self.place) {
            Ok(Piece::Bytes(piece)) => piece.len() - self.given,
            Ok(Piece::Done) => 0,
            Err(_) => 0,
        }
    }

    /// Writes the next bytes of the output to the front of a buffer, until it is full or the output
    /// ends, however many steps that takes.
    ///
    /// The bytes after them stay. After the end, and after a fault, every later read answers the
    /// same again with no bytes.
    pub fn fill(&mut self, out: &mut [u8]) -> ReadPart
        ensures fills { Fills S.Sources self.old self.new out.old out.new result.len result.ending }
        ensures left { S.Sources.has_known_texts self.old.engine.sources → Leaves S.Sources self.old self.new (take result.len out.new) result.ending }
    {
        let mut given = 0;
        loop {
            given += self.give(out, given);
            if given == out.len() {
                return ReadPart {
                    len: given,
                    ending: None,
                };
            }
            let mut left = READ_ALLOWANCE;
            if let Some(ending) = self.turn(&mut left) {
                return ReadPart {
                    len: given,
                    ending: Some(ending),
                };
            }
        }
    }

    /// Writes the next bytes of the output to the front of a buffer, until it is full, or the output
    /// ends, or a piece without bytes is lent: so a read comes back after as many steps without bytes
    /// as `Engine::next` takes for one piece, also where pieces with bytes come between them, with
    /// fewer bytes than the buffer has, and no end.
    ///
    /// The bytes after them stay. After the end, and after a fault, every later read answers the
    /// same again with no bytes.
    pub fn read(&mut self, out: &mut [u8]) -> ReadPart
        ensures fills { FillsPart S.Sources self.old self.new out.old out.new result.len result.ending }
        ensures left { S.Sources.has_known_texts self.old.engine.sources → Leaves S.Sources self.old self.new (take result.len out.new) result.ending }
    {
        let mut len = 0;
        let mut left = READ_ALLOWANCE;
        loop {
            len += self.give(out, len);
            if len == out.len() {
                return ReadPart { len, ending: None };
            }
            if let Some(ending) = self.turn(&mut left) {
                return ReadPart {
                    len,
                    ending: Some(ending),
                };
            }
            if self.rest_len() == 0 {
                return ReadPart { len, ending: None };
            }
        }
    }

    /// Writes the next bytes of one piece of the output to the front of a buffer, as many as there is
    /// room for: what is left of the piece that was lent last, or else the next piece, which may have
    /// none.
    ///
    /// The bytes after them stay. After the end, and after a fault, every later read answers the
    /// same again with no bytes.
    pub fn read_piece(&mut self, out: &mut [u8]) -> ReadPart
        ensures piece { GivesPiece S.Sources self.old self.new out.old out.new result.len result.ending }
    {
        let mut left = READ_ALLOWANCE;
        self.read_piece_within(out, &mut left)
    }

    /// Reads one piece as `read_piece` does, and takes what its steps without bytes cost from what is
    /// left for those of several pieces. So a caller that reads these one after another, and begins
    /// with `READ_ALLOWANCE`, comes back after as many such steps as a `read`: where too little is
    /// left the piece has no bytes.
    pub fn read_piece_within(&mut self, out: &mut [u8], left: &mut usize) -> ReadPart
        requires { left.old ≤ 65535 }
        ensures piece { GivesPiece S.Sources self.old self.new out.old out.new result.len result.ending }
        ensures left { left.new ≤ left.old }
    {
        if self.rest_len() > 0 {
            let len = self.give(out, 0);
            return ReadPart { len, ending: None };
        }
        let ending = self.turn(left);
        let len = self.give(out, 0);
        ReadPart { len, ending }
    }

    // Writes what is left of the piece to a buffer, from a place on, as much as there is room for.
    fn give(&mut self, out: &mut [u8], from: usize) -> usize
        requires { from ≤ length out.old }
        ensures engine { self.new ≡ record self.old { rest = drop result self.old.rest } }
        ensures len { result ≡ min (length self.old.rest) (length out.old - from) }
        ensures out { out.new ≡ take from out.old ++ take result self.old.rest ++ drop (from + result) out.old }
    {
        match self.engine.answer(self.place) {
            Ok(Piece::Bytes(piece)) => {
                let rest = &piece[self.given..];
                let len = rest.len().min(out.len() - from);
                out[from..from + len].copy_from_slice(&rest[..len]);
                self.given += len;
                len
            }
            Ok(Piece::Done) => 0,
            Err(_) => 0,
        }
    }

    // Goes on to the next piece, by what is left for steps without bytes.
    fn turn(&mut self, left: &mut usize) -> Option<ReadEnd>
        requires { left.old ≤ 65535 }
        ensures turns { Turns S.Sources self.old.engine self.new.engine self.new.rest result }
        ensures left { left.new ≤ left.old }
    {
        self.given = 0;
        self.place = self.engine.advance(left);
        match self.engine.answer(self.place) {
            Ok(Piece::Bytes(_)) => None,
            Ok(Piece::Done) => Some(ReadEnd::Finished),
            Err(_) => Some(ReadEnd::Stopped),
        }
    }
}
