// Runs: the output, written to a sink.
ghost use Rattle.std.specs.Prelude.{[], ◌≡◌, ℕ, true, ◌↔◌, ◌≤◌, if◌then◌else◌, IsTrue, None, Some, length, take, false, not};
ghost use Rattle.std.specs.Io.KnownBytes.{Appends, Keeps};
ghost use Rattle.rdlpp_source.specs.Counts.{Counts};
ghost use Rattle.rdlpp_expand.specs.Run.{Flushes, Pulls, Runs, Unflushed, Wrote, count_of, fault_of};
ghost use Rattle.rdlpp_expand.specs.Texts.{IsInTexts};
ghost use Rattle.rdlpp_expand.specs.Watching.{Shows};
ghost use Rattle.rdlpp_state.specs.Engine.{EngineView};
ghost use Rattle.rdlpp_state.specs.Moves.{IsDrained};
ghost use Rattle.rdlpp_state.specs.Steps.{IsStarted};

use crate::engine::{Engine, TextStep};
use rdlpp_meaning::Fault;
use rdlpp_source::{Sink, Sources};
use rdlpp_state::{OpenSource, Piece, Placed, Unwatched, Watcher};

/// Why a run ended before the end of the output.
#[derive(Drop, Debug)]
pub struct RunFault {
    /// The fault, which the engine keeps.
    pub fault: Fault,
    /// How many bytes the writer took in this call: `u64::MAX` where they are more.
    pub written: u64,
}

/// Writes the output of an engine to its end, or up to the fault that ends it, and then flushes the
/// writer once, unless that fault is a write that failed.
///
/// The engine must have been started. The answer is how many bytes the writer took in this call,
/// `u64::MAX` where they are more. A write or a flush that fails, and a write of some bytes that
/// takes none, is F33 with the main text's name and line 0; a flush that fails after another fault
/// leaves that fault. The engine keeps the fault that is answered: a later run answers it again
/// and writes nothing. What the writer took is the output, or its first bytes.
pub fn run<S: Sources, W: Sink>(engine: &mut Engine<S>, writer: &mut W) -> Result<u64, RunFault>
    requires { IsStarted engine.old }
    ensures { Runs S.Sources W.Sink engine.old engine.new writer.old writer.new (count_of result) (fault_of result) }
{
    let mut nobody = Unwatched {};
    let written = run_watched(engine, writer, &mut nobody);
    match engine.kept_fault() {
        Some(fault) => Err(RunFault { fault, written }),
        None => Ok(written),
    }
}

/// Writes the output of an engine as `run` does, and shows a watcher what the writer took of each piece, before the next step,
/// with the place of its first byte. A watcher that doesn't look, and a piece of which nothing was taken, aren't shown. It tells a
/// watcher that looks of each `define` that was read, before the next step too.
///
/// What the watcher is shown is what the writer took, in its order. The answer is how many bytes the writer took in this call, as of
/// `run`, and what the engine keeps is that of `run`: the fault, if one ended the output.
pub fn run_watched<S: Sources, W: Sink, V: Watcher>(
    engine: &mut Engine<S>,
    writer: &mut W,
    watcher: &mut V,
) -> u64
    requires { IsStarted engine.old }
    ensures runs { Runs S.Sources W.Sink engine.old engine.new writer.old writer.new result engine.new.kept }
    ensures shows { Shows W.Sink V.Watcher writer.old writer.new watcher.old watcher.new }
{
    // Open texts, which may write millions of short pieces, have a branch of their own: after a piece of one of them it is known
    // that the next step is one over open texts too.
    let mut written: u64 = 0;
    let mut in_texts = engine.is_in_texts();
    loop {
        if in_texts {
            let pulled = pull_text(engine, writer, watcher);
            written = written.saturating_add(pulled.len as u64);
            if let Some(ending) = pulled.ending {
                finish(engine, writer, ending);
                return written;
            }
            in_texts = pulled.in_texts;
        } else {
            let pulled = pull(engine, writer, watcher);
            written = written.saturating_add(pulled.len as u64);
            if let Some(ending) = pulled.ending {
                finish(engine, writer, ending);
                return written;
            }
            in_texts = engine.is_in_texts();
        }
    }
}

// Ends a run: flushes the sink, unless a write failed. The engine keeps that a write or the flush failed, unless another fault came
// before.
fn finish<S: Sources, W: Sink>(engine: &mut Engine<S>, writer: &mut W, ending: Ending)
    ensures runs { (start : EngineView S S.Reader) → (empty : W) → (written : ℕ) → Wrote S.Sources W.Sink start engine.old empty writer.old written (Some ending) → Runs S.Sources W.Sink start engine.new empty writer.new written engine.new.kept }
    ensures keeps { Keeps (W.taken writer.old) (W.taken writer.new) }
{
    match ending {
        Ending::Finished => {
            if !is_flushed(writer) {
                engine.record_write_fault();
            }
        }
        Ending::Stopped => {
            if !engine.keeps_write_failure() {
                let _flushed = is_flushed(writer);
            }
        }
        Ending::Unwritten => engine.record_write_fault(),
    }
}

// How the output ended.
#[derive(Clone, Copy)]
enum Ending {
    // It is whole.
    Finished,
    // The engine keeps a fault.
    Stopped,
    // A write failed.
    Unwritten,
}

// What was written of a part: how many bytes, and whether a write failed after them.
#[derive(Clone, Copy)]
struct PartWritten {
    len: usize,
    failed: bool,
}

// What was written of a piece: how many bytes, and how the output ended with it, if it did.
#[derive(Clone, Copy)]
struct Pulled {
    len: usize,
    ending: Option<Ending>,
}

// What was written of a piece of an open text: how many bytes, and how the output ended with it, if it did; and whether the next
// step is one over open texts too.
#[derive(Clone, Copy)]
struct TextPulled {
    len: usize,
    ending: Option<Ending>,
    in_texts: bool,
}

// Flushes a sink, and answers whether it could.
fn is_flushed<W: Sink>(writer: &mut W) -> bool
    ensures { Flushes W.Sink (not result) writer.old writer.new }
{
    writer.flush().is_ok()
}

// Writes a part, until the sink has taken all of it or fails. Most sinks take a part at once.
#[inline(always)]
fn write_part<W: Sink>(writer: &mut W, part: &[u8]) -> PartWritten
    ensures inside { result.len ≤ length part.now }
    ensures whole { result.failed ≡ false → result.len ≡ length part.now }
    ensures taken { Appends (W.taken writer.old) (W.taken writer.new) (take result.len part.now) }
    ensures writes { Counts result.failed (W.failed_writes writer.old) (W.failed_writes writer.new) }
    ensures quiet { Unflushed W.Sink writer.old writer.new }
{
    if part.is_empty() {
        return PartWritten {
            len: 0,
            failed: false,
        };
    }
    let Ok(taken) = writer.write(part) else {
        return PartWritten {
            len: 0,
            failed: true,
        };
    };
    if taken == part.len() {
        return PartWritten {
            len: taken,
            failed: false,
        };
    }
    if taken == 0 {
        return PartWritten {
            len: 0,
            failed: true,
        };
    }
    let rest = write_rest(writer, &part[taken..]);
    PartWritten {
        len: taken + rest.len,
        failed: rest.failed,
    }
}

// Writes what a first write has left of a part, until the sink has taken all of it or fails.
#[cold]
#[inline(never)]
fn write_rest<W: Sink>(writer: &mut W, part: &[u8]) -> PartWritten
    ensures inside { result.len ≤ length part.now }
    ensures whole { result.failed ≡ false → result.len ≡ length part.now }
    ensures taken { Appends (W.taken writer.old) (W.taken writer.new) (take result.len part.now) }
    ensures writes { Counts result.failed (W.failed_writes writer.old) (W.failed_writes writer.new) }
    ensures quiet { Unflushed W.Sink writer.old writer.new }
{
    let mut len = 0;
    while len < part.len() {
        let Ok(taken) = writer.write(&part[len..]) else {
            return PartWritten { len, failed: true };
        };
        if taken == 0 {
            return PartWritten { len, failed: true };
        }
        len += taken;
    }
    PartWritten { len, failed: false }
}

// Shows a watcher what the writer took of a piece, where it looks.
#[inline(always)]
fn show<S: Sources, V: Watcher>(engine: &Engine<S>, watcher: &mut V, part: &[u8], is_whole: bool)
    ensures looks { V.looks watcher.new ≡ V.looks watcher.old }
    ensures seen { V.looks watcher.old ≡ true → Appends (V.seen watcher.old) (V.seen watcher.new) part.now }
    ensures blind { V.looks watcher.old ≡ false → watcher.new ≡ watcher.old }
{
    if watcher.is_looking() {
        show_part(engine, watcher, part, is_whole);
    }
}

// Shows a watcher what the writer took of a piece, where that isn't nothing. A piece with bytes has a place. It stands apart, so
// that a run that nobody watches has no more of it than the test.
#[inline(never)]
fn show_part<S: Sources, V: Watcher>(
    engine: &Engine<S>,
    watcher: &mut V,
    part: &[u8],
    is_whole: bool,
)
    ensures looks { V.looks watcher.new ≡ V.looks watcher.old }
    ensures seen { Appends (V.seen watcher.old) (V.seen watcher.new) part.now }
{
    if part.is_empty() {
        return;
    }
    if is_whole {
        watcher.saw(part, engine);
    } else {
        show_front(engine, watcher, part);
    }
}

// Shows a watcher the front of a piece, after which a write failed: what the engine knows of the piece is of all of it, but for its
// place.
#[cold]
#[inline(never)]
fn show_front<S: Sources, V: Watcher>(engine: &Engine<S>, watcher: &mut V, part: &[u8])
    ensures looks { V.looks watcher.new ≡ V.looks watcher.old }
    ensures seen { Appends (V.seen watcher.old) (V.seen watcher.new) part.now }
{
    let place = engine.place();
    watcher.saw(part, &place);
}

// Tells a watcher of the `define` that was read in the last step, if one was, where it looks.
#[inline(always)]
fn tell<S: Sources, V: Watcher>(engine: &mut Engine<S>, watcher: &mut V)
    ensures same { engine.new ≡ engine.old }
    ensures looks { V.looks watcher.new ≡ V.looks watcher.old }
    ensures seen { V.seen watcher.new ≡ V.seen watcher.old }
    ensures blind { V.looks watcher.old ≡ false → watcher.new ≡ watcher.old }
{
    if watcher.is_looking() {
        tell_definition(engine, watcher);
    }
}

// Tells a watcher of the `define` that was read in the last step, if one was.
#[inline(never)]
fn tell_definition<S: Sources, V: Watcher>(engine: &mut Engine<S>, watcher: &mut V)
    ensures same { engine.new ≡ engine.old }
    ensures looks { V.looks watcher.new ≡ V.looks watcher.old }
    ensures seen { V.seen watcher.new ≡ V.seen watcher.old }
{
    let Some(line) = engine.take_definition() else {
        return;
    };
    if let Some(source) = engine.inner_source() {
        let name = source.name;
        watcher.defined(engine.table(), OpenSource { name, line });
    }
}

// Writes a part of a piece, as `write_part` does, and shows a watcher what the sink took of it.
#[inline(always)]
fn write_shown<S: Sources, W: Sink, V: Watcher>(
    engine: &Engine<S>,
    writer: &mut W,
    watcher: &mut V,
    part: &[u8],
) -> PartWritten
    ensures inside { result.len ≤ length part.now }
    ensures whole { result.failed ≡ false → result.len ≡ length part.now }
    ensures taken { Appends (W.taken writer.old) (W.taken writer.new) (take result.len part.now) }
    ensures writes { Counts result.failed (W.failed_writes writer.old) (W.failed_writes writer.new) }
    ensures quiet { Unflushed W.Sink writer.old writer.new }
    ensures shows { Shows W.Sink V.Watcher writer.old writer.new watcher.old watcher.new }
{
    let written = write_part(writer, part);
    show(engine, watcher, &part[..written.len], !written.failed);
    written
}

// How the output ended with a part, if it did.
fn ending_of(written: &PartWritten) -> Option<Ending>
    ensures { result ≡ (if written.now.failed then Some Ending.Unwritten else None) }
{
    if written.failed {
        Some(Ending::Unwritten)
    } else {
        None
    }
}

// Writes the next piece of the output, where the next step is none over open texts.
#[inline(always)]
fn pull<S: Sources, W: Sink, V: Watcher>(
    engine: &mut Engine<S>,
    writer: &mut W,
    watcher: &mut V,
) -> Pulled
    requires started { IsStarted engine.old }
    requires outside { IsDrained engine.old → engine.old.expansion.opens ≡ [] }
    ensures pulls { Pulls S.Sources W.Sink engine.old engine.new writer.old writer.new result.len result.ending }
    ensures shows { Shows W.Sink V.Watcher writer.old writer.new watcher.old watcher.new }
{
    let Some(place) = engine.step_outside() else {
        tell(engine, watcher);
        return Pulled {
            len: 0,
            ending: None,
        };
    };
    let lent = engine.clip_to_quota(place);
    match engine.answer(lent) {
        Ok(Piece::Bytes(part)) => {
            let written = write_shown(engine, writer, watcher, part);
            Pulled {
                len: written.len,
                ending: ending_of(&written),
            }
        }
        Ok(Piece::Done) => Pulled {
            len: 0,
            ending: Some(Ending::Finished),
        },
        Err(_) => Pulled {
            len: 0,
            ending: Some(Ending::Stopped),
        },
    }
}

// Writes the next piece of the open texts of a usage.
fn pull_text<S: Sources, W: Sink, V: Watcher>(
    engine: &mut Engine<S>,
    writer: &mut W,
    watcher: &mut V,
) -> TextPulled
    requires { IsInTexts engine.old }
    ensures pulls { Pulls S.Sources W.Sink engine.old engine.new writer.old writer.new result.len result.ending }
    ensures next { result.ending ≡ None → IsTrue result.in_texts ↔ IsInTexts engine.new }
    ensures shows { Shows W.Sink V.Watcher writer.old writer.new watcher.old watcher.new }
{
    match engine.advance_text() {
        TextStep::Lent(place) => {
            let written = write_shown(engine, writer, watcher, engine.text(place));
            TextPulled {
                len: written.len,
                ending: ending_of(&written),
                in_texts: engine.is_open(),
            }
        }
        TextStep::Silent => TextPulled {
            len: 0,
            ending: None,
            in_texts: engine.is_in_texts(),
        },
        TextStep::Fault => TextPulled {
            len: 0,
            ending: Some(Ending::Stopped),
            in_texts: false,
        },
    }
}
