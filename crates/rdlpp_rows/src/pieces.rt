// A row, pulled piece by piece.
use crate::devices::{DealtTexts, WHOLE};
use crate::row::HeldPiece;
use crate::runs::{Job, engine_of, keeps_end, line_of, run_row};
use rdlpp::Limits;
use rdlpp_expand::{Engine, Held, Piece};
use std::alloc::{AllocError, Global};

// The most pieces of a row that is pulled.
const MOST_PIECES: u32 = 4_000_000;

// What is left of an output, and of the writes that a run makes for it.
#[derive(Drop)]
struct Left<'a> {
    output: &'a [u8],
    lens: &'a [usize],
}

impl<'a> Left<'a> {
    // Takes a piece, which has to begin the output, and unless it has no bytes to be one write.
    fn take(&mut self, piece: &[u8]) -> bool {
        if piece.is_empty() {
            return true;
        }
        let (Some(output), Some((len, lens))) = (
            self.output.strip_prefix(piece),
            self.lens.split_first(),
        ) else {
            return false;
        };
        let is_one_write = *len == piece.len();
        self.output = output;
        self.lens = lens;
        is_one_write
    }

    // Whether nothing is left.
    fn is_empty(&self) -> bool {
        self.output.is_empty() && self.lens.is_empty()
    }
}

/// Whether the pieces of a row are its output, each of them one write of a run, and then its end, which stays; and whether what is
/// held is within the limits after each piece, and at the end what the row wants.
pub fn has_its_pieces(alloc: Global, job: &Job<'_>) -> Result<bool, AllocError> {
    let Some(ran) = run_row(alloc, job, WHOLE)? else {
        return Ok(true);
    };
    match engine_of(alloc, job, WHOLE)? {
        Some(mut engine) => lends_its_pieces(alloc, &mut engine, job, ran.lens.as_slice()),
        None => Ok(true),
    }
}

// The same of an engine before its start, by how many bytes each write of a run takes.
fn lends_its_pieces(
    alloc: Global,
    engine: &mut Engine<DealtTexts<'_>>,
    job: &Job<'_>,
    lens: &[usize],
) -> Result<bool, AllocError> {
    if !engine.is_fresh() {
        return Ok(false);
    }
    let _opened = engine.start(job.invocation.source.as_str());
    let mut left = Left {
        output: job.row.output.as_slice(),
        lens,
    };
    let mut met = 0_usize;
    for _ in 0..MOST_PIECES {
        if engine.is_fresh() {
            return Ok(false);
        }
        let mut first = None;
        let end = match engine.next() {
            Ok(Piece::Bytes(bytes)) => {
                if !left.take(bytes) {
                    return Ok(false);
                }
                first = bytes.first().copied();
                None
            }
            Ok(Piece::Done) => Some(Vec::new(alloc)),
            Err(fault) => Some(line_of(alloc, fault)?),
        };
        if !is_within(&engine.held(), &job.invocation.options.limits) {
            return Ok(false);
        }
        if let Some(wanted) = wanted_at(job.row.pieces.as_slice(), first) {
            if counts_of(&engine.held()) != wanted {
                return Ok(false);
            }
            met = met.saturating_add(1);
        }
        if let Some(line) = end {
            return Ok(
                left.is_empty()
                    && met == job.row.pieces.len()
                    && line.as_slice() == job.row.fault.as_slice()
                    && holds_what_it_wants(engine, job)
                    && keeps_end(alloc, engine, line.as_slice())?,
            );
        }
    }
    Ok(false)
}

// What is wanted to be held at a piece that begins with such a byte.
fn wanted_at(pieces: &[HeldPiece], first: Option<u8>) -> Option<[usize; 6]> {
    for piece in pieces {
        if Some(piece.first) == first {
            return Some(piece.held);
        }
    }
    None
}

// What is held, as a row has it.
fn counts_of(held: &Held) -> [usize; 6] {
    [
        held.definitions,
        held.arguments,
        held.cursors,
        held.bindings,
        held.sources,
        held.conditions,
    ]
}

// Whether an engine holds the definitions and arguments that its row wants at its end.
fn holds_what_it_wants(engine: &Engine<DealtTexts<'_>>, job: &Job<'_>) -> bool {
    let held = engine.held();
    match job.row.held {
        Some(wanted) => (held.definitions, held.arguments) == wanted,
        None => true,
    }
}

// Whether what is held is within what the limits allow.
fn is_within(held: &Held, limits: &Limits) -> bool {
    let texts = limits.includes.saturating_add(1);
    let most_bindings = limits.depth.saturating_mul(255);
    bytes_held(held) <= most_bytes(limits, texts)
        && held.cursors <= limits.depth
        && held.bindings <= most_bindings
        && held.conditions <= limits.conditions
        && held.sources <= texts
}

// How many bytes are held.
fn bytes_held(held: &Held) -> usize {
    held.definitions
        .saturating_add(held.arguments)
        .saturating_add(held.buffers)
}

// How many bytes the limits allow, with so many open texts.
fn most_bytes(limits: &Limits, texts: usize) -> usize {
    limits
        .definition_bytes
        .saturating_add(limits.argument_bytes)
        .saturating_add(texts.saturating_mul(limits.line_bytes))
}
