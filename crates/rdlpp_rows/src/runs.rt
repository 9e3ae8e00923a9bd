// Runs of a row over devices, and what they come to.
use crate::devices::{DealtTexts, DealtWriter, Devices, WHOLE};
use crate::row::Row;
use rdlpp::{Counted, Fault, FaultKind, PrepFault, RunFault, Texts, preprocess, report};
use rdlpp_expand::{Engine, Piece, run};
use rdlpp_words::Invocation;
use std::alloc::{AllocError, Global};

/// A row with what its words ask for, and its texts as they are run.
#[derive(Clone, Copy)]
pub struct Job<'a> {
    /// The row.
    pub row: &'a Row,
    /// What its words ask for.
    pub invocation: &'a Invocation,
    /// Its texts by their paths, the main text first.
    pub files: &'a [(&'a str, &'a [u8])],
    /// The include folders.
    pub folders: &'a [&'a str],
}

/// What a run came to.
#[derive(Drop)]
pub struct Ended {
    /// What the writer took.
    pub output: Vec<u8>,
    /// How many bytes each of its writes took.
    pub lens: Vec<usize>,
    /// The line that reports the fault that ended the run; nothing where none did.
    pub fault: Vec<u8>,
    /// The kind of that fault.
    pub kind: Option<FaultKind>,
    /// Whether the count of bytes written is that of the output, no write had none, and the end stayed as it was.
    pub is_sound: bool,
}

impl Ended {
    /// Whether the run came to what its row wants.
    pub fn is_wanted(&self, row: &Row) -> bool {
        self.is_sound
            && self.output.as_slice() == row.output.as_slice()
            && self.fault.as_slice() == row.fault.as_slice()
    }

    /// Whether two runs came to the same.
    pub fn is_same(&self, other: &Ended) -> bool {
        self.is_sound
            && other.is_sound
            && self.output.as_slice() == other.output.as_slice()
            && self.fault.as_slice() == other.fault.as_slice()
    }
}

/// Preprocesses a row in one call.
pub fn preprocess_row(alloc: Global, job: &Job<'_>, devices: Devices) -> Result<Ended, AllocError> {
    let mut sink = Counted::new(writer_of(alloc, devices));
    let source = job.invocation.source.as_str();
    let sources = sources_of(job, devices);
    let outcome = preprocess(alloc, &job.invocation.options, sources, source, &mut sink);
    let DealtWriter {
        taken: output,
        lens,
        flushes: _,
        devices: _,
    } = sink.into_writer();
    let (fault, kind, written) = match &outcome {
        Ok(written) => (Vec::new(alloc), None, *written),
        Err(PrepFault::Run(run)) => (
            line_of(alloc, &run.fault)?,
            Some(run.fault.kind),
            run.written,
        ),
        Err(_) => return Err(AllocError),
    };
    Ok(Ended {
        is_sound: written == output.len() as u64 && !lens.as_slice().contains(&0),
        output,
        lens,
        fault,
        kind,
    })
}

/// The line that reports a fault.
pub fn line_of(alloc: Global, fault: &Fault) -> Result<Vec<u8>, AllocError> {
    let mut line = Vec::new(alloc);
    let run = RunFault {
        fault: *fault,
        written: 0,
    };
    match report(&PrepFault::Run(run), &mut line) {
        Ok(()) => Ok(line),
        Err(_) => Err(AllocError),
    }
}

/// A row's engine before its start, with the definitions of its words; none where one of them is refused.
pub fn engine_of<'a>(
    alloc: Global,
    job: &Job<'a>,
    devices: Devices,
) -> Result<Option<Engine<DealtTexts<'a>>>, AllocError> {
    let options = &job.invocation.options;
    let sources = sources_of(job, devices);
    let Ok(mut engine) = Engine::new(alloc, options.limits, sources, options.origins) else {
        return Err(AllocError);
    };
    if define_words(&mut engine, job) {
        Ok(Some(engine))
    } else {
        Ok(None)
    }
}

/// Defines what the words of a row define, in an engine before its start, and answers whether none was refused.
pub fn define_words(engine: &mut Engine<DealtTexts<'_>>, job: &Job<'_>) -> bool {
    for (name, text) in &job.invocation.options.defines {
        if !define_word(engine, name.as_str(), text.as_str()) {
            return false;
        }
    }
    true
}

// Defines one macro in an engine before its start, and answers whether it wasn't refused.
fn define_word(engine: &mut Engine<DealtTexts<'_>>, name: &str, text: &str) -> bool {
    engine.is_fresh() && engine.define(name.as_bytes(), text.as_bytes()).is_ok()
}

/// Runs a row's engine, and asks again for its end; none where a definition of its words is refused.
pub fn run_row(
    alloc: Global,
    job: &Job<'_>,
    devices: Devices,
) -> Result<Option<Ended>, AllocError> {
    match engine_of(alloc, job, devices)? {
        Some(mut engine) => run_engine(alloc, &mut engine, job, devices),
        None => Ok(None),
    }
}

/// Runs an engine that has the definitions of a row, and asks again for its end; none where it was started.
pub fn run_engine(
    alloc: Global,
    engine: &mut Engine<DealtTexts<'_>>,
    job: &Job<'_>,
    devices: Devices,
) -> Result<Option<Ended>, AllocError> {
    if !engine.is_fresh() {
        return Ok(None);
    }
    let _opened = engine.start(job.invocation.source.as_str());
    let mut sink = Counted::new(writer_of(alloc, devices));
    let (fault, written) = match run(engine, &mut sink) {
        Ok(written) => (None, written),
        Err(run) => (Some(run.fault), run.written),
    };
    let DealtWriter {
        taken: output,
        lens,
        flushes: _,
        devices: _,
    } = sink.into_writer();
    let line = match &fault {
        Some(fault) => line_of(alloc, fault)?,
        None => Vec::new(alloc),
    };
    let is_kept = keeps_end(alloc, engine, line.as_slice())?;
    Ok(Some(Ended {
        is_sound: is_kept && written == output.len() as u64 && !lens.as_slice().contains(&0),
        output,
        lens,
        fault: line,
        kind: fault.map(|fault| fault.kind),
    }))
}

/// Whether an engine at its end stays there: run once more it writes nothing, each of three further pieces is that end, and
/// what is held stays the same.
pub fn keeps_end(
    alloc: Global,
    engine: &mut Engine<DealtTexts<'_>>,
    line: &[u8],
) -> Result<bool, AllocError> {
    let held = engine.held();
    for _ in 0..3 {
        if engine.is_fresh() {
            return Ok(false);
        }
        let again = match engine.next() {
            Ok(Piece::Bytes(_)) => return Ok(false),
            Ok(Piece::Done) => Vec::new(alloc),
            Err(fault) => line_of(alloc, fault)?,
        };
        if again.as_slice() != line || engine.held() != held {
            return Ok(false);
        }
    }
    if engine.is_fresh() {
        return Ok(false);
    }
    let mut sink = Counted::new(writer_of(alloc, WHOLE));
    let (again, written) = match run(engine, &mut sink) {
        Ok(written) => (Vec::new(alloc), written),
        Err(run) => (line_of(alloc, &run.fault)?, run.written),
    };
    Ok(again.as_slice() == line && written == 0 && engine.held() == held)
}

/// The sources of a row, by such devices.
pub fn sources_of<'a>(job: &Job<'a>, devices: Devices) -> DealtTexts<'a> {
    DealtTexts {
        texts: Texts {
            files: job.files,
            folders: job.folders,
        },
        found: match &job.row.found {
            Some(path) => Some(path.as_str()),
            None => None,
        },
        devices,
        failures: 0,
    }
}

/// A writer by such devices.
pub fn writer_of(alloc: Global, devices: Devices) -> DealtWriter {
    DealtWriter {
        taken: Vec::new(alloc),
        lens: Vec::new(alloc),
        flushes: 0,
        devices,
    }
}
