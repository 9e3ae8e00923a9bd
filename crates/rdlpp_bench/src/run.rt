//! One call of the library.
use crate::digest::Digest;
use rdlpp::{Buffered, Counted, Limits, Options, PrepFault, Preprocessor, Texts, preprocess};
use std::alloc::{AllocError, Global};

// The bytes of the buffer in front of the output, as the program has it.
const BUFFER_BYTES: usize = 32_768;

/// Preprocesses the text `main` of some files, and adds what came of it to a digest.
pub fn run_files(
    alloc: Global,
    limits: Limits,
    files: &[(&str, &[u8])],
    total: &mut Digest,
) -> Result<(), AllocError> {
    let sources = Texts {
        files,
        folders: &[],
    };
    let options = plain_options(alloc, limits);
    let mut output = Buffered::with_capacity(alloc, BUFFER_BYTES, Digest::new())?;
    let outcome = preprocess(alloc, &options, sources, "main", &mut output);
    total.number(output.writer().value());
    add_outcome(total, &outcome);
    Ok(())
}

/// The same for one text, by the standard limits and with no buffer in front of the output.
pub fn run_short(alloc: Global, text: &[u8], total: &mut Digest) {
    let files = [("main", text)];
    let sources = Texts {
        files: &files,
        folders: &[],
    };
    let options = plain_options(alloc, Limits::standard());
    let mut output = Counted::new(Digest::new());
    let outcome = preprocess(alloc, &options, sources, "main", &mut output);
    total.number(output.into_writer().value());
    add_outcome(total, &outcome);
}

/// The same for each text of some files, one after another in one engine.
pub fn run_each(alloc: Global, files: &[(&str, &[u8])], total: &mut Digest) {
    let mut preprocessor = Preprocessor::new(alloc, plain_options(alloc, Limits::standard()));
    for file in files.chunks(1) {
        let sources = Texts {
            files: file,
            folders: &[],
        };
        let mut output = Counted::new(Digest::new());
        let outcome = preprocessor.preprocess(sources, "main", &mut output);
        total.number(output.into_writer().value());
        add_outcome(total, &outcome);
    }
}

// Options with no definition from outside and no origin comments.
fn plain_options(alloc: Global, limits: Limits) -> Options {
    Options {
        defines: Vec::new(alloc),
        limits,
        origins: false,
    }
}

// Adds how a run ended.
fn add_outcome(total: &mut Digest, outcome: &Result<u64, PrepFault>) {
    match outcome {
        Ok(written) => total.number(*written),
        Err(PrepFault::Run(ended)) => {
            total.number(ended.written);
            total.number(u64::from(ended.fault.kind.number()));
            total.number(ended.fault.line);
        }
        Err(PrepFault::BadLimits(_)) => total.number(u64::MAX),
        Err(PrepFault::NoMemory) => total.number(u64::MAX - 1),
    }
}
