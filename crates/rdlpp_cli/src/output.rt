//! Where the program's text goes.
use crate::files::{RunFiles, WriteFault};
use std::fs::File;
use std::io::{self, Write};
use std::rt::Stdout;

/// Standard output, or a file, and why it failed last.
#[derive(Drop)]
pub struct Output {
    to: Target,
    failure: Option<io::Error>,
}

// Standard output, or a file.
#[derive(Drop)]
enum Target {
    Standard(Stdout),
    File(File),
}

impl Output {
    /// The error of the last write or flush that failed.
    pub fn failure(&self) -> Option<io::Error> {
        self.failure
    }
}

impl Write for Output {
    fn write(&mut self, part: &[u8]) -> io::Result<usize> {
        let written = match &mut self.to {
            Target::Standard(stdout) => stdout.write(part),
            Target::File(file) => file.write(part),
        };
        if let Err(error) = &written {
            self.failure = Some(*error);
        }
        written
    }

    fn flush(&mut self) -> io::Result<()> {
        let flushed = match &mut self.to {
            Target::Standard(stdout) => stdout.flush(),
            Target::File(file) => file.flush(),
        };
        if let Err(error) = &flushed {
            self.failure = Some(*error);
        }
        flushed
    }
}

/// Opens the file at `path`, which is made or emptied, or standard output where there is no path.
///
/// # Errors
/// As of `RunFiles::open`.
pub fn open_output(
    rt: &HostRuntime,
    files: &mut RunFiles,
    path: Option<&String>,
) -> Result<Output, WriteFault> {
    let to = match path {
        Some(path) => Target::File(files.open(rt, path.as_str())?),
        None => Target::Standard(rt.stdout()),
    };
    Ok(Output { to, failure: None })
}
