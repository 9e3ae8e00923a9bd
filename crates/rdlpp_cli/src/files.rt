//! The files that a run writes, of which none is a source.
ghost use Rattle.std.specs.Prelude.{◌≡◌};
ghost use Rattle.rdlpp_cli.specs.Statuses.{write_status};

use crate::{DEVICE_STATUS, USAGE_STATUS};
use rdlpp::{FileId, FilePair, OpenedPaths};
use rdlpp_words::Invocation;
use std::fs::{self, File, OpenOptions};
use std::io::{self, ErrorKind};

// The path by which standard input is looked at, and that of standard output.
const STANDARD_INPUT: &str = "/dev/stdin";

const STANDARD_OUTPUT: &str = "/dev/stdout";

/// Why a file isn't written.
#[derive(Clone, Copy)]
pub enum WriteFault {
    /// It can't be opened or written, or another output goes to it.
    Failed(io::Error),
    /// The run reads it as a source. It stays as it is.
    Source,
}

impl From<io::Error> for WriteFault {
    fn from(error: io::Error) -> WriteFault {
        WriteFault::Failed(error)
    }
}

impl WriteFault {
    /// The reason, as it is told.
    pub fn reason(&self) -> io::Error {
        match self {
            WriteFault::Failed(error) => *error,
            WriteFault::Source => {
                io::Error::new(ErrorKind::InvalidInput, "this file is a source")
            }
        }
    }

    /// The exit status that tells it: that of words which aren't a command line where the file is a source, and else that of
    /// a device that failed.
    pub fn status(&self) -> u8
        ensures { result ≡ write_status self.now }
    {
        match self {
            WriteFault::Failed(_) => DEVICE_STATUS,
            WriteFault::Source => USAGE_STATUS,
        }
    }
}

/// The files that a run writes, and that of the main text.
#[derive(Drop)]
pub struct RunFiles {
    // that of standard output, if the text goes there
    standard: Option<FileId>,
    // those that were opened to be written
    taken: [Option<FileId>; 4],
    // that of the main text
    main: Option<FileId>,
}

impl RunFiles {
    /// The file of the main text, and that of standard output where the text goes there; none where nothing is written but the
    /// text, to standard output.
    pub fn of(rt: &HostRuntime, invocation: &Invocation) -> RunFiles {
        let is_told = invocation.reports.is_any();
        let mut files = RunFiles {
            standard: None,
            taken: [None; 4],
            main: None,
        };
        if invocation.output.is_some() || is_told {
            files.main = match invocation.source.as_str() {
                "-" => file_at(rt, STANDARD_INPUT),
                path => file_at(rt, path),
            };
        }
        if invocation.output.is_none() && is_told {
            files.standard = file_at(rt, STANDARD_OUTPUT);
        }
        files
    }

    /// Opens the file at `path`, which is made or emptied, for the text or for a report that is written while sources are read.
    ///
    /// # Errors
    /// `Failed` with the error of the open; and where the file was opened before, or is that of standard output. Else `Source`
    /// where it is that of the main text. The file stays as it is then.
    pub fn open(&mut self, rt: &HostRuntime, path: &str) -> Result<File, WriteFault> {
        let file = open_unchanged(rt, path)?;
        self.empty(file, None)
    }

    /// The same for a report that is written when all of `opened` were read.
    ///
    /// # Errors
    /// As of `open`; also `Source` where one of `opened` lies in the file, and `Failed` where memory was refused for one of them.
    pub fn open_after(
        &mut self,
        rt: &HostRuntime,
        path: &str,
        opened: &OpenedPaths,
    ) -> Result<File, WriteFault> {
        if !opened.is_whole() {
            return Err(WriteFault::Failed(io::Error::from(ErrorKind::OutOfMemory)));
        }
        let file = open_unchanged(rt, path)?;
        self.empty(file, Some(opened))
    }

    // Empties a file, unless it is written already or is a source.
    fn empty(&mut self, file: File, opened: Option<&OpenedPaths>) -> Result<File, WriteFault> {
        let Some(id) = FileId::of(&file.metadata()?) else {
            return Ok(file);
        };
        if self.standard == Some(id) || self.taken.contains(&Some(id)) {
            let error = io::Error::new(ErrorKind::InvalidInput, "another output goes to this file");
            return Err(WriteFault::Failed(error));
        }
        if self.main == Some(id) || opened.is_some_and(|opened| opened.has(id)) {
            return Err(WriteFault::Source);
        }
        for taken in self.taken.iter_mut() {
            if taken.is_none() {
                *taken = Some(id);
                break;
            }
        }
        file.set_len(0)?;
        Ok(file)
    }

    /// The files that were opened, while these are two at most.
    pub fn opened(&self) -> FilePair {
        FilePair::of(self.taken[0], self.taken[1])
    }
}

// The regular file at a path, where there is one.
fn file_at(rt: &HostRuntime, path: &str) -> Option<FileId> {
    match fs::metadata(rt, path) {
        Ok(metadata) => FileId::of(&metadata),
        Err(_) => None,
    }
}

// Opens the file at a path to be written, which is made where there is none, and else stays as it is.
fn open_unchanged(rt: &HostRuntime, path: &str) -> io::Result<File> {
    OpenOptions::new().write(true).create(true).open(rt, path)
}
