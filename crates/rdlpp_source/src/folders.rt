// Sources over files.
ghost use Rattle.std.specs.Prelude.{◌≡◌, ◌≢◌, ℕ, ◌+◌, ◌-◌, ◌^◌, min, List, map, Option, IfOk, IfErr};
ghost use Rattle.std.specs.Io.{ReadsAtMost};
ghost use Rattle.std.specs.Io.KnownBytes.{ReadConsumes};
ghost use Rattle.rdlpp_source.specs.Counts.{Counts};
ghost use Rattle.rdlpp_source.specs.Sources.{is_absent, is_device, is_no_memory};
ghost use Rattle.rdlpp_source.specs.Search.{candidates, joined_path};

use crate::{
    FileId, FilePair, FileSources, Found, SearchedFolders, SourceFault, Sources, set_path,
};
use arrayvec::ArrayString;
use std::alloc::{AllocError, Global};
use std::cell::Cell;
use std::fs::{File, OpenFile};
use std::io::{self, ErrorKind, Read};
use std::rt::Files;

// The main path that stands for standard input.
const STANDARD_INPUT: &str = "-";

// Why a source isn't read that lies in a file which the run writes.
const WRITTEN: &str = "an output goes to this file";

/// Sources over files, by this project's search rule; the main path `-` is standard input.
///
/// They don't tell their texts: what a file holds, and which files there are, stands in no contract.
/// An open that finds nothing at a candidate passes on to the next one; any other failed open ends
/// the search, with `NoMemory` where memory was refused and else with `Device`. So does a file that
/// `guard` refuses, with `Device`. Reads go straight from the file into the bytes that are asked for.
#[derive(Drop)]
pub struct Folders<'r, R> {
    rt: &'r R,
    alloc: Global,
    folders: Vec<String>,
    failures: u64,
    refusals: u64,
    // the last file that failed, for whoever asks; no answer depends on it
    failed: Cell<Option<FileFailure>>,
    // where files are looked at, what the run writes while it reads: no source may lie there
    written: Cell<Option<FilePair>>,
}

/// A file that couldn't be opened or read, and why.
#[derive(Clone, Copy)]
pub struct FileFailure {
    /// The path that couldn't be opened; empty where a read of the innermost open source failed.
    pub path: ArrayString<1024>,
    /// The system's reason.
    pub error: io::Error,
}

/// What reads a text of `Folders`.
#[derive(Drop)]
pub enum FolderReader<I, F> {
    /// Standard input.
    Input(I),
    /// A file, and which one it is, where files are looked at.
    File(F, Option<FileId>),
}

// Whether nothing stands at a candidate.
fn is_absent<T>(answer: &Result<T, SourceFault>) -> bool
    ensures { result ≡ is_absent answer.now }
{
    matches!(answer, Err(SourceFault::Absent))
}

// What an open that failed comes to.
fn open_fault(kind: ErrorKind) -> SourceFault
    ensures absent { kind ≡ ErrorKind.NotFound → result ≡ SourceFault.Absent }
    ensures no_memory { kind ≡ ErrorKind.OutOfMemory → result ≡ SourceFault.NoMemory }
    ensures device { kind ≢ ErrorKind.NotFound → kind ≢ ErrorKind.OutOfMemory → result ≡ SourceFault.Device }
{
    match kind {
        ErrorKind::NotFound => SourceFault::Absent,
        ErrorKind::OutOfMemory => SourceFault::NoMemory,
        _ => SourceFault::Device,
    }
}

impl<I: Read, F: Read> FolderReader<I, F> {
    ghost use Rattle.rdlpp_source.specs.Folders.{unread_bytes};

    // Reads the next bytes into the front of `to`.
    fn read(&mut self, to: &mut [u8]) -> io::Result<usize>
        ensures bound { ReadsAtMost result to.new }
        ensures consumes { ReadConsumes (unread_bytes I.remaining F.remaining self.old)
            (unread_bytes I.remaining F.remaining self.new) result to.new }
    {
        match self {
            FolderReader::Input(input) => input.read(to),
            FolderReader::File(file, _) => file.read(to),
        }
    }
}

impl<'r, R: Files + Input> Folders<'r, R> {
    ghost use Rattle.rdlpp_source.specs.Folders.{include_folders, device_failures, memory_refusals, IsFile, IsReaderOf, OpensPath, SearchesPaths};

    /// Sources over the files of `rt`, with these include folders in the order of the search.
    ///
    /// Nothing is opened here. Each later search asks `alloc` for one growth for each file that it tries
    /// to open, and standard input for one that has its reader.
    ///
    /// # Errors
    /// `AllocError` where there was no memory for the folders.
    pub fn new(rt: &'r R, alloc: Global, folders: &[&str]) -> Result<Folders<'r, R>, AllocError>
        ensures folders { IfOk result (λ made. include_folders made ≡ map (λ folder. folder.now) folders.now) }
        ensures failures { IfOk result (λ made. device_failures made ≡ 0) }
        ensures refusals { IfOk result (λ made. memory_refusals made ≡ 0) }
    {
        let mut kept = Vec::new(alloc);
        for folder in folders {
            kept.push(String::from_str(alloc, folder)?)?;
        }
        Ok(Folders {
            rt,
            alloc,
            folders: kept,
            failures: 0,
            refusals: 0,
            failed: Cell::new(None),
            written: Cell::new(None),
        })
    }

    /// Looks at each file that is opened from now on, so that it is known which one it is. No source is read that lies in one of
    /// `written`, which the run writes, as if the device failed.
    pub fn guard(&self, written: FilePair) {
        self.written.set(Some(written));
    }

    // Which file was opened, where files are looked at.
    fn looked_at(&self, file: &R::File) -> Option<FileId> {
        if self.written.get().is_none() {
            return None;
        }
        match file.metadata() {
            Ok(metadata) => FileId::of(&metadata),
            Err(_) => None,
        }
    }

    // Whether the run writes a file.
    fn is_written(&self, file: Option<FileId>) -> bool {
        match (self.written.get(), file) {
            (Some(written), Some(file)) => written.has(file),
            _ => false,
        }
    }

    // Keeps why a file couldn't be opened.
    fn keep_failure(&self, path: ArrayString<1024>, error: io::Error) {
        self.failed.set(Some(FileFailure { path, error }));
    }

    /// The last file that couldn't be opened or read, but for those that aren't there.
    pub fn failure(&self) -> Option<FileFailure> {
        self.failed.get()
    }

    // The file of a name in a folder.
    fn open_in(
        &self,
        folder: &str,
        name: &str,
    ) -> Result<Found<FolderReader<Box<R::Reader>, R::File>>, SourceFault>
        ensures path { OpensPath (joined_path folder.now name.now) result }
        ensures file { IfOk result (λ found. IsFile found.reader) }
    {
        let mut path = ArrayString::new();
        set_path(&mut path, folder, name)?;
        let Ok(text) = String::from_str(self.alloc, path.as_str()) else {
            self.keep_failure(path, io::Error::from(ErrorKind::OutOfMemory));
            return Err(SourceFault::NoMemory);
        };
        match File::open(self.rt, text.as_str()) {
            Ok(file) => {
                let id = self.looked_at(&file);
                if self.is_written(id) {
                    self.keep_failure(path, io::Error::new(ErrorKind::InvalidInput, WRITTEN));
                    return Err(SourceFault::Device);
                }
                Ok(Found {
                    path,
                    reader: FolderReader::File(file, id),
                })
            }
            Err(error) => {
                if error.kind() != ErrorKind::NotFound {
                    self.keep_failure(path, error);
                }
                Err(open_fault(error.kind()))
            }
        }
    }

    // The main text: standard input, or the file at its path.
    fn open_main(
        &self,
        path: &str,
    ) -> Result<Found<FolderReader<Box<R::Reader>, R::File>>, SourceFault>
        ensures path { OpensPath path.now result }
        ensures reader { IfOk result (λ found. IsReaderOf path.now found.reader) }
    {
        if path == STANDARD_INPUT {
            let mut path = ArrayString::new();
            set_path(&mut path, "", STANDARD_INPUT)?;
            let Ok(input) = Box::new(self.alloc, self.rt.reader()) else {
                self.keep_failure(path, io::Error::from(ErrorKind::OutOfMemory));
                return Err(SourceFault::NoMemory);
            };
            let reader = FolderReader::Input(input);
            return Ok(Found { path, reader });
        }
        self.open_in("", path)
    }

    // The file of a name that a source includes.
    fn search(
        &self,
        from: &str,
        name: &str,
    ) -> Result<Found<FolderReader<Box<R::Reader>, R::File>>, SourceFault>
        ensures paths { SearchesPaths (candidates (include_folders self.now) from.now name.now) result }
        ensures file { IfOk result (λ found. IsFile found.reader) }
    {
        for folder in SearchedFolders::of(from, name, self.folders.as_slice()) {
            let answer = self.open_in(folder, name);
            if !is_absent(&answer) {
                return answer;
            }
        }
        Err(SourceFault::Absent)
    }

    // Counts the failure or the refusal that an answer tells, and gives the answer.
    fn counted<T>(&mut self, answer: Result<T, SourceFault>) -> Result<T, SourceFault>
        ensures answer { result ≡ answer }
        ensures failures { Counts (is_device answer) (device_failures self.old) (device_failures self.new) }
        ensures refusals { Counts (is_no_memory answer) (memory_refusals self.old) (memory_refusals self.new) }
        ensures folders { include_folders self.new ≡ include_folders self.old }
    {
        match &answer {
            Err(SourceFault::Device) => self.failures = self.failures.saturating_add(1),
            Err(SourceFault::NoMemory) => self.refusals = self.refusals.saturating_add(1),
            _ => {}
        }
        answer
    }
}

impl<'r, R: Files + Input> Sources for Folders<'r, R> {
    type Reader = FolderReader<Box<R::Reader>, R::File>;

    ghost use Rattle.std.specs.Prelude.{[]};
    ghost use Rattle.rdlpp_source.specs.Sources.{Missing};
    ghost use Rattle.rdlpp_source.specs.Folders.{include_folders, device_failures, memory_refusals, unread_bytes, IsFile, IsReaderOf, OpensPath, SearchesPaths};

    ghost has_known_texts = { λ _. ⊥ };

    ghost catalog = { λ _. record { top = λ _. Missing; find = λ _ _. Missing } };

    ghost unread = { λ _. [] };

    ghost failures = { device_failures };

    ghost refusals = { memory_refusals };

    fn top(
        &mut self,
        path: &str,
    ) -> Result<Found<FolderReader<Box<R::Reader>, R::File>>, SourceFault>
        ensures path { OpensPath path.now result }
        ensures reader { IfOk result (λ found. IsReaderOf path.now found.reader) }
        ensures folders { include_folders self.new ≡ include_folders self.old }
        ensures failures { Counts (is_device result) (device_failures self.old) (device_failures self.new) }
        ensures refusals { Counts (is_no_memory result) (memory_refusals self.old) (memory_refusals self.new) }
    {
        let answer = self.open_main(path);
        self.counted(answer)
    }

    fn find(
        &mut self,
        from: &str,
        name: &str,
    ) -> Result<Found<FolderReader<Box<R::Reader>, R::File>>, SourceFault>
        ensures path { SearchesPaths (candidates (include_folders self.old) from.now name.now) result }
        ensures file { IfOk result (λ found. IsFile found.reader) }
        ensures folders { include_folders self.new ≡ include_folders self.old }
        ensures failures { Counts (is_device result) (device_failures self.old) (device_failures self.new) }
        ensures refusals { Counts (is_no_memory result) (memory_refusals self.old) (memory_refusals self.new) }
    {
        let answer = self.search(from, name);
        self.counted(answer)
    }

    fn read(
        &mut self,
        reader: &mut FolderReader<Box<R::Reader>, R::File>,
        to: &mut [u8],
    ) -> Result<usize, SourceFault>
        ensures bound { ReadsAtMost result to.new }
        ensures only { IfErr result (λ fault. fault ≡ SourceFault.Device) }
        ensures consumes { ReadConsumes (unread_bytes (λ input. R.Reader.remaining input.value) R.File.remaining reader.old)
            (unread_bytes (λ input. R.Reader.remaining input.value) R.File.remaining reader.new) result to.new }
        ensures folders { include_folders self.new ≡ include_folders self.old }
        ensures failures { Counts (is_device result) (device_failures self.old) (device_failures self.new) }
        ensures refusals { memory_refusals self.new ≡ memory_refusals self.old }
    {
        let answer = match reader.read(to) {
            Ok(len) => Ok(len),
            Err(error) => {
                let path = ArrayString::new();
                self.failed.set(Some(FileFailure { path, error }));
                Err(SourceFault::Device)
            }
        };
        self.counted(answer)
    }
}

impl<'r, R: Files + Input> FileSources for Folders<'r, R> {
    ghost use Rattle.rdlpp_source.specs.Folders.{known_file};

    ghost lies_in = { known_file };

    fn file(&self, reader: &FolderReader<Box<R::Reader>, R::File>) -> Option<FileId> {
        match reader {
            FolderReader::Input(_) => None,
            FolderReader::File(_, id) => *id,
        }
    }
}
