//! Sources that note what is opened.
ghost use Rattle.std.specs.Prelude.{◌≡◌, [], map, true, false, IfErr};
ghost use Rattle.std.specs.Io.{ReadsAtMost};
ghost use Rattle.std.specs.List.{list_any};
ghost use Rattle.std.specs.String.{string_bytes};
ghost use Rattle.rdlpp_source.specs.Counts.{Counts};
ghost use Rattle.rdlpp_source.specs.Sources.{Finds, Reads, is_device, is_no_memory};
ghost use Rattle.rdlpp_reports.specs.Recorded.{firsts, is_noting, is_same, is_whole, noted_paths, noted_sources, paths_of, told_of, NotesOpening, NotesPath, NotesWhere};

use indexmap::IndexSet;
use rdlpp_source::{FileId, FileSources, Found, SourceFault, Sources};
use std::alloc::Global;

/// The sources that were opened, in the order in which they were opened first: of each file the path by which it was opened first,
/// and of what lies in no file that is known each path, once.
#[derive(Drop)]
pub struct OpenedPaths {
    alloc: Global,
    paths: IndexSet<String>,
    files: IndexSet<FileId>,
    // whether memory was there for each of them
    is_whole: bool,
}

impl OpenedPaths {
    /// None yet.
    pub fn new(alloc: Global) -> OpenedPaths
        ensures told { told_of result ≡ firsts [] }
        ensures whole { is_whole result ≡ true }
    {
        OpenedPaths {
            alloc,
            paths: IndexSet::new(alloc),
            files: IndexSet::new(alloc),
            is_whole: true,
        }
    }

    /// Whether each source that was noted is told: memory was refused for none.
    pub fn is_whole(&self) -> bool
        ensures { result ≡ is_whole self.now }
    {
        self.is_whole
    }

    /// The paths.
    pub fn paths(&self) -> &[String]
        ensures { map string_bytes result.now ≡ paths_of self.now }
    {
        self.paths.as_slice()
    }

    /// Whether a source lies in a file.
    pub fn has(&self, file: FileId) -> bool
        ensures { result ≡ list_any (is_same file) (told_of self.now).files }
    {
        self.files.contains(&file)
    }

    // Notes a source after the others, unless its file or its path is here.
    fn note(&mut self, path: &str, file: Option<FileId>)
        ensures { NotesOpening self.old self.new (record { path = path.now; file = file }) }
    {
        let Some(file) = file else {
            return self.note_path(path);
        };
        match self.files.insert(file) {
            Ok(true) => self.note_path(path),
            Ok(false) => {}
            Err(_) => self.is_whole = false,
        }
    }

    // Notes a path after the others, unless it is here.
    #[tactic(auto, using(crate::proofs::Paths::noted_key))]
    fn note_path(&mut self, path: &str)
        ensures { NotesPath self.old self.new path.now }
    {
        let Ok(path) = String::from_str(self.alloc, path) else {
            self.is_whole = false;
            return;
        };
        match self.paths.insert(path) {
            Ok(_) => {}
            Err(_) => self.is_whole = false,
        }
    }
}

/// Sources over others, which may note each source that they open, by its path and its file.
///
/// They answer what the sources below answer, and count as these do. Where memory is refused for a source, what is told isn't
/// whole, and nothing else changes.
#[derive(Drop)]
pub struct Recorded<S> {
    sources: S,
    opened: OpenedPaths,
    is_noting: bool,
}

impl<S: FileSources> Recorded<S> {
    /// Sources over others, with none noted, which note each.
    pub fn new(alloc: Global, sources: S) -> Recorded<S>
        ensures sources { noted_sources result ≡ sources }
        ensures told { told_of (noted_paths result) ≡ firsts [] }
        ensures whole { is_whole (noted_paths result) ≡ true }
        ensures noting { is_noting result ≡ true }
    {
        Recorded {
            sources,
            opened: OpenedPaths::new(alloc),
            is_noting: true,
        }
    }

    /// Sources over others, with none noted, which note none.
    pub fn silent(alloc: Global, sources: S) -> Recorded<S>
        ensures sources { noted_sources result ≡ sources }
        ensures told { told_of (noted_paths result) ≡ firsts [] }
        ensures whole { is_whole (noted_paths result) ≡ true }
        ensures noting { is_noting result ≡ false }
    {
        Recorded {
            sources,
            opened: OpenedPaths::new(alloc),
            is_noting: false,
        }
    }

    /// The sources below.
    pub fn sources(&self) -> &S
        ensures { result.now ≡ noted_sources self.now }
    {
        &self.sources
    }

    /// The sources that were opened and noted.
    pub fn opened(&self) -> &OpenedPaths
        ensures { result.now ≡ noted_paths self.now }
    {
        &self.opened
    }

    // Notes what was found, where sources are noted.
    fn note(&mut self, answer: &Result<Found<S::Reader>, SourceFault>)
        ensures notes { NotesWhere S.lies_in (is_noting self.old) (noted_paths self.old) (noted_paths self.new) answer.now }
        ensures noting { is_noting self.new ≡ is_noting self.old }
        ensures sources { noted_sources self.new ≡ noted_sources self.old }
    {
        if !self.is_noting {
            return;
        }
        if let Ok(found) = answer {
            let file = self.sources.file(&found.reader);
            self.opened.note(found.path.as_str(), file);
        }
    }
}

impl<S: FileSources> Sources for Recorded<S> {
    type Reader = S::Reader;

    ghost use Rattle.rdlpp_reports.specs.Recorded.{is_noting, noted_sources, noted_paths, NotesWhere};

    ghost has_known_texts = { λ r. S.has_known_texts (noted_sources r) };

    ghost catalog = { λ r. S.catalog (noted_sources r) };

    ghost unread = { S.unread };

    ghost failures = { λ r. S.failures (noted_sources r) };

    ghost refusals = { λ r. S.refusals (noted_sources r) };

    fn top(&mut self, path: &str) -> Result<Found<S::Reader>, SourceFault>
        ensures answer { S.has_known_texts (noted_sources self.old) → Finds S.unread ((S.catalog (noted_sources self.old)).top path.now) result }
        ensures failures { Counts (is_device result) (S.failures (noted_sources self.old)) (S.failures (noted_sources self.new)) }
        ensures refusals { Counts (is_no_memory result) (S.refusals (noted_sources self.old)) (S.refusals (noted_sources self.new)) }
        ensures has_known_texts { S.has_known_texts (noted_sources self.old) → S.has_known_texts (noted_sources self.new) }
        ensures catalog { S.catalog (noted_sources self.new) ≡ S.catalog (noted_sources self.old) }
        ensures notes { NotesWhere S.lies_in (is_noting self.old) (noted_paths self.old) (noted_paths self.new) result }
        ensures noting { is_noting self.new ≡ is_noting self.old }
    {
        let answer = self.sources.top(path);
        self.note(&answer);
        answer
    }

    fn find(&mut self, from: &str, name: &str) -> Result<Found<S::Reader>, SourceFault>
        ensures answer { S.has_known_texts (noted_sources self.old) → Finds S.unread ((S.catalog (noted_sources self.old)).find from.now name.now) result }
        ensures failures { Counts (is_device result) (S.failures (noted_sources self.old)) (S.failures (noted_sources self.new)) }
        ensures refusals { Counts (is_no_memory result) (S.refusals (noted_sources self.old)) (S.refusals (noted_sources self.new)) }
        ensures has_known_texts { S.has_known_texts (noted_sources self.old) → S.has_known_texts (noted_sources self.new) }
        ensures catalog { S.catalog (noted_sources self.new) ≡ S.catalog (noted_sources self.old) }
        ensures notes { NotesWhere S.lies_in (is_noting self.old) (noted_paths self.old) (noted_paths self.new) result }
        ensures noting { is_noting self.new ≡ is_noting self.old }
    {
        let answer = self.sources.find(from, name);
        self.note(&answer);
        answer
    }

    fn read(&mut self, reader: &mut S::Reader, to: &mut [u8]) -> Result<usize, SourceFault>
        ensures bound { ReadsAtMost result to.new }
        ensures only { IfErr result (λ fault. fault ≡ SourceFault.Device) }
        ensures bytes { S.has_known_texts (noted_sources self.old) → Reads (S.unread reader.old) (S.unread reader.new) result to.new }
        ensures failures { Counts (is_device result) (S.failures (noted_sources self.old)) (S.failures (noted_sources self.new)) }
        ensures refusals { S.refusals (noted_sources self.new) ≡ S.refusals (noted_sources self.old) }
        ensures has_known_texts { S.has_known_texts (noted_sources self.old) → S.has_known_texts (noted_sources self.new) }
        ensures catalog { S.catalog (noted_sources self.new) ≡ S.catalog (noted_sources self.old) }
        ensures notes { noted_paths self.new ≡ noted_paths self.old }
        ensures noting { is_noting self.new ≡ is_noting self.old }
    {
        self.sources.read(reader, to)
    }
}
