// Sources in memory that tell their texts, and that may ask for what they don't have.
ghost use Rattle.std.specs.Prelude.{◌≡◌, ◌≤◌, ℕ, List, [], None, false, min, drop, length, true, OnOk, OnErr, if◌then◌else◌};
ghost use Rattle.std.specs.Io.{ReadsAtMost};
ghost use Rattle.std.specs.String.{string_bytes};
ghost use Rattle.rdlpp_source.specs.Sources.{Finds, Reads, is_device, is_no_memory};
ghost use Rattle.rdlpp_source.specs.Search.{joined_path};
ghost use Rattle.rdlpp_source.specs.SharedText.{text_bytes};
ghost use Rattle.rdlpp_source.specs.Counts.{Counts};
ghost use Rattle.rdlpp_source.specs.Asked.{Answers, Comes, Adds, Ends, Stays, search_at, search_of, standing_at, wanted_of};

use crate::{Found, SearchedFolders, SharedText, SourceFault, Sources, set_path};
use arrayvec::ArrayString;
use std::alloc::{AllocError, Global};
use std::collections::BTreeMap;
use std::marker::Model;

/// What stands at a path.
#[derive(Drop)]
pub enum Standing {
    /// A text.
    Text(SharedText),
    /// Nothing: a search goes on after it.
    Absent,
    /// What can't be opened: a search of sources that ask ends there, as at a device that failed. In
    /// others nothing stands there.
    Failed,
}

/// Sources in memory over texts that their readers share, by this project's search rule, and that may ask for what
/// they don't have.
///
/// They tell their texts: `top` and `find` answer by what stands at each path and the order of
/// `folders`, and a reader gives the very text that stands there. Where `asks`, a candidate of which
/// nothing is known ends a search: `Device` is answered, and `wanted` has the candidate's path until
/// the next search; after `tell` of it the search may be made again. Else nothing stands at such a
/// path, and no search answers `Device`. An owned text that has `usize::MAX` readers has room for no
/// further one, which is told as `NoMemory`.
#[derive(Drop)]
pub struct AskedTexts {
    /// What is known of each path. One that has more than 1,024 bytes or an LF byte is never found.
    pub known: BTreeMap<String, Standing>,
    /// The include folders, in the order of the search.
    pub folders: Vec<String>,
    /// Whether paths of which nothing is known are asked for.
    pub asks: bool,
    /// The path that the last search asked for, where it did.
    pub wanted: Option<ArrayString<1024>>,
    /// How often a candidate couldn't be opened, or was asked for.
    pub failures: u64,
    /// How often a text had no room for a further reader.
    pub refusals: u64,
}

/// What reads a text of `AskedTexts`.
#[derive(Drop)]
pub struct AskedReader {
    text: SharedText,
    // how many of its bytes are left
    left: usize,
}

impl Model for AskedReader {
    ghost use Rattle.std.specs.Prelude.{ℕ, List, ◌-◌, ◌≤◌, drop, length};
    ghost use Rattle.rdlpp_source.specs.SharedText.{text_bytes};

    ghost Value = { List ℕ };

    ghost view = { λ r. drop (length (text_bytes r.text) - r.left) (text_bytes r.text) };

    ghost invariant = { λ r. r.left ≤ length (text_bytes r.text) };
}

impl AskedReader {
    // One that has read nothing yet.
    fn of(text: SharedText) -> AskedReader
        ensures { result ≡ text_bytes text }
    {
        AskedReader {
            left: text.bytes().len(),
            text,
        }
    }

    // The bytes that are left.
    fn rest(&self) -> &[u8]
        ensures { result.now ≡ self.now }
    {
        let text = self.text.bytes();
        &text[text.len() - self.left..]
    }

    // Passes so many bytes.
    fn pass(&mut self, len: usize)
        requires { len ≤ length self.old }
        ensures { self.new ≡ drop len self.old }
    {
        self.left -= len;
    }
}

// Why a search opened nothing.
#[derive(Drop)]
enum Stop {
    // No candidate exists.
    Absent,
    // A candidate is too long.
    PathTooLong,
    // A candidate can't be opened.
    Failed,
    // A text has no room for a further reader.
    NoMemory,
    // Nothing is known of a candidate.
    Wanted(ArrayString<1024>),
}

impl AskedTexts {
    /// Sources of which nothing is known, and which don't ask.
    #[tactic(auto, unfolding(crate::specs::Asked::standing_at))]
    pub fn empty(alloc: Global) -> AskedTexts
        ensures known { (q : List ℕ) → standing_at result q ≡ None }
        ensures folders { result.folders.items ≡ [] }
        ensures asks { result.asks ≡ false }
        ensures wanted { result.wanted ≡ None }
        ensures counts { (result.failures ≡ 0) × (result.refusals ≡ 0) }
    {
        AskedTexts {
            known: BTreeMap::new(alloc),
            folders: Vec::new(alloc),
            asks: false,
            wanted: None,
            failures: 0,
            refusals: 0,
        }
    }

    /// Adds what stands at a path, unless something is known of that path already.
    ///
    /// # Errors
    /// There is no memory for a further path; what is known stays.
    #[tactic(auto, using(std::proofs::lemmas::Map::Text::text_keys), unfolding(crate::specs::Asked::standing_at))]
    pub fn add(&mut self, path: String, standing: Standing) -> Result<(), AllocError>
        ensures added { OnOk result (Adds self.old self.new true (string_bytes path) standing) }
        ensures refused { OnErr result (Stays self.old self.new) }
        ensures only { self.new ≡ record self.old { known = self.new.known } }
    {
        if self.known.contains_key(path.as_str()) {
            return Ok(());
        }
        match self.known.insert(path, standing) {
            Ok(_) => Ok(()),
            Err(_) => Err(AllocError),
        }
    }

    /// Tells what stands at a path. The first that is told of a path counts, and where these sources
    /// don't ask all is told from the start: else nothing changes.
    ///
    /// # Errors
    /// There is no memory for a further path; nothing is known of it then, as before.
    pub fn tell(&mut self, path: String, standing: Standing) -> Result<(), AllocError>
        ensures told { OnOk result (Adds self.old self.new self.old.asks (string_bytes path) standing) }
        ensures refused { OnErr result (Stays self.old self.new) }
        ensures only { self.new ≡ record self.old { known = self.new.known } }
    {
        if !self.asks {
            return Ok(());
        }
        self.add(path, standing)
    }

    // The source of a name in a folder.
    #[tactic(auto, unfolding(crate::specs::Asked::standing_at))]
    fn open_in(&self, folder: &str, name: &str) -> Result<Found<AskedReader>, Stop>
        ensures { Comes (search_at self.now (joined_path folder.now name.now)) result }
    {
        let mut path = ArrayString::new();
        match set_path(&mut path, folder, name) {
            Ok(()) => {}
            Err(SourceFault::PathTooLong) => return Err(Stop::PathTooLong),
            Err(_) => return Err(Stop::Absent),
        }
        match self.known.get(path.as_str()) {
            Some(Standing::Text(text)) => match text.share() {
                Some(text) => Ok(Found {
                    path,
                    reader: AskedReader::of(text),
                }),
                None => Err(Stop::NoMemory),
            },
            Some(Standing::Absent) => Err(Stop::Absent),
            Some(Standing::Failed) => Err(self.if_asks(Stop::Failed)),
            None => Err(self.if_asks(Stop::Wanted(path))),
        }
    }

    // What ends a search where these sources ask: in others nothing stands there.
    fn if_asks(&self, stop: Stop) -> Stop
        ensures { result ≡ (if self.now.asks then stop else Stop.Absent) }
    {
        if self.asks { stop } else { Stop::Absent }
    }

    // The source that a name of an include directive names.
    #[tactic(auto, using(crate::proofs::Searches::found_or))]
    fn open_named(&self, from: &str, name: &str) -> Result<Found<AskedReader>, Stop>
        ensures { Comes (search_of self.now from.now name.now) result }
    {
        for folder in SearchedFolders::of(from, name, self.folders.as_slice()) {
            match self.open_in(folder, name) {
                Err(Stop::Absent) => {}
                answer => return answer,
            }
        }
        Err(Stop::Absent)
    }

    // Counts a failed search, and notes the path that it asked for.
    fn failed(&mut self, wanted: Option<ArrayString<1024>>) -> SourceFault
        ensures fault { result ≡ SourceFault.Device }
        ensures wanted { self.new.wanted ≡ wanted }
        ensures count { Counts true self.old.failures self.new.failures }
        ensures only { self.new ≡ record self.old { wanted = self.new.wanted; failures = self.new.failures } }
    {
        self.wanted = wanted;
        self.failures = self.failures.saturating_add(1);
        SourceFault::Device
    }

    // Tells how a search ended.
    fn ended(
        &mut self,
        answer: Result<Found<AskedReader>, Stop>,
    ) -> Result<Found<AskedReader>, SourceFault>
        ensures answer { Ends answer result (wanted_of self.new) }
        ensures failures { Counts (is_device result) self.old.failures self.new.failures }
        ensures refusals { Counts (is_no_memory result) self.old.refusals self.new.refusals }
        ensures only { self.new ≡ record self.old { wanted = self.new.wanted; failures = self.new.failures; refusals = self.new.refusals } }
    {
        self.wanted = None;
        let stop = match answer {
            Ok(found) => return Ok(found),
            Err(stop) => stop,
        };
        match stop {
            Stop::Absent => Err(SourceFault::Absent),
            Stop::PathTooLong => Err(SourceFault::PathTooLong),
            Stop::Failed => Err(self.failed(None)),
            Stop::Wanted(path) => Err(self.failed(Some(path))),
            Stop::NoMemory => {
                self.refusals = self.refusals.saturating_add(1);
                Err(SourceFault::NoMemory)
            }
        }
    }
}

impl Sources for AskedTexts {
    type Reader = AskedReader;

    ghost use Rattle.std.specs.Prelude.{⊤};
    ghost use Rattle.rdlpp_source.specs.Asked.{asked_catalog, failures_of, unread_of};

    ghost has_known_texts = { λ _. ⊤ };

    ghost catalog = { asked_catalog };

    ghost unread = { unread_of };

    ghost failures = { failures_of };

    ghost refusals = { λ s. s.refusals };

    fn top(&mut self, path: &str) -> Result<Found<AskedReader>, SourceFault>
        ensures answer { Answers (search_at self.old path.now) result (wanted_of self.new) }
        ensures finds { Finds unread_of ((asked_catalog self.old).top path.now) result }
        ensures unasked { self.old.asks ≡ false → is_device result ≡ false }
        ensures failures { Counts (is_device result) self.old.failures self.new.failures }
        ensures refusals { Counts (is_no_memory result) self.old.refusals self.new.refusals }
        ensures only { self.new ≡ record self.old { wanted = self.new.wanted; failures = self.new.failures; refusals = self.new.refusals } }
    {
        let answer = self.open_in("", path);
        self.ended(answer)
    }

    fn find(&mut self, from: &str, name: &str) -> Result<Found<AskedReader>, SourceFault>
        ensures answer { Answers (search_of self.old from.now name.now) result (wanted_of self.new) }
        ensures finds { Finds unread_of ((asked_catalog self.old).find from.now name.now) result }
        ensures unasked { self.old.asks ≡ false → is_device result ≡ false }
        ensures failures { Counts (is_device result) self.old.failures self.new.failures }
        ensures refusals { Counts (is_no_memory result) self.old.refusals self.new.refusals }
        ensures only { self.new ≡ record self.old { wanted = self.new.wanted; failures = self.new.failures; refusals = self.new.refusals } }
    {
        let answer = self.open_named(from, name);
        self.ended(answer)
    }

    fn read(&mut self, reader: &mut AskedReader, to: &mut [u8]) -> Result<usize, SourceFault>
        ensures bound { ReadsAtMost result to.new }
        ensures bytes { Reads reader.old reader.new result to.new }
        ensures count { result ≡ Ok (min (length to.old) (length reader.old)) }
        ensures unchanged { self.new ≡ self.old }
    {
        let rest = reader.rest();
        let len = to.len().min(rest.len());
        to[..len].copy_from_slice(&rest[..len]);
        reader.pass(len);
        Ok(len)
    }
}
