//! Sources: texts that are found by name and read piece by piece.
ghost use Rattle.std.specs.Prelude.{◌≡◌, ℕ, List, IfErr};
ghost use Rattle.std.specs.Io.{ReadsAtMost};
ghost use Rattle.rdlpp_source.specs.Counts.{Counts};

use arrayvec::ArrayString;

/// A source that was opened.
#[derive(Drop)]
pub struct Found<R> {
    /// The path under which it was found, of at most 1,024 bytes of UTF-8. It is the first shown
    /// name of the source, and the folder of its includes is taken from it.
    pub path: ArrayString<1024>,
    /// What reads its text, from the first byte on.
    pub reader: R,
}

/// Why a search or a read gave nothing.
#[derive(Clone, Copy, Debug, PartialEq, Eq)]
pub enum SourceFault {
    /// No candidate exists.
    Absent,
    /// A candidate has more than 1,024 bytes, which ends the search.
    PathTooLong,
    /// A device failed.
    Device,
    /// Memory was refused.
    NoMemory,
}

/// Texts that are found by name and read piece by piece.
///
/// A value counts its device failures and its refusals for memory, each up to `u64::MAX`, where a
/// count stays and is taken as risen. `Device` and `NoMemory` are answered only by a call in which
/// their count rose, and a count rises only in a call that answers so.
///
/// A value says in contracts whether it tells its texts. One that does answers each search as its
/// catalog says, the same at each call, and its readers give the very text that was found. Of one
/// that doesn't, as of files, nothing is known but the counts. The rules are this project's.
pub trait Sources: Drop {
    ghost use Rattle.rdlpp_source.specs.Sources.{Catalog, Finds, Reads, is_device, is_no_memory};

    /// What reads the text of one open source.
    type Reader: Drop;

    // whether the value tells its texts
    ghost has_known_texts: { Self → Type 0 };

    // what each search answers, where the value tells its texts
    ghost catalog: { Self → Catalog };

    // the bytes that a reader has still to give, where the value tells its texts
    ghost unread: { Self.Reader → List ℕ };

    // how often a device failed
    ghost failures: { Self → ℕ };

    // how often memory was refused
    ghost refusals: { Self → ℕ };

    /// Opens the source whose path is `path`, which is the one candidate, as for the main text.
    ///
    /// `Absent` where there is none, also where `path` has an LF byte; `PathTooLong` where `path`
    /// has more than 1,024 bytes; `Device` or `NoMemory` where the value's count of it rose. After
    /// a refusal no source is open that wasn't, and the value is as good as before. The search
    /// rule is this project's.
    fn top(&mut self, path: &str) -> Result<Found<Self::Reader>, SourceFault>
        ensures answer { has_known_texts self.old → Finds unread ((catalog self.old).top path.now) result }
        ensures failures { Counts (is_device result) (failures self.old) (failures self.new) }
        ensures refusals { Counts (is_no_memory result) (refusals self.old) (refusals self.new) }
        ensures has_known_texts { has_known_texts self.old → has_known_texts self.new }
        ensures catalog { catalog self.new ≡ catalog self.old };

    /// Opens the source that `name` names, as it stands in an include directive of the source whose
    /// path is `from`.
    ///
    /// A name that begins with `/` is the one candidate. The candidates of any other are the name
    /// joined to the folder of `from`, then to each include folder of the value in order. The
    /// folder of a path is all up to and with its last `/`, or nothing; a folder is joined as it is
    /// where it is empty or ends in `/`, and else with one `/`. Paths aren't rewritten. The first
    /// candidate that exists is opened; one with an LF byte doesn't.
    ///
    /// `Absent` where no candidate exists; `PathTooLong` at a candidate of more than 1,024 bytes,
    /// which ends the search, where none before it exists; `Device` or `NoMemory` where the value's
    /// count of it rose. After a refusal no source is open that wasn't, and the value is as good as
    /// before. The search rule is this project's.
    fn find(&mut self, from: &str, name: &str) -> Result<Found<Self::Reader>, SourceFault>
        ensures answer { has_known_texts self.old → Finds unread ((catalog self.old).find from.now name.now) result }
        ensures failures { Counts (is_device result) (failures self.old) (failures self.new) }
        ensures refusals { Counts (is_no_memory result) (refusals self.old) (refusals self.new) }
        ensures has_known_texts { has_known_texts self.old → has_known_texts self.new }
        ensures catalog { catalog self.new ≡ catalog self.old };

    /// Reads the next bytes of a source into the front of `to`, and answers how many: from 0 to
    /// the length of `to`. What stands in `to` after them is left open.
    ///
    /// 0 where `to` is empty or no byte is left. The one refusal is `Device`, where the count of
    /// device failures rose; no byte of the text is taken then, and a later read goes on where
    /// the last good one ended.
    fn read(&mut self, reader: &mut Self::Reader, to: &mut [u8]) -> Result<usize, SourceFault>
        ensures bound { ReadsAtMost result to.new }
        ensures only { IfErr result (λ fault. fault ≡ SourceFault.Device) }
        ensures bytes { has_known_texts self.old → Reads (unread reader.old) (unread reader.new) result to.new }
        ensures failures { Counts (is_device result) (failures self.old) (failures self.new) }
        ensures refusals { refusals self.new ≡ refusals self.old }
        ensures has_known_texts { has_known_texts self.old → has_known_texts self.new }
        ensures catalog { catalog self.new ≡ catalog self.old };
}
