// What is kept of texts that are given once: of each path the mark of its text, by which another one is told from it.
ghost use Rattle.std.specs.Prelude.{◌≡◌, ◌++◌, ℕ, List, IfOk, OnOk, OnErr, None, Some, bytes_eq, true, if◌then◌else◌};
ghost use Rattle.rdlpp_source.specs.Asked.{Adds, Stays, standing_at};
ghost use Rattle.rdlpp_c.specs.Once.{Frees, GivenOnce, Stands, freed_at, is_open, is_other, last_of, mark_at, mark_of};

use crate::digest::digest_of;
use crate::knowing::shared_text;
use rdlpp_source::{AskedTexts, Standing};
use std::alloc::{AllocError, Global};
use std::collections::BTreeMap;

// What became of a text that was given.
#[derive(Clone, Copy)]
pub(crate) enum Given {
    // Something is known of its path already, or the sources don't ask.
    Known,
    // It was taken.
    Taken,
    // It is another one than before.
    Other,
}

// What tells a text from others: its length and its digest.
#[derive(Clone, Copy)]
pub(crate) struct Mark {
    length: usize,
    digest: u64,
}

impl Mark {
    // The mark of a text.
    fn of(text: &[u8]) -> Mark
        ensures { result ≡ mark_of text.now }
    {
        Mark {
            length: text.len(),
            digest: digest_of(text),
        }
    }
}

// What is kept of texts that are given once.
#[derive(Drop)]
pub(crate) struct Once {
    // of each path the mark of its text
    marks: BTreeMap<String, Mark>,
    // the path whose text is known until the next one is given
    last: Option<String>,
}

impl Once {
    // Nothing yet.
    #[tactic(auto, unfolding(crate::specs::Once::mark_at))]
    pub(crate) fn empty(alloc: Global) -> Once
        ensures marks { (q : List ℕ) → mark_at result q ≡ None }
        ensures last { last_of result ≡ None }
    {
        Once {
            marks: BTreeMap::new(alloc),
            last: None,
        }
    }

    // Forgets the text that was given last.
    #[tactic(auto, using(std::proofs::lemmas::Map::Text::text_keys), unfolding(rdlpp_source::specs::Asked::standing_at))]
    fn free(&mut self, sources: &mut AskedTexts)
        ensures sources { Frees self.old sources.old sources.new }
        ensures last { last_of self.new ≡ None }
        ensures only { self.new ≡ record self.old { last = self.new.last } }
    {
        if let Some(path) = self.last.take() {
            let _text = sources.known.remove(path.as_str());
        }
    }

    // Whether a text isn't the one that was given of its path before.
    #[tactic(auto, unfolding(crate::specs::Once::mark_at))]
    fn is_other(&self, path: &str, mark: &Mark) -> bool
        ensures { result ≡ is_other (mark_at self.now path.now) mark.now }
    {
        match self.marks.get(path) {
            Some(first) => !(first.length == mark.length && first.digest == mark.digest),
            None => false,
        }
    }

    // Gives the text of the source at a path, which goes on after parts of it, and forgets the one that was given last. Its
    // mark is kept: another text than the one that was given of this path before is told as a source that can't be opened.
    // Where memory was refused nothing is known of the path, as before.
    pub(crate) fn give(
        &mut self,
        alloc: Global,
        sources: &mut AskedTexts,
        path: &str,
        parts: Vec<u8>,
        text: &[u8],
    ) -> Result<Given, AllocError>
        ensures gives { IfOk result (GivenOnce (freed_at self.old sources.old) sources.old.asks path.now (parts.items ++ text.now) self.old sources.new self.new) }
        ensures refused { OnErr result (Stands (freed_at self.old sources.old) self.old sources.new self.new) }
        ensures only { sources.new ≡ record sources.old { known = sources.new.known } }
    {
        self.free(sources);
        self.tell(alloc, sources, path, parts, text)
    }

    // Gives the text of the source at a path, where none is known that was given last.
    fn tell(
        &mut self,
        alloc: Global,
        sources: &mut AskedTexts,
        path: &str,
        parts: Vec<u8>,
        text: &[u8],
    ) -> Result<Given, AllocError>
        requires { last_of self.old ≡ None }
        ensures gives { IfOk result (GivenOnce (standing_at sources.old) sources.old.asks path.now (parts.items ++ text.now) self.old sources.new self.new) }
        ensures refused { OnErr result (Stands (standing_at sources.old) self.old sources.new self.new) }
        ensures only { sources.new ≡ record sources.old { known = sources.new.known } }
    {
        if !is_open(sources, path) {
            return Ok(Given::Known);
        }
        let shared = shared_text(alloc, parts, text)?;
        let mark = Mark::of(shared.bytes());
        if self.is_other(path, &mark) {
            sources.add(String::from_str(alloc, path)?, Standing::Failed)?;
            return Ok(Given::Other);
        }
        self.take(alloc, sources, path, Standing::Text(shared), mark)?;
        Ok(Given::Taken)
    }

    // Takes the text of a path of which nothing is known.
    #[tactic(auto, using(std::proofs::lemmas::Map::Text::text_keys), unfolding(crate::specs::Once::mark_at, rdlpp_source::specs::Asked::standing_at))]
    fn take(
        &mut self,
        alloc: Global,
        sources: &mut AskedTexts,
        path: &str,
        text: Standing,
        mark: Mark,
    ) -> Result<(), AllocError>
        requires { standing_at sources.old path.now ≡ None }
        ensures adds { OnOk result (Adds sources.old sources.new true path.now text) }
        ensures marks { OnOk result ((q : List ℕ) → mark_at self.new q ≡ (if bytes_eq q path.now then Some mark else mark_at self.old q)) }
        ensures last { OnOk result (last_of self.new ≡ Some path.now) }
        ensures stays { OnErr result (Stays sources.old sources.new) }
        ensures same_marks { OnErr result ((q : List ℕ) → mark_at self.new q ≡ mark_at self.old q) }
        ensures same_last { OnErr result (last_of self.new ≡ last_of self.old) }
        ensures only { sources.new ≡ record sources.old { known = sources.new.known } }
    {
        let last = String::from_str(alloc, path)?;
        let marked = String::from_str(alloc, path)?;
        sources.add(String::from_str(alloc, path)?, text)?;
        match self.marks.insert(marked, mark) {
            Ok(_) => {
                self.last = Some(last);
                Ok(())
            }
            Err(_) => {
                let _standing = sources.known.remove(path);
                Err(AllocError)
            }
        }
    }
}

// Whether something can be told of a path.
#[tactic(auto, unfolding(rdlpp_source::specs::Asked::standing_at))]
fn is_open(sources: &AskedTexts, path: &str) -> bool
    ensures { result ≡ is_open sources.now.asks (standing_at sources.now path.now) }
{
    sources.asks && !sources.known.contains_key(path)
}
