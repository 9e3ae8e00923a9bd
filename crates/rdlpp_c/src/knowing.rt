// The texts of a request, which sources own.
ghost use Rattle.std.specs.Prelude.{◌≡◌, ◌++◌, IfOk, IsUtf8, MatchResult};
ghost use Rattle.std.specs.List.{All};
ghost use Rattle.rdlpp_source.specs.SharedText.{text_bytes};
ghost use Rattle.rdlpp_c.specs.Knowing.{AddsText, KnowsTexts};
ghost use Rattle.rdlpp_c.specs.declared.asking.Refusal.TheVariants.{BadText};

use crate::arrays::Text;
use crate::asking::Refusal;
use crate::giving::owned_path;
use rdlpp_source::{AskedTexts, SharedText, Standing};
use std::alloc::{AllocError, Global};
use std::rc::Rc;

// Sources that know the texts of a request, with include folders, and that ask for others or don't.
#[tactic(auto, unfolding(rdlpp_source::specs::Asked::standing_at))]
pub(crate) fn asked_texts(
    alloc: Global,
    texts: &[Text<'_>],
    folders: Vec<String>,
    asks: bool,
) -> Result<AskedTexts, Refusal>
    ensures { MatchResult result (λ made. KnowsTexts texts.now made × (made.folders ≡ folders) × (made.asks ≡ asks))
        (λ refusal. refusal ≡ BadText → ¬ (All (λ text. IsUtf8 text.path.now) texts.now)) }
{
    let mut sources = AskedTexts::empty(alloc);
    for text in texts {
        add_text(alloc, &mut sources, text)?;
    }
    Ok(AskedTexts {
        known: sources.known,
        folders,
        asks,
        wanted: None,
        failures: 0,
        refusals: 0,
    })
}

// Adds a text of a request.
fn add_text(alloc: Global, sources: &mut AskedTexts, text: &Text<'_>) -> Result<(), Refusal>
    ensures { MatchResult result (λ _. AddsText text.now sources.old sources.new)
        (λ refusal. refusal ≡ BadText → ¬ (IsUtf8 text.now.path.now)) }
{
    let path = owned_path(alloc, text.path)?;
    let Ok(shared) = shared_text(alloc, Vec::new(alloc), text.text) else {
        return Err(Refusal::NoMemory);
    };
    match sources.add(path, Standing::Text(shared)) {
        Ok(()) => Ok(()),
        Err(_) => Err(Refusal::NoMemory),
    }
}

// A text that goes on after parts of it, and that its readers share. What isn't a part yet is copied.
pub(crate) fn shared_text(
    alloc: Global,
    parts: Vec<u8>,
    text: &[u8],
) -> Result<SharedText, AllocError>
    ensures { IfOk result (λ shared. text_bytes shared ≡ parts.items ++ text.now) }
{
    let mut whole = parts;
    if whole.extend_from_slice(text).is_err() {
        return Err(AllocError);
    }
    match Rc::new(alloc, whole) {
        Ok(shared) => Ok(SharedText::Owned(shared)),
        Err(_) => Err(AllocError),
    }
}
