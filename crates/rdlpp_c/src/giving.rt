// The calls by which a program in C tells what it was asked for.
ghost use Rattle.std.specs.Prelude.{◌≡◌, IsUtf8, MatchResult};
ghost use Rattle.std.specs.String.{string_bytes};
ghost use Rattle.rdlpp_c.specs.Giving.{Gives, GivesOnce, GivesPart, GivesStanding, GivesText, LeavesParts, changed_path, once_status};
ghost use Rattle.rdlpp_source.specs.declared.asked.Standing.TheVariants.{Absent as Gone, Failed, Text};
ghost use Rattle.rdlpp_source.specs.declared.shared_text.SharedText.TheVariants.{Lent};
ghost use Rattle.rdlpp_c.specs.declared.asking.Refusal.TheVariants.{BadText};

use crate::asking::{Refusal, text_of};
use crate::handle::{Handle, put, take};
use crate::knowing::shared_text;
use crate::once::Given;
use crate::stream::Stream;
use crate::telling::{BAD_TEXT, CHANGED, CLOSED, NO_MEMORY, WHOLE};
use arrayvec::ArrayString;
use rdlpp_source::{AskedTexts, SharedText, Standing};
use std::alloc::{AllocError, Global};
use std::mem::replace;

/// Gives an open output a part of a text, which is copied. The text that is given next, by `rdlpp_give` or
/// `rdlpp_give_once`, goes on after it, as after the parts before it: so a file can be given while it is read. `more` is
/// about how many bytes will follow, for which memory is asked at once; it may be 0.
///
/// Parts belong to the next source that is told, whatever is told of it and whatever the answer: none is left then.
///
/// The answer is 0; 4 where memory was refused, and 6 where the handle is closed: with these nothing changed.
#[unsafe(no_mangle)]
pub extern "C" fn rdlpp_give_part(
    alloc: Global,
    handle: &mut Handle,
    part: &[u8],
    more: usize,
) -> u32
    ensures { Gives (GivesPart part.now) handle.old.slot.value handle.new.slot.value result }
{
    let Some(mut stream) = take(alloc, handle) else {
        return CLOSED;
    };
    let status = give_part(&mut stream, part, more);
    put(handle, stream);
    status
}

/// Tells an open output the text of the source at `path`, which is copied: the parts that were given before, and `text`
/// after them. The first that is told of a path counts; of an output that doesn't ask all is told from the start.
///
/// The answer is 0; 3 where `path` isn't UTF-8, 4 where memory was refused, and 6 where the handle is
/// closed: with these nothing changed, but that no part is left.
#[unsafe(no_mangle)]
pub extern "C" fn rdlpp_give(alloc: Global, handle: &mut Handle, path: &[u8], text: &[u8]) -> u32
    ensures { Gives (GivesText path.now text.now) handle.old.slot.value handle.new.slot.value result }
{
    let Some(mut stream) = take(alloc, handle) else {
        return CLOSED;
    };
    let status = give_text(alloc, &mut stream, path, text);
    put(handle, stream);
    status
}

/// Tells an open output the text of the source at `path`, as `rdlpp_give` does, but forgets it when the next text is
/// given by this call: from then on only those who read it hold it, and the next search for it asks again. Its path
/// stays with the text's length and a digest. Another text that is given of the path later is refused: the path is
/// told as by `rdlpp_give_failed`, and a search ends there by the fault of a device; where the path was asked for,
/// `rdlpp_notes` tells why.
///
/// The answer is 9 where the text is refused, and else as of `rdlpp_give`; by 4 also the text that was given last by this
/// call is forgotten.
#[unsafe(no_mangle)]
pub extern "C" fn rdlpp_give_once(
    alloc: Global,
    handle: &mut Handle,
    path: &[u8],
    text: &[u8],
) -> u32
    ensures { Gives (GivesOnce path.now text.now) handle.old.slot.value handle.new.slot.value result }
{
    let Some(mut stream) = take(alloc, handle) else {
        return CLOSED;
    };
    let status = give_once(alloc, &mut stream, path, text);
    put(handle, stream);
    status
}

/// Tells an open output the text of the source at `path`, as `rdlpp_give` does, but copies nothing of it: the text stands, as it is,
/// until the handle is closed or opened again, by a promise of the caller. No part stands in front of it.
///
/// The answer is as of `rdlpp_give`.
#[unsafe(no_mangle)]
pub extern "C" fn rdlpp_lend(
    alloc: Global,
    handle: &mut Handle,
    path: &[u8],
    text: &'static [u8],
) -> u32
    ensures { Gives (GivesStanding path.now (Text (Lent text.entry))) handle.old.slot.value handle.new.slot.value result }
{
    tell(alloc, handle, path, Standing::Text(SharedText::Lent(text)))
}

/// Tells an open output that there is no source at `path`, as `rdlpp_give` does: a search goes on after it.
#[unsafe(no_mangle)]
pub extern "C" fn rdlpp_give_absent(alloc: Global, handle: &mut Handle, path: &[u8]) -> u32
    ensures { Gives (GivesStanding path.now Gone) handle.old.slot.value handle.new.slot.value result }
{
    tell(alloc, handle, path, Standing::Absent)
}

/// Tells an open output that the source at `path` can't be opened, as `rdlpp_give` does: a search ends there
/// by the fault of a device.
#[unsafe(no_mangle)]
pub extern "C" fn rdlpp_give_failed(alloc: Global, handle: &mut Handle, path: &[u8]) -> u32
    ensures { Gives (GivesStanding path.now Failed) handle.old.slot.value handle.new.slot.value result }
{
    tell(alloc, handle, path, Standing::Failed)
}

// Tells an open output what stands at a path, and answers the status.
fn tell(alloc: Global, handle: &mut Handle, path: &[u8], standing: Standing) -> u32
    ensures { Gives (GivesStanding path.now standing) handle.old.slot.value handle.new.slot.value result }
{
    let Some(mut stream) = take(alloc, handle) else {
        return CLOSED;
    };
    let status = give(alloc, &mut stream, path, standing);
    put(handle, stream);
    status
}

// Gives an output a part of a text, and answers the status.
fn give_part(stream: &mut Stream, part: &[u8], more: usize) -> u32
    ensures { GivesPart part.now stream.old stream.new result }
{
    if stream
        .parts
        .reserve(part.len().saturating_add(more))
        .is_err()
    {
        return NO_MEMORY;
    }
    match stream.parts.extend_from_slice(part) {
        Ok(()) => WHOLE,
        Err(_) => NO_MEMORY,
    }
}

// Takes the parts of the text that is given next.
fn take_parts(alloc: Global, stream: &mut Stream) -> Vec<u8>
    ensures value { result.items ≡ stream.old.parts.items }
    ensures leaves { LeavesParts stream.old stream.new }
{
    replace(&mut stream.parts, Vec::new(alloc))
}

// Tells an output the text of a source, and answers the status.
fn give_text(alloc: Global, stream: &mut Stream, path: &[u8], text: &[u8]) -> u32
    ensures { GivesText path.now text.now stream.old stream.new result }
{
    let parts = take_parts(alloc, stream);
    match shared_text(alloc, parts, text) {
        Ok(shared) => give(alloc, stream, path, Standing::Text(shared)),
        Err(_) => NO_MEMORY,
    }
}

// Tells an output the text of a source that is forgotten when the next one is told so, and answers the status.
fn give_once(alloc: Global, stream: &mut Stream, path: &[u8], text: &[u8]) -> u32
    ensures { GivesOnce path.now text.now stream.old stream.new result }
{
    let parts = take_parts(alloc, stream);
    let Ok(path) = text_of(path) else {
        return BAD_TEXT;
    };
    let mut sources = stream.reading.replace_sources(AskedTexts::empty(alloc));
    let given = stream.once.give(alloc, &mut sources, path, parts, text);
    note_change(&given, &sources.wanted, path, &mut stream.changed);
    let _empty = stream.reading.replace_sources(sources);
    once_status(given)
}

// Notes the path that was asked for, where another text was given of it than before.
fn note_change(
    given: &Result<Given, AllocError>,
    wanted: &Option<ArrayString<1024>>,
    path: &str,
    changed: &mut Option<ArrayString<1024>>,
)
    ensures { changed.new ≡ changed_path given.now wanted.now path.now changed.old }
{
    if let (Ok(Given::Other), Some(asked)) = (given, wanted) {
        if asked.as_str() == path {
            *changed = Some(*asked);
        }
    }
}

// The status of a text that was given once.
fn once_status(given: Result<Given, AllocError>) -> u32
    ensures { result ≡ once_status given }
{
    match given {
        Ok(Given::Known) => WHOLE,
        Ok(Given::Taken) => WHOLE,
        Ok(Given::Other) => CHANGED,
        Err(_) => NO_MEMORY,
    }
}

// Tells an output what stands at a path, and answers the status.
fn give(alloc: Global, stream: &mut Stream, path: &[u8], standing: Standing) -> u32
    ensures { GivesStanding path.now standing stream.old stream.new result }
{
    let _parts = take_parts(alloc, stream);
    let path = match owned_path(alloc, path) {
        Ok(path) => path,
        Err(Refusal::BadText) => return BAD_TEXT,
        Err(Refusal::NoMemory) => return NO_MEMORY,
    };
    let mut sources = stream.reading.replace_sources(AskedTexts::empty(alloc));
    let told = sources.tell(path, standing);
    let _empty = stream.reading.replace_sources(sources);
    match told {
        Ok(()) => WHOLE,
        Err(_) => NO_MEMORY,
    }
}

// A path of one's own.
pub(crate) fn owned_path(alloc: Global, path: &[u8]) -> Result<String, Refusal>
    ensures { MatchResult result (λ made. string_bytes made ≡ path.now)
        (λ refusal. refusal ≡ BadText → ¬ (IsUtf8 path.now)) }
{
    Ok(String::from_str(alloc, text_of(path)?)?)
}
