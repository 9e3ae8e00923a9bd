// How an output is opened: the lists that a call asks for, as sources whose readers share their texts.
ghost use Rattle.std.specs.Prelude.{◌≡◌, Err, IfOk, IsUtf8, None, OnOk, map, MatchResult};
ghost use Rattle.std.specs.List.{All};
ghost use Rattle.std.specs.String.{string_bytes};
ghost use Rattle.rdlpp_define.specs.Limits.{limit_fault};
ghost use Rattle.rdlpp_c.specs.Request.{AreUtf8, requested};
ghost use Rattle.rdlpp_c.specs.Reopening.{IsUnread, reopened};
ghost use Rattle.rdlpp_c.specs.Streaming.{AreOwned, OpensOwned, OpensStream, boxed_answer, refused_answer};
ghost use Rattle.rdlpp_c.specs.declared.asking.Refusal.TheVariants.{BadText, NoMemory};

use crate::arrays::{Folder, Request, limits_of};
use crate::asking::{Answer, Refusal, definitions_of};
use crate::giving::owned_path;
use crate::knowing::asked_texts;
use crate::stream::Stream;
use rdlpp::{Options, PrepFault, RunFault, open_reading, reopen_reading};
use rdlpp_source::AskedTexts;
use std::alloc::Global;

// The include folders.
fn owned_folders(alloc: Global, folders: &[Folder<'_>]) -> Result<Vec<String>, Refusal>
    ensures { MatchResult result (λ paths. map string_bytes paths.items ≡ map (λ folder. folder.path.now) folders.now)
        (λ refusal. refusal ≡ BadText → ¬ (All (λ folder. IsUtf8 folder.path.now) folders.now)) }
{
    let mut paths = Vec::new(alloc);
    for folder in folders {
        let path = owned_path(alloc, folder.path)?;
        if paths.push(path).is_err() {
            return Err(Refusal::NoMemory);
        }
    }
    Ok(paths)
}

// What an output is opened over.
#[derive(Drop)]
struct Owned {
    sources: AskedTexts,
    options: Options,
    path: String,
    pieces: bool,
}

// What a request asks for, with texts of its own.
fn owned_of(alloc: Global, request: &Request<'_>) -> Result<Owned, Refusal>
    ensures { MatchResult result (AreOwned (requested request.now))
        (λ refusal. refusal ≡ BadText → ¬ (AreUtf8 (requested request.now))) }
{
    let path = owned_path(alloc, request.path)?;
    let folders = owned_folders(alloc, request.folders)?;
    let sources = asked_texts(alloc, request.texts, folders, request.asks)?;
    let options = Options {
        defines: definitions_of(alloc, request.definitions)?,
        limits: limits_of(&request.limits),
        origins: request.origins,
    };
    Ok(Owned {
        sources,
        options,
        path,
        pieces: request.pieces,
    })
}

// What a refused opening is answered by.
pub(crate) fn refused_answer(fault: PrepFault) -> Answer
    ensures { result ≡ refused_answer fault }
{
    match fault {
        PrepFault::BadLimits(limit) => Answer::BadLimit(limit),
        PrepFault::NoMemory => Answer::NoMemory,
        PrepFault::Run(run) => Answer::Stopped(run),
    }
}

// What a request asks for, with texts of its own, where its limits are in their ranges.
fn checked_of(alloc: Global, request: &Request<'_>) -> Result<Owned, Answer>
    ensures { MatchResult result (λ owned. AreOwned (requested request.now) owned × (limit_fault (requested request.now).limits ≡ None))
        (λ answer. OpensStream (requested request.now) (Err answer)) }
{
    if let Err(limit) = limits_of(&request.limits).check() {
        return Err(Answer::BadLimit(limit));
    }
    match owned_of(alloc, request) {
        Ok(owned) => Ok(owned),
        Err(Refusal::BadText) => Err(Answer::BadText),
        Err(Refusal::NoMemory) => Err(Answer::NoMemory),
    }
}

// Opens what is asked for.
pub(crate) fn open_stream(alloc: Global, request: &Request<'_>) -> Result<Box<Stream>, Answer>
    ensures opens { OpensStream (requested request.now) (boxed_answer result) }
    ensures unread { IfOk (boxed_answer result) IsUnread }
{
    match checked_of(alloc, request) {
        Ok(owned) => stream_of(alloc, owned),
        Err(answer) => Err(answer),
    }
}

// Opens what is asked for in the place of what was open before, which is closed first where it has other limits.
pub(crate) fn reopen_stream(
    alloc: Global,
    request: &Request<'_>,
    before: Option<Box<Stream>>,
) -> Result<Box<Stream>, Answer>
    ensures opens { OpensStream (requested request.now) (boxed_answer result) }
    ensures unread { IfOk (boxed_answer result) IsUnread }
{
    let Some(mut stream) = before else {
        return open_stream(alloc, request);
    };
    if !stream.has_limits(&limits_of(&request.limits)) {
        drop(stream);
        return open_stream(alloc, request);
    }
    let owned = match checked_of(alloc, request) {
        Ok(owned) => owned,
        Err(answer) => return Err(answer),
    };
    match reopen_owned(alloc, &mut stream, owned) {
        Ok(()) => Ok(stream),
        Err(fault) => Err(Answer::Stopped(fault)),
    }
}

// Opens an output over what was made of a request, in the engine of another output that has the same limits.
fn reopen_owned(alloc: Global, stream: &mut Stream, owned: Owned) -> Result<(), RunFault>
    requires { stream.old.reading.engine.limits ≡ owned.options.limits }
    ensures opens { OpensOwned owned (reopened result stream.new) }
    ensures unread { OnOk result (IsUnread stream.new) }
{
    let Owned {
        sources,
        options,
        path,
        pieces,
    } = owned;
    if let Err(fault) = reopen_reading(&mut stream.reading, &options, sources, path.as_str()) {
        return Err(fault);
    }
    stream.begin(alloc, path, pieces);
    Ok(())
}

// Opens an output over what was made of a request.
fn stream_of(alloc: Global, owned: Owned) -> Result<Box<Stream>, Answer>
    ensures opens { OpensOwned owned (boxed_answer result) }
    ensures unread { IfOk (boxed_answer result) IsUnread }
{
    let Owned {
        sources,
        options,
        path,
        pieces,
    } = owned;
    match open_reading(alloc, &options, sources, path.as_str()) {
        Ok(reading) => match Box::new(alloc, Stream::of(alloc, reading, path, pieces)) {
            Ok(stream) => Ok(stream),
            Err(_) => Err(Answer::NoMemory),
        },
        Err(fault) => Err(refused_answer(fault)),
    }
}
