// What a call asks for, as options and sources of `rdlpp`.
ghost use Rattle.std.specs.Prelude.{◌≡◌, IsUtf8, map, MatchResult};
ghost use Rattle.std.specs.List.{All};
ghost use Rattle.rdlpp_c.specs.Request.{AreUtf8, definition_bytes, definition_given, file_bytes, requested, text_given};
ghost use Rattle.rdlpp_c.specs.Answer.{AreLists, Gives};
ghost use Rattle.rdlpp_c.specs.declared.asking.Refusal.TheVariants.{BadText, NoMemory};

use crate::arrays::{Definition, Folder, Request, Text, limits_of};
use crate::opening::refused_answer;
use crate::output::read_output;
use rdlpp::{LimitFault, Options, RunFault, Texts, open_reading};
use std::alloc::{AllocError, Global};

// What a call comes to.
#[derive(Drop)]
pub(crate) enum Answer {
    // The output is whole, and has so many bytes.
    Whole(u64),
    // A fault ended the output.
    Stopped(RunFault),
    // A limit is out of its range.
    BadLimit(LimitFault),
    // Some bytes that have to be UTF-8 aren't.
    BadText,
    // Memory was refused.
    NoMemory,
}

// Why what is asked for can't be made options and sources.
#[derive(Clone, Copy)]
pub(crate) enum Refusal {
    BadText,
    NoMemory,
}

impl From<AllocError> for Refusal {
    ghost from_gives = { λ _ refusal. refusal ≡ NoMemory };

    fn from(_error: AllocError) -> Refusal {
        Refusal::NoMemory
    }
}

// Bytes as a text.
pub(crate) fn text_of(bytes: &[u8]) -> Result<&str, Refusal>
    ensures { MatchResult result (λ text. (text.now ≡ bytes.now) × IsUtf8 bytes.now)
        (λ refusal. (refusal ≡ BadText) × ¬ (IsUtf8 bytes.now)) }
{
    match std::str::from_utf8(bytes) {
        Ok(text) => Ok(text),
        Err(_) => Err(Refusal::BadText),
    }
}

// The sources, each path with its text.
fn files_of<'a>(alloc: Global, texts: &[Text<'a>]) -> Result<Vec<(&'a str, &'a [u8])>, Refusal>
    ensures { MatchResult result (λ files. map file_bytes files.items ≡ map text_given texts.now)
        (λ refusal. refusal ≡ BadText → ¬ (All (λ text. IsUtf8 text.path.now) texts.now)) }
{
    let mut files = Vec::new(alloc);
    for text in texts {
        let path = text_of(text.path)?;
        if files.push((path, text.text)).is_err() {
            return Err(Refusal::NoMemory);
        }
    }
    Ok(files)
}

// The include folders.
fn folders_of<'a>(alloc: Global, folders: &[Folder<'a>]) -> Result<Vec<&'a str>, Refusal>
    ensures { MatchResult result (λ paths. map (λ path. path.now) paths.items ≡ map (λ folder. folder.path.now) folders.now)
        (λ refusal. refusal ≡ BadText → ¬ (All (λ folder. IsUtf8 folder.path.now) folders.now)) }
{
    let mut paths = Vec::new(alloc);
    for folder in folders {
        let path = text_of(folder.path)?;
        if paths.push(path).is_err() {
            return Err(Refusal::NoMemory);
        }
    }
    Ok(paths)
}

// One definition.
fn definition_of(alloc: Global, definition: &Definition<'_>) -> Result<(String, String), Refusal>
    ensures { MatchResult result (λ made. definition_bytes made ≡ definition_given definition.now)
        (λ refusal. refusal ≡ BadText → ¬ (IsUtf8 definition.now.name.now × IsUtf8 definition.now.text.now)) }
{
    let name = text_of(definition.name)?;
    let text = text_of(definition.text)?;
    Ok((
        String::from_str(alloc, name)?,
        String::from_str(alloc, text)?,
    ))
}

// The definitions.
pub(crate) fn definitions_of(
    alloc: Global,
    definitions: &[Definition<'_>],
) -> Result<Vec<(String, String)>, Refusal>
    ensures { MatchResult result (λ made. map definition_bytes made.items ≡ map definition_given definitions.now)
        (λ refusal. refusal ≡ BadText → ¬ (All (λ d. IsUtf8 d.name.now × IsUtf8 d.text.now) definitions.now)) }
{
    let mut made = Vec::new(alloc);
    for definition in definitions {
        let pair = definition_of(alloc, definition)?;
        if made.push(pair).is_err() {
            return Err(Refusal::NoMemory);
        }
    }
    Ok(made)
}

// The lists that a request is made of.
#[derive(Drop)]
struct Lists<'a> {
    files: Vec<(&'a str, &'a [u8])>,
    folders: Vec<&'a str>,
    options: Options,
    path: &'a str,
}

// What a request asks for, as lists.
fn lists_of<'a>(alloc: Global, request: &Request<'a>) -> Result<Lists<'a>, Refusal>
    ensures { MatchResult result (AreLists (requested request.now))
        (λ refusal. refusal ≡ BadText → ¬ (AreUtf8 (requested request.now))) }
{
    let path = text_of(request.path)?;
    let files = files_of(alloc, request.texts)?;
    let folders = folders_of(alloc, request.folders)?;
    let options = Options {
        defines: definitions_of(alloc, request.definitions)?,
        limits: limits_of(&request.limits),
        origins: request.origins,
    };
    Ok(Lists {
        files,
        folders,
        options,
        path,
    })
}

// Preprocesses what is asked for, and writes the front of the output to a buffer.
pub(crate) fn answer_of(alloc: Global, request: &Request<'_>, out: &mut [u8]) -> Answer
    ensures { Gives (requested request.now) out.old out.new result }
{
    if let Err(limit) = limits_of(&request.limits).check() {
        return Answer::BadLimit(limit);
    }
    let lists = match lists_of(alloc, request) {
        Ok(lists) => lists,
        Err(Refusal::BadText) => return Answer::BadText,
        Err(Refusal::NoMemory) => return Answer::NoMemory,
    };
    let sources = Texts {
        files: &lists.files,
        folders: &lists.folders,
    };
    match open_reading(alloc, &lists.options, sources, lists.path) {
        Ok(mut reading) => match read_output(&mut reading, out) {
            Ok(written) => Answer::Whole(written),
            Err(run) => Answer::Stopped(run),
        },
        Err(fault) => refused_answer(fault),
    }
}
