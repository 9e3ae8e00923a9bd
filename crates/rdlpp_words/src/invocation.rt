//! What the words of a command line ask for.
ghost use Rattle.std.specs.Prelude.{◌≡◌, ◌==◌, ◌||◌, IfOk};
ghost use Rattle.std.specs.List.{before_first, after_first};
ghost use Rattle.std.specs.Option.{is_some};
ghost use Rattle.rdlpp_define.specs.Limits.{AreInRange};
ghost use Rattle.rdlpp_words.specs.declared.invocation.UsageFault.TheVariants.{NoMemory};

use crate::command::{
    DEFINE, DEFINITIONS, DEPS, FOLDER, LINE_MAP, NOTES, OPTIONS, ORIGINS, OUTPUT, SOURCE, is_limit,
    rdlpp_command,
};
use clap::error::ErrorKind;
use clap::{ArgMatches, Command, Error};
use rdlpp_define::{Limits, Options, limit_name};
use std::alloc::{AllocError, Global};

/// What a command line asks for (this project's profile).
#[derive(Drop)]
pub struct Invocation {
    /// What is asked of the run.
    pub options: Options,
    /// The include folders, in the order of the search.
    pub folders: Vec<String>,
    /// The file that the text goes to; standard output where there is none.
    pub output: Option<String>,
    /// The path of the main text; `-` is standard input.
    pub source: String,
    /// What is told beside the text.
    pub reports: Reports,
}

/// What a command line asks to be told beside the text (this project's profile).
#[derive(Drop)]
pub struct Reports {
    /// The file that the line map goes to.
    pub line_map: Option<String>,
    /// The file that the rule for make goes to.
    pub deps: Option<String>,
    /// The file that the macros go to which are defined at the end.
    pub definitions: Option<String>,
    /// Whether notes stand after a fault.
    pub notes: bool,
}

impl Reports {
    /// Whether anything is asked for.
    pub fn is_any(&self) -> bool
        ensures { result ≡ (self.now.notes || is_some self.now.line_map || is_some self.now.deps || is_some self.now.definitions) }
    {
        self.notes || self.line_map.is_some() || self.deps.is_some() || self.definitions.is_some()
    }
}

/// Why words ask for no run (this project's profile).
#[derive(Debug, Drop)]
pub enum UsageFault {
    /// Help or the version was asked for: the text of it, for standard output.
    Help(String),
    /// The words aren't a command line: what is wrong with them, for standard error.
    Bad(String),
    /// There was no memory for what they ask for.
    NoMemory,
}

impl From<AllocError> for UsageFault {
    ghost from_gives = { λ _ fault. fault ≡ NoMemory };

    fn from(_error: AllocError) -> UsageFault {
        UsageFault::NoMemory
    }
}

/// Reads the words of a command line, of which the first is the program's name (this project's
/// profile).
///
/// `-D NAME[=TEXT]` and `-I FOLDER` may repeat, in order; `-o FILE`, `--origins`, `--line-map FILE`, `--deps FILE`,
/// `--definitions FILE`, `--notes`, the `--max-..` with a decimal number, `--help` and `--version` stand at most once; and there is one source. A limit
/// that isn't given is the standard one. What each word asks for stands in no contract, but that the
/// limits are in their ranges.
///
/// # Errors
/// `Help` where help or the version is asked for. `Bad` where a word is none of these, is empty,
/// stands twice or lacks its value, where a number is none or is out of its range, and where there is
/// no source or a second one. What asks for help or the version ends the reading: words after it
/// aren't looked at. `NoMemory` only where memory was refused.
pub fn parse_words<'w>(alloc: Global, words: &'w [&'w str]) -> Result<Invocation, UsageFault>
    ensures { IfOk result (λ invocation. AreInRange invocation.options.limits) }
{
    let mut command = rdlpp_command(alloc)?;
    match command.try_get_matches_from_mut(words) {
        Ok(matches) => read_matches(alloc, &mut command, &matches),
        Err(error) => Err(usage_fault(alloc, &error)),
    }
}

// What the matches of a command line ask for.
fn read_matches(
    alloc: Global,
    command: &mut Command<'_>,
    matches: &ArgMatches<'_>,
) -> Result<Invocation, UsageFault>
    ensures { IfOk result (λ invocation. AreInRange invocation.options.limits) }
{
    for &(name, _) in OPTIONS {
        if is_limit(name) && matches.get_str(name).unwrap_or("").starts_with('+') {
            return Err(refusal(alloc, command, "a limit is a number without a sign"));
        }
    }
    let limits = limits_of(matches);
    if let Err(limit) = limits.check() {
        let message = format!(in alloc; "limit {} out of range", limit_name(limit))?;
        return Err(refusal(alloc, command, message.as_str()));
    }
    Ok(asked_for(alloc, matches, limits)?)
}

// The fault of words that give no matches.
fn usage_fault(alloc: Global, error: &Error) -> UsageFault {
    if error.kind() == ErrorKind::OutOfMemory {
        return UsageFault::NoMemory;
    }
    let Ok(text) = error.to_string(alloc) else {
        return UsageFault::NoMemory;
    };
    if error.use_stderr() {
        UsageFault::Bad(text)
    } else {
        UsageFault::Help(text)
    }
}

// The fault of words that `command` takes and the program doesn't.
fn refusal(alloc: Global, command: &mut Command<'_>, message: &str) -> UsageFault {
    match command.error(ErrorKind::ValueValidation, message) {
        Ok(error) => usage_fault(alloc, &error),
        Err(_) => UsageFault::NoMemory,
    }
}

// The number of one limit, or its standard value.
fn limit_or(matches: &ArgMatches<'_>, name: &str, standard: usize) -> usize {
    match matches.get_one::<u64>(name) {
        Some(number) => number as usize,
        None => standard,
    }
}

// The limits, which may be out of their ranges.
fn limits_of(matches: &ArgMatches<'_>) -> Limits {
    let standard = Limits::standard();
    Limits {
        depth: limit_or(matches, "max-depth", standard.depth),
        includes: limit_or(matches, "max-includes", standard.includes),
        line_bytes: limit_or(matches, "max-line", standard.line_bytes),
        source_bytes: limit_or(matches, "max-source", standard.source_bytes),
        argument_bytes: limit_or(matches, "max-argument", standard.argument_bytes),
        definition_bytes: limit_or(matches, "max-definition-bytes", standard.definition_bytes),
        definitions: limit_or(matches, "max-definitions", standard.definitions),
        conditions: limit_or(matches, "max-conditions", standard.conditions),
        output_bytes: matches
            .get_one::<u64>("max-output")
            .unwrap_or(standard.output_bytes),
    }
}

// What matches ask for, with these limits.
fn asked_for(
    alloc: Global,
    matches: &ArgMatches<'_>,
    limits: Limits,
) -> Result<Invocation, AllocError>
    ensures { IfOk result (λ invocation. invocation.options.limits ≡ limits) }
{
    Ok(Invocation {
        options: Options {
            defines: definitions(alloc, matches)?,
            limits,
            origins: matches.get_flag(ORIGINS),
        },
        folders: folders_of(alloc, matches)?,
        output: file(alloc, matches, OUTPUT)?,
        source: String::from_str(alloc, matches.get_str(SOURCE).unwrap_or(""))?,
        reports: reports_of(alloc, matches)?,
    })
}

// The include folders, in order.
fn folders_of(alloc: Global, matches: &ArgMatches<'_>) -> Result<Vec<String>, AllocError> {
    let mut folders = Vec::new(alloc);
    for folder in matches.get_strs(FOLDER).unwrap_or(&[]) {
        folders.push(String::from_str(alloc, folder)?)?;
    }
    Ok(folders)
}

// What is to be told beside the text.
fn reports_of(alloc: Global, matches: &ArgMatches<'_>) -> Result<Reports, AllocError> {
    Ok(Reports {
        line_map: file(alloc, matches, LINE_MAP)?,
        deps: file(alloc, matches, DEPS)?,
        definitions: file(alloc, matches, DEFINITIONS)?,
        notes: matches.get_flag(NOTES),
    })
}

// The file that an option names, if it is given.
fn file(alloc: Global, matches: &ArgMatches<'_>, name: &str) -> Result<Option<String>, AllocError> {
    match matches.get_str(name) {
        Some(path) => Ok(Some(String::from_str(alloc, path)?)),
        None => Ok(None),
    }
}

// The name and the text of a definition, which its first `=` parts; without one the text is empty.
fn definition_parts(word: &str) -> (&str, &str)
    ensures name { result.0.now ≡ before_first (λ b. b == 61) word.now }
    ensures text { result.1.now ≡ after_first (λ b. b == 61) word.now }
{
    match word.split_once('=') {
        Some(parts) => parts,
        None => (word, ""),
    }
}

// The definitions, in order.
fn definitions(
    alloc: Global,
    matches: &ArgMatches<'_>,
) -> Result<Vec<(String, String)>, AllocError> {
    let mut defines = Vec::new(alloc);
    for word in matches.get_strs(DEFINE).unwrap_or(&[]) {
        let (name, text) = definition_parts(word);
        defines.push((
            String::from_str(alloc, name)?,
            String::from_str(alloc, text)?,
        ))?;
    }
    Ok(defines)
}
