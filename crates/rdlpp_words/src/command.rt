//! The program's options, and the texts that its help has of them.
use clap::builder::ValueParser;
use clap::{Arg, ArgAction, Command};
use std::alloc::{AllocError, Global};

/// Under what each thing is read back that a command line gives.
pub(crate) const DEFINE: &str = "define";

pub(crate) const FOLDER: &str = "folder";

pub(crate) const OUTPUT: &str = "output";

pub(crate) const ORIGINS: &str = "origins";

pub(crate) const LINE_MAP: &str = "line-map";

pub(crate) const DEPS: &str = "deps";

pub(crate) const DEFINITIONS: &str = "definitions";

pub(crate) const NOTES: &str = "notes";

pub(crate) const SOURCE: &str = "source";

// What stands before the options in the help.
const ABOUT: &str =
    "Preprocesses a SystemRDL source: macros, conditionals, includes and line directives.";

// What stands after the options in the help.
const AFTER: &str = "\
Exit status:
  0  the text went through
  1  the text has a fault: one line on standard error, and all before it is written
  2  the command line isn't one, a limit is out of its range, or a file to be written is a source
  3  a file or a stream failed, or memory was refused

Example:
  rdlpp -I inc -D WIDTH=8 -o chip.out.rdl chip.rdl";

/// The source and the options in the order of the help, each with its help. Those that take a limit come last, in the order of the fields of `Limits`.
pub(crate) const OPTIONS: &[(&str, &str)] = &[
    (SOURCE, "The source; - is standard input"),
    (
        DEFINE,
        "Define a macro, with an empty body where there is no =TEXT; may repeat",
    ),
    (
        FOLDER,
        "Search this folder for included files, after the including file's own; may repeat",
    ),
    (OUTPUT, "Write to this file, in place of standard output"),
    (
        ORIGINS,
        "Write lines '// origin: NAME:LINE' that tell where text comes from",
    ),
    (
        LINE_MAP,
        "Write to this file which line of which source each line of the text comes from",
    ),
    (
        DEPS,
        "Write to this file a rule for make with each source that was opened",
    ),
    (
        DEFINITIONS,
        "Write to this file the macros that are defined at the end, as define lines",
    ),
    (
        NOTES,
        "Write lines 'rdlpp: note: ..' after a fault, with what helps to mend it",
    ),
    (
        "max-depth",
        "Most macro bodies and arguments open at once, 1 to 1024 [standard: 256]",
    ),
    (
        "max-includes",
        "Most included files open at once, 0 to 64 [standard: 16]",
    ),
    (
        "max-line",
        "Most bytes of a line, 256 to 1048576 [standard: 65536]",
    ),
    (
        "max-source",
        "Most bytes of a source, 1 to 1073741824 [standard: 1073741824]",
    ),
    (
        "max-argument",
        "Most bytes of a call's arguments, 16 to 1048576 [standard: 65536]",
    ),
    (
        "max-definition-bytes",
        "Most bytes of all definitions, 1024 to 16777216 [standard: 1048576]",
    ),
    (
        "max-definitions",
        "Most definitions, 1 to 65536 [standard: 4096]",
    ),
    (
        "max-conditions",
        "Most conditionals open at once, 1 to 4096 [standard: 256]",
    ),
    (
        "max-output",
        "Most bytes written, 0 to 18446744073709551615 [standard: 18446744073709551615]",
    ),
];

/// The command that a command line is read by.
///
/// # Errors
/// `AllocError` where there was no memory for it.
pub(crate) fn rdlpp_command<'a>(alloc: Global) -> Result<Command<'a>, AllocError> {
    let mut command = Command::new(alloc, "rdlpp")
        .version("0.1.0")
        .about(ABOUT)
        .after_help(AFTER)
        .bin_name("rdlpp")?;
    for &(name, help) in OPTIONS {
        command = command.arg(option_of(alloc, name, help))?;
    }
    Ok(command)
}

/// Whether an option takes a limit.
pub(crate) fn is_limit(name: &str) -> bool {
    name.starts_with("max-")
}

fn option_of<'a>(alloc: Global, name: &'static str, help: &'static str) -> Arg<'a> {
    let option = Arg::new(alloc, name).help(help);
    match name {
        SOURCE => text_of(option.required(true).action(ArgAction::Set), "SOURCE"),
        DEFINE => text_of(option.short('D').action(ArgAction::Append), "NAME[=TEXT]"),
        FOLDER => text_of(option.short('I').action(ArgAction::Append), "FOLDER"),
        OUTPUT => text_of(option.short('o').action(ArgAction::Set), "FILE"),
        ORIGINS | NOTES => option.long(name).action(ArgAction::SetTrue),
        LINE_MAP | DEPS | DEFINITIONS => text_of(option.long(name).action(ArgAction::Set), "FILE"),
        _ => option
            .long(name)
            .value_name("N")
            .action(ArgAction::Set)
            .value_parser(clap::value_parser!(u64)),
    }
}

// An argument that takes a text which isn't empty, and which the help calls so.
fn text_of<'a>(taking: Arg<'a>, name: &'static str) -> Arg<'a> {
    taking
        .value_name(name)
        .value_parser(ValueParser::NonEmptyString)
}
