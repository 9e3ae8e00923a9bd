//! The library in a program: sources in memory, preprocessed to standard output.
#![tactic(auto)]

use rdlpp::{Counted, Limits, Options, Texts, exit_status, preprocess, report};
use std::process::ExitCode;

fn main(rt: HostRuntime) -> ExitCode {
    let files = [
        (
            "timer.rdl",
            b"`include \"width.rdl\"\nreg[`WIDTH];\n".as_slice(),
        ),
        ("width.rdl", b"`define WIDTH 8\n".as_slice()),
    ];
    let sources = Texts {
        files: &files,
        folders: &[],
    };
    let options = Options {
        defines: Vec::new(rt.alloc()),
        limits: Limits::standard(),
        origins: false,
    };
    let mut output = Counted::new(rt.stdout());
    let outcome = preprocess(rt.alloc(), &options, sources, "timer.rdl", &mut output);
    if let Err(fault) = &outcome {
        let _told = report(fault, &mut rt.stderr());
    }
    ExitCode::from(exit_status(&outcome))
}
