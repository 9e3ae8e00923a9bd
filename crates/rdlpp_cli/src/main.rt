//! The program `rdlpp`: preprocesses a SystemRDL source, as its command line says.
#![tactic(auto)]

ghost use Rattle.rdlpp_cli.specs.Statuses.{UsageStatus};

mod files;
mod mapping;
mod output;
mod reports;
mod telling;
mod watching;
mod words;

use files::RunFiles;
use output::open_output;
use rdlpp::PrepFault;
use rdlpp_words::{Invocation, UsageFault};
use reports::run_told;
use std::alloc::AllocError;
use std::io::Write;
use std::process::ExitCode;
use telling::{tell_fault, tell_unopened, tell_unwritten};
use words::read_invocation;

// The bytes of the buffer in front of the output, past which longer pieces go: half a line of the standard limit, so that a
// buffer of whole lines is written as it lies.
const OUTPUT_BYTES: usize = 32_768;

// The exit status of words that aren't a command line.
const USAGE_STATUS: u8 = 2;

// The exit status of a device that failed.
const DEVICE_STATUS: u8 = 3;

fn main(rt: HostRuntime) -> ExitCode {
    ExitCode::from(match read_invocation(&rt) {
        Ok(invocation) => run_invocation(&rt, &invocation),
        Err(fault) => tell_usage(&rt, &fault),
    })
}

// Does what a command line asks for, and answers the exit status.
fn run_invocation(rt: &HostRuntime, invocation: &Invocation) -> u8 {
    let mut files = RunFiles::of(rt, invocation);
    match open_output(rt, &mut files, invocation.output.as_ref()) {
        Ok(mut output) => run_told(rt, invocation, &mut files, &mut output),
        Err(fault) => {
            tell_unopened(rt, invocation, &fault);
            fault.status()
        }
    }
}

// The include folders of a command line.
fn folders_in<'i>(
    rt: &HostRuntime,
    invocation: &'i Invocation,
) -> Result<Vec<&'i str>, AllocError> {
    let mut folders = Vec::new(rt.alloc());
    for folder in &invocation.folders {
        folders.push(folder.as_str())?;
    }
    Ok(folders)
}

// Tells why there is no run, and answers the exit status.
fn tell_usage(rt: &HostRuntime, fault: &UsageFault) -> u8
    ensures { UsageStatus fault.now result }
{
    match fault {
        UsageFault::Help(text) => match rt.stdout().write_all(text.as_bytes()) {
            Ok(()) => 0,
            Err(error) => {
                tell_unwritten(rt, "standard output", &error);
                DEVICE_STATUS
            }
        },
        UsageFault::Bad(text) => {
            let _told = rt.stderr().write_all(text.as_bytes());
            USAGE_STATUS
        }
        UsageFault::NoMemory => {
            tell_fault(rt, &PrepFault::NoMemory);
            DEVICE_STATUS
        }
    }
}
