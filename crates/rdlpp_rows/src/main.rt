//! Runs the rows of `data`: texts with the output and the fault that must come of them.
//!
//! `rdlpp_rows FILE ..` runs the rows of each file over texts in memory: whole; by one byte a read and one byte a write; piece
//! by piece, each of them one write of a run; in an engine that ran the row before it, whole or up to a fault or a piece, and was
//! renewed; and where its texts are short, cut short after each byte, and with each search, read, write and flush failing in turn.
//! It prints a line for each row that isn't as it has to be, and then how many are and aren't. The same rows are run by the scripts
//! of `checks`. What no row can say is checked with them: when a sink writes, and how an output goes on that stopped.
#![tactic(auto)]

ghost use Rattle.std.specs.Prelude.{◌≡◌, ◌↔◌, ◌<◌};

mod asking;
mod checks;
mod devices;
mod gathering;
mod pieces;
mod renewed;
mod resuming;
mod row;
mod runs;
mod spelling;

use checks::failed_check;
use gathering::failed_gathering;
use resuming::failed_resuming;
use row::{RowFault, rows_of};
use std::alloc::AllocError;
use std::process::ExitCode;
use std::{env, fs};

// The exit status where a row isn't as it has to be.
const FAILED_STATUS: u8 = 1;

// The exit status where the rows can't be read or there is no memory.
const DEVICE_STATUS: u8 = 3;

// How many rows are as they have to be, and how many aren't.
#[derive(Clone, Copy)]
struct Tally {
    passed: u64,
    failed: u64,
}

fn main(rt: HostRuntime) -> ExitCode {
    let Some(tally) = check_files(&rt) else {
        let _told = eprintln!(rt; "rows: no memory, or a file that isn't there");
        return ExitCode::from(DEVICE_STATUS);
    };
    match println!(rt; "rows: {} passed, {} failed", tally.passed, tally.failed) {
        Ok(()) => ExitCode::from(status_of(tally)),
        Err(_) => ExitCode::from(DEVICE_STATUS),
    }
}

// The exit status: 0 where there are rows and all are as they have to be.
fn status_of(tally: Tally) -> u8
    ensures { (result ≡ 0) ↔ ((tally.failed ≡ 0) × (0 < tally.passed)) }
{
    if tally.failed == 0 && tally.passed > 0 {
        0
    } else {
        FAILED_STATUS
    }
}

// Checks the rows of each file that a word names.
fn check_files(rt: &HostRuntime) -> Option<Tally> {
    let mut tally = Tally {
        passed: 0,
        failed: 0,
    };
    let mut words = env::args(rt).ok()?;
    let _program = words.next();
    for word in words {
        let text = fs::read_to_string(rt, word.as_str()).ok()?;
        check_file(rt, word.as_str(), text.as_str(), &mut tally).ok()?;
    }
    check_rest(rt, &mut tally).ok()?;
    Some(tally)
}

// Checks what no row can say.
fn check_rest(rt: &HostRuntime, tally: &mut Tally) -> Result<(), AllocError> {
    for failed in [failed_gathering(rt.alloc())?, failed_resuming(rt.alloc())?] {
        match failed {
            None => tally.passed = tally.passed.saturating_add(1),
            Some(check) => {
                let _told = println!(rt; "not so: {check}");
                tally.failed = tally.failed.saturating_add(1);
            }
        }
    }
    Ok(())
}

// Checks the rows of a file, and tells each that isn't as it has to be.
fn check_file(
    rt: &HostRuntime,
    path: &str,
    text: &str,
    tally: &mut Tally,
) -> Result<(), AllocError> {
    let rows = match rows_of(rt.alloc(), text) {
        Ok(rows) => rows,
        Err(RowFault::NoMemory) => return Err(AllocError),
        Err(RowFault::BadLine) => {
            let _told = println!(rt; "{path}: a line that isn't a row's");
            tally.failed = tally.failed.saturating_add(1);
            return Ok(());
        }
    };
    let mut before = rows.as_slice().last();
    for row in &rows {
        let failed = failed_check(rt.alloc(), before.unwrap_or(row), row)?;
        before = Some(row);
        match failed {
            None => tally.passed = tally.passed.saturating_add(1),
            Some(check) => {
                let _told = println!(rt; "{path}: {}: {check}", row.name);
                tally.failed = tally.failed.saturating_add(1);
            }
        }
    }
    Ok(())
}
