//! The jobs that users wait for, for `bench/run`, which times them.
//!
//! `rdlpp_bench WORKLOAD SEED ROUNDS` makes the inputs of a workload out of SEED, preprocesses each of them once through
//! `rdlpp::preprocess`, over texts in memory, and prints one number that stands for all outputs and faults. ROUNDS is how
//! many inputs of full size there are; with 0 there is one small one. `each` in place of a workload does all of them.
//! `renewed` has the inputs of `short`, and so its number; one `rdlpp::Preprocessor` takes all of a row.
#![tactic(auto)]

mod addresses;
mod constants;
mod digest;
mod includes;
mod ordinary;
mod random;
mod registers;
mod run;
mod short;
mod text;

use addresses::run_addresses;
use constants::run_constants;
use digest::Digest;
use includes::run_includes;
use ordinary::run_ordinary;
use random::Random;
use registers::run_registers;
use short::{run_renewed, run_shorts};
use std::alloc::{AllocError, Global};
use std::env;
use std::process::ExitCode;

// The workloads by name.
const WORKLOADS: [&str; 7] = [
    "registers",
    "constants",
    "addresses",
    "includes",
    "ordinary",
    "short",
    "renewed",
];

// The size of an input of full size, and that of a small one.
const FULL: usize = 64;

const SMALL: usize = 1;

// The exit status where the words are none of the usage's, and where there was no memory.
const USAGE_STATUS: u8 = 2;

const MEMORY_STATUS: u8 = 3;

// What the words ask for.
#[derive(Drop)]
struct Request {
    workload: String,
    seed: u64,
    rounds: u64,
}

fn main(rt: HostRuntime) -> ExitCode {
    let Some(request) = read_request(&rt) else {
        let _told = eprintln!(rt; "usage: rdlpp_bench WORKLOAD SEED ROUNDS");
        return ExitCode::from(USAGE_STATUS);
    };
    for name in &WORKLOADS {
        if request.workload.as_str() == *name || request.workload.as_str() == "each" {
            let Ok(value) = value_of(rt.alloc(), name, &request) else {
                return ExitCode::from(MEMORY_STATUS);
            };
            let Ok(()) = println!(rt; "{name}: {value}") else {
                return ExitCode::from(MEMORY_STATUS);
            };
        }
    }
    ExitCode::from(0)
}

// The words of the command line.
fn read_request(rt: &HostRuntime) -> Option<Request> {
    let mut words = env::args(rt).ok()?;
    let _program = words.next();
    let workload = words.next()?;
    let seed = words.next()?.parse::<u64>().ok()?;
    let rounds = words.next()?.parse::<u64>().ok()?;
    Some(Request {
        workload,
        seed,
        rounds,
    })
}

// What stands for all results of a workload.
fn value_of(alloc: Global, name: &str, request: &Request) -> Result<u64, AllocError> {
    let mut random = Random::new(request.seed);
    let mut total = Digest::new();
    if request.rounds == 0 {
        run_one(alloc, name, &mut random, SMALL, &mut total)?;
    }
    for _ in 0..request.rounds {
        run_one(alloc, name, &mut random, FULL, &mut total)?;
    }
    Ok(total.value())
}

// Makes one input of a workload and runs it.
fn run_one(
    alloc: Global,
    name: &str,
    random: &mut Random,
    size: usize,
    total: &mut Digest,
) -> Result<(), AllocError> {
    match name {
        "registers" => run_registers(alloc, random, size, total),
        "constants" => run_constants(alloc, random, size, total),
        "addresses" => run_addresses(alloc, random, size, total),
        "includes" => run_includes(alloc, random, size, total),
        "ordinary" => run_ordinary(alloc, random, size, total),
        "short" => run_shorts(alloc, random, size, total),
        _ => run_renewed(alloc, random, size, total),
    }
}
