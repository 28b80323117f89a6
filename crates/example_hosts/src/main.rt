//! Three hosts in Rattle.
//!
//! - `letters` opens a package and calls a function of it. It stands on `witcall` alone.
//! - `shop` opens a set of packages, writes an earlier one, calls a function that a world exports, tells where its
//!   parameters are in memory, and prints the numbers of errors. It stands on `witcall` alone.
//! - `halves` runs core functions itself, and calls in the halves of `host_calls`.
#![tactic(auto)]

mod halves;
mod letters;
mod shop;

use std::alloc::Global;
use std::process::ExitCode;
use witcall::{FirstFit, Refused};

fn main(rt: HostRuntime) -> ExitCode {
    match print_answers(&rt) {
        Ok(()) => halves::print_answer(&rt),
        Err(refused) => ExitCode::from(refused.status()),
    }
}

/// Prints what the hosts over `witcall` print.
fn print_answers(rt: &HostRuntime) -> Result<(), Refused> {
    letters::print_answers(rt)?;
    shop::print_answers(rt)
}

/// Prints a line.
fn print(rt: &HostRuntime, line: &str) -> Result<(), Refused> {
    println!(rt; "{line}").map_err(|_error| Refused::Write)
}

/// A memory of one page that may grow to sixteen, and takes blocks back.
fn memory(alloc: Global) -> Result<FirstFit, Refused> {
    Ok(FirstFit::growing(alloc, 65536, 1048576)?)
}
