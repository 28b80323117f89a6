//! The program `wit-explain`: it checks the WIT files of folders, lays them out, writes their packages as text and as
//! binaries, draws the bytes of their types, shows calls, and writes headers for C.
//!
//! `run` does what the words of a command line ask for. `Options` parts the options from the other words, `asked_for`
//! finds the command, and an unknown word is told with the nearest one that is known. It reads the files by `wit_files`
//! and checks their packages by `checked_packages`. What a command does with them is done by `package_commands`, or by
//! `call_command`. `format` lays each file out by `wit_format`.
#![tactic(auto)]

mod asked;
mod commands;
mod formatting;
mod help;
mod options;
mod running;
mod unknown;
mod writing;

use running::run;
use std::alloc::AllocError;
use std::process::ExitCode;
use std::{env, io};

/// The words after the program's own name.
fn words(rt: &HostRuntime) -> io::Result<Vec<String>> {
    Ok(env::args(rt)?.skip(1).collect(rt.alloc())?)
}

/// The same, lent.
fn lent<'a>(rt: &HostRuntime, words: &'a [String]) -> Result<Vec<&'a str>, AllocError> {
    words.iter().map(|word| word.as_str()).collect(rt.alloc())
}

/// Does what the words ask for. Help for words that are no command goes to standard error.
fn execute(rt: &HostRuntime) -> io::Result<u8> {
    let words = words(rt)?;
    let report = run(rt, lent(rt, words.as_slice())?.as_slice())?;
    let status = report.status;
    let text = report.text.finish()?;
    if status == 2 {
        eprint!(rt; "{}", text.as_str())?;
    } else {
        print!(rt; "{}", text.as_str())?;
    }
    Ok(status)
}

fn main(rt: HostRuntime) -> ExitCode {
    match execute(&rt) {
        Ok(status) => ExitCode::from(status),
        Err(error) => {
            let _ = eprintln!(rt; "wit-explain: {error}");
            ExitCode::from(1)
        }
    }
}
