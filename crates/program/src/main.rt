//! The program: its words, its files and its streams. All else stands in the library.
#![tactic(auto)]

ghost use Rattle.std.specs.Prelude.{◌≡◌, IfOk, length};

use atoms::Watched;
use std::alloc::{AllocError, Global};
use std::process::ExitCode;
use std::{env, fs, io};
use witcall::{Refused, Reply, open_set, read_all, report, run_call, run_set};
use words::asked::{Command, Job};
use words::{WordsError, command};

fn main(rt: HostRuntime) -> ExitCode {
    match execute(&rt) {
        Ok(()) => ExitCode::SUCCESS,
        Err(refused) => {
            let mut errors = Watched::new(rt.stderr());
            ExitCode::from(report(&refused, &mut errors))
        }
    }
}

/// Does what the words ask for.
fn execute(rt: &HostRuntime) -> Result<(), Refused> {
    let words = words(rt)?;
    match command(rt.alloc(), words.as_slice())? {
        Command::Convert { job, earlier, file } => convert(
            rt,
            job,
            earlier.as_slice(),
            file.as_str(),
        ),
        Command::Call {
            earlier,
            file,
            interface,
            function,
            arguments,
            reply,
        } => call(
            rt,
            earlier.as_slice(),
            file.as_str(),
            interface.as_str(),
            function.as_str(),
            arguments.as_str(),
            reply.as_str(),
        ),
    }
}

/// Does a job with the bytes of a file, once the earlier packages' files are read.
fn convert(rt: &HostRuntime, job: Job, earlier: &[String], file: &str) -> Result<(), Refused> {
    let earlier = read_each(rt, earlier)?;
    let mut input = Watched::new(opened(rt, file)?);
    let mut output = Watched::new(rt.stdout());
    run_set(rt.alloc(), job, earlier.as_slice(), &mut input, &mut output)
}

/// Calls a function of the set that the packages in the files are, whose body answers the reply.
fn call(
    rt: &HostRuntime,
    earlier: &[String],
    file: &str,
    interface: &str,
    function: &str,
    arguments: &str,
    reply: &str,
) -> Result<(), Refused> {
    let alloc = rt.alloc();
    let mut files = read_each(rt, earlier)?;
    files.push(read(rt, file)?).map_err(AllocError::from)?;
    let inputs = lent(alloc, files.as_slice())?;
    let package = open_set(alloc, inputs.as_slice())?;
    let body = Reply::of(alloc, &package, interface, function, reply)?;
    let body = Box::new(alloc, body).map_err(|_| Refused::NoMemory)?;
    let mut output = Watched::new(rt.stdout());
    run_call(
        alloc,
        &package,
        interface,
        function,
        arguments,
        body,
        &mut output,
    )
}

/// The program's words. One that is no UTF-8 is a usage fault.
fn words(rt: &HostRuntime) -> Result<Vec<String>, Refused> {
    match env::args(rt) {
        Ok(words) => Ok(words.collect(rt.alloc())?),
        Err(error) => Err(Refused::Words(if error.kind() == io::ErrorKind::OutOfMemory {
            WordsError::NoMemory
        } else {
            WordsError::Usage
        })),
    }
}

/// The bytes of each file, in their order.
fn read_each(rt: &HostRuntime, paths: &[String]) -> Result<Vec<Vec<u8>>, Refused> {
    let mut files = Vec::new(rt.alloc());
    for path in paths {
        files
            .push(read(rt, path.as_str())?)
            .map_err(AllocError::from)?;
    }
    Ok(files)
}

/// The bytes of each, lent.
fn lent(alloc: Global, files: &[Vec<u8>]) -> Result<Vec<&[u8]>, AllocError>
    ensures { IfOk result (λ inputs. length inputs.items ≡ length files.now) }
{
    files.iter().map(|file| file.as_slice()).collect(alloc)
}

/// The bytes of a file, or more than the limit of them.
fn read(rt: &HostRuntime, path: &str) -> Result<Vec<u8>, Refused> {
    let mut input = Watched::new(opened(rt, path)?);
    Ok(read_all(rt.alloc(), &mut input)?)
}

fn opened(rt: &HostRuntime, path: &str) -> Result<fs::File, Refused> {
    fs::open(rt, path).map_err(|_error| Refused::File)
}
