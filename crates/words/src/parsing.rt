//! Words by way of `clap`.

ghost use Rattle.std.specs.Prelude.{◌≡◌, IfOk, IfErr, [], drop, false, if◌then◌else◌, string_bytes};
ghost use Rattle.clap.specs.Faults.{fault_of};
ghost use Rattle.clap.specs.Simple.{app_of, subcommand_of, subcommand_rows_of, with_subcommand};
ghost use Rattle.clap.specs.Walk.{rows_of, rule_of};
ghost use Rattle.clap.specs.Matches.{found_of};
ghost use Rattle.words.specs.Asked.{IsAsked, IsAskedBy, IsWord, IsCommand, HasWord, NamesCommand, AreTaken, earlier_of};
ghost use Rattle.words.specs.Earlier.{with_files, other_words, texts_of, lent_texts};
ghost use Rattle.words.specs.Reader.{program_app, required, with_words};

use crate::asked::{Command, Job};
use crate::earlier::parted;
use clap::error::ErrorKind;
use clap::{Arg, ArgAction, ArgMatches};
use std::alloc::{AllocError, Global};
use thiserror::Error;

static FILE: [&str; 1] = ["file"];

static CALL: [&str; 5] = ["file", "interface", "function", "arguments", "reply"];

/// Why words ask for nothing that the program does.
#[derive(Clone, Copy, Debug, PartialEq, Eq, Error)]
pub enum WordsError {
    #[error("usage: witcall show|bin|text|layout FILE, or call FILE IFACE FUNC ARGS REPLY")]
    Usage,
    #[error("error 66 no memory")]
    NoMemory,
}

impl From<AllocError> for WordsError {
    ghost use Rattle.std.specs.Prelude.{◌≡◌};
    ghost use Rattle.words.specs.declared.parsing.WordsError.TheVariants.{NoMemory};

    ghost from_gives = { λ _ e. e ≡ NoMemory };

    fn from(_error: AllocError) -> WordsError {
        WordsError::NoMemory
    }
}

/// Reads the program's words, the first of which is its own name and the second its command. The earlier packages'
/// files stand right after these, each as `--with FILE` or `--with=FILE`; `clap` reads the other words. Words that it
/// refuses are `Usage`: a missing or an extra word, an unknown command, an option, `--help`.
pub fn command(alloc: Global, words: &[String]) -> Result<Command, WordsError>
    ensures earlier { IfOk result (λ asked. earlier_of asked ≡ with_files (drop 2 (texts_of words.now))) }
    ensures found { IfOk result (IsAskedBy (subcommand_of program_app (other_words (texts_of words.now)))) }
    ensures faultless { IfOk result (λ _. fault_of program_app (other_words (texts_of words.now)) ≡ []) }
    ensures taken { IfErr result (λ e. AreTaken (other_words (texts_of words.now)) → e ≡ WordsError.NoMemory) }
{
    let (earlier, others) = parted(alloc, words)?;
    let parser = parser(alloc)?;
    match parser.try_get_matches_from(others.as_slice()) {
        Ok(matches) => command_of(alloc, &matches, earlier),
        Err(error) => Err(refusal(error.kind())),
    }
}

/// Why `clap` refuses words: for memory, or for what they are.
fn refusal(kind: ErrorKind) -> WordsError
    ensures memory { kind ≡ ErrorKind.OutOfMemory → result ≡ WordsError.NoMemory }
    ensures usage { result ≡ WordsError.NoMemory → kind ≡ ErrorKind.OutOfMemory }
{
    if kind == ErrorKind::OutOfMemory {
        WordsError::NoMemory
    } else {
        WordsError::Usage
    }
}

fn parser<'a>(alloc: Global) -> Result<clap::Command<'a>, AllocError>
    ensures { IfOk result (λ parser. app_of parser ≡ program_app) }
{
    let parser = clap::Command::new(alloc, "witcall")
        .disable_help_flag(true)
        .disable_help_subcommand(true)
        .subcommand_required(true);
    let parser = adding(alloc, parser, "show", FILE.as_slice())?;
    let parser = adding(alloc, parser, "bin", FILE.as_slice())?;
    let parser = adding(alloc, parser, "text", FILE.as_slice())?;
    let parser = adding(alloc, parser, "layout", FILE.as_slice())?;
    adding(alloc, parser, "call", CALL.as_slice())
}

/// A word of a command, which is required.
fn required_word<'a>(alloc: Global, word: &'a str) -> Arg<'a>
    ensures rule { rule_of result ≡ required word.now }
    ensures own { result.global ≡ false }
{
    Arg::new(alloc, word).required(true).action(ArgAction::Set)
}

/// The parser with one more command, whose words are all required.
fn adding<'a>(
    alloc: Global,
    parser: clap::Command<'a>,
    name: &'a str,
    words: &[&'a str],
) -> Result<clap::Command<'a>, AllocError>
    ensures { IfOk result (λ more. app_of more
        ≡ with_subcommand (app_of parser.entry) (with_words name.now (lent_texts words.now))) }
{
    let mut command = clap::Command::new(alloc, name).disable_help_flag(true);
    for word in words {
        command = command.arg(required_word(alloc, *word))?;
    }
    parser.subcommand(command)
}

fn command_of(
    alloc: Global,
    matches: &ArgMatches<'_>,
    earlier: Vec<String>,
) -> Result<Command, WordsError>
    ensures found { IfOk result (IsAskedBy (subcommand_rows_of matches.now)) }
    ensures earlier { IfOk result (λ asked. earlier_of asked ≡ texts_of earlier.items) }
    ensures taken { IfErr result (λ e. NamesCommand (subcommand_rows_of matches.now) → e ≡ WordsError.NoMemory) }
{
    match matches.subcommand() {
        Some((name, words)) => asked(alloc, name, words, earlier),
        None => Err(WordsError::Usage),
    }
}

/// The command of a name, with the words that were found for it and the earlier packages' files.
fn asked(
    alloc: Global,
    name: &str,
    words: &ArgMatches<'_>,
    earlier: Vec<String>,
) -> Result<Command, WordsError>
    ensures ok { IfOk result (IsAsked name.now (rows_of (found_of words.now))) }
    ensures earlier { IfOk result (λ asked. earlier_of asked ≡ texts_of earlier.items) }
    ensures answered { IfErr result (λ e. IsCommand name.now (rows_of (found_of words.now)) → e ≡ WordsError.NoMemory) }
{
    let job = match name {
        "show" => Job::Show,
        "bin" => Job::Bin,
        "text" => Job::Text,
        "layout" => Job::Layout,
        "call" => {
            return Ok(Command::Call {
                earlier,
                file: word(alloc, words, "file")?,
                interface: word(alloc, words, "interface")?,
                function: word(alloc, words, "function")?,
                arguments: word(alloc, words, "arguments")?,
                reply: word(alloc, words, "reply")?,
            });
        }
        _ => return Err(WordsError::Usage),
    };
    Ok(Command::Convert {
        job,
        earlier,
        file: word(alloc, words, "file")?,
    })
}

/// The word of a name, copied.
fn word(alloc: Global, words: &ArgMatches<'_>, id: &str) -> Result<String, WordsError>
    ensures found { IfOk result (λ text. IsWord (rows_of (found_of words.now)) id.now (string_bytes text)) }
    ensures answered { IfErr result (λ e. HasWord (rows_of (found_of words.now)) id.now → e ≡ WordsError.NoMemory) }
{
    match words.get_str(id) {
        Some(text) => Ok(String::from_str(alloc, text)?),
        None => Err(WordsError::Usage),
    }
}
