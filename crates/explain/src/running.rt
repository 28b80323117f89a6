//! What the words of a command line ask for.

use crate::asked::{Asked, Verb, asked_for};
use crate::commands::run_on;
use crate::formatting::format_sources;
use crate::help::{VERSION, help_of, usage};
use crate::options::{ColorChoice, Options, Parsed};
use crate::unknown::{refusal_of_option, refusal_of_words};
use crate::writing::refuse;
use checked_packages::{Checked, CheckedSet, check_sources};
use package_commands::{push_decoded, push_differences};
use std::alloc::AllocError;
use std::env;
use std::io::IsTerminal;
use wit_faults::{Paint, Report, Style};
use wit_files::sources_of;

/// Whether a variable of the environment has a text.
fn is_set(rt: &HostRuntime, name: &str) -> bool {
    match env::var(rt, name) {
        Ok(value) => !value.is_empty(),
        Err(_) => false,
    }
}

/// Whether what is printed is colored: by default if it goes to a terminal and `NO_COLOR` has no text.
fn paint_of(rt: &HostRuntime, choice: ColorChoice) -> Paint {
    let is_colored = match choice {
        ColorChoice::Always => true,
        ColorChoice::Never => false,
        ColorChoice::Auto => rt.stdout().is_terminal() && !is_set(rt, "NO_COLOR"),
    };
    if is_colored {
        Paint::Colored
    } else {
        Paint::Plain
    }
}

fn new_report(rt: &HostRuntime, options: &Options<'_>) -> Report {
    let style = if options.is_json {
        Style::Json
    } else {
        Style::Text(paint_of(rt, options.color))
    };
    Report::new(rt.alloc(), style)
}

/// Checks the files that these paths are or have.
fn checked_paths(
    rt: &HostRuntime,
    report: &mut Report,
    paths: &[&str],
) -> Result<CheckedSet, AllocError> {
    let sources = sources_of(rt, paths)?;
    check_sources(rt.alloc(), report, sources)
}

/// Prints the packages of a binary that another tool wrote.
fn decode(rt: &HostRuntime, report: &mut Report, path: &str) {
    let decoded = push_decoded(rt, report, path);
    if let Err(error) = &decoded {
        refuse(report, path, error);
    }
}

/// Tells what changed from these packages to that of a path.
fn differences_to(
    rt: &HostRuntime,
    report: &mut Report,
    before: &[Checked],
    path: &str,
) -> Result<(), AllocError> {
    let after = checked_paths(rt, report, &[path])?;
    if report.status != 0 {
        return Ok(());
    }
    push_differences(rt.alloc(), report, before, after.list.as_slice());
    Ok(())
}

/// Tells what changed from the package of one path to that of another.
fn differences(
    rt: &HostRuntime,
    report: &mut Report,
    old: &str,
    new: &str,
) -> Result<(), AllocError> {
    let before = checked_paths(rt, report, &[old])?;
    differences_to(rt, report, before.list.as_slice(), new)
}

/// Checks the packages of a command's paths, and does with them what it asks for. If there are faults, it tells these.
fn run_on_paths(
    rt: &HostRuntime,
    report: &mut Report,
    asked: &Asked<'_, '_>,
) -> Result<(), AllocError> {
    let packages = checked_paths(rt, report, asked.paths())?;
    if report.status != 0 || matches!(asked.verb, Verb::Check) {
        report.finish();
    } else {
        run_on(rt, report, &packages, asked);
    }
    Ok(())
}

/// Lays out the files that a command's paths are or have.
fn format(rt: &HostRuntime, report: &mut Report, asked: &Asked<'_, '_>) -> Result<(), AllocError> {
    let sources = sources_of(rt, asked.paths())?;
    format_sources(rt, report, sources.as_slice(), asked.options.is_check)
}

/// Does what a command asks for.
fn run_command(
    rt: &HostRuntime,
    report: &mut Report,
    asked: &Asked<'_, '_>,
) -> Result<(), AllocError> {
    match asked.verb {
        Verb::Version => report.text.push(VERSION),
        Verb::Format => format(rt, report, asked)?,
        Verb::Decode => decode(rt, report, asked.word(0)),
        Verb::Differences => differences(rt, report, asked.word(0), asked.word(1))?,
        _ => run_on_paths(rt, report, asked)?,
    }
    Ok(())
}

/// The report of a command.
fn report_of(rt: &HostRuntime, asked: &Asked<'_, '_>) -> Result<Report, AllocError> {
    let mut report = new_report(rt, asked.options);
    run_command(rt, &mut report, asked)?;
    Ok(report)
}

/// Says that there is no such command, or how the commands are written.
fn refuse_words(rt: &HostRuntime, words: &[&str]) -> Result<Report, AllocError> {
    let text = refusal_of_words(rt.alloc(), words)?;
    Ok(Report::said(rt.alloc(), text.as_str(), 2))
}

/// Says that there is no such option.
fn refuse_option(rt: &HostRuntime, option: &str) -> Result<Report, AllocError> {
    let text = refusal_of_option(rt.alloc(), option)?;
    Ok(Report::said(rt.alloc(), text.as_str(), 2))
}

/// Says what the program or a command does.
fn help(rt: &HostRuntime, words: &[&str]) -> Result<Report, AllocError> {
    let Some(command) = words.first() else {
        return Ok(Report::said(rt.alloc(), usage(), 0));
    };
    match help_of(command) {
        Some(text) => Ok(Report::said(rt.alloc(), text, 0)),
        None => refuse_words(rt, words),
    }
}

/// Does what the options and words ask for.
fn run_options(rt: &HostRuntime, options: &Options<'_>) -> Result<Report, AllocError> {
    let words = options.words.as_slice();
    match words {
        _ if options.is_help => return help(rt, words),
        [first, command @ ..] if *first == "help" => return help(rt, command),
        _ => {}
    }
    match asked_for(options) {
        Some(asked) => report_of(rt, &asked),
        None => refuse_words(rt, words),
    }
}

/// Does what words ask for that say these options.
fn run_parsed(
    rt: &HostRuntime,
    options: &Options<'_>,
    parsed: Parsed<'_>,
) -> Result<Report, AllocError> {
    match parsed {
        Parsed::Options => run_options(rt, options),
        Parsed::Unknown(option) => refuse_option(rt, option),
        Parsed::Incomplete => Ok(Report::said(rt.alloc(), usage(), 2)),
    }
}

/// Does what the words ask for, which come after the program's own name.
pub fn run(rt: &HostRuntime, words: &[&str]) -> Result<Report, AllocError> {
    let mut options = Options::new(rt.alloc());
    let parsed = options.take_all(words)?;
    run_parsed(rt, &options, parsed)
}
