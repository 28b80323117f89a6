//! What is written to a report or to a file, and why something is not.

use crate::asked::Asked;
use std::fmt::Display;
use std::fs;
use wit_faults::Report;

/// Reports why something of a path is not written.
pub fn refuse<E: Display>(report: &mut Report, path: &str, error: &E) {
    report.status = 1;
    report.text.push(path);
    report.text.push(": ");
    report.text.push_made(error.to_string(report.text.alloc()));
    report.text.push("\n");
}

/// Writes bytes to a file. False if it fails, which is reported.
pub fn is_saved(rt: &HostRuntime, report: &mut Report, file: &str, bytes: &[u8]) -> bool {
    let is_written = fs::write(rt, file, bytes).is_ok();
    if !is_written {
        refuse(report, file, &"error 65 write");
    }
    is_written
}

/// Writes bytes to a file.
pub fn save(rt: &HostRuntime, report: &mut Report, file: &str, bytes: &[u8]) {
    let _is_written = is_saved(rt, report, file, bytes);
}

/// Prints a text, or reports at the first of a command's paths why there is none.
pub fn push_written<E: Display>(
    report: &mut Report,
    asked: &Asked<'_, '_>,
    written: &Result<String, E>,
) {
    match written {
        Ok(text) => report.text.push(text.as_str()),
        Err(error) => refuse(report, asked.path(), error),
    }
}

/// Writes bytes to the file of a command, or reports at the first of its paths why there are none.
pub fn save_written<E: Display>(
    rt: &HostRuntime,
    report: &mut Report,
    asked: &Asked<'_, '_>,
    written: &Result<Vec<u8>, E>,
) {
    match written {
        Ok(bytes) => save(rt, report, asked.file(), bytes.as_slice()),
        Err(error) => refuse(report, asked.path(), error),
    }
}

/// Prints a picture, or writes it to a file that is not `-`.
pub fn show(rt: &HostRuntime, report: &mut Report, file: Option<&str>, picture: &str) {
    match file {
        Some(file) if file != "-" => save(rt, report, file, picture.as_bytes()),
        _ => report.text.push(picture),
    }
}
