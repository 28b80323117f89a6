//! The files of a command: those that it names, and those of its folders.
ghost use Rattle.std.specs.Prelude.{◌≡◌, ◌<◌, ◌^◌, false, OnOk};

use atoms::{ReadUpToError, Source as Bytes, Watched, read_up_to};
use std::alloc::{AllocError, Global};
use std::fs;
use wit_faults::ReadError;

/// The most bytes of a text.
pub const MAX_TEXT: usize = 1_048_576;

/// The most bytes of a binary: a module has more than the section with its package.
pub const MAX_BINARY: usize = 67_108_864;

/// How many more bytes of a binary than of a text are read.
const MAX_REST: usize = MAX_BINARY - MAX_TEXT - 1;

/// The bytes that a binary begins with.
static FRONT: [u8; 4] = [0x00, 0x61, 0x73, 0x6d];

/// A file of a command.
#[derive(Drop)]
pub struct Source {
    pub path: String,
    /// The folder in which it was found. No text if the command names the file.
    pub folder: String,
    /// It is in the folder of dependencies.
    pub is_dependency: bool,
    /// What it has, or one byte more than the limit of it.
    pub bytes: Result<Vec<u8>, ReadError>,
}

/// Whether bytes begin as those of a binary do.
pub fn is_binary(bytes: &[u8]) -> bool {
    bytes.starts_with(FRONT.as_slice())
}

impl Source {
    /// Whether it begins as a binary does.
    pub fn is_binary(&self) -> bool {
        match &self.bytes {
            Ok(bytes) => is_binary(bytes.as_slice()),
            Err(_) => false,
        }
    }
}

/// Where files are found: in a folder, or by the command, which is no text.
#[derive(Clone, Copy)]
struct Origin<'a> {
    folder: &'a str,
    is_dependency: bool,
}

/// The files of a folder that are read, and its folders, each in the order of their names.
#[derive(Drop)]
struct Entries {
    files: Vec<String>,
    folders: Vec<String>,
}

/// Reads up to so many bytes, and one more.
fn read_some<R: Bytes>(alloc: Global, reader: &mut R, limit: usize) -> Result<Vec<u8>, ReadError>
    requires ready { R.has_failed reader.old ≡ false }
    requires small { limit < 2 ^ 32 }
    ensures { OnOk result (R.has_failed reader.new ≡ false) }
{
    match read_up_to(alloc, reader, limit) {
        Ok(bytes) => Ok(bytes),
        Err(ReadUpToError::Failed(place)) => Err(ReadError::Read(place)),
        Err(ReadUpToError::NoMemory) => Err(ReadError::NoMemory),
    }
}

/// Reads what comes after the front of a binary, and appends it.
fn read_rest<R: Bytes>(alloc: Global, reader: &mut R, bytes: &mut Vec<u8>) -> Result<(), ReadError>
    requires { R.has_failed reader.old ≡ false }
{
    let rest = match read_some(alloc, reader, MAX_REST) {
        Ok(rest) => rest,
        Err(ReadError::Read(place)) => {
            return Err(ReadError::Read(bytes.len().saturating_add(place)));
        }
        Err(error) => return Err(error),
    };
    match bytes.extend_from_slice(rest.as_slice()) {
        Ok(()) => Ok(()),
        Err(_) => Err(ReadError::NoMemory),
    }
}

/// Reads up to the limit of a text, or up to that of a binary, and one byte more.
fn read<R: Bytes>(alloc: Global, reader: &mut R) -> Result<Vec<u8>, ReadError>
    requires { R.has_failed reader.old ≡ false }
{
    let mut bytes = read_some(alloc, reader, MAX_TEXT)?;
    if bytes.len() > MAX_TEXT && is_binary(bytes.as_slice()) {
        read_rest(alloc, reader, &mut bytes)?;
    }
    Ok(bytes)
}

/// The bytes of a file, or of standard input if the path is `-`.
fn bytes_of(rt: &HostRuntime, path: &str) -> Result<Vec<u8>, ReadError> {
    if path == "-" {
        return read(rt.alloc(), &mut Watched::new(rt.stdin()));
    }
    match fs::open(rt, path) {
        Ok(file) => read(rt.alloc(), &mut Watched::new(file)),
        Err(_) => Err(ReadError::File),
    }
}

fn is_folder(rt: &HostRuntime, path: &str) -> bool {
    match fs::metadata(rt, path) {
        Ok(metadata) => metadata.is_dir(),
        Err(_) => false,
    }
}

/// The paths of what a folder has, sorted. There are none if it can't be listed.
fn paths_in(rt: &HostRuntime, folder: &str) -> Result<Vec<String>, AllocError> {
    let alloc = rt.alloc();
    let mut paths = Vec::new(alloc);
    let Ok(entries) = fs::read_dir(rt, folder) else {
        return Ok(paths);
    };
    for entry in entries {
        if let Ok(entry) = entry {
            paths.push(String::from_str(alloc, entry.path().to_string_lossy())?)?;
        }
    }
    paths.sort()?;
    Ok(paths)
}

impl Entries {
    /// Adds a path. A file is added if its name ends so.
    fn add(&mut self, rt: &HostRuntime, path: String, endings: &[&str]) -> Result<(), AllocError> {
        if is_folder(rt, path.as_str()) {
            self.folders.push(path)?;
        } else if endings.iter().any(|ending| path.as_str().ends_with(ending)) {
            self.files.push(path)?;
        }
        Ok(())
    }
}

/// What a folder has. Of its files those are read whose names end so.
fn entries_of(rt: &HostRuntime, folder: &str, endings: &[&str]) -> Result<Entries, AllocError> {
    let mut entries = Entries {
        files: Vec::new(rt.alloc()),
        folders: Vec::new(rt.alloc()),
    };
    for path in paths_in(rt, folder)? {
        entries.add(rt, path, endings)?;
    }
    Ok(entries)
}

/// A file of this path, or standard input if the path is `-`.
fn source_at(rt: &HostRuntime, path: &str, origin: Origin<'_>) -> Result<Source, AllocError> {
    Ok(Source {
        path: String::from_str(rt.alloc(), path)?,
        folder: String::from_str(rt.alloc(), origin.folder)?,
        is_dependency: origin.is_dependency,
        bytes: bytes_of(rt, path),
    })
}

/// Reads files.
fn push_files(
    rt: &HostRuntime,
    sources: &mut Vec<Source>,
    paths: &[String],
    origin: Origin<'_>,
) -> Result<(), AllocError> {
    for path in paths {
        sources.push(source_at(rt, path.as_str(), origin)?)?;
    }
    Ok(())
}

/// Reads the texts of a folder of a dependency.
fn push_dependency(
    rt: &HostRuntime,
    sources: &mut Vec<Source>,
    folder: &str,
) -> Result<(), AllocError> {
    let is_dependency = true;
    let entries = entries_of(rt, folder, &[".wit"])?;
    let origin = Origin {
        folder,
        is_dependency,
    };
    push_files(rt, sources, entries.files.as_slice(), origin)
}

/// Reads the texts of folders of dependencies.
fn push_each_dependency(
    rt: &HostRuntime,
    sources: &mut Vec<Source>,
    folders: &[String],
) -> Result<(), AllocError> {
    for folder in folders {
        push_dependency(rt, sources, folder.as_str())?;
    }
    Ok(())
}

/// Reads what a folder of dependencies has: files, binaries too, and the files of folders.
fn push_dependencies(
    rt: &HostRuntime,
    sources: &mut Vec<Source>,
    folder: &str,
) -> Result<(), AllocError> {
    let is_dependency = true;
    let entries = entries_of(rt, folder, &[".wit", ".wasm"])?;
    let origin = Origin {
        folder,
        is_dependency,
    };
    push_files(rt, sources, entries.files.as_slice(), origin)?;
    push_each_dependency(rt, sources, entries.folders.as_slice())
}

/// A folder that has no file to be read.
fn no_file(alloc: Global, folder: &str) -> Result<Source, AllocError> {
    Ok(Source {
        path: String::from_str(alloc, folder)?,
        folder: String::from_str(alloc, folder)?,
        is_dependency: false,
        bytes: Err(ReadError::Folder),
    })
}

/// Reads the files of a folder.
fn push_own(rt: &HostRuntime, sources: &mut Vec<Source>, folder: &str) -> Result<(), AllocError> {
    let is_dependency = false;
    let entries = entries_of(rt, folder, &[".wit"])?;
    if entries.files.is_empty() {
        sources.push(no_file(rt.alloc(), folder)?)?;
    }
    let origin = Origin {
        folder,
        is_dependency,
    };
    push_files(rt, sources, entries.files.as_slice(), origin)
}

/// Reads the files of a folder, and those of its folder `deps`.
fn push_folder(
    rt: &HostRuntime,
    sources: &mut Vec<Source>,
    folder: &str,
) -> Result<(), AllocError> {
    push_own(rt, sources, folder)?;
    let folder = folder.strip_suffix("/").unwrap_or(folder);
    let dependencies = format!(in rt.alloc(); "{folder}/deps")?;
    push_dependencies(rt, sources, dependencies.as_str())
}

/// Files that the command names.
static NAMED: Origin<'static> = Origin {
    folder: "",
    is_dependency: false,
};

/// Reads the file of this path, or standard input if the path is `-`.
pub fn source_of(rt: &HostRuntime, path: &str) -> Result<Source, AllocError> {
    source_at(rt, path, NAMED)
}

/// Reads the files that these paths are or have.
pub fn sources_of(rt: &HostRuntime, paths: &[&str]) -> Result<Vec<Source>, AllocError> {
    let mut sources = Vec::new(rt.alloc());
    for path in paths {
        if is_folder(rt, path) {
            push_folder(rt, &mut sources, path)?;
        } else {
            sources.push(source_of(rt, path)?)?;
        }
    }
    Ok(sources)
}
