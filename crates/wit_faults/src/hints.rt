//! What to do about a fault, as docs/ERRORS.md has it.

use crate::cause::Cause;
use crate::places::{Found, declared_twice, long_flags, place_of};
use crate::unknown::{of_unknown, push_package};
use layout::LayoutError;
use std::alloc::{AllocError, Global};
use tables::{PackageName, ResolveError};
use text_builder::TextBuilder;
use wit_hints::{MORE_MEMORY, hint_of_duplicate, hint_of_text};
use wit_places::{Declarations, Lexed, PackageRef, chain_of, ring_of_interfaces};
use wit_text::Span;

/// A package of a set, with its files.
#[derive(Clone, Copy)]
pub struct Known<'a> {
    pub package: PackageRef<'a>,
    pub files: &'a [Lexed<'a>],
}

/// What is around a fault: the files of its package, and the packages that a hint may name.
#[derive(Clone, Copy)]
pub struct Around<'a> {
    pub files: &'a [Lexed<'a>],
    pub known: &'a [Known<'a>],
}

/// Where a fault of names is, and what is around it.
#[derive(Clone, Copy)]
pub struct Setting<'a> {
    pub alloc: Global,
    pub found: Found<'a>,
    pub around: Around<'a>,
}

/// What to do about two declarations of a name, which may be in two files.
fn of_duplicate(text: &mut TextBuilder, setting: Setting<'_>, name: &str) {
    match declared_twice(setting.alloc, setting.around.files, name) {
        Ok(Some(twice)) => {
            text.push_three("rename one: `", twice.first.path, "` has this name too");
        }
        Ok(None) => hint_of_duplicate(text, setting.found.lexed, name),
        Err(_) => text.refuse(),
    }
}

/// The first of these packages with this namespace and name.
fn like<'a>(known: &[Known<'a>], name: PackageRef<'_>) -> Option<PackageRef<'a>> {
    for other in known {
        if other.package.has_name_of(name) {
            return Some(other.package);
        }
    }
    None
}

/// What to do about a package that is not there: which one of the same name is.
fn of_package(text: &mut TextBuilder, known: &[Known<'_>], name: &PackageName) {
    let wanted = PackageRef::of_tables(name);
    match like(known, wanted) {
        Some(package) if package.is(wanted) => {
            text.push("this is the package of the file: leave out `");
            push_package(text, wanted);
            text.push("/`");
        }
        Some(package) => {
            text.push("package `");
            push_package(text, wanted);
            text.push("` is not here; there is `");
            push_package(text, package);
            text.push("`");
        }
        None => {
            text.push("give the file of package `");
            push_package(text, wanted);
            text.push("` too, or put it into the folder `deps`");
        }
    }
}

/// What to do about these interfaces, each of which uses the next one.
fn of_users(text: &mut TextBuilder, alloc: Global, ring: &[&str]) {
    if ring.is_empty() {
        return text.push("interfaces or types name each other in a ring");
    }
    text.push("interfaces use each other, ");
    text.push_made(chain_of(alloc, ring));
    text.push(": move what both use into one of its own");
}

/// What to do about interfaces that use each other.
fn of_interfaces(text: &mut TextBuilder, setting: Setting<'_>) {
    match ring_of_interfaces(setting.alloc, setting.around.files) {
        Ok(ring) => of_users(text, setting.alloc, ring.as_slice()),
        Err(_) => text.refuse(),
    }
}

/// What to do about types that are each declared as the next one.
fn of_aliases(text: &mut TextBuilder, alloc: Global, ring: &[&str]) {
    match ring {
        [name] => text.push_three("`", *name, "` names itself: give it a type"),
        [first, second] => {
            text.push_three("`", *first, "` and `");
            text.push(*second);
            text.push("` name each other");
            text.push(": give one of them a type");
        }
        _ => {
            text.push("types name each other, ");
            text.push_made(chain_of(alloc, ring));
            text.push(": give one of them a type");
        }
    }
}

/// What to do about a type that contains itself, at the place of its name.
fn of_type(
    text: &mut TextBuilder,
    setting: Setting<'_>,
    declarations: &Declarations<'_>,
    span: Span,
) {
    let lexed = setting.found.lexed;
    match declarations.ring_of_aliases(setting.alloc, lexed, span) {
        Ok(aliases) if !aliases.is_empty() => of_aliases(text, setting.alloc, aliases.as_slice()),
        Ok(_) => {
            text.push("a value has no pointers: keep the nodes in a `list<");
            text.push(lexed.at(span));
            text.push(">` and name them by `u32`");
        }
        Err(_) => text.refuse(),
    }
}

/// What to do about types of these declarations that contain themselves, or interfaces that use each other.
fn of_ring(text: &mut TextBuilder, setting: Setting<'_>, declarations: &Declarations<'_>) {
    match declarations.ring(setting.alloc, setting.found.lexed) {
        Ok(Some(span)) => of_type(text, setting, declarations, span),
        Ok(None) => of_interfaces(text, setting),
        Err(_) => text.refuse(),
    }
}

/// What to do about types that contain themselves, or interfaces that use each other.
fn of_cycle(text: &mut TextBuilder, setting: Setting<'_>) {
    match Declarations::of(setting.alloc, setting.found.lexed) {
        Ok(declarations) => of_ring(text, setting, &declarations),
        Err(_) => text.refuse(),
    }
}

/// What to do about a package that has too much: of flags, too many labels.
fn of_limit(text: &mut TextBuilder, alloc: Global, lexed: &Lexed<'_>) {
    match long_flags(alloc, lexed) {
        Ok(Some(flags)) => {
            text.push_three(
                "flags have at most 32 labels, `",
                lexed.at(flags.span),
                "` has ",
            );
            text.push_number(flags.labels);
            text.push(": use two sets, or a list of an enum");
        }
        Ok(None) => text.push("split the package"),
        Err(_) => text.refuse(),
    }
}

/// What to do about a fault of names, or of the whole package.
fn of_names(text: &mut TextBuilder, setting: Setting<'_>, error: &ResolveError) {
    match error {
        ResolveError::Unknown(label) => of_unknown(text, setting, label.as_str()),
        ResolveError::NoPackage(name) => of_package(text, setting.around.known, name),
        ResolveError::Duplicate(name) => of_duplicate(text, setting, name.as_str()),
        ResolveError::Cycle => of_cycle(text, setting),
        ResolveError::EmptyPackage => text.push("add an interface or a world"),
        ResolveError::NotThisShape => {}
        ResolveError::Limit => of_limit(text, setting.alloc, setting.found.lexed),
        ResolveError::SamePackage(_) => {
            text.push("put the files of this package into one folder");
        }
        ResolveError::SetLimit => text.push("leave out packages that are not used"),
        ResolveError::NoMemory => text.push(MORE_MEMORY),
    }
}

/// What to do about a fault that a file shows at a place. No text if there is nothing to say.
pub fn hint_of(
    alloc: Global,
    found: Found<'_>,
    around: Around<'_>,
    cause: &Cause,
) -> Result<String, AllocError> {
    let mut text = TextBuilder::new(alloc);
    let setting = Setting {
        alloc,
        found,
        around,
    };
    match cause {
        Cause::Text(error) => hint_of_text(&mut text, alloc, found.lexed, error),
        Cause::Resolve(error) => of_names(&mut text, setting, error),
        Cause::Layout(LayoutError::TooLarge, _) => text.push("use a list"),
        Cause::Layout(LayoutError::TooDeep, _) => text.push("nest less"),
        Cause::Layout(LayoutError::NoMemory, _) => text.push(MORE_MEMORY),
        Cause::NotUtf8(_) => text.push("save the file as UTF-8"),
        Cause::Read(_) => {}
    }
    text.finish()
}

/// A fault of a package as it is told: where, what it is, and what to do about it.
#[derive(Drop)]
pub struct PackageFault<'a> {
    pub found: Option<Found<'a>>,
    pub words: String,
    pub hint: String,
}

/// How a fault of a package is told.
pub fn package_fault<'a>(
    alloc: Global,
    around: Around<'a>,
    cause: &Cause,
) -> Result<PackageFault<'a>, AllocError> {
    let found = place_of(alloc, around, cause)?;
    let hint = match found {
        Some(found) => hint_of(alloc, found, around, cause)?,
        None => String::new(alloc),
    };
    let words = format!(in alloc; "{cause}")?;
    Ok(PackageFault { found, words, hint })
}
