//! What to do about a name that stands for nothing.

use crate::hints::{Around, Known, Setting};
use crate::places::Found;
use near_names::nearest;
use std::alloc::{AllocError, Global};
use text_builder::TextBuilder;
use wit_hints::hint_of_unknown;
use wit_places::{Declarations, Lexed, PackageRef};
use wit_text::{Keyword, Punctuation};

/// The most interfaces of another package that a hint names.
const MAX_NAMED: usize = 5;

/// An interface of another package.
#[derive(Clone, Copy)]
struct Used<'a> {
    package: PackageRef<'a>,
    interface: &'a str,
}

/// What a name has to stand for.
#[derive(Clone, Copy)]
enum Kind<'a> {
    Type,
    /// An interface of the text's own package.
    Interface,
    /// One of another package.
    InterfaceOf(PackageRef<'a>),
    /// A type of an interface of another package.
    TypeOf(Used<'a>),
}

/// The package of the path that ends in a token.
fn package_before<'a>(lexed: &Lexed<'a>, index: usize) -> Option<PackageRef<'a>> {
    Some(lexed.path_at(index.checked_sub(4)?)?.package)
}

/// Whether a token is the name of an interface of the text's own package, by what is before it.
fn names_interface(lexed: &Lexed<'_>, index: usize) -> bool {
    let before = index.saturating_sub(1);
    lexed.is_keyword(before, Keyword::Use)
        || lexed.is_keyword(before, Keyword::Import)
        || lexed.is_keyword(before, Keyword::Export)
}

/// The token before the names of a `use` that one at a token is among: the name of an interface, or its version.
fn list_owner(lexed: &Lexed<'_>, index: usize) -> Option<usize> {
    for place in (0..index).rev() {
        if lexed.is_used_list(place) {
            return place.checked_sub(2);
        }
        let is_between = lexed.is_mark(place, Punctuation::Comma)
            || lexed.is_keyword(place, Keyword::As);
        if !is_between && lexed.name_at(place).is_none() {
            return None;
        }
    }
    None
}

/// What a name has to stand for that is among those of a `use` of an interface of another package.
fn used_of<'a>(lexed: &Lexed<'a>, index: usize) -> Option<Kind<'a>> {
    let owner = list_owner(lexed, index)?;
    let index = match lexed.name_at(owner) {
        Some(_) => owner,
        None => owner.checked_sub(1)?,
    };
    let package = package_before(lexed, index)?;
    let interface = lexed.name_at(index)?;
    Some(Kind::TypeOf(Used { package, interface }))
}

/// What the name at a place has to stand for.
fn kind_of<'a>(found: Found<'a>) -> Option<Kind<'a>> {
    let index = found.lexed.index_of(found.span?)?;
    if let Some(package) = package_before(found.lexed, index) {
        return Some(Kind::InterfaceOf(package));
    }
    if names_interface(found.lexed, index) {
        return Some(Kind::Interface);
    }
    Some(used_of(found.lexed, index).unwrap_or(Kind::Type))
}

/// The names of the interfaces of files.
fn interfaces_of<'a>(alloc: Global, files: &[Lexed<'a>]) -> Result<Vec<&'a str>, AllocError> {
    let mut names = Vec::new(alloc);
    for lexed in files {
        push_interfaces(alloc, &mut names, lexed)?;
    }
    Ok(names)
}

/// Adds the names of the interfaces of a file.
fn push_interfaces<'a>(
    alloc: Global,
    names: &mut Vec<&'a str>,
    lexed: &Lexed<'a>,
) -> Result<(), AllocError> {
    for declaration in Declarations::of(alloc, lexed)?.as_slice() {
        if declaration.keyword == Keyword::Interface {
            names.push(declaration.name)?;
        }
    }
    Ok(())
}

/// Whether at least half of the letters of two names are the same, from the first on.
fn begin_alike(name: &str, other: &str) -> bool {
    let letters = name.chars().zip(other.chars());
    let same = letters
        .take_while(|(letter, other)| letter == other)
        .count();
    same >= name.len().max(other.len()).saturating_sub(same)
}

/// The nearest of these names, or the first that begins as the word does.
fn nearest_interface<'a>(
    alloc: Global,
    names: &[&'a str],
    word: &str,
) -> Result<Option<&'a str>, AllocError> {
    let near = nearest(alloc, word, names)?;
    Ok(near.or(names.iter().copied().find(|name| begin_alike(name, word))))
}

/// The name of the package that files are of.
fn package_of<'a>(files: &[Lexed<'a>]) -> Option<PackageRef<'a>> {
    for lexed in files {
        if let Some(path) = lexed.own_package() {
            return Some(path.package);
        }
    }
    None
}

/// A package of the same name as that of these files, with another version.
fn other_version<'a>(around: Around<'a>, own: PackageRef<'_>) -> Option<PackageRef<'a>> {
    for known in around.known {
        if known.package.has_name_of(own) && !known.package.is(own) {
            return Some(known.package);
        }
    }
    None
}

/// The nearest to a word among the interfaces of files, or the first that begins as the word does.
fn nearest_of<'a>(
    alloc: Global,
    files: &[Lexed<'a>],
    word: &str,
) -> Result<Option<&'a str>, AllocError> {
    let names = interfaces_of(alloc, files)?;
    nearest_interface(alloc, names.as_slice(), word)
}

/// Appends the name of a package, with the version if it has one.
pub fn push_package(text: &mut TextBuilder, package: PackageRef<'_>) {
    text.push_three(package.namespace, ":", package.name);
    if let Some(version) = package.version {
        text.push("@");
        text.push(version);
    }
}

/// What to do about a name that none of its own package's interfaces has, nor one that is near.
fn of_far_interface(text: &mut TextBuilder, around: Around<'_>, word: &str) {
    text.push_three("no interface `", word, "` in ");
    if let Some(own) = package_of(around.files)
        && let Some(other) = other_version(around, own)
    {
        text.push("package `");
        push_package(text, own);
        text.push("`: if it is of `");
        push_package(text, other);
        text.push("`, give both one version");
    } else {
        text.push("this package: declare it, or write `namespace:name/");
        text.push(word);
        text.push("` if another package has it");
    }
}

/// What to do about a name that is no interface of its own package.
fn of_interface(text: &mut TextBuilder, setting: Setting<'_>, word: &str) {
    match nearest_of(setting.alloc, setting.around.files, word) {
        Ok(Some(name)) => {
            text.push_three("no interface `", word, "` in this package; did you mean `");
            text.push(name);
            text.push("`?");
        }
        Ok(None) => of_far_interface(text, setting.around, word),
        Err(_) => text.refuse(),
    }
}

/// The files of a package among those that are known.
fn files_of<'a>(known: &[Known<'a>], package: PackageRef<'_>) -> &'a [Lexed<'a>] {
    for other in known {
        if other.package.is(package) {
            return other.files;
        }
    }
    &[]
}

/// Adds the types that an interface of a file declares.
fn push_types<'a>(
    alloc: Global,
    names: &mut Vec<&'a str>,
    lexed: &Lexed<'a>,
    interface: &str,
) -> Result<(), AllocError> {
    let mut types = Declarations::of(alloc, lexed)?.types_of(alloc, interface)?;
    names.append(&mut types)?;
    Ok(())
}

/// The types that an interface of these files declares.
fn types_of<'a>(
    alloc: Global,
    files: &[Lexed<'a>],
    interface: &str,
) -> Result<Vec<&'a str>, AllocError> {
    let mut names = Vec::new(alloc);
    for lexed in files {
        push_types(alloc, &mut names, lexed, interface)?;
    }
    Ok(names)
}

/// Appends names with commas between them: the first ones, if they are many.
fn push_listed(text: &mut TextBuilder, names: &[&str]) {
    for (place, name) in names.iter().take(MAX_NAMED).enumerate() {
        let before = if place == 0 { "" } else { ", " };
        text.push_three(before, "`", *name);
        text.push("`");
    }
    if names.len() > MAX_NAMED {
        text.push(", ..");
    }
}

/// Appends which of these names is near, or which there are.
fn push_near(text: &mut TextBuilder, near: Result<Option<&str>, AllocError>, names: &[&str]) {
    match near {
        Ok(Some(name)) => text.push_three("did you mean `", name, "`?"),
        Ok(None) => {
            text.push("it has ");
            push_listed(text, names);
        }
        Err(_) => text.refuse(),
    }
}

/// What to do about a name that is none of these types of an interface.
fn of_types(text: &mut TextBuilder, alloc: Global, types: &[&str], word: &str) {
    if types.is_empty() {
        return text.push(" declares no type");
    }
    text.push_three(" has no type `", word, "`; ");
    push_near(text, nearest(alloc, word, types), types);
}

/// What to do about a name that is no type of an interface of another package.
fn of_used_type(text: &mut TextBuilder, setting: Setting<'_>, used: Used<'_>, word: &str) {
    let files = files_of(setting.around.known, used.package);
    text.push_three("interface `", used.interface, "`");
    match types_of(setting.alloc, files, used.interface) {
        Ok(types) => of_types(text, setting.alloc, types.as_slice(), word),
        Err(_) => text.refuse(),
    }
}

/// What to do about a name that is none of these interfaces of a package.
fn of_interfaces(text: &mut TextBuilder, alloc: Global, interfaces: &[&str], word: &str) {
    if interfaces.is_empty() {
        return text.push(" has no interface");
    }
    text.push_three(" has no interface `", word, "`; ");
    push_near(text, nearest_interface(alloc, interfaces, word), interfaces);
}

/// What to do about a name that is no interface of another package.
fn of_other_interface(
    text: &mut TextBuilder,
    setting: Setting<'_>,
    package: PackageRef<'_>,
    word: &str,
) {
    text.push("package `");
    push_package(text, package);
    text.push("`");
    match interfaces_of(setting.alloc, files_of(setting.around.known, package)) {
        Ok(interfaces) => of_interfaces(text, setting.alloc, interfaces.as_slice(), word),
        Err(_) => text.refuse(),
    }
}

/// The first interface of a package that declares a type of this name.
fn interface_with<'a>(
    alloc: Global,
    files: &[Lexed<'a>],
    word: &str,
) -> Result<Option<&'a str>, AllocError> {
    for lexed in files {
        let interface = Declarations::of(alloc, lexed)?.interface_with(word);
        if interface.is_some() {
            return Ok(interface);
        }
    }
    Ok(None)
}

/// What to do about a name that is no type.
fn of_type(text: &mut TextBuilder, setting: Setting<'_>, word: &str) {
    match interface_with(setting.alloc, setting.around.files, word) {
        Ok(Some(interface)) => {
            text.push_three("write `use ", interface, ".{");
            text.push(word);
            text.push("};` in this interface");
        }
        Ok(None) => hint_of_unknown(text, setting.alloc, setting.found.lexed, word),
        Err(_) => text.refuse(),
    }
}

/// What to do about a name that stands for nothing.
pub fn of_unknown(text: &mut TextBuilder, setting: Setting<'_>, word: &str) {
    match kind_of(setting.found) {
        Some(Kind::Interface) => of_interface(text, setting, word),
        Some(Kind::InterfaceOf(package)) => of_other_interface(text, setting, package, word),
        Some(Kind::TypeOf(used)) => of_used_type(text, setting, used, word),
        Some(Kind::Type) | None => of_type(text, setting, word),
    }
}
