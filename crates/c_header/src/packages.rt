//! The packages of a header.

use crate::calls::{push_macro, put_function, take_constant, take_if};
use crate::common::COMMON;
use crate::prefixes::{prefix_of, stems_of};
use atoms::{KeyedState, Label, NameKey};
use c_declarations::{Header, Includer, Purpose, Scope};
use c_types::Laid;
use c_types::c_names::{NameKind, c_word, push_constant};
use std::alloc::{AllocError, Global};
use tables::{Interface, PackageName};
use text_builder::TextBuilder;
use wit_comments::Comments;

/// What the texts of packages say.
#[derive(Clone, Copy)]
pub struct Texts<'a> {
    /// The canonical text of each package.
    pub canonical: &'a [String],
    /// The comments of all.
    pub comments: &'a Comments,
}

/// Hashers with a key of these texts.
pub fn keyed_by(texts: &[String]) -> KeyedState {
    let mut key = NameKey::new();
    for text in texts {
        key.write(text.as_bytes());
    }
    key.state()
}

/// The full name of an interface or a world of this name.
fn full_name_of(alloc: Global, package: &PackageName, name: &Label) -> Result<String, AllocError> {
    let full_name = package.full_name(alloc, name)?;
    String::from_str(alloc, full_name.as_str())
}

/// The scope of an interface or a world of this name, of a package whose names begin with a prefix.
pub fn scope_of(
    header: &mut Header<'_>,
    prefix: &str,
    package: &PackageName,
    name: &Label,
) -> Scope {
    let alloc = header.alloc;
    let word = header.text.kept(c_word(alloc, name.as_str()));
    let own = format!(in alloc; "{prefix}_{}", word.as_str());
    Scope {
        prefix: header.text.kept(own),
        full_name: header.text.kept(full_name_of(alloc, package, name)),
    }
}

/// Writes the full name of an interface as a constant.
fn put_full_name(header: &mut Header<'_>, scope: &Scope) {
    let constant = take_constant(header, &[scope.prefix.as_str(), "_interface"]);
    push_macro(
        &mut header.text,
        constant.as_str(),
        scope.full_name.as_str(),
    );
}

/// Writes what an interface has.
fn put_entries(header: &mut Header<'_>, scope: &Scope, interface: &Interface) {
    put_full_name(header, scope);
    header.put_types(scope, interface.uses.as_slice());
    header.put_types(scope, interface.types.as_slice());
    for id in interface.functions.as_slice() {
        put_function(header, scope, *id);
    }
}

/// Writes a text, so that it takes effect once: it is guarded by a name of these two words.
pub fn put_guarded(header: &mut Header<'_>, front: &str, name: &str, own: &str) {
    let guard = header.text.kept([front, name].concat(header.alloc));
    header.put_guarded(guard.as_str(), own);
}

/// Writes an interface.
fn put_interface(header: &mut Header<'_>, scope: &Scope, interface: &Interface) {
    let before = header.begin();
    put_entries(header, scope, interface);
    let own = header.end(before);
    let last = ["---- ", scope.full_name.as_str()].concat(header.alloc);
    let last = header.text.kept(last);
    header.put_comment(scope.full_name.as_str(), last.as_str());
    header.text.push("\n");
    put_guarded(
        header,
        "wit_interface_",
        scope.prefix.as_str(),
        own.as_str(),
    );
}

/// Writes the interfaces of the package of this number.
fn put_interfaces(header: &mut Header<'_>, place: usize, prefix: &str, package: &PackageName) {
    for interface in header.types.laid.resolve.interfaces.as_slice() {
        if interface.package.0 as usize == place {
            let scope = scope_of(header, prefix, package, &interface.name);
            put_interface(header, &scope, interface);
        }
    }
}

/// Writes the name of a package between two texts.
fn push_named(text: &mut TextBuilder, before: &str, name: Result<String, AllocError>, after: &str) {
    text.push(before);
    text.push_made(name);
    text.push(after);
}

/// Writes the text of a package.
fn put_text(header: &mut Header<'_>, prefix: &str, package: &PackageName, text: &str) {
    let constant = take_if(header, false, NameKind::Constant, &[prefix, "_text"]);
    let name = package.to_string(header.alloc);
    push_named(&mut header.text, "\n/* The package ", name, ". */\n");
    let before = header.begin();
    push_constant(&mut header.text, constant.as_str(), text);
    let own = header.end(before);
    put_guarded(header, "wit_package_", prefix, own.as_str());
}

/// Writes the packages that have these texts.
fn put_packages(header: &mut Header<'_>, stems: &[String], texts: &[String]) {
    let packages = header.types.laid.resolve.packages.as_slice();
    for (place, package) in packages.iter().enumerate() {
        if let Some(text) = texts.get(place) {
            let prefix = header.text.kept(prefix_of(header.alloc, stems, package));
            header.begin_package(prefix.as_str());
            put_text(header, prefix.as_str(), package, text.as_str());
            put_interfaces(header, place, prefix.as_str(), package);
        }
    }
}

/// Writes the short names, which the one asks for who includes the header.
pub fn put_short_names(header: &mut Header<'_>) {
    header.text.push(SHORT_NAMES);
    header.put_short_names();
    header.text.push("#endif /* WIT_SHORT_NAMES */\n");
}

/// Takes the guard of a header that is called by what has this prefix.
pub fn take_guard(header: &mut Header<'_>, prefix: &str) -> String {
    let guard = ["wit_", prefix, "_h"].concat(header.alloc);
    let guard = header.text.kept(guard);
    header.take_upper(guard.as_str())
}

/// Writes where the guard of a header begins.
pub fn push_guard(text: &mut TextBuilder, guard: &str) {
    text.push_three("#ifndef ", guard, "\n#define ");
    text.push(guard);
    text.push("\n\n");
}

/// Writes where the guard of a header ends.
pub fn push_guard_end(text: &mut TextBuilder, guard: &str) {
    text.push_three("\n#endif /* ", guard, " */\n");
}

/// Writes a header that is called by this package and has this guard.
fn put_header(
    header: &mut Header<'_>,
    packages: (&[String], &[String]),
    main: &PackageName,
    guard: &str,
) {
    let (stems, texts) = packages;
    let name = main.to_string(header.alloc);
    push_named(&mut header.text, "/* ", name, MADE_FOR_HOSTS);
    push_guard(&mut header.text, guard);
    header.text.push(COMMON);
    put_packages(header, stems, texts);
    put_short_names(header);
    push_guard_end(&mut header.text, guard);
}

/// The header of packages that have these texts, each package after those that it uses. It is called by the
/// main one, of this number. No text if there is no such package.
pub fn header_of(
    alloc: Global,
    laid: Laid<'_>,
    texts: Texts<'_>,
    main: usize,
) -> Result<String, AllocError> {
    let packages = laid.resolve.packages.as_slice();
    let stems = stems_of(alloc, packages)?;
    let purpose = Purpose {
        includer: Includer::Host,
        comments: texts.comments,
    };
    let texts = texts.canonical;
    let mut header = Header::new(alloc, laid, keyed_by(texts), purpose)?;
    if let Some(main) = packages.get(main) {
        let prefix = prefix_of(alloc, stems.as_slice(), main)?;
        let guard = take_guard(&mut header, prefix.as_str());
        put_header(&mut header, (stems.as_slice(), texts), main, guard.as_str());
    }
    header.text.finish()
}

static MADE_FOR_HOSTS: &str =
    " for C and C++ hosts of witcall, by wit-explain bind c. Do not edit. */\n";

static SHORT_NAMES: &str = "
/* Short names: without the package's, if nothing else has them. Define WIT_SHORT_NAMES to have them. */
#ifdef WIT_SHORT_NAMES
";
