//! Whether a text is a full name, without a copy of either.
ghost use Rattle.std.specs.Prelude.{◌≡◌, ◌↔◌, ◌≢◌, ◌++◌, ◌∷◌, ℕ, List, IsTrue, MatchOption};
ghost use Rattle.atoms.specs.FullName.{full_name_text, package_text, name_text, version_suffix};
ghost use Rattle.tables.specs.PackageNames.{name_parts, own_name};

use atoms::Label;
use tables::PackageName;

/// What a text has after this front.
fn after<'a>(text: &'a [u8], front: &[u8]) -> Option<&'a [u8]>
    ensures { MatchOption result ((rest : List ℕ) → text.now ≢ front.now ++ rest) (λ x. text.now ≡ front.now ++ x.now) }
{
    text.strip_prefix(front)
}

/// What a text has after this front and this mark.
fn after_part<'a>(text: &'a [u8], front: &[u8], mark: u8) -> Option<&'a [u8]>
    ensures { MatchOption result ((rest : List ℕ) → text.now ≢ front.now ++ mark ∷ rest)
        (λ x. text.now ≡ front.now ++ mark ∷ x.now) }
{
    let rest = after(text, front)?;
    after(rest, &[mark])
}

/// Whether the text is the full name of this name in the package: `namespace:package/name`, and `@version` if it has
/// one. (WIT.md, "Package Names")
pub fn is_full_name(package: &PackageName, name: &Label, text: &str) -> bool
    ensures { IsTrue result ↔ (text.now ≡ own_name «package».now name.now) }
{
    match after_part(text.as_bytes(), package.namespace.as_bytes(), b':') {
        Some(rest) => is_in_namespace(package, name, rest),
        None => false,
    }
}

fn is_in_namespace(package: &PackageName, name: &Label, text: &[u8]) -> bool
    ensures { IsTrue result ↔ (text.now ≡ package_text (name_parts «package».now name.now)) }
{
    match after_part(text, package.name.as_bytes(), b'/') {
        Some(rest) => is_in_package(package, name, rest),
        None => false,
    }
}

fn is_in_package(package: &PackageName, name: &Label, text: &[u8]) -> bool
    ensures { IsTrue result ↔ (text.now ≡ name_text (name_parts «package».now name.now)) }
{
    match after(text, name.as_bytes()) {
        Some(rest) => is_suffix(package, rest),
        None => false,
    }
}

fn is_suffix(package: &PackageName, text: &[u8]) -> bool
    ensures { IsTrue result ↔ (text.now ≡ version_suffix «package».now.version) }
{
    match &package.version {
        None => text.is_empty(),
        Some(version) => match after(text, b"@") {
            Some(rest) => rest == version.as_bytes(),
            None => false,
        },
    }
}
