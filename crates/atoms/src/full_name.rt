//! Full names of interfaces and worlds.
ghost use Rattle.std.specs.Prelude.{◌≡◌, ◌⊎◌, ℕ, IsTrue, ◌<◌, ◌∷◌, ◌++◌, List, Option, IfOk, IfErr, IfSome, IfNone};
ghost use Rattle.std.specs.Prelude.{MatchResult, string_bytes, option_map, not};
ghost use Rattle.atoms.specs.Label.{is_label, is_upper};
ghost use Rattle.std.specs.List.{list_all};
ghost use Rattle.atoms.specs.FullName.{NameParts, is_package_label, is_version, is_version_or_none, full_name_text};
ghost use Rattle.atoms.specs.FullName.{Lacks, IsName, IsFullName};
ghost use Rattle.atoms.specs.declared.error.AtomError.TheVariants as error;

use crate::error::AtomError;
use crate::label::{Label, is_label};
use semver::{Error, Version};
use std::alloc::{AllocError, Global};

/// The bytes that a version may have.
const VERSION_LIMIT: usize = 255;

/// A full name: `namespace:package/name`, followed by `@version` where the package has a version. The
/// namespace and the package have lower-case words alone.
#[derive(Debug, Drop)]
pub struct FullName {
    pub namespace: Label,
    pub package: Label,
    pub name: Label,
    pub version: Option<String>,
    ghost namespace_is: { IsTrue (is_package_label namespace) },
    ghost package_is: { IsTrue (is_package_label «package») },
    ghost version_is: { IsTrue (is_version_or_none (option_map string_bytes version)) },
}

impl FullName {
    ghost use Rattle.atoms.specs.FullNameView.{name_parts_of};

    /// The full name that a text spells. 4 `BadName` exactly where it spells none.
    pub fn parse(alloc: Global, text: &str) -> Result<FullName, AtomError>
        ensures found { IfOk result (λ n. IsFullName text.now (name_parts_of n)) }
        ensures only { (parts : NameParts) → IsFullName text.now parts
            → MatchResult result (λ n. name_parts_of n ≡ parts) (λ e. e ≡ error.NoMemory) }
        ensures errors { IfErr result (λ e. (e ≡ error.NoMemory) ⊎ (e ≡ error.BadName)) }
    {
        let Some((namespace, rest)) = cut(text, ':') else {
            return Err(AtomError::BadName);
        };
        let Some((package, rest)) = cut(rest, '/') else {
            return Err(AtomError::BadName);
        };
        let namespace = package_label(alloc, namespace)?;
        let package = package_label(alloc, package)?;
        let (name, version) = name_and_version(alloc, rest)?;
        Ok(FullName {
            namespace,
            package,
            name,
            version,
        })
    }

    /// The text that spells the name.
    pub fn text(&self, alloc: Global) -> Result<String, AllocError>
        ensures spelt { IfOk result (λ s. string_bytes s ≡ full_name_text (name_parts_of self.now)) }
        ensures named { IfOk result (λ s. IsFullName (string_bytes s) (name_parts_of self.now)) }
    {
        let mut text = String::from_str(alloc, self.namespace.as_str())?;
        text.push(':')?;
        text.push_str(self.package.as_str())?;
        text.push('/')?;
        text.push_str(self.name.as_str())?;
        if let Some(version) = &self.version {
            text.push('@')?;
            text.push_str(version.as_str())?;
        }
        Ok(text)
    }
}

/// What stands before the first such mark, and what behind it.
fn cut(text: &str, mark: char) -> Option<(&str, &str)>
    requires { mark < 128 }
    ensures some { IfSome result (λ x. (text.now ≡ x.0.now ++ mark ∷ x.1.now) × Lacks mark x.0.now) }
    ensures none { IfNone result (Lacks mark text.now) }
{
    text.split_once(mark)
}

/// The name, and the version behind an `@` if there is one.
fn name_and_version(alloc: Global, text: &str) -> Result<(Label, Option<String>), AtomError>
    ensures found { IfOk result (λ x. IsName text.now x.0 (option_map string_bytes x.1)) }
    ensures only { (name : List ℕ) (version : Option (List ℕ)) → IsName text.now name version
        → MatchResult result (λ x. (x.0 ≡ name) × (option_map string_bytes x.1 ≡ version)) (λ e. e ≡ error.NoMemory) }
    ensures errors { IfErr result (λ e. (e ≡ error.NoMemory) ⊎ (e ≡ error.BadName)) }
{
    let Some((name, version)) = cut(text, '@') else {
        return Ok((label(alloc, text)?, None));
    };
    let name = label(alloc, name)?;
    let version = version_text(alloc, version)?;
    Ok((name, Some(version)))
}

/// The label of a text, which may have upper-case words.
fn label(alloc: Global, text: &str) -> Result<Label, AtomError>
    ensures { MatchResult result (λ l. (l ≡ text.now) × IsTrue (is_label text.now))
        (λ e. (e ≡ error.NoMemory) ⊎ ((e ≡ error.BadName) × (IsTrue (is_label text.now) → ⊥))) }
{
    let bytes = text.as_bytes();
    if !is_label(bytes) {
        return Err(AtomError::BadName);
    }
    Ok(Label::from_bytes(alloc, bytes)?)
}

fn has_no_upper_case(text: &[u8]) -> bool
    ensures { result ≡ list_all (λ c. not (is_upper c)) text.now }
{
    text.iter().all(|byte| !byte.is_ascii_uppercase())
}

/// Whether a text is a label all of whose words are in lower case, as namespaces and packages have them.
#[tactic(auto, unfolding(crate::specs::FullName::is_package_label))]
pub fn is_package_label(text: &[u8]) -> bool
    ensures { result ≡ is_package_label text.now }
{
    is_label(text) && has_no_upper_case(text)
}

/// The label of a text, all of whose words are in lower case.
#[tactic(auto, unfolding(crate::specs::FullName::is_package_label))]
fn package_label(alloc: Global, text: &str) -> Result<Label, AtomError>
    ensures { MatchResult result (λ l. (l ≡ text.now) × IsTrue (is_package_label text.now))
        (λ e. (e ≡ error.NoMemory) ⊎ ((e ≡ error.BadName) × (IsTrue (is_package_label text.now) → ⊥))) }
{
    let bytes = text.as_bytes();
    if !is_package_label(bytes) {
        return Err(AtomError::BadName);
    }
    Ok(Label::from_bytes(alloc, bytes)?)
}

/// Whether a text is a version.
#[tactic(auto, unfolding(crate::specs::FullName::is_version))]
pub fn is_version(alloc: Global, text: &str) -> Result<bool, AllocError>
    ensures { IfOk result (λ is. is ≡ is_version text.now) }
{
    if text.len() > VERSION_LIMIT {
        return Ok(false);
    }
    match Version::parse(alloc, text) {
        Ok(_) => Ok(true),
        Err(error) if error == Error::from(AllocError) => Err(AllocError),
        Err(_) => Ok(false),
    }
}

/// The text of a version.
fn version_text(alloc: Global, text: &str) -> Result<String, AtomError>
    ensures { MatchResult result (λ v. (string_bytes v ≡ text.now) × IsTrue (is_version text.now))
        (λ e. (e ≡ error.NoMemory) ⊎ ((e ≡ error.BadName) × (IsTrue (is_version text.now) → ⊥))) }
{
    if !is_version(alloc, text)? {
        return Err(AtomError::BadName);
    }
    Ok(String::from_str(alloc, text)?)
}
