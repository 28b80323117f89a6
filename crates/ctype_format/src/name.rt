//! Names of imports and exports.
ghost use Rattle.std.specs.Prelude.{◌≡◌, IfOk, MatchOption, false, true};
ghost use Rattle.ctype_format.specs.Names.{is_full_name, is_extern_name, name_view};

use atoms::{AtomError, FullName, Label, is_label};
use std::alloc::{AllocError, Global};

/// The name of an import or an export: a label, or the full name of an interface.
#[derive(Drop)]
pub enum ExternName {
    Label(Label),
    /// In a box, since it is four times as large as a label, and rarer.
    FullName(Box<FullName>),
}

/// The name that a text spells, if it spells one.
#[tactic(auto, unfolding(crate::specs::Names::is_extern_name))]
pub fn extern_name(alloc: Global, text: &[u8]) -> Result<Option<ExternName>, AllocError>
    ensures { IfOk result (λ x. MatchOption x (is_extern_name text.now ≡ false)
        (λ n. (is_extern_name text.now ≡ true) × (name_view n ≡ text.now))) }
{
    if is_label(text) {
        return Ok(Some(ExternName::Label(Label::from_bytes(alloc, text)?)));
    }
    match simdutf8::compat::from_utf8(text) {
        Ok(text) => full_name(alloc, text),
        Err(_) => Ok(None),
    }
}

fn full_name(alloc: Global, text: &str) -> Result<Option<ExternName>, AllocError>
    ensures { IfOk result (λ x. MatchOption x (is_full_name text.now ≡ false)
        (λ n. (is_full_name text.now ≡ true) × (name_view n ≡ text.now))) }
{
    match FullName::parse(alloc, text) {
        Ok(name) => Ok(Some(ExternName::FullName(Box::new(alloc, name)?))),
        Err(AtomError::BadName) => Ok(None),
        Err(_) => Err(AllocError),
    }
}
