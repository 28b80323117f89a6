//! Core values and core signatures.

use canonical_abi::CoreKind;
use layout::{CoreSignature, Kinds};
use text_builder::TextBuilder;

fn kind_word(kind: CoreKind) -> &'static str {
    match kind {
        CoreKind::I32 => "i32",
        CoreKind::I64 => "i64",
    }
}

/// Appends kinds, with a blank between each two.
fn push_kinds(text: &mut TextBuilder, kinds: &[CoreKind]) {
    for (index, kind) in kinds.iter().enumerate() {
        text.push(if index > 0 { " " } else { "" });
        text.push(kind_word(*kind));
    }
}

/// Appends flat core values.
pub fn push_flat(text: &mut TextBuilder, kinds: &Kinds) {
    match kinds {
        Kinds::Flat(kinds) => push_kinds(text, kinds.as_slice()),
        Kinds::Spilled => text.push("more than 16, so in memory"),
    }
}

/// Appends a core signature.
pub fn push_signature(text: &mut TextBuilder, signature: &CoreSignature) {
    text.push("(");
    push_kinds(text, signature.params.as_slice());
    text.push(") -> (");
    if let Some(kind) = signature.result {
        text.push(kind_word(kind));
    }
    text.push(")");
}
