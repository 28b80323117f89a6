//! Labels as names in TypeScript.

use declared_names::{is_among, push_capital, push_capitals};
use std::alloc::{AllocError, Global};
use text_builder::TextBuilder;

/// What a parameter can't be called.
static RESERVED: &str = "\
arguments as async await break case catch class const continue debugger default delete do else enum eval export extends
false finally for function if implements import in instanceof interface let new null override package private protected
public readonly return static super switch this throw true try typeof undefined var void while with yield
";

/// What a type of an interface can't be called, since its namespace gives another meaning to the name.
static TAKEN: &str = "Functions Int16Array Int32Array Int8Array Uint16Array Uint32Array Uint8Array";

/// A label as the name of a type of an interface. One that the namespace gives another meaning ends in `_`.
pub fn type_name(alloc: Global, label: &str) -> Result<String, AllocError> {
    let mut name = TextBuilder::new(alloc);
    push_capitals(&mut name, label);
    if is_among(TAKEN, name.as_str()) {
        name.push("_");
    }
    name.finish()
}

/// A label as the name of a parameter. One that is a word of TypeScript ends in `_`.
pub fn parameter_name(alloc: Global, label: &str) -> Result<String, AllocError> {
    let mut name = TextBuilder::new(alloc);
    for (index, word) in label.split('-').enumerate() {
        if index == 0 {
            name.push_made(word.to_ascii_lowercase(alloc));
        } else {
            push_capital(&mut name, word);
        }
    }
    if is_among(RESERVED, name.as_str()) {
        name.push("_");
    }
    name.finish()
}

/// Appends a label as the key of an object: in quotes if it has more than one word.
pub fn push_key(text: &mut TextBuilder, label: &str) {
    match label.split_once('-') {
        Some(_) => text.push_three("\"", label, "\""),
        None => text.push(label),
    }
}
