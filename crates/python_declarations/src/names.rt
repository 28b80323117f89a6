//! Labels as names in Python.

use declared_names::{is_among, push_capitals};
use std::alloc::{AllocError, Global};
use text_builder::TextBuilder;

/// Words of Python, and names that the annotations of a class need.
static RESERVED: &str = "\
and as assert async await bool break bytes class continue def del elif else except finally for from global if import in
int is lambda list nonlocal not or pass raise return self str try tuple typing while witcall with yield
";

/// What a type of an interface can't be called: words of Python, and what its class holds besides.
static TAKEN: &str = "False Functions None True";

/// A label as the name of a type of an interface. One that Python gives another meaning ends in `_`.
pub fn type_name(alloc: Global, label: &str) -> Result<String, AllocError> {
    let mut name = TextBuilder::new(alloc);
    push_capitals(&mut name, label);
    if is_among(TAKEN, name.as_str()) {
        name.push("_");
    }
    name.finish()
}

/// A label as the name of a field, a parameter or a method. One that Python gives another meaning ends in `_`.
pub fn member_name(alloc: Global, label: &str) -> Result<String, AllocError> {
    let mut name = TextBuilder::new(alloc);
    for character in label.chars() {
        name.push_char(if character == '-' {
            '_'
        } else {
            character.to_ascii_lowercase()
        });
    }
    if is_among(RESERVED, name.as_str()) {
        name.push("_");
    }
    name.finish()
}

/// Appends a label as the name of a constant.
pub fn push_constant(text: &mut TextBuilder, label: &str) {
    for character in label.chars() {
        text.push_char(if character == '-' {
            '_'
        } else {
            character.to_ascii_uppercase()
        });
    }
}
