//! Words of other languages, and what WIT writes for them.

/// What begins a function.
static FUNCTIONS: [&str; 7] = ["fn", "fun", "function", "def", "func", "proc", "method"];

/// What begins a constant.
static CONSTANTS: [&str; 7] = [
    "const", "constant", "let", "var", "val", "final", "readonly",
];

/// What begins a declaration.
static DECLARATIONS: [(&str, &str); 14] = [
    ("struct", "record"),
    ("class", "record"),
    ("message", "record"),
    ("object", "record"),
    ("union", "variant"),
    ("oneof", "variant"),
    ("typedef", "type"),
    ("alias", "type"),
    ("using", "type"),
    ("bitflags", "flags"),
    ("trait", "interface"),
    ("service", "interface"),
    ("module", "interface"),
    ("namespace", "interface"),
];

/// Types.
static TYPES: [(&str, &str); 38] = [
    ("int", "s32"),
    ("i32", "s32"),
    ("int32", "s32"),
    ("integer", "s32"),
    ("uint", "u32"),
    ("uint32", "u32"),
    ("unsigned", "u32"),
    ("number", "u32"),
    ("i8", "s8"),
    ("int8", "s8"),
    ("i16", "s16"),
    ("int16", "s16"),
    ("short", "s16"),
    ("i64", "s64"),
    ("int64", "s64"),
    ("long", "s64"),
    ("byte", "u8"),
    ("uint8", "u8"),
    ("uint16", "u16"),
    ("uint64", "u64"),
    ("usize", "u32"),
    ("boolean", "bool"),
    ("str", "string"),
    ("text", "string"),
    ("bytes", "list<u8>"),
    ("buffer", "list<u8>"),
    ("blob", "list<u8>"),
    ("array", "list<u8>"),
    ("vec", "list<u8>"),
    ("vector", "list<u8>"),
    ("slice", "list<u8>"),
    ("sequence", "list<u8>"),
    ("map", "list<tuple<string, u32>>"),
    ("hash-map", "list<tuple<string, u32>>"),
    ("dict", "list<tuple<string, u32>>"),
    ("dictionary", "list<tuple<string, u32>>"),
    ("optional", "option<u8>"),
    ("pair", "tuple<u8, u8>"),
];

/// Types that hold others.
static HOLDERS: [(&str, &str); 16] = [
    ("optional", "option<..>"),
    ("maybe", "option<..>"),
    ("nullable", "option<..>"),
    ("array", "list<..>"),
    ("vec", "list<..>"),
    ("vector", "list<..>"),
    ("slice", "list<..>"),
    ("sequence", "list<..>"),
    ("set", "list<..>"),
    ("map", "list<tuple<..>>"),
    ("hash-map", "list<tuple<..>>"),
    ("dict", "list<tuple<..>>"),
    ("dictionary", "list<tuple<..>>"),
    ("pair", "tuple<..>"),
    ("either", "result<..>"),
    ("expected", "result<..>"),
];

static FLOATS: [&str; 4] = ["float32", "float64", "float", "double"];

/// What stands for no value.
static NOTHINGS: [&str; 4] = ["void", "unit", "none", "null"];

/// What WIT writes for a word of a table.
fn written(table: &'static [(&'static str, &'static str)], word: &str) -> Option<&'static str> {
    for (other, name) in table {
        if *other == word {
            return Some(*name);
        }
    }
    None
}

/// Whether a word begins a constant.
pub fn is_constant(word: &str) -> bool {
    CONSTANTS.contains(&word)
}

/// Whether a word begins a function.
pub fn begins_function(word: &str) -> bool {
    FUNCTIONS.contains(&word)
}

/// Whether a word is a type of floats.
pub fn is_float(word: &str) -> bool {
    FLOATS.contains(&word)
}

/// Whether a word stands for no value.
pub fn is_nothing(word: &str) -> bool {
    NOTHINGS.contains(&word)
}

/// The keyword of WIT for a word that begins a declaration.
pub fn declaration(word: &str) -> Option<&'static str> {
    written(&DECLARATIONS, word)
}

/// The type of WIT for one of another language.
pub fn type_for(word: &str) -> Option<&'static str> {
    written(&TYPES, word)
}

/// The type of WIT for one of another language that holds others.
pub fn holder_for(word: &str) -> Option<&'static str> {
    written(&HOLDERS, word)
}
