//! Characters that are not of ASCII, and what to write in their place.

use std::alloc::{AllocError, Global};

/// The first and the last code of characters, what each of them is, and what to do about it.
static CHARACTERS: [(u32, u32, &str, &str); 18] = [
    (0xA0, 0xA0, "a no-break space", "write a space"),
    (0xAD, 0xAD, "a soft hyphen", "leave it out"),
    (0x1680, 0x1680, "a space", "write a space"),
    (0x2000, 0x200A, "a space", "write a space"),
    (0x200B, 0x200B, "a zero-width space", "leave it out"),
    (
        0x200C,
        0x200F,
        "a character without a width",
        "leave it out",
    ),
    (0x2010, 0x2015, "a dash", "write `-`"),
    (0x2018, 0x201F, "a quote", "leave it out"),
    (0x2028, 0x2029, "a line separator", "begin a new line"),
    (
        0x202A,
        0x202E,
        "a character without a width",
        "leave it out",
    ),
    (0x202F, 0x202F, "a no-break space", "write a space"),
    (0x205F, 0x205F, "a space", "write a space"),
    (
        0x2060,
        0x2064,
        "a character without a width",
        "leave it out",
    ),
    (0x2192, 0x2192, "an arrow", "write `->`"),
    (0x21D2, 0x21D2, "an arrow", "write `->`"),
    (0x2212, 0x2212, "a minus sign", "write `-`"),
    (0x3000, 0x3000, "a space", "write a space"),
    (
        0xFF01,
        0xFF5E,
        "a character of full width",
        "write the plain one",
    ),
];

/// What to do about a character that is not of ASCII.
pub fn hint_of_character(alloc: Global, character: char) -> Result<String, AllocError> {
    let code = character as u32;
    for (first, last, what, instead) in &CHARACTERS {
        if *first <= code && code <= *last {
            return format!(in alloc; "this is {what} (U+{code:04X}): {instead}");
        }
    }
    String::from_str(alloc, "names have letters `a` to `z`, digits and `-`")
}
