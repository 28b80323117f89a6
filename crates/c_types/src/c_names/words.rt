//! Labels as names in C.

use std::alloc::{AllocError, Global};
use text_builder::TextBuilder;

/// What a field can't be called: words of C and C++, and macros of their standard headers. Labels are written in lower
/// case.
static RESERVED: &str = "\
alignas alignof and and_eq asm assert atomic_cancel atomic_commit atomic_noexcept auto bitand bitor bool break case
catch char char16_t char32_t char8_t class co_await co_return co_yield compl complex concept const const_cast
consteval constexpr constinit continue decltype default delete do double dynamic_cast else enum errno explicit export
extern false float for friend goto i386 if imaginary inline int linux long math_errhandling mutable namespace new
noexcept noreturn not not_eq nullptr offsetof operator or or_eq private protected public reflexpr register
reinterpret_cast requires restrict return short signed sizeof static static_assert static_cast stderr stdin stdout
struct switch synchronized template this thread_local throw true try typedef typeid typename typeof typeof_unqual
union unix unsigned using virtual void volatile wchar_t while xor xor_eq
";

pub(crate) fn is_reserved(word: &str) -> bool {
    for reserved in RESERVED.split_whitespace() {
        if reserved == word {
            return true;
        }
    }
    false
}

/// Appends a label or a version as a part of a name.
fn push_word(text: &mut TextBuilder, label: &str) {
    for character in label.chars() {
        text.push_char(if character.is_ascii_alphanumeric() {
            character.to_ascii_lowercase()
        } else {
            '_'
        });
    }
}

/// A label or a version as a part of a name: its letters in lower case and its digits, and `_` for all else.
pub fn c_word(alloc: Global, label: &str) -> Result<String, AllocError> {
    let mut word = TextBuilder::new(alloc);
    push_word(&mut word, label);
    word.finish()
}

/// A label as the name of a field. One that is a word of C or C++, or a macro of their headers, ends in `_`.
pub fn c_label(alloc: Global, label: &str) -> Result<String, AllocError> {
    let mut word = TextBuilder::new(alloc);
    push_word(&mut word, label);
    if is_reserved(word.as_str()) {
        word.push_char('_');
    }
    word.finish()
}
