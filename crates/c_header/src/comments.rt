//! Comments of a header.

use text_builder::TextBuilder;

/// Writes a comment, in lines of about 110 letters.
pub fn push_comment(text: &mut TextBuilder, comment: &str) {
    text.push("\n/*");
    let mut width: usize = 2;
    for word in comment.split(' ') {
        let is_full = width.saturating_add(word.len()) > 110;
        text.push(if is_full { "\n * " } else { " " });
        text.push(word);
        width = if is_full { 2 } else { width };
        width = width.saturating_add(word.len()).saturating_add(1);
    }
    text.push(" */\n");
}

/// Writes a comment, the head of a function of this name that returns a value of a type, and the variable of the value.
/// The words are the comment and what comes before and after the variable's type.
pub fn push_reader(text: &mut TextBuilder, c: &str, name: &str, words: [&str; 3]) {
    let [comment, before, after] = words;
    push_comment(text, comment);
    text.push_three("static inline ", c, " ");
    text.push_three(name, before, c);
    text.push(after);
}
