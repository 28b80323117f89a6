//! Core values in words.

use canonical_abi::Flat;
use std::alloc::Global;
use text_builder::TextBuilder;

/// Each of these core values with its type. A text keeps whether an allocation was refused.
pub fn flat_texts(alloc: Global, text: &mut TextBuilder, flats: &[Flat]) -> Vec<String> {
    let mut texts = Vec::new(alloc);
    for flat in flats {
        let told = text.kept(match flat {
            Flat::I32(number) => format!(in alloc; "i32 {number}"),
            Flat::I64(number) => format!(in alloc; "i64 {number}"),
        });
        text.add(&mut texts, told);
    }
    texts
}

/// Appends texts, with commas between them.
pub fn push_list(line: &mut TextBuilder, texts: &[String]) {
    for (index, text) in texts.iter().enumerate() {
        line.push(if index > 0 { ", " } else { "" });
        line.push(text.as_str());
    }
}
