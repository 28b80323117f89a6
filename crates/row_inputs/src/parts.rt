//! The parts of which inputs are made.

use crate::inputs::{Inputs, Set};
use std::alloc::Global;
use text_builder::TextBuilder;

fn letter(digit: usize) -> char {
    match u8::try_from(digit) {
        Ok(digit) if digit < 26 => char::from(b'a' + digit),
        _ => '?',
    }
}

/// Writes a number as four letters, which are its digits to the base 26.
fn push_letters(text: &mut TextBuilder, number: usize) {
    for unit in [17576, 676, 26, 1] {
        text.push_char(letter(number / unit % 26));
    }
}

/// Writes what follows a brace of a text, in which a rule that ends at the next brace stands for this number: `n` for
/// it, `m` for the next, and `a` for its letters.
fn push_rule(text: &mut TextBuilder, piece: &str, number: usize) {
    let (rule, rest) = piece.split_once('}').unwrap_or(("", ""));
    match rule {
        "n" => text.push_number(number),
        "m" => text.push_number(number.saturating_add(1)),
        "a" => push_letters(text, number),
        _ => {
            text.push("{");
            text.push(piece);
            return;
        }
    }
    text.push(rest);
}

/// Writes a text with this number at its rules.
fn push_numbered(text: &mut TextBuilder, part: &str, number: usize) {
    for (index, piece) in part.split('{').enumerate() {
        if index == 0 {
            text.push(piece);
        } else {
            push_rule(text, piece, number);
        }
    }
}

/// Writes so many copies of a text, each with its own number.
fn push_copies(text: &mut TextBuilder, part: &str, count: usize) {
    for number in 0..count {
        push_numbered(text, part, number);
    }
}

/// What the next word or text is taken for.
#[derive(Clone, Copy)]
enum Awaited {
    Part,
    Bytes,
    /// How often a text or an input is repeated in one input.
    Repeats,
    /// What is repeated.
    Repeated(usize),
    /// How many inputs a text is.
    Inputs,
    Each(usize),
}

/// A set that is made of its parts.
#[derive(Drop)]
struct Maker<'a> {
    kept: &'a Inputs<'a>,
    set: Set,
    awaited: Awaited,
}

/// What adds to the set notes in a text whether an allocation was refused.
impl Maker<'_> {
    /// Adds a text that was made.
    fn push_made(&mut self, text: &mut TextBuilder, made: TextBuilder) {
        let made = text.kept(made.finish());
        self.set.add(text, made.as_bytes());
    }

    fn repeat_text(&mut self, text: &mut TextBuilder, part: &str, count: usize) {
        let mut copies = TextBuilder::new(text.alloc());
        push_copies(&mut copies, part, count);
        self.push_made(text, copies);
    }

    fn repeat_input(&mut self, text: &mut TextBuilder, part: &Set, count: usize) {
        for _time in 0..count {
            self.set.add(text, part.last.as_slice());
        }
    }

    /// Adds so many inputs, of which the first goes on with the last that is there.
    fn push_each(&mut self, text: &mut TextBuilder, part: &str, count: usize) {
        for number in 0..count {
            if number > 0 {
                self.set.begin(text);
            }
            let mut copy = TextBuilder::new(text.alloc());
            push_numbered(&mut copy, part, number);
            self.push_made(text, copy);
        }
    }

    fn push_bytes(&mut self, text: &mut TextBuilder, digits: &str) -> anyhow::Result<Awaited> {
        let bytes = hex::decode(text.alloc(), digits)?;
        self.set.add(text, bytes.as_slice());
        Ok(Awaited::Part)
    }

    /// Takes a word that begins a part, and answers what is to come.
    fn begin_part(&mut self, text: &mut TextBuilder, word: &str) -> anyhow::Result<Awaited> {
        match word {
            "bytes" => Ok(Awaited::Bytes),
            "repeat" => Ok(Awaited::Repeats),
            "each" => Ok(Awaited::Inputs),
            _ => {
                self.set.go_on(text, self.kept.named(word)?);
                Ok(Awaited::Part)
            }
        }
    }

    /// Takes a word, and answers what is to come.
    fn taken(&mut self, text: &mut TextBuilder, word: &str) -> anyhow::Result<Awaited> {
        match self.awaited {
            Awaited::Part => self.begin_part(text, word),
            Awaited::Bytes => self.push_bytes(text, word),
            Awaited::Repeats => Ok(Awaited::Repeated(word.parse::<usize>()?)),
            Awaited::Repeated(count) => {
                self.repeat_input(text, self.kept.named(word)?, count);
                Ok(Awaited::Part)
            }
            Awaited::Inputs => Ok(Awaited::Each(word.parse::<usize>()?)),
            Awaited::Each(_) => Err(anyhow::anyhow!("no text: {word}")),
        }
    }

    /// Takes what stands in quotation marks.
    fn take_text(&mut self, text: &mut TextBuilder, part: &str) -> anyhow::Result<()> {
        match self.awaited {
            Awaited::Part => self.set.add(text, part.as_bytes()),
            Awaited::Repeated(count) => self.repeat_text(text, part, count),
            Awaited::Each(count) => self.push_each(text, part, count),
            Awaited::Bytes | Awaited::Repeats | Awaited::Inputs => {
                return Err(anyhow::anyhow!("no number: {part}"));
            }
        }
        self.awaited = Awaited::Part;
        Ok(())
    }

    fn take_words(&mut self, text: &mut TextBuilder, words: &str) -> anyhow::Result<()> {
        for word in words.split(' ') {
            if !word.is_empty() {
                self.awaited = self.taken(text, word)?;
            }
        }
        Ok(())
    }

    /// Takes what stands outside quotation marks: words, with commas between inputs.
    fn take_plain(&mut self, text: &mut TextBuilder, piece: &str) -> anyhow::Result<()> {
        for (index, words) in piece.split(',').enumerate() {
            if index > 0 {
                self.set.begin(text);
                self.awaited = Awaited::Part;
            }
            self.take_words(text, words)?;
        }
        Ok(())
    }

    fn take_line(&mut self, text: &mut TextBuilder, line: &str) -> anyhow::Result<()> {
        for (index, piece) in line.split('"').enumerate() {
            if index % 2 == 1 {
                self.take_text(text, piece)?;
            } else {
                self.take_plain(text, piece)?;
            }
        }
        Ok(())
    }
}

/// The inputs that a line has, with commas between. A text notes whether an allocation was refused.
pub fn inputs_in(text: &mut TextBuilder, kept: &Inputs<'_>, line: &str) -> anyhow::Result<Set> {
    let mut maker = Maker {
        kept,
        set: Set::new(text.alloc()),
        awaited: Awaited::Part,
    };
    maker.take_line(text, line)?;
    Ok(maker.set)
}

/// The two parts of a line.
pub fn parted<'a>(line: &'a str, sign: &str) -> anyhow::Result<(&'a str, &'a str)> {
    match line.split_once(sign) {
        Some(parts) => Ok(parts),
        None => Err(anyhow::anyhow!("one part: {line}")),
    }
}

/// The first word of a line, and the rest.
pub fn first_word(line: &str) -> anyhow::Result<(&str, &str)> {
    parted(line, " ")
}

/// The number that begins a line, and the rest.
pub fn numbered(line: &str) -> anyhow::Result<(usize, &str)> {
    let (number, rest) = first_word(line)?;
    Ok((number.parse::<usize>()?, rest))
}

/// Writes what follows a word `repeat`: so many copies of a part, and the rest.
fn push_repeated(text: &mut TextBuilder, rule: &str) -> anyhow::Result<()> {
    let (count, rest) = parted(rule, " \"")?;
    let (part, rest) = parted(rest, "\"")?;
    push_copies(text, part, count.parse::<usize>()?);
    text.push(rest);
    Ok(())
}

/// Writes a text with its repeated parts written out.
fn push_expanded(text: &mut TextBuilder, line: &str) -> anyhow::Result<()> {
    for (index, piece) in line.split("repeat ").enumerate() {
        if index == 0 {
            text.push(piece);
        } else {
            push_repeated(text, piece)?;
        }
    }
    Ok(())
}

/// A text with its repeated parts written out.
pub fn expanded(alloc: Global, line: &str) -> anyhow::Result<String> {
    let mut text = TextBuilder::new(alloc);
    push_expanded(&mut text, line)?;
    Ok(text.finish()?)
}
