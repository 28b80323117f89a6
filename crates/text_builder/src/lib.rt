//! A text that is written from front to end, and keeps the first allocation that is refused up to its end.
//!
//! What writes to a `TextBuilder` has no result: once an allocation was refused, nothing more is written, and
//! `TextBuilder::finish` says so. It stands on no other crate.
#![tactic(auto)]

ghost use Rattle.std.specs.Prelude.{◌≡◌, List, ℕ, [], IfOk, IfErr, IfSome, Option, Some, None, if◌then◌else◌};
ghost use Rattle.std.specs.Prelude.{◌++◌, ◌∷◌, ◌==◌, replicate};
ghost use Rattle.std.specs.Prelude.{string_bytes, flat_map, encode_utf8};
ghost use Rattle.std.specs.Fmt.{decimal};
ghost use Rattle.text_builder.specs.Growth.{Grows};

use std::alloc::{AllocError, Global};
use std::fmt::Write;
use std::marker::Model;

/// A text so far. In clauses it is its bytes, or nothing if an allocation was refused.
#[derive(Drop)]
pub struct TextBuilder {
    alloc: Global,
    text: String,
    is_whole: bool,
}

impl Model for TextBuilder {
    ghost Value = { Option (List ℕ) };

    ghost view = { λ t. if t.is_whole then Some (string_bytes t.text) else None };
}

impl TextBuilder {
    /// Nothing yet.
    pub fn new(alloc: Global) -> TextBuilder
        ensures { result ≡ Some [] }
    {
        TextBuilder {
            alloc,
            text: String::new(alloc),
            is_whole: true,
        }
    }

    /// What its memory is of.
    pub fn alloc(&self) -> Global {
        self.alloc
    }

    /// What is written so far.
    pub fn as_str(&self) -> &str
        ensures { IfSome self.now (λ all. result.now ≡ all) }
    {
        self.text.as_str()
    }

    /// Notes that an allocation was refused.
    pub fn refuse(&mut self)
        ensures { self.new ≡ None }
    {
        self.is_whole = false;
    }

    /// Notes whether an allocation was refused.
    pub fn note(&mut self, done: Result<(), AllocError>)
        ensures done { IfOk done (λ _. self.new ≡ self.old) }
        ensures refused { IfErr done (λ _. self.new ≡ None) }
    {
        if done.is_err() {
            self.refuse();
        }
    }

    /// Puts an item at the end of a list, or notes that an allocation was refused for it.
    pub fn add<T: Drop>(&mut self, list: &mut Vec<T>, item: T)
        ensures added { IfSome self.new (λ _. list.new.items ≡ list.old.items ++ item ∷ []) }
        ensures same { IfSome self.new (λ _. self.new ≡ self.old) }
    {
        if list.push(item).is_err() {
            self.refuse();
        }
    }

    /// Appends a text.
    pub fn push(&mut self, part: &str)
        ensures { Grows part.now self.old self.new }
    {
        if self.is_whole {
            self.is_whole = self.text.push_str(part).is_ok();
        }
    }

    /// Appends texts.
    pub fn push_all(&mut self, parts: &[&str])
        ensures { Grows (flat_map (λ part. part.now) parts.now) self.old self.new }
    {
        for part in parts {
            self.push(part);
        }
    }

    /// Appends three texts.
    pub fn push_three(&mut self, first: &str, second: &str, third: &str)
        ensures { Grows (first.now ++ second.now ++ third.now) self.old self.new }
    {
        self.push(first);
        self.push(second);
        self.push(third);
    }

    /// Appends what parts the items of a list, unless the item at this index is the first.
    pub fn separate(&mut self, index: usize, separator: &str)
        ensures { Grows (if index == 0 then [] else separator.now) self.old self.new }
    {
        if index > 0 {
            self.push(separator);
        }
    }

    /// Appends a character.
    pub fn push_char(&mut self, character: char)
        ensures { Grows (encode_utf8 character) self.old self.new }
    {
        if self.is_whole {
            self.is_whole = self.text.push(character).is_ok();
        }
    }

    /// Appends a character so many times.
    pub fn push_times(&mut self, character: char, count: usize)
        ensures { Grows (flat_map encode_utf8 (replicate count character)) self.old self.new }
    {
        for _time in 0..count {
            self.push_char(character);
        }
    }

    /// Appends a number in decimal digits.
    pub fn push_number(&mut self, number: usize)
        ensures { Grows (decimal number) self.old self.new }
    {
        if self.is_whole {
            self.is_whole = write!(self.text, "{number}").is_ok();
        }
    }

    /// Appends a text that was made, unless an allocation was refused for it.
    pub fn push_made(&mut self, made: Result<String, AllocError>)
        ensures made { IfOk made (λ text. Grows (string_bytes text) self.old self.new) }
        ensures refused { IfErr made (λ _. self.new ≡ None) }
    {
        match made {
            Ok(text) => self.push(text.as_str()),
            Err(_) => self.refuse(),
        }
    }

    /// Appends another such text. It keeps what that one keeps.
    pub fn append(&mut self, other: TextBuilder)
        ensures { IfSome self.new (λ _. IfSome other (λ text. Grows text self.old self.new)) }
    {
        self.push_made(other.finish());
    }

    /// A text that was made, or an empty one if an allocation was refused for it.
    pub fn kept(&mut self, made: Result<String, AllocError>) -> String
        ensures made { IfOk made (λ text. string_bytes result ≡ string_bytes text) }
        ensures same { IfOk made (λ _. self.new ≡ self.old) }
        ensures refused { IfErr made (λ _. self.new ≡ None) }
    {
        match made {
            Ok(text) => text,
            Err(_) => {
                self.refuse();
                String::new(self.alloc)
            }
        }
    }

    /// The text, unless an allocation was refused.
    pub fn finish(self) -> Result<String, AllocError>
        ensures { IfOk result (λ text. self ≡ Some (string_bytes text)) }
    {
        if self.is_whole {
            Ok(self.text)
        } else {
            Err(AllocError)
        }
    }
}
