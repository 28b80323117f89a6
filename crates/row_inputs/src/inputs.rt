//! Inputs under names, and sets of inputs.

use std::alloc::Global;
use std::mem;
use text_builder::TextBuilder;

/// The inputs of a set, of which the last stands apart.
#[derive(Drop)]
pub struct Set {
    pub earlier: Vec<Vec<u8>>,
    pub last: Vec<u8>,
}

#[derive(Drop)]
struct Named<'a> {
    name: &'a str,
    set: Set,
}

/// The sets that were kept so far.
#[derive(Drop)]
pub struct Inputs<'a>(Vec<Named<'a>>);

impl<'a> Inputs<'a> {
    pub fn new(alloc: Global) -> Inputs<'a> {
        Inputs(Vec::new(alloc))
    }

    pub fn keep(&mut self, text: &mut TextBuilder, name: &'a str, set: Set) {
        text.add(&mut self.0, Named { name, set });
    }

    pub fn named(&self, name: &str) -> anyhow::Result<&Set> {
        match self.0.iter().find(|named| named.name == name) {
            Some(named) => Ok(&named.set),
            None => Err(anyhow::anyhow!("no input {name}")),
        }
    }
}

/// What adds to a set notes in a text whether an allocation was refused.
impl Set {
    /// The set of one input, which has no bytes.
    pub fn new(alloc: Global) -> Set {
        Set {
            earlier: Vec::new(alloc),
            last: Vec::new(alloc),
        }
    }

    /// Begins the next input.
    pub fn begin(&mut self, text: &mut TextBuilder) {
        let before = mem::replace(&mut self.last, Vec::new(text.alloc()));
        text.add(&mut self.earlier, before);
    }

    /// Goes on with the last input.
    pub fn add(&mut self, text: &mut TextBuilder, bytes: &[u8]) {
        text.note(self.last.extend_from_slice(bytes));
    }

    /// Changes the byte at a place of the last input, if there is one, and answers what it was.
    pub fn put(&mut self, place: usize, byte: u8) -> u8 {
        match self.last.as_mut_slice().get_mut(place) {
            Some(old) => mem::replace(old, byte),
            None => byte,
        }
    }

    /// Goes on with the inputs of another set, the first of them in the last input.
    pub fn go_on(&mut self, text: &mut TextBuilder, other: &Set) {
        for input in &other.earlier {
            self.add(text, input.as_slice());
            self.begin(text);
        }
        self.add(text, other.last.as_slice());
    }
}
