//! A body that does what it is told to, run by run, or answers what it is given.

use adapter::{Body, Stopped};
use canonical_abi::{Flat, Guest};
use lift_lower::{FlatResults, Flats};

/// Which of the body's functions stops, if one does.
#[derive(Clone, Copy)]
pub enum Stop {
    No,
    Body,
    Post,
}

/// What one run does: it asks for blocks, writes bytes at an address, and answers flat values.
#[derive(Drop)]
pub struct Act {
    /// Alignments and sizes.
    pub asks: Vec<(u32, u32)>,
    pub at: u32,
    pub writes: Vec<u8>,
    pub answer: FlatResults,
    pub stop: Stop,
    /// How many bytes its post-return fills with ee, from address 0 on.
    pub fills: u32,
}

/// A body, and the flat values that its runs and post-returns were given.
#[derive(Drop)]
pub struct Acting {
    /// What its runs do in turn; none: it echoes.
    acts: Option<Vec<Act>>,
    runs: Vec<Flats>,
    posts: Vec<Flats>,
    /// Whether the host had memory for both lists.
    whole: bool,
}

/// The flat values, of which a call hands on at most seventeen.
pub fn copied(flats: &[Flat]) -> Flats {
    let mut all = Flats::new();
    for flat in flats {
        if all.len() < 17 {
            all.push(*flat);
        }
    }
    all
}

/// The flat values of an answer, which has room for four.
pub fn answered(flats: &[Flat]) -> FlatResults {
    let mut answer = FlatResults::new();
    for flat in flats {
        if answer.len() < 4 {
            answer.push(*flat);
        }
    }
    answer
}

impl Acting {
    pub fn new(acts: Option<Vec<Act>>, runs: Vec<Flats>, posts: Vec<Flats>) -> Acting {
        Acting {
            acts,
            runs,
            posts,
            whole: true,
        }
    }

    /// What its runs and its post-returns were given, unless the host had no memory for them.
    pub fn given(&self) -> Option<(&[Flats], &[Flats])> {
        if self.whole {
            Some((self.runs.as_slice(), self.posts.as_slice()))
        } else {
            None
        }
    }

    /// What the run of this number does, if that is told.
    fn act(&self, number: usize) -> Option<&Act> {
        match &self.acts {
            Some(acts) => acts.get(number),
            None => None,
        }
    }
}

/// Asks for blocks.
fn ask<G: Guest>(memory: &mut G, asks: &[(u32, u32)]) -> Result<(), Stopped> {
    for ask in asks {
        let (align, size) = *ask;
        if align != 1 && align != 2 && align != 4 && align != 8 {
            return Err(Stopped);
        }
        if memory.alloc(align, size).is_err() {
            return Err(Stopped);
        }
    }
    Ok(())
}

/// Writes bytes at an address that has room for them.
fn write<G: Guest>(memory: &mut G, at: u32, bytes: &[u8]) -> Result<(), Stopped> {
    let room = memory.len() as usize;
    if bytes.len() > room || at as usize > room - bytes.len() {
        return Err(Stopped);
    }
    memory.write(at, bytes);
    Ok(())
}

/// What a run of an act answers.
fn acted<G: Guest>(memory: &mut G, act: &Act) -> Result<FlatResults, Stopped> {
    ask(memory, act.asks.as_slice())?;
    write(memory, act.at, act.writes.as_slice())?;
    if matches!(act.stop, Stop::Body) {
        return Err(Stopped);
    }
    Ok(answered(act.answer.as_slice()))
}

/// Given one flat value the same; given an address and a length a block in which they stand; given more nothing.
fn echoed<G: Guest>(memory: &mut G, arguments: &[Flat]) -> Result<FlatResults, Stopped> {
    let [Flat::I32(at), Flat::I32(length)] = arguments else {
        return Ok(match arguments {
            [flat] => answered(&[*flat]),
            _ => FlatResults::new(),
        });
    };
    let Ok(block) = memory.alloc(4, 8) else {
        return Err(Stopped);
    };
    let [a, b, c, d] = at.to_le_bytes();
    let [e, f, g, h] = length.to_le_bytes();
    write(memory, block, &[a, b, c, d, e, f, g, h])?;
    Ok(answered(&[Flat::I32(block)]))
}

impl<G: Guest> Body<G> for Acting {
    ghost use Rattle.std.specs.Prelude.{[]};

    ghost state = { λ _. [] };

    ghost runs = { λ _ _ _ _ _ _ _. Unit {0} };

    ghost posts = { λ _ _ _ _ _ _ _. Unit {0} };

    fn call(&mut self, memory: &mut G, arguments: &[Flat]) -> Result<FlatResults, Stopped> {
        let number = self.runs.len();
        if self.runs.push(copied(arguments)).is_err() {
            self.whole = false;
        }
        match (&self.acts, self.act(number)) {
            (None, _) => echoed(memory, arguments),
            (_, Some(act)) => acted(memory, act),
            _ => Err(Stopped),
        }
    }

    /// That of an echo stops at an answer that is 8 past a multiple of 16.
    fn post_return(&mut self, memory: &mut G, answer: &[Flat]) -> Result<(), Stopped> {
        if self.posts.push(copied(answer)).is_err() {
            self.whole = false;
        }
        let Some(act) = self.act(self.runs.len().saturating_sub(1)) else {
            return match answer.first() {
                Some(Flat::I32(at)) if *at % 16 == 8 => Err(Stopped),
                _ => Ok(()),
            };
        };
        for place in 0..act.fills {
            if place < memory.len() {
                memory.write(place, &[0xee]);
            }
        }
        if matches!(act.stop, Stop::Post) {
            return Err(Stopped);
        }
        Ok(())
    }
}
