//! Functions that are found by their names.

use crate::opened::push_refused;
use row_inputs::row_sets::indexed_behind;
use row_inputs::{Inputs, Set, first_word, inputs_in};
use std::alloc::Global;
use text_builder::TextBuilder;
use witcall::Refused;

/// The number of a function of a set, by the full name of its interface and its own.
fn number_of(alloc: Global, set: &Set, interface: &str, function: &str) -> Result<u32, Refused> {
    let package = indexed_behind(alloc, set.earlier.as_slice(), set.last.as_slice())?;
    match package.function(interface, function) {
        Some(function) => Ok(function.0),
        None => Err(Refused::NoFunction),
    }
}

/// Writes the number of the function that a row asks for.
pub fn push_found(text: &mut TextBuilder, kept: &Inputs<'_>, words: &str) -> anyhow::Result<()> {
    let (interface, words) = first_word(words)?;
    let (function, inputs) = first_word(words)?;
    let set = inputs_in(text, kept, inputs)?;
    match number_of(text.alloc(), &set, interface, function) {
        Ok(number) => text.push_number(number as usize),
        Err(refused) => push_refused(text, &refused),
    }
    Ok(())
}
