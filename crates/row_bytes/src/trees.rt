//! Rows of numbers with a tree of their maxima, and what is asked of them in turn.

use crate::memories::{number, pair};
use max_tree::MaxTree;
use row_inputs::parted;
use text_builder::TextBuilder;

/// Writes a number, or that there is none.
fn push_found(text: &mut TextBuilder, number: Option<usize>) {
    match number {
        Some(number) => text.push_number(number),
        None => text.push("none"),
    }
}

/// Puts a number at a place, if the row has one.
fn is_put(tree: &mut MaxTree, words: &str) -> bool {
    match pair(words) {
        Some((place, number)) if (place as usize) < tree.len() => {
            tree.put(place as usize, number);
            true
        }
        _ => false,
    }
}

/// The last place before this one that has a number other than 0.
fn last_before(tree: &MaxTree, place: usize) -> Option<usize> {
    if place == 0 || place > tree.len() {
        return None;
    }
    tree.last_before(place)
}

/// The number at a place, if the row has one.
fn number_at(tree: &MaxTree, place: usize) -> Option<usize> {
    if place >= tree.len() {
        return None;
    }
    Some(tree.number(place) as usize)
}

fn push_answer(text: &mut TextBuilder, tree: &mut MaxTree, request: &str) -> anyhow::Result<()> {
    let (word, rest) = request.split_once(' ').unwrap_or((request, ""));
    match (word, number(rest)) {
        ("count", None) => text.push_number(tree.len()),
        ("first", Some(size)) => push_found(text, tree.first(size)),
        ("last-before", Some(place)) => push_found(text, last_before(tree, place as usize)),
        ("number", Some(place)) => push_found(text, number_at(tree, place as usize)),
        ("put", None) if is_put(tree, rest) => text.push("put"),
        _ => return Err(anyhow::anyhow!("no request: {request}")),
    }
    Ok(())
}

fn push_answers(text: &mut TextBuilder, tree: &mut MaxTree, requests: &str) -> anyhow::Result<()> {
    for (index, request) in requests.split(", ").enumerate() {
        text.separate(index, ", ");
        push_answer(text, tree, request)?;
    }
    Ok(())
}

/// Writes what a row of zeros, as many as so many doublings of one make, answers to requests.
pub fn push_asked(text: &mut TextBuilder, line: &str) -> anyhow::Result<()> {
    let (depth, requests) = parted(line, "; ")?;
    match number(depth) {
        Some(depth) if depth <= 20 => {
            let mut tree = MaxTree::new(text.alloc(), depth)?;
            push_answers(text, &mut tree, requests)
        }
        _ => Err(anyhow::anyhow!("no count of doublings: {depth}")),
    }
}
