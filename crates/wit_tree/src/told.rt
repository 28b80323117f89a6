//! The faults of a tree by their bytes, those of its pieces among them.
ghost use Rattle.std.specs.Prelude.{◌≡◌, ◌≤◌, length, All, IfOk, OnOk};
ghost use Rattle.wit_tree.specs.Faults.{IsWithin};
ghost use Rattle.wit_tree.specs.Told.{IsInText, IsPlaced, start_at};
ghost use Rattle.wit_tree.specs.Trees.{IsTreeOf};
ghost use Rattle.wit_tree.specs.Words.{AreInText, IsPieceIn, IsWordIn};

use crate::fault::{Fault, Fix, Problem};
use crate::tree::Tree;
use crate::word::Word;
use atoms::{is_package_label, is_version};
use std::alloc::{AllocError, Global};
use tree_nodes::{Node, NodeKind};
use wit_tokens::{PieceKind, TokenKind};

/// A fault: what it is, the bytes `start..end` that it is about, the place at which a mark is missing, and what mends
/// it.
#[derive(Clone, Copy)]
pub struct Told {
    pub problem: Problem,
    pub start: usize,
    pub end: usize,
    pub insert: usize,
    pub fix: Fix,
}

/// Where the word before an index ends, or 0 if it is the first.
fn end_before(words: &[Word], at: usize, len: usize) -> usize
    requires within { at ≤ length words.now }
    requires in_text { AreInText len words.now }
    ensures { result ≤ len }
{
    if at == 0 {
        0
    } else {
        words[at - 1].end as usize
    }
}

/// Where a word begins, or the end of the text if there is none.
fn start_of(words: &[Word], at: usize, len: usize) -> usize
    requires { AreInText len words.now }
    ensures is { result ≡ start_at words.now at len }
    ensures within { result ≤ len }
{
    if at < words.len() {
        words[at].start as usize
    } else {
        len
    }
}

/// A fault of the grammar by its bytes.
fn placed(words: &[Word], fault: Fault, len: usize) -> Told
    requires within { IsWithin (length words.now) fault }
    requires in_text { AreInText len words.now }
    ensures placed { IsPlaced words.now len fault result }
    ensures within { IsInText len result }
{
    let insert = end_before(words, fault.from, len);
    let mut start = start_of(words, fault.from, len);
    let mut end = start;
    if fault.from < fault.to {
        start = words[fault.from].start as usize;
        end = words[fault.to - 1].end as usize;
    }
    Told {
        problem: fault.problem,
        start,
        end,
        insert,
        fix: fault.fix,
    }
}

/// A fault of a piece or of a word by itself.
fn at_bytes(problem: Problem, start: u32, end: u32, fix: Fix) -> Told
    ensures start { result.start ≡ start }
    ensures end { result.end ≡ end }
    ensures insert { result.insert ≡ start }
{
    let (start, end) = (start as usize, end as usize);
    Told {
        problem,
        start,
        end,
        insert: start,
        fix,
    }
}

/// Whether a character is there that only a version may have.
fn is_of_version(text: &[u8], at: u32) -> bool {
    matches!(text.get(at as usize), Some(b'-') | Some(b'+'))
}

/// The bytes of a gate.
#[derive(Clone, Copy)]
struct GateBytes {
    start: u32,
    end: u32,
}

/// The bytes of the words `from..to`, if there are some.
fn bytes_between(words: &[Word], from: usize, to: usize) -> Option<GateBytes> {
    Some(GateBytes {
        start: words.get(from)?.start,
        end: words.get(to.checked_sub(1)?)?.end,
    })
}

/// The gates of a tree, in the text's order.
fn gates_of(alloc: Global, tree: &Tree) -> Result<Vec<GateBytes>, AllocError> {
    let mut gates = Vec::new(alloc);
    for node in tree.nodes.as_slice() {
        if node.kind == NodeKind::Gate {
            if let Some(gate) = bytes_between(tree.words.as_slice(), node.from, node.to) {
                gates.push(gate)?;
            }
        }
    }
    Ok(gates)
}

/// The first of these gates, from one on, that doesn't end before a place.
fn gate_from(gates: &[GateBytes], from: usize, at: u32) -> usize {
    let mut next = from;
    for _turn in from..gates.len() {
        match gates.get(next) {
            Some(gate) if gate.end <= at => next = next.saturating_add(1),
            _ => break,
        }
    }
    next
}

/// Whether a place is in this gate.
fn is_in_gate(gates: &[GateBytes], next: usize, at: u32) -> bool {
    match gates.get(next) {
        Some(gate) => gate.start <= at && at < gate.end,
        None => false,
    }
}

/// What is wrong with a piece by itself, if the grammar does not note it.
fn piece_problem(kind: PieceKind) -> Option<Problem> {
    match kind {
        PieceKind::BadCharacter => Some(Problem::BadCharacter),
        PieceKind::OpenComment => Some(Problem::OpenComment),
        _ => None,
    }
}

/// Whether a line ends between two places, the first of which may be missing.
fn is_on_new_line(text: &[u8], from: Option<u32>, to: u32) -> bool {
    match from {
        Some(from) => match text.get(from as usize..to as usize) {
            Some(between) => between.contains(&b'\n'),
            None => false,
        },
        None => true,
    }
}

/// Adds the faults of pieces: of characters the first of each line.
#[tactic(auto, using(crate::proofs::PlacedWords::more_told))]
fn add_pieces(
    text: &str,
    tree: &Tree,
    gates: &[GateBytes],
    list: &mut Vec<Told>,
) -> Result<(), AllocError>
    requires pieces { All (IsPieceIn (length text.now)) tree.now.pieces.items }
    requires told { All (IsInText (length text.now)) list.old.items }
    ensures { OnOk result (All (IsInText (length text.now)) list.new.items) }
{
    let mut next = 0;
    let mut last = None;
    for piece in tree.pieces.as_slice() {
        let Some(problem) = piece_problem(piece.kind) else {
            continue;
        };
        next = gate_from(gates, next, piece.start);
        if is_of_version(text.as_bytes(), piece.start) && is_in_gate(gates, next, piece.start) {
            continue;
        }
        if is_on_new_line(text.as_bytes(), last, piece.start) {
            list.push(at_bytes(problem, piece.start, piece.end, Fix::Remove))?;
        }
        last = Some(piece.end);
    }
    Ok(())
}

/// The bytes of a word from one of them on.
fn bytes_from<'a>(text: &'a str, word: &Word, first: u32) -> &'a [u8] {
    let start = word.start.saturating_add(first) as usize;
    match text.as_bytes().get(start..word.end as usize) {
        Some(bytes) => bytes,
        None => &[],
    }
}

/// The name that a word is, without the `%` of one that is escaped.
fn name_of<'a>(text: &'a str, word: &Word) -> &'a [u8] {
    match bytes_from(text, word, 0) {
        [b'%', name @ ..] => name,
        name => name,
    }
}

/// Whether a word is a version that is not spelled as one.
fn is_bad_version(alloc: Global, text: &str, word: &Word) -> Result<bool, AllocError> {
    if word.kind != PieceKind::Token(TokenKind::Version) {
        return Ok(false);
    }
    match std::str::from_utf8(bytes_from(text, word, 1)) {
        Ok(version) => Ok(!is_version(alloc, version)?),
        Err(_) => Ok(true),
    }
}

/// Adds the faults of versions.
#[tactic(auto, using(crate::proofs::PlacedWords::more_told))]
fn add_versions(
    alloc: Global,
    text: &str,
    words: &[Word],
    list: &mut Vec<Told>,
) -> Result<(), AllocError>
    requires words { All (IsWordIn (length text.now)) words.now }
    requires told { All (IsInText (length text.now)) list.old.items }
    ensures { OnOk result (All (IsInText (length text.now)) list.new.items) }
{
    for word in words {
        if is_bad_version(alloc, text, word)? {
            list.push(at_bytes(Problem::BadVersion, word.start, word.end, Fix::None))?;
        }
    }
    Ok(())
}

/// Whether a word is a name that no package has.
fn has_other_letters(text: &str, word: &Word) -> bool {
    word.kind == PieceKind::Token(TokenKind::Identifier) && !is_package_label(name_of(text, word))
}

/// Adds the faults of the names in a package's name, which is this node.
#[tactic(auto, using(crate::proofs::PlacedWords::more_told))]
fn add_package(
    text: &str,
    words: &[Word],
    node: Node,
    list: &mut Vec<Told>,
) -> Result<(), AllocError>
    requires words { All (IsWordIn (length text.now)) words.now }
    requires told { All (IsInText (length text.now)) list.old.items }
    ensures { OnOk result (All (IsInText (length text.now)) list.new.items) }
{
    for at in node.from..node.to {
        if at < words.len() && has_other_letters(text, &words[at]) {
            let word = words[at];
            list.push(at_bytes(Problem::PackageLetters, word.start, word.end, Fix::None))?;
        }
    }
    Ok(())
}

/// Adds the faults of packages' names.
fn add_packages(text: &str, tree: &Tree, list: &mut Vec<Told>) -> Result<(), AllocError>
    requires words { All (IsWordIn (length text.now)) tree.now.words.items }
    requires told { All (IsInText (length text.now)) list.old.items }
    ensures { OnOk result (All (IsInText (length text.now)) list.new.items) }
{
    for node in tree.nodes.as_slice() {
        if node.kind == NodeKind::PackageName {
            add_package(text, tree.words.as_slice(), *node, list)?;
        }
    }
    Ok(())
}

/// The faults of the grammar by their bytes.
#[tactic(auto, using(crate::proofs::PlacedWords::more_told))]
fn all_placed(
    alloc: Global,
    words: &[Word],
    faults: &[Fault],
    len: usize,
) -> Result<Vec<Told>, AllocError>
    requires within { All (IsWithin (length words.now)) faults.now }
    requires in_text { AreInText len words.now }
    ensures { IfOk result (λ fs. All (IsInText len) fs.items) }
{
    let mut list = Vec::with_capacity(alloc, faults.len())?;
    for fault in faults {
        list.push(placed(words, *fault, len))?;
    }
    Ok(list)
}

/// The faults of the tree of a text, in the order of their first bytes. Those of one byte keep the order in which they
/// were found. It fails only with out of memory.
#[tactic(auto, using(crate::proofs::PlacedWords::told_in_order, crate::proofs::PlacedWords::pieces_of_tree, crate::proofs::PlacedWords::words_of_tree))]
pub fn faults_of(alloc: Global, text: &str, tree: &Tree) -> Result<Vec<Told>, AllocError>
    requires { IsTreeOf text.now tree.now }
    ensures { IfOk result (λ fs. All (IsInText (length text.now)) fs.items) }
{
    let words = tree.words.as_slice();
    let mut list = all_placed(alloc, words, tree.faults.as_slice(), text.len())?;
    let gates = gates_of(alloc, tree)?;
    add_pieces(text, tree, gates.as_slice(), &mut list)?;
    add_versions(alloc, text, words, &mut list)?;
    add_packages(text, tree, &mut list)?;
    list.sort_by_key(|fault| fault.start)?;
    Ok(list)
}
