//! From text to tree.
ghost use Rattle.std.specs.Prelude.{◌≤◌, ◌+◌, length, All, IfOk};
ghost use Rattle.tree_nodes.specs.Forests.{Forest};
ghost use Rattle.wit_tokens.specs.Lexing.{limit};
ghost use Rattle.wit_tree.specs.Faults.{IsWithin};
ghost use Rattle.wit_tree.specs.Trees.{IsTreeOf};

use crate::file::file;
use std::alloc::{AllocError, Global};
use wit_tokens::pieces;
use wit_tree::{Parsed, Parser, Tree, Word, words_of};

/// What the grammar makes of words.
fn parsed(alloc: Global, words: &[Word]) -> Result<Parsed, AllocError>
    ensures nest { IfOk result (λ p. ∥ Forest 0 (length words.now) p.nodes.items ∥₁) }
    ensures few { IfOk result (λ p. length p.nodes.items ≤ length words.now + length words.now) }
    ensures within { IfOk result (λ p. All (IsWithin (length words.now)) p.faults.items) }
{
    let mut parser = Parser::new(alloc, words);
    file(&mut parser);
    parser.finish(words.len())
}

/// The tree of a text of at most 1,048,576 bytes, whatever is in it. It fails only with out of memory.
pub fn tree_of(alloc: Global, text: &str) -> Result<Tree, AllocError>
    requires { length text.now ≤ limit }
    ensures { IfOk result (λ t. IsTreeOf text.now t) }
{
    let pieces = pieces(alloc, text)?;
    let words = words_of(alloc, text.as_bytes(), pieces.as_slice())?;
    let parsed = parsed(alloc, words.as_slice())?;
    Ok(Tree {
        pieces,
        words,
        nodes: parsed.nodes,
        faults: parsed.faults,
    })
}
