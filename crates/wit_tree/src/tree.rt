//! Trees, and the words of a text.
ghost use Rattle.std.specs.Prelude.{◌≡◌, IfOk, map, filter};
ghost use Rattle.wit_tree.specs.Words.{is_word, piece_of};

use crate::fault::Fault;
use crate::word::{Word, is_word, word_of};
use std::alloc::{AllocError, Global};
use tree_nodes::Node;
use wit_tokens::{Piece, PieceKind};

/// A text as a tree: its pieces, its words, the nodes over the words, and the faults of the grammar, in the order in
/// which they were found.
#[derive(Drop)]
pub struct Tree {
    pub pieces: Vec<Piece>,
    pub words: Vec<Word>,
    pub nodes: Vec<Node>,
    pub faults: Vec<Fault>,
}

/// Whether a line ends in a piece.
fn has_line_end(text: &[u8], piece: Piece) -> bool {
    match text.get(piece.start as usize..piece.end as usize) {
        Some(bytes) => bytes.contains(&b'\n'),
        None => false,
    }
}

/// What is between two words.
#[derive(Clone, Copy)]
struct Between {
    begins_line: bool,
    is_bad: bool,
}

/// What is between two words, with one more piece.
fn with_piece(between: Between, text: &[u8], piece: Piece) -> Between {
    Between {
        begins_line: between.begins_line || has_line_end(text, piece),
        is_bad: between.is_bad || piece.kind == PieceKind::BadCharacter,
    }
}

/// The words among the pieces of a text.
pub fn words_of(alloc: Global, text: &[u8], pieces: &[Piece]) -> Result<Vec<Word>, AllocError>
    ensures { IfOk result (λ ws. map piece_of ws.items ≡ filter (λ p. is_word p.kind) pieces.now) }
{
    let mut words = Vec::with_capacity(alloc, pieces.len() / 2)?;
    let mut between = Between {
        begins_line: true,
        is_bad: false,
    };
    for piece in pieces {
        if is_word(piece.kind) {
            words.push(word_of(*piece, between.begins_line, between.is_bad))?;
            between = Between {
                begins_line: false,
                is_bad: false,
            };
        } else {
            between = with_piece(between, text, *piece);
        }
    }
    Ok(words)
}
