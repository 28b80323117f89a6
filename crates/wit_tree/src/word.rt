//! Words: the pieces of a text that the grammar sees.
ghost use Rattle.std.specs.Prelude.{◌≡◌};
ghost use Rattle.wit_tree.specs.Words.{is_word, is_name, piece_of};

use wit_tokens::{Piece, PieceKind, TokenKind};

/// A token, or a word that is no token. It has its bytes as a piece has them.
#[derive(Clone, Copy)]
pub struct Word {
    pub kind: PieceKind,
    pub start: u32,
    pub end: u32,
    /// It is the first word of its line.
    pub begins_line: bool,
    /// A character that begins no token is between it and the word before it.
    pub is_behind_bad: bool,
}

/// A piece as a word.
pub fn word_of(piece: Piece, begins_line: bool, is_behind_bad: bool) -> Word
    ensures { piece_of result ≡ piece }
{
    Word {
        kind: piece.kind,
        start: piece.start,
        end: piece.end,
        begins_line,
        is_behind_bad,
    }
}

/// Whether the grammar sees a piece of this kind.
pub fn is_word(kind: PieceKind) -> bool
    ensures { result ≡ is_word kind }
{
    matches!(kind, PieceKind::Token(_) | PieceKind::BadWord)
}

/// Whether a word of this kind may be meant as a name: no keyword.
pub fn is_name(kind: PieceKind) -> bool
    ensures { result ≡ is_name kind }
{
    matches!(
        kind,
        PieceKind::Token(TokenKind::Identifier) | PieceKind::BadWord
    )
}
