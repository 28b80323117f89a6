//! Pieces of a text: its tokens, and what stands between them.
use crate::token::TokenKind;

/// What a piece of a text is.
#[derive(Clone, Copy, PartialEq, Eq)]
pub enum PieceKind {
    /// A token of the grammar.
    Token(TokenKind),
    /// Spaces, tabs and ends of lines.
    Blank,
    /// A comment, of a line or of a block.
    Comment,
    /// A word that is no label.
    BadWord,
    /// A character that begins no token.
    BadCharacter,
    /// A comment that nothing closes, to the end of the text.
    OpenComment,
}

/// A piece of a text with its place. A text has at most 1,048,576 bytes, so a place needs four bytes.
#[derive(Clone, Copy, PartialEq, Eq)]
pub struct Piece {
    pub kind: PieceKind,
    pub start: u32,
    pub end: u32,
}
