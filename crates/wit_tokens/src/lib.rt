//! Tokens of WIT texts: what they are, where they stand, and why a text is refused. `lex` carries the promise: it
//! answers the text's one list of tokens, or the first character, word or comment that is neither token nor blank.
//! `wit_syntax` has the syntax trees. Stands on `atoms` for labels.
#![tactic(auto)]

mod error;
mod keyword;
mod lanes;
mod laws;
mod lexer;
mod mark;
mod piece;
mod tiling;
mod token;
pub mod wit_syntax;

pub use error::{Expected, Feature, TextError};
pub use keyword::{keyword_of, spelling};
pub use laws::texts_have_one_lexing;
pub use lexer::lex;
pub use mark::mark_text;
pub use piece::{Piece, PieceKind};
pub use tiling::pieces;
pub use token::{Keyword, Punctuation, Span, Token, TokenKind};
