//! From text to pieces, of which none is left out.
ghost use Rattle.std.specs.Prelude.{◌≡◌, ◌<◌, ◌≤◌, ◌+◌, length, drop, IfOk};
ghost use Rattle.wit_tokens.specs.Lexing.{limit, front_of, Lexes};
ghost use Rattle.wit_tokens.specs.Pieces.{piece_from, pieces_text, Tile, tokens_in, IsGood, AreGood, GoesOn};
ghost use Rattle.wit_tokens.specs.declared.lexer.Front.TheVariants as front;

use crate::lexer::{Front, begins_letter, blank_end, front_at};
use crate::piece::{Piece, PieceKind};
use std::alloc::{AllocError, Global};

/// A piece that begins at a place, takes a byte at least, and ends within the text.
#[tactic(auto, unfolding(crate::specs::Lexing::limit))]
fn piece_of(kind: PieceKind, at: usize, end: usize) -> Piece
    requires first { at < end }
    requires small { end ≤ limit }
    ensures { result ≡ piece_from kind at end }
{
    Piece {
        kind,
        start: at as u32,
        end: end as u32,
    }
}

/// Where a bad piece ends: behind a byte at least, and within the text.
#[tactic(auto, unfolding(crate::specs::Lexing::limit))]
fn bad_end(at: usize, len: usize, end: usize) -> usize
    requires within { at < end }
    requires small { end ≤ limit }
    ensures first { at < result }
    ensures last { result ≤ end }
{
    if len == 0 {
        return at + 1;
    }
    if len > end - at {
        return end;
    }
    at + len
}

/// Blanks or a comment that begin at a place, by the bytes that the first of them takes.
fn between(text: &[u8], at: usize, len: usize) -> Piece
    requires first { 0 < len }
    requires within { at + len ≤ length text.now }
    requires small { length text.now ≤ limit }
    requires is { front_of (drop at text.now) ≡ front.Blank len }
    ensures start { result.start ≡ at }
    ensures first { at < result.end }
    ensures last { result.end ≤ length text.now }
    ensures goes_on { GoesOn text.now result }
{
    let end = at + len;
    if text[at] == b'/' {
        piece_of(PieceKind::Comment, at, end)
    } else {
        let end = blank_end(text, end);
        piece_of(PieceKind::Blank, at, end)
    }
}

/// A piece that is neither a token nor anything that stands between tokens.
fn bad(text: &[u8], kind: PieceKind, at: usize, end: usize) -> Piece
    requires kind { IsGood kind → ⊥ }
    requires first { at < end }
    requires last { end ≤ length text.now }
    requires small { length text.now ≤ limit }
    ensures start { result.start ≡ at }
    ensures first { at < result.end }
    ensures last { result.end ≤ length text.now }
    ensures goes_on { GoesOn text.now result }
{
    piece_of(kind, at, end)
}

/// A bad piece of so many bytes that begins at a place.
fn bad_at(text: &[u8], at: usize, len: usize) -> Piece
    requires within { at < length text.now }
    requires small { length text.now ≤ limit }
    ensures start { result.start ≡ at }
    ensures first { at < result.end }
    ensures last { result.end ≤ length text.now }
    ensures goes_on { GoesOn text.now result }
{
    let end = bad_end(at, len, text.len());
    if begins_letter(&text[at..]) {
        bad(text, PieceKind::BadWord, at, end)
    } else {
        bad(text, PieceKind::BadCharacter, at, end)
    }
}

/// The piece that begins at a place.
#[tactic(auto, unfolding(crate::specs::Lexing::limit))]
fn piece_at(text: &[u8], at: usize) -> Piece
    requires within { at < length text.now }
    requires small { length text.now ≤ limit }
    ensures start { result.start ≡ at }
    ensures first { at < result.end }
    ensures last { result.end ≤ length text.now }
    ensures goes_on { GoesOn text.now result }
{
    match front_at(text, at) {
        Front::Token(kind, len) => piece_of(PieceKind::Token(kind), at, at + len),
        Front::Blank(len) => between(text, at, len),
        Front::Bad(len) => bad_at(text, at, len),
        Front::OpenComment => bad(text, PieceKind::OpenComment, at, text.len()),
    }
}

/// The pieces of a text of at most 1,048,576 bytes: one after another they are the text. If each is a token, blanks or a
/// comment, its tokens are those of `lex`. It fails for want of memory alone.
pub fn pieces(alloc: Global, text: &str) -> Result<Vec<Piece>, AllocError>
    requires { length text.now ≤ limit }
    ensures lossless { IfOk result (λ ps. pieces_text text.now ps.items ≡ text.now) }
    ensures tile { IfOk result (λ ps. Tile ps.items (length text.now)) }
    ensures tokens { IfOk result (λ ps. AreGood ps.items → Lexes text.now (tokens_in ps.items)) }
{
    let bytes = text.as_bytes();
    let mut list = Vec::with_capacity(alloc, bytes.len() / 3)?;
    let mut at = 0;
    while at < bytes.len() {
        let piece = piece_at(bytes, at);
        at = piece.end as usize;
        list.push(piece)?;
    }
    Ok(list)
}
