//! What two texts have beside blanks, compared.
ghost use Rattle.std.specs.Prelude.{◌≡◌, ◌<◌, ◌≤◌, ◌^◌, IsTrue, All, IfOk, IfSome, length, map, filter};
ghost use Rattle.wit_tokens.specs.Lexing.{is_blank, limit, Lexes};
ghost use Rattle.wit_tokens.specs.Pieces.{piece_text, pieces_text, Tile, tokens_in, AreGood};
ghost use Rattle.wit_format.specs.Solids.{is_solid, solid_of, IsCalledRightly, HaveSameSolids};

use crate::comment::comment_at;
use std::alloc::{AllocError, Global};
use wit_tokens::{Piece, PieceKind, pieces};

/// Whether a piece of this kind is no blanks.
pub fn is_solid(kind: PieceKind) -> bool
    ensures { result ≡ is_solid kind }
{
    !matches!(kind, PieceKind::Blank)
}

/// Whether a byte is a blank.
fn is_blank(byte: u8) -> bool
    ensures { result ≡ is_blank byte }
{
    byte == b' ' || byte == b'\t' || byte == b'\n' || byte == b'\r'
}

/// Whether these bytes are blanks alone.
fn are_blanks(bytes: &[u8]) -> bool
    ensures { IsTrue result → All (λ c. IsTrue (is_blank c)) bytes.now }
{
    bytes.iter().all(|byte| is_blank(*byte))
}

/// Whether a piece that is called blanks or a comment is that.
#[tactic(auto, unfolding(crate::specs::Solids::IsCalledRightly))]
fn is_rightly(text: &[u8], piece: Piece) -> bool
    requires { length text.now < 2 ^ 60 }
    ensures { IsTrue result → IsCalledRightly text.now piece }
{
    let (start, end) = (piece.start as usize, piece.end as usize);
    if start > end || end > text.len() {
        return false;
    }
    match piece.kind {
        PieceKind::Blank => are_blanks(&text[start..end]),
        PieceKind::Comment => comment_at(text, start) == Some(end - start),
        _ => true,
    }
}

/// Whether all pieces that are called blanks or comments are that.
fn are_rightly(text: &[u8], pieces: &[Piece]) -> bool
    requires { length text.now < 2 ^ 60 }
    ensures { IsTrue result → All (IsCalledRightly text.now) pieces.now }
{
    pieces.iter().all(|piece| is_rightly(text, *piece))
}

/// The pieces that are no blanks.
fn solids_of(alloc: Global, pieces: &[Piece]) -> Result<Vec<Piece>, AllocError>
    ensures { IfOk result (λ ps. ps.items ≡ filter (λ p. is_solid p.kind) pieces.now) }
{
    let mut solids = Vec::with_capacity(alloc, pieces.len())?;
    for piece in pieces {
        if is_solid(piece.kind) {
            solids.push(*piece)?;
        }
    }
    Ok(solids)
}

/// The bytes of a piece, if it is in the text.
fn bytes_of(text: &[u8], piece: Piece) -> Option<&[u8]>
    ensures { IfSome result (λ bytes. bytes.now ≡ piece_text text.now piece) }
{
    text.get(piece.start as usize..piece.end as usize)
}

/// Whether two pieces have the same bytes.
fn have_same_bytes(text: &[u8], piece: Piece, out: &[u8], other: Piece) -> bool
    ensures { IsTrue result → piece_text text.now piece ≡ piece_text out.now other }
{
    match (bytes_of(text, piece), bytes_of(out, other)) {
        (Some(bytes), Some(others)) => bytes == others,
        _ => false,
    }
}

/// Whether two pieces have one kind and the same bytes.
#[tactic(auto, using(crate::proofs::SameSolids::same_solid))]
fn is_same(text: &[u8], piece: Piece, out: &[u8], other: Piece) -> bool
    ensures { IsTrue result → solid_of text.now piece ≡ solid_of out.now other }
{
    piece.kind == other.kind && have_same_bytes(text, piece, out, other)
}

/// Whether pieces of two texts have the same kinds and bytes.
fn are_same(text: &[u8], solids: &[Piece], out: &[u8], others: &[Piece]) -> bool
    ensures { IsTrue result → map (solid_of text.now) solids.now ≡ map (solid_of out.now) others.now }
{
    if solids.len() != others.len() {
        return false;
    }
    for (at, piece) in solids.iter().enumerate() {
        if !is_same(text, *piece, out, others[at]) {
            return false;
        }
    }
    true
}

/// Whether a text, which has these pieces, and another have the same beside blanks.
#[tactic(auto, unfolding(wit_tokens::specs::Lexing::limit))]
pub fn is_kept(alloc: Global, text: &str, list: &[Piece], out: &str) -> Result<bool, AllocError>
    requires first { length text.now < 2 ^ 60 }
    requires second { length out.now ≤ limit }
    requires lossless { pieces_text text.now list.now ≡ text.now }
    requires tile { Tile list.now (length text.now) }
    requires tokens { AreGood list.now → Lexes text.now (tokens_in list.now) }
    ensures { IfOk result (λ is_kept. IsTrue is_kept → HaveSameSolids text.now out.now) }
{
    let (bytes, made) = (text.as_bytes(), out.as_bytes());
    let others = pieces(alloc, out)?;
    if !are_rightly(bytes, list) || !are_rightly(made, others.as_slice()) {
        return Ok(false);
    }
    let solids = solids_of(alloc, list)?;
    let kept = solids_of(alloc, others.as_slice())?;
    Ok(are_same(bytes, solids.as_slice(), made, kept.as_slice()))
}
