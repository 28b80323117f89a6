//! From a text and its tree to the text in its layout.
ghost use Rattle.std.specs.Prelude.{IfOk, IfSome, string_bytes};
ghost use Rattle.wit_tree.specs.Trees.{IsTreeOf};
ghost use Rattle.wit_format.specs.Solids.{HaveSameSolids};

use crate::layout::{Layout, Place};
use crate::page::Page;
use crate::solid::is_kept;
use crate::source::Source;
use crate::width::widths_of;
use std::alloc::{AllocError, Global};
use wit_tokens::Keyword;
use wit_tree::{Problem, Told, Tree, Wanted, faults_of};

/// The bytes that a text may have.
const LIMIT: usize = 1_048_576;

/// Whether a file may begin so that has no `package`, as others of its package have it.
fn is_start(text: &str, fault: &Told) -> bool {
    match text.get(fault.start..fault.end) {
        Some(word) => word == "interface" || word == "world" || word == "use",
        None => false,
    }
}

/// Whether a fault is one of syntax.
fn is_of_syntax(text: &str, fault: &Told) -> bool {
    match fault.problem {
        Problem::Outside(_) => false,
        Problem::Expected(Wanted::Keyword(Keyword::Package)) => !is_start(text, fault),
        _ => true,
    }
}

/// Whether a text has a fault of syntax.
fn has_fault(alloc: Global, text: &str, tree: &Tree) -> Result<bool, AllocError>
    requires { IsTreeOf text.now tree.now }
{
    let faults = faults_of(alloc, text, tree)?;
    for fault in faults.as_slice() {
        if is_of_syntax(text, fault) {
            return Ok(true);
        }
    }
    Ok(false)
}

/// A text in its layout.
fn laid_out(alloc: Global, source: &Source<'_>) -> Result<String, AllocError> {
    let widths = widths_of(alloc, source)?;
    let mut page = Page::new(alloc, source.text);
    let mut layout = Layout::new();
    let (mut from, mut count) = (0usize, 0usize);
    for (at, atom) in source.atoms.as_slice().iter().enumerate() {
        if !atom.is_word() {
            continue;
        }
        let width = widths.get(count).copied().unwrap_or(0);
        let place = layout.place(atom.kind, source.role(count), width);
        page.word(place, *atom, source.between(from, at));
        from = at.saturating_add(1);
        count = count.saturating_add(1);
    }
    page.comments(source.between(from, source.atoms.len()), Place::end());
    page.finish()
}

/// A text of at most 1,048,576 bytes in the layout of WIT, by its tree. It has the same tokens and comments, each with
/// its bytes, in the same order: blanks and ends of lines alone are others. `None` says that it has a fault of syntax,
/// or that what is made of it would have more bytes than a text may have. It fails only with out of memory.
#[tactic(auto, unfolding(wit_tokens::specs::Lexing::limit))]
pub fn formatted(alloc: Global, text: &str, tree: &Tree) -> Result<Option<String>, AllocError>
    requires { IsTreeOf text.now tree.now }
    ensures { IfOk result (λ o. IfSome o (λ out. HaveSameSolids text.now (string_bytes out))) }
{
    if text.len() > LIMIT || has_fault(alloc, text, tree)? {
        return Ok(None);
    }
    let source = Source::new(alloc, text, tree)?;
    let made = laid_out(alloc, &source)?;
    if made.len() > LIMIT || !is_kept(alloc, text, tree.pieces.as_slice(), made.as_str())? {
        return Ok(None);
    }
    Ok(Some(made))
}
