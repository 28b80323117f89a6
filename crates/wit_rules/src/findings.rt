//! The findings of a text.
ghost use Rattle.std.specs.Prelude.{◌≤◌, IfOk, length};
ghost use Rattle.wit_findings.specs.Findings.{AreFindingsOf};
ghost use Rattle.wit_tokens.specs.Lexing.{limit};

use crate::rules::draft_of;
use crate::trial::{LIMIT, Trial};
use std::alloc::{AllocError, Global};
use wit_findings::{Draft, Finding, Ordered, Scopes, Severity, Spot};
use wit_reading::tree_of;
use wit_tree::{Problem, Told, Tree, Wanted, Word, faults_of};

/// The index of the first word that begins at a byte or behind it, from an index on.
fn word_from(words: &[Word], first: usize, byte: usize) -> usize {
    for at in first..words.len() {
        if words[at].start as usize >= byte {
            return at;
        }
    }
    words.len()
}

/// Whether a fault is only that the text ends, behind an error.
fn is_echo(list: &[Finding], text: &str, fault: &Told) -> bool {
    let is_item = matches!(
        fault.problem,
        Problem::Expected(Wanted::FileItem | Wanted::InterfaceItem | Wanted::WorldItem)
    );
    is_item
        && fault.start == text.len()
        && list
            .iter()
            .any(|finding| finding.severity() == Severity::Error)
}

/// What is said of each fault.
fn said(alloc: Global, text: &str, tree: &Tree, told: &[Told]) -> Result<Vec<Finding>, AllocError> {
    let mut list = Vec::new(alloc);
    if told.is_empty() {
        return Ok(list);
    }
    let scopes = Scopes::of(alloc, tree)?;
    let mut at = 0;
    let mut muted = 0;
    for fault in told {
        if fault.start < muted || is_echo(list.as_slice(), text, fault) {
            continue;
        }
        at = word_from(tree.words.as_slice(), at, fault.start);
        let spot = Spot {
            text,
            tree,
            scopes: &scopes,
            at,
        };
        if let Some(draft) = draft_of(spot, fault, Draft::new(alloc, fault), list.is_empty()) {
            muted = draft.muted;
            list.push(draft.finish()?)?;
        }
    }
    Ok(list)
}

/// The findings of a text, whose edits were not tried.
pub(crate) fn untried(alloc: Global, text: &str) -> Result<Vec<Finding>, AllocError>
    requires { length text.now ≤ limit }
{
    let tree = tree_of(alloc, text)?;
    let told = faults_of(alloc, text, &tree)?;
    let mut all = said(alloc, text, &tree, told.as_slice())?;
    all.sort_by_key(|finding| (finding.start, finding.number == 33))?;
    let mut ordered = Ordered::new(alloc, text);
    for finding in all {
        ordered.push(finding)?;
    }
    Ok(ordered.into_list())
}

/// A finding, with its edit if less is told of the text with this.
fn tried(
    alloc: Global,
    trial: &mut Trial<'_>,
    mut finding: Finding,
) -> Result<Finding, AllocError> {
    let is_kept = match &finding.edit {
        Some(edit) => trial.keeps(alloc, edit)?,
        None => true,
    };
    if !is_kept {
        finding.edit = None;
    }
    Ok(finding)
}

/// What is wrong with a text of at most 1,048,576 bytes, and what to do, in the order of the text: notes too. Less is
/// told of the text with one of the edits. It fails only with out of memory.
pub fn findings_of(alloc: Global, text: &str) -> Result<Vec<Finding>, AllocError>
    requires { length text.now ≤ limit }
    ensures { IfOk result (λ fs. AreFindingsOf text.now fs.items) }
{
    let list = untried(alloc, text)?;
    let count = list.len();
    let mut trial = Trial {
        text,
        count,
        left: LIMIT,
    };
    let mut ordered = Ordered::new(alloc, text);
    for finding in list {
        ordered.push(tried(alloc, &mut trial, finding)?)?;
    }
    Ok(ordered.into_list())
}
