//! Files, and the names that are written in them.
ghost use Rattle.std.specs.Prelude.{◌≡◌, slice_get, slice_range, option_map, IfSome};
ghost use Rattle.std.specs.Option.{option_map_or};
ghost use Rattle.wit_names.specs.Sites.{is_site, is_name_kind, span_in, span_of, behind_percent, spelling};

use crate::name::Site;
use wit_tokens::Span;
use wit_tree::{Node, NodeKind, Tree, Word, is_name};

/// A file of a set.
#[derive(Clone, Copy)]
pub struct File<'a> {
    pub text: &'a str,
    pub tree: &'a Tree,
    /// The folder that it is in, by any number. Files of one folder are of one package, so one of them may say its name
    /// for all.
    pub folder: usize,
}

/// Whether a node of this kind is a name.
fn is_name_kind(kind: NodeKind) -> bool
    ensures { result ≡ is_name_kind kind }
{
    matches!(kind, NodeKind::Name | NodeKind::NameUse)
}

impl<'a> File<'a> {
    /// The node at an index.
    pub fn node(&self, at: usize) -> Option<Node>
        ensures { result ≡ slice_get self.now.tree.now.nodes.items at }
    {
        self.tree.nodes.as_slice().get(at).copied()
    }

    /// The word at an index.
    pub fn word(&self, at: usize) -> Option<Word>
        ensures { result ≡ slice_get self.now.tree.now.words.items at }
    {
        self.tree.words.as_slice().get(at).copied()
    }

    /// The kind of the node at an index.
    pub fn kind(&self, at: usize) -> Option<NodeKind>
        ensures { result ≡ option_map (λ n. n.kind) (slice_get self.now.tree.now.nodes.items at) }
    {
        Some(self.node(at)?.kind)
    }

    /// How many nodes are in the node at an index. In no node there are none.
    pub fn inside(&self, at: usize) -> usize
        ensures { result ≡ option_map_or (λ n. n.inside) (slice_get self.now.tree.now.nodes.items at) 0 }
    {
        match self.node(at) {
            Some(node) => node.inside,
            None => 0,
        }
    }

    /// The nodes, each after those that are in it.
    pub fn nodes(&self) -> &'a [Node]
        ensures { result.now ≡ self.now.tree.now.nodes.items }
    {
        self.tree.nodes.as_slice()
    }
}

/// Whether a site is the first word of a name of its file.
pub fn is_site(files: &[File<'_>], site: Site) -> bool
    ensures { result ≡ is_site files.now site }
{
    let Some(file) = files.get(site.file) else {
        return false;
    };
    let Some(node) = file.node(site.node) else {
        return false;
    };
    is_name_kind(node.kind)
        && node.from == site.word
        && site.word < node.to
        && node.to <= file.tree.words.len()
}

/// The bytes of the words that a node covers, if they are there.
fn span_in(file: &File<'_>, node: Node) -> Option<Span>
    ensures { result ≡ span_in file.now.tree.now.words.items node }
{
    let first = file.word(node.from)?;
    let last = file.word(node.to.saturating_sub(1))?;
    Some(Span {
        start: first.start as usize,
        end: last.end as usize,
    })
}

/// The bytes of a name with its `%`, if it has one. No name has none.
pub fn span_of(files: &[File<'_>], site: Site) -> Option<Span>
    ensures { result ≡ span_of files.now site }
{
    let file = files.get(site.file)?;
    span_in(file, file.node(site.node)?)
}

/// Where a name begins whose word begins here: after the `%`.
fn behind_percent(text: &str, at: usize) -> usize
    ensures { result ≡ behind_percent text.now at }
{
    match text.as_bytes().get(at) {
        Some(b'%') => at.saturating_add(1),
        _ => at,
    }
}

/// A name as it is spelled, without its `%`. `None` if the site is no name, or if its words are not in the text.
pub fn spelling<'a>(files: &[File<'a>], site: Site) -> Option<&'a str>
    ensures { IfSome result (λ name. name.now ≡ spelling files.now site) }
{
    let file = files.get(site.file)?;
    let span = span_of(files, site)?;
    file.text
        .get(behind_percent(file.text, span.start)..span.end)
}

impl<'a> File<'a> {
    /// The word at an index without its `%`, if it may be meant as a name. It is none for other words.
    pub fn name(&self, at: usize) -> Option<&'a str>
        ensures { IfSome result (λ name. IfSome (slice_get self.now.tree.now.words.items at) (λ w.
            name.now ≡ slice_range self.now.text.now (behind_percent self.now.text.now w.start) w.end)) }
    {
        let word = self.word(at)?;
        if !is_name(word.kind) {
            return None;
        }
        let start = behind_percent(self.text, word.start as usize);
        self.text.get(start..word.end as usize)
    }
}
