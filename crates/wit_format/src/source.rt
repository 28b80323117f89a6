//! A text as the layout sees it.

use crate::atom::{Atom, atoms_of};
use crate::role::{Role, roles_of};
use std::alloc::{AllocError, Global};
use wit_tree::Tree;

/// A text with its tree, its atoms, and the roles of its words.
#[derive(Drop)]
pub struct Source<'a> {
    pub text: &'a str,
    pub tree: &'a Tree,
    pub atoms: Vec<Atom>,
    pub roles: Vec<Role>,
}

impl<'a> Source<'a> {
    /// A text that has this tree.
    pub fn new(alloc: Global, text: &'a str, tree: &'a Tree) -> Result<Source<'a>, AllocError> {
        let atoms = atoms_of(alloc, text.as_bytes(), tree.pieces.as_slice())?;
        let roles = roles_of(alloc, tree)?;
        Ok(Source {
            text,
            tree,
            atoms,
            roles,
        })
    }

    /// The role of a word.
    pub fn role(&self, at: usize) -> Role {
        self.roles.get(at).copied().unwrap_or(Role::Other)
    }

    /// Whether a word is the first of its line.
    pub fn begins_line(&self, at: usize) -> bool {
        match self.tree.words.get(at) {
            Some(word) => word.begins_line,
            None => false,
        }
    }

    /// The atoms `from..to`.
    pub fn between(&self, from: usize, to: usize) -> &[Atom] {
        self.atoms.as_slice().get(from..to).unwrap_or(&[])
    }
}
