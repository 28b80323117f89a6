//! Names that differ in more than case.
ghost use Rattle.std.specs.Prelude.{◌≡◌, [], not, IfOk};
ghost use Rattle.component_structure.specs.Names.{has_name, with_name};

use std::alloc::{AllocError, Global};
use std::collections::BTreeSet;
use std::marker::Model;

/// Names of which no two differ in case alone.
#[derive(Drop)]
pub struct Names {
    alloc: Global,
    lower: BTreeSet<String>,
}

impl Model for Names {
    ghost use Rattle.std.specs.Prelude.{List, ℕ, map};
    ghost use Rattle.std.specs.String.{string_bytes};

    ghost Value = { List (List ℕ) };

    ghost view = { λ n. map string_bytes n.lower.keys };
}

impl Names {
    /// No names.
    pub fn new(alloc: Global) -> Names
        ensures { result ≡ [] }
    {
        Names {
            alloc,
            lower: BTreeSet::new(alloc),
        }
    }

    /// Adds a name. False if there is one that differs in case at most.
    pub fn add(&mut self, name: &str) -> Result<bool, AllocError>
        ensures new { IfOk result (λ new. new ≡ not (has_name self.old name.now)) }
        ensures names { IfOk result (λ _. self.new ≡ with_name self.old name.now) }
    {
        Ok(self.lower.insert(name.to_ascii_lowercase(self.alloc)?)?)
    }
}
