//! Functions of one interface by their names.
ghost use Rattle.std.specs.Prelude.{◌≡◌, [], List, ℕ, None, Some, IfOk, OnOk, if◌then◌else◌};
ghost use Rattle.std.specs.Map.{lookup};
ghost use Rattle.std.specs.Option.{option_or};
ghost use Rattle.std.specs.Str.{bytes_eq};

use atoms::{KeyedState, Label};
use indexmap::IndexMap;
use std::alloc::{AllocError, Global};
use std::marker::Model;
use tables::FunctionId;

/// Functions by their names: of each name the one that was put first.
#[derive(Drop)]
pub(crate) struct NamedFunctions {
    functions: IndexMap<String, FunctionId, KeyedState>,
}

impl Model for NamedFunctions {
    ghost use Rattle.std.specs.Prelude.{List, ℕ, map};
    ghost use Rattle.tables.specs.declared.tables.FunctionId.{FunctionId};
    ghost use Rattle.function_index.specs.Index.{named};

    ghost Value = { List (List ℕ × FunctionId) };

    ghost view = { λ f. map named f.functions.entries };
}

impl NamedFunctions {
    /// No functions; their names are told apart by hashers with this key.
    fn empty(alloc: Global, keyed: KeyedState) -> NamedFunctions
        ensures { result ≡ [] }
    {
        NamedFunctions {
            functions: IndexMap::with_hasher(alloc, keyed),
        }
    }

    /// One function under its name.
    pub(crate) fn of(
        alloc: Global,
        keyed: KeyedState,
        name: &Label,
        func: FunctionId,
    ) -> Result<NamedFunctions, AllocError>
        ensures { IfOk result (λ f. (n : List ℕ)
            → lookup (bytes_eq n) f ≡ (if bytes_eq n name.now then Some func else None)) }
    {
        let mut functions = NamedFunctions::empty(alloc, keyed);
        functions.put(alloc, name, func)?;
        Ok(functions)
    }

    /// Puts a function under its name, unless there is one.
    pub(crate) fn put(
        &mut self,
        alloc: Global,
        name: &Label,
        func: FunctionId,
    ) -> Result<(), AllocError>
        ensures { OnOk result ((n : List ℕ) → lookup (bytes_eq n) self.new
            ≡ option_or (lookup (bytes_eq n) self.old) (if bytes_eq n name.now then Some func else None)) }
    {
        if !self.functions.contains_key(name.as_str()) {
            self.functions
                .insert(String::from_str(alloc, name.as_str())?, func)?;
        }
        Ok(())
    }

    /// The function of this name.
    pub(crate) fn get(&self, name: &str) -> Option<FunctionId>
        ensures { result ≡ lookup (bytes_eq name.now) self.now }
    {
        self.functions.get(name).copied()
    }
}
