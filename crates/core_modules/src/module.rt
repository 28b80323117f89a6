//! What is known of a core module.
ghost use Rattle.std.specs.Prelude.{◌≡◌, OnOk};
ghost use Rattle.std.specs.Option.{option_map};
ghost use Rattle.core_modules.specs.Module.{function_view, module_view, no_module, with_export};
ghost use Rattle.core_modules.specs.Module.{type_in, exported_as, type_exported, is_memory};

use crate::types::FunctionType;
use std::alloc::{AllocError, Global};
use std::collections::BTreeMap;

/// What is imported or exported. Of a function it is the place of its type in `CoreModule::types`.
#[derive(Clone, Copy)]
pub enum Item {
    Function(usize),
    Table,
    Memory,
    Global,
    Tag,
}

/// An import.
#[derive(Clone, Copy)]
pub struct Import<'a> {
    /// The name of the module that it is imported from.
    pub from: &'a str,
    pub name: &'a str,
    pub item: Item,
}

/// A custom section.
#[derive(Clone, Copy)]
pub struct Custom<'a> {
    pub name: &'a str,
    pub content: &'a [u8],
}

/// What a core module declares.
#[derive(Drop)]
pub struct CoreModule<'a> {
    pub types: Vec<FunctionType>,
    pub imports: Vec<Import<'a>>,
    /// The places of the functions' types, the imported functions first.
    pub functions: Vec<usize>,
    /// What is exported, by name.
    pub exports: BTreeMap<String, Item>,
    /// In the order of the bytes.
    pub customs: Vec<Custom<'a>>,
}

impl CoreModule<'_> {
    /// Nothing.
    pub(crate) fn new<'a>(alloc: Global) -> CoreModule<'a>
        ensures { module_view result ≡ no_module }
    {
        CoreModule {
            types: Vec::new(alloc),
            imports: Vec::new(alloc),
            functions: Vec::new(alloc),
            exports: BTreeMap::new(alloc),
            customs: Vec::new(alloc),
        }
    }

    /// Notes that it exports this under a name, under which it exports nothing yet.
    pub(crate) fn export(&mut self, alloc: Global, name: &str, item: Item) -> Result<(), AllocError>
        ensures { OnOk result (module_view self.new ≡ with_export (module_view self.old) name.now item) }
    {
        let text = String::from_str(alloc, name)?;
        self.exports.insert(text, item)?;
        Ok(())
    }

    /// The type of a function that is imported or exported. None of what is no function.
    pub fn type_of(&self, item: Item) -> Option<&FunctionType>
        ensures { option_map (λ t. function_view t.now) result ≡ type_in (module_view self.now) item }
    {
        match item {
            Item::Function(place) => self.types.as_slice().get(place),
            _ => None,
        }
    }

    /// What is exported under a name.
    pub fn exported(&self, name: &str) -> Option<Item>
        ensures { result ≡ exported_as (module_view self.now) name.now }
    {
        self.exports.get(name).copied()
    }

    /// The type of the function that is exported under a name.
    pub fn exported_function(&self, name: &str) -> Option<&FunctionType>
        ensures { option_map (λ t. function_view t.now) result
            ≡ type_exported (module_view self.now) (exported_as (module_view self.now) name.now) }
    {
        self.type_of(self.exported(name)?)
    }

    /// Whether a memory is exported under a name.
    pub fn has_memory(&self, name: &str) -> bool
        ensures { result ≡ is_memory (exported_as (module_view self.now) name.now) }
    {
        matches!(self.exported(name), Some(Item::Memory))
    }
}
