//! What a module and a world differ in.

use core_modules::FunctionType;
use thiserror::Error;

/// Why a module does not fit a world.
#[derive(Debug, Drop, Error)]
pub enum Misfit {
    /// The module does not export a function of the world, or what a function of the world needs.
    #[error("no export `{0}`: expected a function {1}")]
    NoExport(String, FunctionType),
    /// The module exports a function with another core signature.
    #[error("export `{0}`: expected {1}, found {2}")]
    OtherExport(String, FunctionType, FunctionType),
    /// The module imports a function with another core signature.
    #[error("import `{0}` of `{1}`: expected {2}, found {3}")]
    OtherImport(String, String, FunctionType, FunctionType),
    /// The module imports from what the world does not import.
    #[error("import `{0}` of `{1}`: the world imports no such interface")]
    NoInterface(String, String),
    /// The module imports a function that the interface, or the world itself, does not have.
    #[error("import `{0}` of `{1}`: the world imports no such function")]
    NoFunction(String, String),
    /// The module imports a table, a memory, a global or a tag.
    #[error("import `{0}` of `{1}`: only functions can be imported")]
    NotFunction(String, String),
    /// The module does not export its memory, in which values cross.
    #[error("no export `memory`: expected a memory")]
    NoMemory,
}
