//! Declarations for TypeScript of a package and of what it uses: the types of JavaScript's values, as `bindings/js`
//! takes and gives them, and of its functions.
//!
//! `declarations_of` writes them of a table. Each interface and each world is a namespace. A namespace has the types of
//! its interface, and `Functions`, or `Imports` and `Exports`. It stands on `tables`, and on `atoms` for labels.
#![tactic(auto)]

mod functions;
mod labels;
mod pages;
mod spellings;
mod types;

pub use pages::declarations_of;
