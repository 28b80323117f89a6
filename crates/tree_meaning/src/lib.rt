//! What a syntax tree means: the definitions, and what follows of them alone.
//!
//! `specs/Resolves.antt` says which package a tree resolves to, and when it is refused; `specs/Declarations.antt` what
//! its interfaces and worlds declare, `specs/Resolved.antt` what each definition means, `specs/Building.antt` what a
//! table keeps while it is made. `tree_forms` has laws of such tables. Nothing here
//! runs. It stands on `wit_tokens` and `package_form`.
#![tactic(auto)]

pub mod tree_forms;
