//! The binaries among the files of a command, as texts.
//!
//! `with_texts` puts in the place of each binary the texts of the packages that it has, and reports one that has none.
//! `texts_in` reads the packages of one, which the module `decoded_packages` makes of a decoded component. It stands on
//! `component_decoding`, on `wit_files` for files, and on `wit_faults` for reports.
#![tactic(auto)]

pub mod decoded_packages;
mod texts;

pub use texts::{texts_in, with_texts};
