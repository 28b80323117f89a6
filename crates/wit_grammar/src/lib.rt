//! The grammar of WIT texts, written in `productions`, and what each reader of it takes from the tokens in hand: single
//! tokens, names, lists with commas, types, paths, and the head of a file. `wit_text` reads whole files by it. Stands
//! on `atoms` (productions, labels and versions) and on `wit_tokens` (tokens and trees).
#![tactic(auto)]

mod file_head;
mod lists;
mod parser;
mod paths;
mod starts;
mod tokens;
mod types;

pub use file_head::{first_feature, gate, header};
pub use lists::{EntryReader, comma_list};
pub use parser::{
    comma_or, feature_or, identifier, is_name, label_of, met, name_of, peek, punctuation, same,
    separator, token,
};
pub use paths::{foreign, path, path_end};
pub use starts::{ItemStart, is_item_start, item_kind};
pub use tokens::Tokens;
pub use types::{Start, begins_type, type_at, type_behind, type_fault};
