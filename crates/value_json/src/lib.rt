//! Values as JSON, both ways: `value_of_json` answers the value that a JSON value stands for as one of the type,
//! `values_of_json` those of an array, and `json_of_value` the one JSON value of a value. `specs/Json.antt` says how
//! values stand in JSON, and the laws that neither way loses anything. Stands on `tables` for the labels, and on
//! `values` for `Val` alone.
#![tactic(auto)]

mod error;
mod laws;
mod parts;
mod reading;
mod scalars;
mod writing;

pub use error::JsonError;
pub use laws::{
    gives_typed, has_one_json, has_one_value, labels_alike, labels_are_apart, nests_as_its_type,
};
pub use reading::{value_of_json, values_of_json};
pub use writing::json_of_value;
