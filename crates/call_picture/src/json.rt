//! Texts of JSON.

use serde_json::Value as Json;
use std::alloc::{AllocError, Global};
use thiserror::Error;
use value_json::JsonError as ValueError;

/// Why no values were made of a text. It is displayed as `witcall` displays it.
#[derive(Clone, Copy, Debug, Error)]
pub enum JsonError {
    /// The text is no JSON, or nests deeper than 127.
    #[error("error 61 bad JSON")]
    BadJson,
    /// The JSON value is no array of one value for each type.
    #[error("error 62 not this type")]
    NotThisType,
    #[error("error 66 no memory")]
    NoMemory,
}

impl From<AllocError> for JsonError {
    fn from(_error: AllocError) -> JsonError {
        JsonError::NoMemory
    }
}

impl From<ValueError> for JsonError {
    fn from(error: ValueError) -> JsonError {
        match error {
            ValueError::NotThisType => JsonError::NotThisType,
            ValueError::NoMemory => JsonError::NoMemory,
        }
    }
}

/// The JSON value that a text says.
pub fn read_json(alloc: Global, text: &str) -> Result<Json, JsonError> {
    match Json::from_str(alloc, text) {
        Ok(json) => Ok(json),
        Err(error) => {
            if error.is_memory() {
                Err(JsonError::NoMemory)
            } else {
                Err(JsonError::BadJson)
            }
        }
    }
}
