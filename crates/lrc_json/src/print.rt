//! An object as a line of text.

use serde::Serialize;
use std::alloc::{AllocError, Global};

/// Appends the line of an object.
pub fn push_object<T: Serialize>(
    text: &mut String,
    alloc: Global,
    object: &T,
) -> Result<(), AllocError> {
    // the types of this crate can be written, so an error is one of memory
    match serde_json::to_string(alloc, object) {
        Ok(line) => text.push_str(line.as_str())?,
        Err(_) => return Err(AllocError),
    }
    text.push('\n')
}
