//! What a field lends, which may need room to be made.

use reflect_dynamic::{FieldRef, LendError, Value};
use serde_json::Value as Json;
use std::alloc::{AllocError, Global};
use test_json::Text;
use test_values::{change, write_value};

/// Writes what a field holds.
pub fn write_made(out: &mut Text, made: Result<FieldRef<'_, '_>, AllocError>) {
    match made {
        Ok(held) => write_value(out, held.value()),
        Err(_) => out.give_up(),
    }
}

/// Changes the value that a field lends.
pub fn change_made(
    alloc: Global,
    out: &mut Text,
    made: Result<&mut Value<'_>, AllocError>,
    call: &Json,
) {
    match made {
        Ok(value) => change(alloc, out, value, call),
        Err(_) => out.give_up(),
    }
}

/// Changes the value that a field of a number or a name lends, or writes that there is none.
pub fn change_found(
    alloc: Global,
    out: &mut Text,
    found: Result<&mut Value<'_>, LendError>,
    call: &Json,
) {
    match found {
        Ok(value) => change(alloc, out, value, call),
        Err(LendError::NotFound) => out.push_str("none"),
        Err(LendError::Memory) => out.give_up(),
    }
}
