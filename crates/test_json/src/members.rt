//! Members of a case. What a case lacks is read as empty: then other answers come than it wants.

use serde_json::Value;
use std::alloc::{AllocError, Global};

/// The text of a member, empty where there is none.
pub fn text<'v>(value: &'v Value, name: &'static str) -> &'v str {
    value.get(name).and_then(Value::as_str).unwrap_or("")
}

/// The unsigned number of a member, zero where there is none.
pub fn number(value: &Value, name: &'static str) -> u64 {
    value.get(name).and_then(Value::as_u64).unwrap_or(0)
}

/// The truth value of a member, false where there is none.
pub fn truth(value: &Value, name: &'static str) -> bool {
    value.get(name).and_then(Value::as_bool).unwrap_or(false)
}

/// The items of a member, none where there is no such list.
pub fn items<'v>(value: &'v Value, name: &'static str) -> &'v [Value] {
    match value.get(name).and_then(Value::as_array) {
        Some(items) => items.as_slice(),
        None => &[],
    }
}

/// The two items of a list that has just two.
pub fn pair(value: &Value) -> Option<(&Value, &Value)> {
    match value.as_array()?.as_slice() {
        [first, second] => Some((first, second)),
        _ => None,
    }
}

/// The bytes that a member has as hex text, none where there is no such member.
///
/// What is no hex text is refused as want of memory is.
pub fn bytes(alloc: Global, value: &Value, name: &'static str) -> Result<Vec<u8>, AllocError> {
    match hex::decode(alloc, text(value, name)) {
        Ok(bytes) => Ok(bytes),
        Err(_) => Err(AllocError),
    }
}
