//! Values as debugging shows them.

use std::fmt::Debug;
use test_json::Text;

/// Writes a value as debugging shows it, and a space.
pub fn write_shown<D: Debug + Drop>(out: &mut Text, value: D) {
    write!(out, "{value:?} ");
}
