//! A program with an older schema passes messages on.

ghost use Rattle.std.specs.Prelude.{IfOk};
ghost use Rattle.schema_core.specs.Payloads.{Recoded};

use crate::files::link;
use schema_core::{Schema, SchemaError};
use std::alloc::Global;

/// The message in the one form in which the schema writes it, with the fields that it does not
/// know. A program in the middle may do so with an older schema: what the bytes mean to a newer one
/// stays.
pub fn pass_on(older: &Schema, type_name: &str, bytes: &[u8]) -> Result<Vec<u8>, SchemaError>
    ensures ok { IfOk result
        (λ written. Recoded older.now.pool type_name.now bytes.now written.items) }
{
    older.recode(type_name, bytes)
}

/// The newer source of `M`, which the examples have without its `bar`.
const NEWER: &str = "syntax = 'proto3'; package p;
    message M { int32 foo = 1; string bar = 2; N nested = 3; } message N { int32 bar = 2; }";

/// What the newer schema reads of a message of its own that passed through the older.
fn read_behind(older: &Schema, newer: &Schema) -> Result<String, SchemaError> {
    let bytes = newer.encode("p.M", "bar: 'x' foo: 150")?;
    let passed = pass_on(older, "p.M", bytes.as_slice())?;
    newer.decode("p.M", passed.as_slice())
}

/// A message passes through an older schema, which does not know its `bar`.
pub fn passed_on(alloc: Global, older: &Schema) -> Result<String, SchemaError> {
    let newer = link(alloc, &[("a.proto", NEWER)])?;
    read_behind(older, &newer)
}
