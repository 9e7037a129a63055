//! Files become a schema: as one batch of sources, or as a descriptor set.

ghost use Rattle.std.specs.Prelude.{◌≡◌, OnErr};

use schema_core::{Schema, SchemaError};
use std::alloc::Global;

/// A schema of sources, each a file's name and its text, in any order. Where they do not fit
/// together there is no schema, but why.
pub fn link(alloc: Global, sources: &[(&str, &str)]) -> Result<Schema, SchemaError> {
    let mut schema = Schema::bare(alloc);
    schema.add_sources(sources)?;
    Ok(schema)
}

/// Adds the files of a descriptor set, such as `protoc --descriptor_set_out` writes. A refusal
/// leaves the schema as it was.
pub fn add_set(schema: &mut Schema, set: &[u8]) -> Result<(), SchemaError>
    ensures unchanged { OnErr result (schema.new.pool ≡ schema.old.pool) }
{
    schema.add_descriptor_set(set)
}

const USER: &str = "syntax = 'proto3'; package p; import 'date.proto';
    message User { string name = 1; Date born = 2; }";

const DATE: &str = "syntax = 'proto3'; package p; message Date { int32 year = 1; }";

const MESSAGES: &str = "syntax = 'proto3'; package p;
    message M { int32 foo = 1; N nested = 3; } message N { int32 bar = 2; }";

/// The schema that examples share. A file stands before the one that it imports.
pub fn examples(alloc: Global) -> Result<Schema, SchemaError> {
    let sources = [
        ("user.proto", USER),
        ("date.proto", DATE),
        ("a.proto", MESSAGES),
    ];
    link(alloc, &sources)
}

/// A message whose type stands in two files.
pub fn in_any_order(schema: &Schema) -> Result<String, SchemaError> {
    schema.decode("p.User", b"\x12\x03\x08\x97\x0e")
}

/// What it imports is not there.
pub fn with_one_missing(alloc: Global) -> Result<String, SchemaError> {
    let mut schema = Schema::bare(alloc);
    match schema.add_sources(&[("user.proto", USER)]) {
        Ok(()) => Ok(String::new(alloc)),
        Err(refusal) => Err(refusal),
    }
}

/// A date of a schema that a set is added to.
fn date_of(schema: &mut Schema, set: &[u8]) -> Result<String, SchemaError> {
    add_set(schema, set)?;
    schema.decode("p.Date", b"\x08\x97\x0e")
}

/// The set of one schema is added to another.
pub fn as_a_set(alloc: Global, schema: &Schema) -> Result<String, SchemaError> {
    let set = schema.to_descriptor_set()?;
    let mut other = Schema::bare(alloc);
    date_of(&mut other, set.as_slice())
}
