//! Cases as data: each is a line of JSON with what is asked, and under `expect` what has to come,
//! member by member.
//!
//! `op` names what is asked, `id` the case. A `schema` case builds a schema in steps, which later
//! cases of its file name by its `id`; after a refused last step it is the schema of the steps
//! before. Bytes are hex text.

use crate::messages::tell_asked;
use crate::refusals::taken;
use crate::schemas::{is_set_of, set_of, tell_steps};
use schema_core::{Schema, SchemaError};
use serde_json::Value;
use std::alloc::Global;
use std::collections::BTreeMap;
use test_described::{described, tell_options};
use test_json::Told;
use test_json::members::{bytes, items, number, text, truth};
use test_messages::tell_merged;
use test_sources::tell_case_of_sources;

/// What cases build for later ones.
pub struct Replay {
    alloc: Global,
    /// The text of the `descriptor.proto` of schemas with option types.
    descriptor: String,
    schemas: BTreeMap<u64, Schema>,
}

impl Drop for Replay {
    fn drop(self) {
        let Replay {
            alloc: _,
            descriptor: _,
            schemas: _,
        } = self;
    }
}

impl Replay {
    pub fn new(alloc: Global) -> Replay {
        Replay {
            alloc,
            descriptor: String::new(alloc),
            schemas: BTreeMap::new(alloc),
        }
    }

    /// Does what the case asks, and tells what comes.
    pub fn run(&mut self, case: &Value, told: &mut Told<'_>) {
        let alloc = self.alloc;
        match text(case, "op") {
            "descriptor" => self.keep_descriptor(case, told),
            "schema" => self.build(case, told),
            "reread" => self.reread(case, told),
            op => match self.schemas.get(&number(case, "schema")) {
                Some(schema) => tell_of_schema(alloc, op, schema, case, told),
                None => tell_case_of_sources(alloc, case, told),
            },
        }
    }

    fn keep_descriptor(&mut self, case: &Value, told: &mut Told<'_>) {
        match String::from_str(self.alloc, text(case, "text")) {
            Ok(descriptor) => {
                self.descriptor = descriptor;
                told.tell("ok", "kept");
            }
            Err(_) => told.give_up(),
        }
    }

    /// Keeps a schema under the case's number.
    fn keep(&mut self, case: &Value, schema: Schema, told: &mut Told<'_>) {
        if self.schemas.insert(number(case, "id"), schema).is_err() {
            told.give_up();
        }
    }

    /// Builds a schema of the case's steps. It is kept also where the last of them is refused.
    fn build(&mut self, case: &Value, told: &mut Told<'_>) {
        let mut schema = Schema::bare(self.alloc);
        self.take_steps(&mut schema, case, told);
        self.keep(case, schema, told);
    }

    /// Takes the case's steps, with no types of options or with those of the descriptor that is
    /// kept.
    fn take_steps(&self, schema: &mut Schema, case: &Value, told: &mut Told<'_>) {
        if !truth(case, "new") || self.begin(schema, told) {
            tell_steps(self.alloc, schema, items(case, "steps"), case, told);
        }
    }

    /// Begins a schema with the types of the descriptor that is kept; false where it is refused.
    fn begin(&self, schema: &mut Schema, told: &mut Told<'_>) -> bool {
        let made = Schema::new(self.alloc, self.descriptor.as_str());
        put_made(self.alloc, schema, made, told)
    }

    /// Reads the set of another schema, and keeps what is read under the case's number.
    fn reread(&mut self, case: &Value, told: &mut Told<'_>) {
        let Some(other) = self.schemas.get(&number(case, "schema")) else {
            return;
        };
        match set_of(other) {
            Some(set) => self.read_again(set.as_slice(), case, told),
            None => told.give_up(),
        }
    }

    /// Reads a set, and keeps what is read under the case's number.
    fn read_again(&mut self, set: &[u8], case: &Value, told: &mut Told<'_>) {
        let mut schema = Schema::bare(self.alloc);
        tell_read(self.alloc, &mut schema, set, told);
        self.keep(case, schema, told);
    }
}

/// Puts the schema of a set into the place, and tells whether that has the same set.
fn tell_read(alloc: Global, place: &mut Schema, set: &[u8], told: &mut Told<'_>) {
    let made = Schema::from_descriptor_set(alloc, set);
    if put_made(alloc, place, made, told) {
        let is_same = is_set_of(place, set);
        told.tell(
            "ok",
            if is_same {
                "the same set"
            } else {
                "another set"
            },
        );
    }
}

/// Puts a schema that was made into the place, or tells why there is none.
fn put_made(
    alloc: Global,
    place: &mut Schema,
    made: Result<Schema, SchemaError>,
    told: &mut Told<'_>,
) -> bool {
    match taken(alloc, told, made) {
        Some(schema) => {
            *place = schema;
            true
        }
        None => false,
    }
}

/// What is asked of a schema.
fn tell_of_schema(alloc: Global, op: &str, schema: &Schema, case: &Value, told: &mut Told<'_>) {
    match op {
        "options" => tell_options(alloc, schema.pool(), case, told),
        "describe" => match described(alloc, schema.pool()) {
            Ok(lines) => told.tell("ok", lines.as_str()),
            Err(_) => told.give_up(),
        },
        "merge" => tell_merged(alloc, schema.pool(), case, told),
        _ => match bytes(alloc, case, "bytes") {
            Ok(bytes) => tell_asked(alloc, op, schema, case, bytes.as_slice(), told),
            Err(_) => told.give_up(),
        },
    }
}
