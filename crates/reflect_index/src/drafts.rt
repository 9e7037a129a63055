//! The entries of declarations while they are visited.

ghost use Rattle.std.specs.Prelude.{◌≡◌, ◌+◌, ◌-◌, [], IfOk};

use crate::batch::Batch;
use crate::finish::{finished_enums, finished_messages};
use reflect_scope::{FileIndex, MessageIndex};
use reflect_tables::{
    Children, Declared, NumberRanges, StoredExtension, StoredField, StoredOneof, StoredService,
    StoredValue,
};
use reflect_walk::VisitError;
use std::alloc::Global;

/// A message type whose fields and oneofs may not all be there yet.
#[derive(Drop)]
pub struct MessageDraft {
    pub file: FileIndex,
    pub parent: Option<MessageIndex>,
    pub path: Vec<i32>,
    pub name: String,
    pub full_name: String,
    /// The record says that the type is one of a map's entries.
    pub is_entry: bool,
    /// The fields, as they were declared.
    pub fields: Vec<StoredField>,
    /// The oneofs, as they were declared, without their members.
    pub oneofs: Vec<StoredOneof>,
    pub children: Children,
    /// The numbers that no field or extension may have.
    pub reserved_numbers: NumberRanges,
    /// The numbers that extensions may have.
    pub extension_numbers: NumberRanges,
}

/// An enum type whose values may not all be there yet.
#[derive(Drop)]
pub struct EnumDraft {
    pub file: FileIndex,
    pub parent: Option<MessageIndex>,
    pub path: Vec<i32>,
    pub name: String,
    pub full_name: String,
    /// The values, as they were declared.
    pub values: Vec<StoredValue>,
}

/// The entries of new files, whose types are drafts.
#[derive(Drop)]
pub struct Drafts {
    pub files: Vec<Declared>,
    pub messages: Vec<MessageDraft>,
    pub enums: Vec<EnumDraft>,
    pub extensions: Vec<StoredExtension>,
    pub services: Vec<StoredService>,
}

impl Drafts {
    ghost use Rattle.reflect_index.specs.Finished.{AreFinished};

    /// No entries. Takes no memory.
    pub fn new(alloc: Global) -> Drafts
        ensures files { result.files.items ≡ [] }
        ensures messages { result.messages.items ≡ [] }
        ensures enums { result.enums.items ≡ [] }
        ensures extensions { result.extensions.items ≡ [] }
        ensures services { result.services.items ≡ [] }
    {
        Drafts {
            files: Vec::new(alloc),
            messages: Vec::new(alloc),
            enums: Vec::new(alloc),
            extensions: Vec::new(alloc),
            services: Vec::new(alloc),
        }
    }

    /// The entries with all that is known of a type once all of it was visited.
    pub fn finished(self, alloc: Global) -> Result<Batch, VisitError>
        ensures { IfOk result (AreFinished self) }
    {
        let Drafts {
            files,
            messages,
            enums,
            extensions,
            services,
        } = self;
        Ok(Batch {
            files,
            messages: finished_messages(alloc, messages)?,
            enums: finished_enums(alloc, enums)?,
            extensions,
            services,
        })
    }
}

/// The place in the batch's list of what has an index in the pool, where there were so many before.
pub fn local_place(index: u32, before: u32) -> Result<usize, VisitError>
    ensures place { IfOk result (λ place. place ≡ index - before) }
    ensures sum { IfOk result (λ place. before + place ≡ index) }
{
    let place = index.checked_sub(before).ok_or(VisitError::TooMany)?;
    Ok(place as usize)
}
