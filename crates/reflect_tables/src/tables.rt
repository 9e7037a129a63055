ghost use Rattle.std.specs.Prelude.{◌≡◌, []};

use crate::stored::{StoredEnum, StoredExtension, StoredFile, StoredMessage, StoredService};
use std::alloc::Global;

/// All entries of linked files, each sort by its places.
#[derive(Drop)]
pub struct Tables {
    pub files: Vec<StoredFile>,
    pub messages: Vec<StoredMessage>,
    pub enums: Vec<StoredEnum>,
    pub extensions: Vec<StoredExtension>,
    pub services: Vec<StoredService>,
}

/// How many entries of each sort there are.
#[derive(Clone, Copy)]
pub struct Counts {
    pub files: u32,
    pub messages: u32,
    pub enums: u32,
    pub extensions: u32,
    pub services: u32,
}

impl Tables {
    /// No entries. Takes no memory.
    pub fn new(alloc: Global) -> Tables
        ensures files { result.files.items ≡ [] }
        ensures messages { result.messages.items ≡ [] }
        ensures enums { result.enums.items ≡ [] }
        ensures extensions { result.extensions.items ≡ [] }
        ensures services { result.services.items ≡ [] }
    {
        Tables {
            files: Vec::new(alloc),
            messages: Vec::new(alloc),
            enums: Vec::new(alloc),
            extensions: Vec::new(alloc),
            services: Vec::new(alloc),
        }
    }
}
