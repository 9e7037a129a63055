//! What a pool keeps of linked files: entries that name each other by places, and how the parts of
//! types are looked up.
#![tactic(auto)]

mod find;
mod keys;
mod kind;
mod lists;
mod lookups;
mod ranges;
mod stored;
mod tables;

pub use find::{key_of, search};
pub use keys::{By, Key, Keyed, compare};
pub use kind::{Cardinality, Syntax, syntax_of};
pub use lists::{FieldList, ValueList};
pub use ranges::NumberRanges;
pub use stored::{
    Child, Children, Declared, StoredDefault, StoredEntry, StoredEnum, StoredExtension,
    StoredField, StoredFile, StoredKind, StoredMessage, StoredMethod, StoredOneof, StoredService,
    StoredValue,
};
pub use tables::{Counts, Tables};
