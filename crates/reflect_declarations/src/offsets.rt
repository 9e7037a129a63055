//! How much is declared before.

/// How many messages, enums, extensions and services are declared before, in all files.
#[derive(Clone, Copy, PartialEq, Eq)]
pub struct Offsets {
    pub messages: u32,
    pub enums: u32,
    pub extensions: u32,
    pub services: u32,
}
