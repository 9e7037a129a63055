//! Reads enums and services off the tokens of a source.
#![tactic(auto)]

mod enums;
mod services;

pub use enums::enumeration;
pub use services::service;
