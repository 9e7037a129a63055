//! The records that the options, the enums and the services of a syntax tree describe.
#![tactic(auto)]

mod enumeration;
mod number;
mod option;
mod service;
mod texts;

pub use enumeration::{add_reserved_names, enum_record};
pub use number::{i32_of, last};
pub use option::{declared, list_options, listed, option_record};
pub use service::service_record;
pub use texts::{signed_text, text};
