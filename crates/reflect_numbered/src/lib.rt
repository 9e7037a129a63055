//! Messages by the numbers of their fields, and which values suit which fields.
#![tactic(auto)]

mod by_number;
mod by_number_mut;
mod lend_error;
mod set_field_error;
mod validity;

pub use by_number::FieldsByNumber;
pub use by_number_mut::{FieldsByNumberMut, NumberedFields};
pub use lend_error::LendError;
pub use set_field_error::{SetFieldError, TrySetField};
pub use validity::{MessageTests, Strictness, content_suits, is_valid_for, value_suits};
