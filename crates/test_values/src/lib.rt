//! Cases of calls of types, values and keys of maps, and what all cases of calls are given and
//! show.
#![tactic(auto)]

mod answers;
mod changes;
mod given;
mod keys;
mod shown;
mod types;
mod values;

pub use answers::{Answers, replay_calls, write_other};
pub use changes::change;
pub use given::{bytes_of, i32_of, list_of, message_of, scalar_of, text_of, u32_of, value_of};
pub use keys::replay_key;
pub use shown::{
    write_bytes, write_gap, write_held, write_name, write_outcome, write_taken, write_truth,
    write_value,
};
pub use types::TypeCase;
pub use values::replay_value;
