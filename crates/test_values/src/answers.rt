//! Calls of a case, and what they answer.

use serde_json::Value as Json;
use std::alloc::Global;
use test_json::Text;
use test_json::members::{items, text};

/// What calls are made of.
pub trait Answers {
    /// Makes a call, and writes what it answers. A call that cannot be made is said to be none,
    /// which no case wants.
    fn answer(&mut self, alloc: Global, call: &Json, out: &mut Text);
}

/// Writes that a text is another than is wanted, behind what it was asked of.
pub fn write_other(difference: &mut Text, asked: &str, came: Text, wanted: &str) {
    match came.into_string() {
        Ok(came) => {
            if came.as_str() != wanted {
                write!(difference, "{asked}: {came} instead of {wanted}; ");
            }
        }
        Err(_) => difference.give_up(),
    }
}

/// Makes the calls of a case in their order, and writes which of them answer otherwise than they
/// have to.
///
/// What a call has to answer stands under `is`, and is empty where nothing does.
pub fn replay_calls<A: Answers>(alloc: Global, asked: &mut A, case: &Json, difference: &mut Text) {
    for call in items(case, "calls") {
        let mut came = Text::new(alloc);
        asked.answer(alloc, call, &mut came);
        write_other(difference, text(call, "call"), came, text(call, "is"));
    }
}
