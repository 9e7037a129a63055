//! Cases of enums, by their names.

use crate::text::Text;
use crate::told::Told;
use std::alloc::Global;
use std::fmt::Debug;

/// Tells under a name an enum's case: the word that its debug text begins with.
pub fn tell_case<T: Debug>(alloc: Global, told: &mut Told<'_>, name: &'static str, value: &T) {
    let mut shown = Text::new(alloc);
    write_case(alloc, &mut shown, value);
    told.tell_text(name, shown);
}

/// Writes the name of an enum's case.
pub fn write_case<T: Debug>(alloc: Global, out: &mut Text, value: &T) {
    match format!(in alloc; "{value:?}") {
        Ok(shown) => write_word(out, shown.as_str()),
        Err(_) => out.give_up(),
    }
}

/// Writes the word that a text begins with.
fn write_word(out: &mut Text, text: &str) {
    for letter in text.chars() {
        if !letter.is_ascii_alphanumeric() {
            break;
        }
        write!(out, "{letter}");
    }
}
