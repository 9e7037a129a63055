//! Texts in the fields of records.

ghost use Rattle.std.specs.Prelude.{◌≡◌, ◌++◌, IfOk, OnOk, map, string_bytes};
ghost use Rattle.protox_declaration_records.specs.Texts as texts;

use protox_tree::Strings;
use std::alloc::{AllocError, Global};

/// The text of a string. What is not UTF-8 is replaced; a checked tree has none of it.
pub fn text(alloc: Global, strings: &Strings) -> Result<String, AllocError>
    ensures { IfOk result (λ text. string_bytes text ≡ texts.text_of strings.now) }
{
    let joined = strings.joined(alloc)?;
    String::from_utf8_lossy(alloc, joined.value.as_slice())
}

/// Adds the texts of strings to those that there are.
pub fn add_texts(
    alloc: Global,
    strings: &Vec<Strings>,
    added: &mut Vec<String>,
) -> Result<(), AllocError>
    ensures { OnOk result (map string_bytes added.new.items ≡ map string_bytes added.old.items
        ++ map texts.text_of strings.now.items) }
{
    'each: for string in strings {
        added.push(text(alloc, string)?)?;
    }
    Ok(())
}

/// The text of a float, or of a word for what is no number, with its sign.
pub fn signed_text(alloc: Global, negative: bool, text: &str) -> Result<String, AllocError>
    ensures { IfOk result (λ signed. string_bytes signed ≡ texts.signed_text negative text.now) }
{
    if negative {
        format!(in alloc; "-{text}")
    } else {
        String::from_str(alloc, text)
    }
}
