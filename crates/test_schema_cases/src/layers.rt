//! What is told of the refusals of layers below a schema: of linking and of options.

use reflect_build::DescriptorError;
use reflect_text::{OptionError, OptionErrorKind};
use std::alloc::{AllocError, Global};
use std::collections::BTreeSet;
use test_json::{Text, Told, tell_case, write_case};

/// The names of faults, each once and by the alphabet.
fn names_of(alloc: Global, error: &DescriptorError) -> Result<BTreeSet<String>, AllocError> {
    let mut names = BTreeSet::new(alloc);
    for fault in error.errors() {
        let mut name = Text::new(alloc);
        write_case(alloc, &mut name, fault);
        names.insert(name.into_string()?)?;
    }
    Ok(names)
}

/// Tells the names of faults, with spaces between them.
fn tell_codes(alloc: Global, told: &mut Told<'_>, names: &BTreeSet<String>) {
    let mut codes = Text::new(alloc);
    for name in names {
        if !codes.is_empty() {
            codes.push_str(" ");
        }
        codes.push_str(name.as_str());
    }
    told.tell_text("codes", codes);
}

/// Files do not fit together: the names of the faults, and what the faults say.
pub fn tell_link_refusal(alloc: Global, told: &mut Told<'_>, error: &DescriptorError) {
    let mut texts = Text::new(alloc);
    for fault in error.errors() {
        writeln!(texts, "{fault}");
    }
    told.tell_text("faults", texts);
    match names_of(alloc, error) {
        Ok(names) => tell_codes(alloc, told, &names),
        Err(_) => told.give_up(),
    }
}

/// Options are refused with a fault, and where text or stored bytes are at fault, with theirs.
pub fn tell_option_refusal(alloc: Global, told: &mut Told<'_>, error: &OptionError) {
    tell_case(alloc, told, "codes", error.kind());
    match error.kind() {
        OptionErrorKind::InvalidMessageOption { error, .. } => {
            tell_case(alloc, told, "inner", error.kind());
        }
        OptionErrorKind::UndecodableOptions { error: Some(error) } => {
            tell_case(alloc, told, "inner", error);
        }
        _ => {}
    }
}
