//! The rules of the numbers of extensions (protobuf.dev, "Extensions").

ghost use Rattle.std.specs.Prelude.{List, OnOk};
ghost use Rattle.reflect_faults.specs.Faults.{Fault, Adds, place_at};
ghost use Rattle.reflect_rules.specs.Rules.{message_of, ExtensionNumber};

use crate::entry_rules::message_meant;
use crate::numbers::{check_extension, check_reserved};
use crate::types::{Types, find_in};
use reflect_faults::Faults;
use reflect_scope::{DefinitionKind, FileIndex};
use std::alloc::{AllocError, Global};

/// Lists what is wrong with the number of an extension of a message type.
pub fn check_extension_number<T: Types>(
    alloc: Global,
    faults: &mut Faults<'_>,
    file: FileIndex,
    path: &[i32],
    types: &T,
    number: i32,
    extendee: Option<DefinitionKind>,
) -> Result<(), AllocError>
    ensures { OnOk result ((xs : List Fault)
        × ExtensionNumber (T.says types.now) (place_at faults.old file) path.now number
        (message_of extendee) xs × Adds faults.old faults.new xs) }
{
    let Some(index) = message_meant(extendee) else {
        return Ok(());
    };
    let reserved = find_in(types.reserved_numbers(index), number);
    check_reserved(alloc, faults, file, path, number, reserved)?;
    let kept = find_in(types.extension_numbers(index), number);
    let name = types.message_name(index);
    check_extension(alloc, faults, file, path, number, kept, name)?;
    Ok(())
}
