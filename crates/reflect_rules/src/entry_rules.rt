//! The rules of the types of maps' entries (protobuf.dev, "Maps").

ghost use Rattle.std.specs.Prelude.{◌≡◌, OnOk};
ghost use Rattle.reflect_declarations.specs.Tree.{parts_of};
ghost use Rattle.reflect_faults.specs.Faults.{Adds, place_at};
ghost use Rattle.reflect_rules.specs.Rules.{is_one_map as is_one, message_of, entry_faults, older_faults};

use crate::map_entry::has_entry_shape;
use crate::types::Types;
use crate::uses::EntryUse;
use descriptor_records::DescriptorProto;
use reflect_faults::{DescriptorErrorKind, Faults};
use reflect_scope::{DefinitionKind, FileIndex, MessageIndex};
use reflect_walk::says_map_entry;
use std::alloc::{AllocError, Global};

/// The type of a map's entries is the type of one repeated field, and of no other.
fn is_one_map(used: Option<EntryUse>) -> bool
    ensures { result ≡ is_one used }
{
    matches!(used, Some(EntryUse::OneMap))
}

/// Lists the type of a map's entries that has not the shape of one or is not the type of one
/// repeated field.
pub fn check_entry(
    alloc: Global,
    faults: &mut Faults<'_>,
    file: FileIndex,
    path: &[i32],
    full_name: &str,
    message: &DescriptorProto,
    used: Option<EntryUse>,
) -> Result<(), AllocError>
    ensures { OnOk result (Adds faults.old faults.new
        (entry_faults (place_at faults.old file) path.now full_name.now used
        (parts_of message.now))) }
{
    let is_right = has_entry_shape(message) && is_one_map(used);
    if !says_map_entry(message) || is_right {
        return Ok(());
    }
    let found = faults.label(alloc, file, path)?;
    let name = String::from_str(alloc, full_name)?;
    faults.push(DescriptorErrorKind::BadMapEntry { name, found })
}

/// The index of the message that is meant, if one is.
pub fn message_meant(meaning: Option<DefinitionKind>) -> Option<MessageIndex>
    ensures { result ≡ message_of meaning }
{
    match meaning {
        Some(DefinitionKind::Message(index)) => Some(index),
        _ => None,
    }
}

/// Lists a field whose type is that of an older map's entries: these have their field. Message
/// types from `first` on are new.
pub fn check_older_entry<T: Types>(
    alloc: Global,
    faults: &mut Faults<'_>,
    file: FileIndex,
    path: &[i32],
    types: &T,
    first: MessageIndex,
    meaning: Option<DefinitionKind>,
) -> Result<(), AllocError>
    ensures { OnOk result (Adds faults.old faults.new
        (older_faults (place_at faults.old file) path.now (T.says types.now) first
        (message_of meaning))) }
{
    let Some(index) = message_meant(meaning) else {
        return Ok(());
    };
    if !(index < first && types.is_map_entry(index)) {
        return Ok(());
    }
    let found = faults.label(alloc, file, path)?;
    let name = String::from_str(alloc, types.message_name(index))?;
    faults.push(DescriptorErrorKind::BadMapEntry { name, found })
}
