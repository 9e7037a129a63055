ghost use Rattle.std.specs.Prelude.{IfOk, OnErr};
ghost use Rattle.std.specs.BTreeMap.{IsUnchanged};
ghost use Rattle.name_table.specs.Puts.{PutsIfFree};

use crate::key::NameHash;
use crate::slot::Slot;
use std::alloc::AllocError;
use std::collections::BTreeMap;

/// Puts the slot under a hash that is free. Where another slot has the hash, all stays and the new
/// slot is given back. Want of memory leaves all as it was.
///
/// One search of the map where the hash is free, as it nearly always is: what the insert took out
/// is put back where it is not.
pub(crate) fn put_if_free<V: Copy>(
    slots: &mut BTreeMap<NameHash, Slot<V>>,
    hash: NameHash,
    slot: Slot<V>,
) -> Result<Option<Slot<V>>, AllocError>
    ensures puts { IfOk result (PutsIfFree slots.old slots.new hash slot) }
    ensures unchanged { OnErr result (IsUnchanged slots.old slots.new) }
{
    match slots.insert(hash, slot)? {
        None => Ok(None),
        Some(held) => match slots.insert(hash, held) {
            Ok(Some(slot)) => Ok(Some(slot)),
            Ok(None) => unreachable!(),
            Err(_) => unreachable!(),
        },
    }
}
