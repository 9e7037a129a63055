//! What is so of each map that a message may hold.
ghost use Rattle.std.specs.BTreeMap.{IsOrdered};
ghost use Rattle.reflect_message.specs.Maps.{key_order};

use reflect_message::Value;
use reflect_scalar::MapKey;
use std::collections::BTreeMap;

/// The keys of a map ascend in its entries, which `encode` writes one behind the other.
pub fn entries_ascend(map: &BTreeMap<MapKey, Value<'_>>)
    ensures { IsOrdered key_order map.now }
{
    let _count = map.len();
}
