//! The parts of map entries.

ghost use Rattle.std.specs.Prelude.{◌≡◌, ◌⊎◌, IfSome, IfNone, Some, None};
ghost use Rattle.reflect_tables.specs.Types.{PoolType, KindType};
ghost use Rattle.reflect_pool.specs.FieldsLeft.{field_type};
ghost use Rattle.reflect_pool.specs.Kinds.{IsKind};
ghost use Rattle.reflect_scalar.specs.FieldTypes.{field_pool};
ghost use Rattle.reflect_message.specs.Known.{entry_field};

use reflect_pool::{FieldDescriptor, Kind};

/// The fields of a map's entry type, for keys and for values.
pub fn entry_fields<'p>(kind: &Kind<'p>) -> Option<(FieldDescriptor<'p>, FieldDescriptor<'p>)>
    ensures some { (pool : PoolType) (k : KindType) → IsKind pool kind.now k
        → IfSome result (λ p. (field_pool p.0 ≡ pool) × (field_pool p.1 ≡ pool)
        × (entry_field pool k 1 ≡ Some (field_type p.0))
        × (entry_field pool k 2 ≡ Some (field_type p.1))) }
    ensures none { (pool : PoolType) (k : KindType) → IsKind pool kind.now k
        → IfNone result ((entry_field pool k 1 ≡ None) ⊎ (entry_field pool k 2 ≡ None)) }
{
    match kind {
        Kind::Message(entry) => Some((entry.get_field(1)?, entry.get_field(2)?)),
        _ => None,
    }
}
