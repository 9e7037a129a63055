//! What descriptors say of values.

ghost use Rattle.std.specs.Prelude.{◌≡◌, IfOk};
ghost use Rattle.reflect_tables.specs.Types.{FieldType, PoolType};
ghost use Rattle.reflect_scalar.specs.Kinds.{wire_type};
ghost use Rattle.reflect_message.specs.Defaults.{IsDefault, IsKindDefault};

use reflect_link::{ExtensionDescriptor, FieldDescriptor, Kind};
use reflect_message::{Value, default_of};
use reflect_wire::WireType;
use std::alloc::{AllocError, Global};

/// Fields and extensions, which have defaults.
pub trait FieldDefault<'p> {
    /// The pool that it stands in.
    ghost pool: { Self → PoolType };

    /// What the pool holds of it.
    ghost says: { Self → FieldType };

    /// What stands for the field where it is not set: empty of a list or a map, else what its
    /// declaration or its kind says.
    fn default_value(&self, alloc: Global) -> Result<Value<'p>, AllocError>
        ensures { IfOk result (IsDefault (pool self.now) (says self.now)) };
}

impl<'p> FieldDefault<'p> for FieldDescriptor<'p> {
    ghost use Rattle.reflect_pool.specs.FieldsLeft.{field_type};
    ghost use Rattle.reflect_scalar.specs.FieldTypes.{field_pool};

    ghost pool = { field_pool };

    ghost says = { field_type };

    fn default_value(&self, alloc: Global) -> Result<Value<'p>, AllocError> {
        default_of(alloc, self)
    }
}

impl<'p> FieldDefault<'p> for ExtensionDescriptor<'p> {
    ghost use Rattle.reflect_scalar.specs.FieldTypes.{extension_pool, extension_type};

    ghost pool = { extension_pool };

    ghost says = { extension_type };

    fn default_value(&self, alloc: Global) -> Result<Value<'p>, AllocError> {
        default_of(alloc, self)
    }
}

/// What a kind says of its values.
pub trait KindExt<'p> {
    ghost use Rattle.reflect_pool.specs.declared.kind.Kind.{Kind};

    /// The kind that it is.
    ghost kind: { Self → Kind };

    /// The wire type of one value of the kind: a message's is that of a length and its bytes.
    fn wire_type(&self) -> WireType
        ensures { result ≡ wire_type (kind self.now) };

    /// The default of a field that holds one value of the kind, as `Value::default_value` says.
    fn default_value(&self, alloc: Global) -> Value<'p>
        ensures { IsKindDefault (kind self.now) result };
}

impl<'p> KindExt<'p> for Kind<'p> {
    ghost kind = { λ k. k };

    fn wire_type(&self) -> WireType {
        reflect_scalar::wire_type(self)
    }

    fn default_value(&self, alloc: Global) -> Value<'p> {
        Value::default_value(alloc, self)
    }
}
