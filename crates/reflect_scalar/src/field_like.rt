//! What fields and extensions have in common.

ghost use Rattle.std.specs.Prelude.{◌≡◌, ◌↔◌, ℕ, IfSome, IsTrue, None, Option, option_map};
ghost use Rattle.reflect_tables.specs.Types.{FieldType, PoolType};
ghost use Rattle.reflect_pool.specs.Defaults.{IsDefault};
ghost use Rattle.reflect_pool.specs.Kinds.{IsKind};
ghost use Rattle.reflect_pool.specs.Shapes.{holds_list, holds_map};
ghost use Rattle.reflect_scalar.specs.Floats.{is_float_kind, HoldsFloats};

use reflect_pool::{DefaultValue, ExtensionDescriptor, FieldDescriptor, Kind, OneofDescriptor};

/// A field of a message type, or an extension of one.
pub trait FieldDescriptorLike<'p> {
    /// The pool that it stands in.
    ghost pool: { Self → PoolType };

    /// What the pool holds of it.
    ghost says: { Self → FieldType };

    /// The place of its type, and that of the oneof in it that it is a member of.
    ghost oneof: { Self → Option (ℕ × ℕ) };

    /// The number that stands in the keys of its records.
    fn number(&self) -> u32
        ensures { result ≡ (says self.now).number };

    /// What it holds; a map's is its entry type.
    fn kind(&self) -> Kind<'p>
        ensures { IsKind (pool self.now) result (says self.now).kind };

    /// Its messages are written between two tags.
    fn is_group(&self) -> bool
        ensures { result ≡ (says self.now).group };

    /// It holds any number of values, and is no map.
    fn is_list(&self) -> bool
        ensures { result ≡ holds_list (pool self.now) (says self.now) };

    /// It holds values under keys.
    fn is_map(&self) -> bool
        ensures { result ≡ holds_map (pool self.now) (says self.now) };

    /// A list is written as one record.
    fn is_packed(&self) -> bool
        ensures { result ≡ (says self.now).packed };

    /// Unset differs from set to the default.
    fn supports_presence(&self) -> bool
        ensures { result ≡ (says self.now).presence };

    /// The default that its declaration gives.
    fn default(&self) -> Option<DefaultValue<'p>>
        ensures { IsDefault (pool self.now) (says self.now) result };

    /// The oneof that it is a member of. An extension is in none.
    fn containing_oneof(&self) -> Option<OneofDescriptor<'p>>
        ensures pool { IfSome result (λ o. o.message.pool.now ≡ pool self.now) }
        ensures place { option_map (λ o. (o.message.index, o.index)) result ≡ oneof self.now };
}

impl<'p> FieldDescriptorLike<'p> for FieldDescriptor<'p> {
    ghost use Rattle.reflect_pool.specs.FieldsLeft.{field_type};
    ghost use Rattle.reflect_scalar.specs.FieldTypes.{field_oneof, field_pool};

    ghost pool = { field_pool };

    ghost says = { field_type };

    ghost oneof = { field_oneof };

    fn number(&self) -> u32 {
        FieldDescriptor::number(self)
    }

    fn kind(&self) -> Kind<'p> {
        FieldDescriptor::kind(self)
    }

    fn is_group(&self) -> bool {
        FieldDescriptor::is_group(self)
    }

    fn is_list(&self) -> bool {
        FieldDescriptor::is_list(self)
    }

    fn is_map(&self) -> bool {
        FieldDescriptor::is_map(self)
    }

    fn is_packed(&self) -> bool {
        FieldDescriptor::is_packed(self)
    }

    fn supports_presence(&self) -> bool {
        FieldDescriptor::supports_presence(self)
    }

    fn default(&self) -> Option<DefaultValue<'p>> {
        FieldDescriptor::default(self)
    }

    fn containing_oneof(&self) -> Option<OneofDescriptor<'p>> {
        FieldDescriptor::containing_oneof(self)
    }
}

impl<'p> FieldDescriptorLike<'p> for ExtensionDescriptor<'p> {
    ghost use Rattle.reflect_scalar.specs.FieldTypes.{extension_pool, extension_type};

    ghost pool = { extension_pool };

    ghost says = { extension_type };

    ghost oneof = { λ x. None };

    fn number(&self) -> u32 {
        ExtensionDescriptor::number(self)
    }

    fn kind(&self) -> Kind<'p> {
        ExtensionDescriptor::kind(self)
    }

    fn is_group(&self) -> bool {
        ExtensionDescriptor::is_group(self)
    }

    fn is_list(&self) -> bool {
        ExtensionDescriptor::is_list(self)
    }

    fn is_map(&self) -> bool {
        ExtensionDescriptor::is_map(self)
    }

    fn is_packed(&self) -> bool {
        ExtensionDescriptor::is_packed(self)
    }

    fn supports_presence(&self) -> bool {
        ExtensionDescriptor::supports_presence(self)
    }

    fn default(&self) -> Option<DefaultValue<'p>> {
        ExtensionDescriptor::default(self)
    }

    fn containing_oneof(&self) -> Option<OneofDescriptor<'p>> {
        None
    }
}

/// A field or an extension, where either may stand.
#[derive(Clone, Copy)]
pub enum AnyField<'p> {
    Field(FieldDescriptor<'p>),
    Extension(ExtensionDescriptor<'p>),
}

impl<'p> FieldDescriptorLike<'p> for AnyField<'p> {
    ghost use Rattle.reflect_scalar.specs.FieldTypes.{either_oneof, either_pool, either_type};

    ghost pool = { either_pool };

    ghost says = { either_type };

    ghost oneof = { either_oneof };

    fn number(&self) -> u32 {
        match self {
            AnyField::Field(field) => field.number(),
            AnyField::Extension(extension) => extension.number(),
        }
    }

    fn kind(&self) -> Kind<'p> {
        match self {
            AnyField::Field(field) => field.kind(),
            AnyField::Extension(extension) => extension.kind(),
        }
    }

    fn is_group(&self) -> bool {
        match self {
            AnyField::Field(field) => field.is_group(),
            AnyField::Extension(extension) => extension.is_group(),
        }
    }

    fn is_list(&self) -> bool {
        match self {
            AnyField::Field(field) => field.is_list(),
            AnyField::Extension(extension) => extension.is_list(),
        }
    }

    fn is_map(&self) -> bool {
        match self {
            AnyField::Field(field) => field.is_map(),
            AnyField::Extension(extension) => extension.is_map(),
        }
    }

    fn is_packed(&self) -> bool {
        match self {
            AnyField::Field(field) => field.is_packed(),
            AnyField::Extension(extension) => extension.is_packed(),
        }
    }

    fn supports_presence(&self) -> bool {
        match self {
            AnyField::Field(field) => field.supports_presence(),
            AnyField::Extension(extension) => extension.supports_presence(),
        }
    }

    fn default(&self) -> Option<DefaultValue<'p>> {
        match self {
            AnyField::Field(field) => field.default(),
            AnyField::Extension(extension) => extension.default(),
        }
    }

    fn containing_oneof(&self) -> Option<OneofDescriptor<'p>> {
        match self {
            AnyField::Field(field) => field.containing_oneof(),
            AnyField::Extension(_) => None,
        }
    }
}

fn is_float(kind: &Kind<'_>) -> bool
    ensures { result ≡ is_float_kind kind.now }
{
    matches!(kind, Kind::Float | Kind::Double)
}

/// Its values, or those of its map, are floating-point numbers. Messages do not hold such fields:
/// their records are kept unread.
pub fn holds_floats<'p, F: FieldDescriptorLike<'p>>(field: &F) -> bool
    ensures { IsTrue result ↔ HoldsFloats (F.pool field.now) (F.says field.now) }
{
    match field.kind() {
        Kind::Message(entry) if field.is_map() => match entry.get_field(2) {
            Some(value) => is_float(&value.kind()),
            None => false,
        },
        kind => is_float(&kind),
    }
}
