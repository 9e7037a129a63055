//! Which values suit which fields.

ghost use Rattle.std.specs.Bool.{Decides};
ghost use Rattle.std.specs.List.{list_all};
ghost use Rattle.std.specs.Prelude.{◌≡◌, map};
ghost use Rattle.reflect_tables.specs.Types.{KindType, PoolType};
ghost use Rattle.reflect_pool.specs.Kinds.{IsKind};
ghost use Rattle.reflect_scalar.specs.FieldTypes.{either_pool, either_type};
ghost use Rattle.reflect_numbered.specs.Fits.{all_fit, entries_fit, extension_fits, field_fits, fit_of, fits_of, suits_type, IsValidFor};

use reflect_message::{
    DynamicMessage, Held, MessageParts, Parts, ScalarValue, Value, declared_extension,
    declared_field, entry_fields,
};
use reflect_pool::{Kind, MessageDescriptor};
use reflect_scalar::{AnyField, FieldDescriptorLike, MapKey, holds_floats};
use std::collections::BTreeMap;

/// The value suits a field or an extension, its label included. None suits one that messages do not
/// hold.
pub fn is_valid_for<'p>(value: &Value<'p>, field: AnyField<'p>) -> bool
    ensures { Decides result
        (IsValidFor (either_pool field.entry) (either_type field.entry) value.now) }
{
    !holds_floats(&field) && content_suits(value, field, Strictness::Surface)
}

/// How much a value must suit its field.
#[derive(Clone, Copy)]
pub enum Strictness {
    /// A message is of its field's type, whatever it holds.
    Surface,
    /// At every depth each content has the case of its field's kind and label.
    Shape,
    /// And each message is of its field's type.
    Types,
}

/// One value suits the kind, and what a message holds suits its own type as far as that is asked.
#[cycle(suits)]
pub fn value_suits<'p>(value: &Value<'p>, kind: &Kind<'p>, strictness: Strictness) -> bool
    ensures { (pool : PoolType) (k : KindType) → IsKind pool kind.now k
        → result ≡ (fit_of value.now).one strictness pool k }
{
    match (value, kind) {
        (Value::Message(message), Kind::Message(wanted)) => match strictness {
            Strictness::Surface => message.descriptor().is_same(wanted),
            Strictness::Shape => message_suits(message, strictness),
            Strictness::Types => {
                message.descriptor().is_same(wanted) && message_suits(message, strictness)
            }
        },
        _ => match value.as_scalar() {
            Some(scalar) => scalar.is_valid(kind),
            None => false,
        },
    }
}

/// Each value of a list suits the kind.
#[cycle(suits)]
fn list_suits<'p>(values: &[Value<'p>], kind: &Kind<'p>, strictness: Strictness) -> bool
    ensures { (pool : PoolType) (k : KindType) → IsKind pool kind.now k
        → result ≡ all_fit strictness pool k (map fit_of values.now) }
{
    'values: for value in values {
        if !value_suits(value, kind, strictness) {
            return false;
        }
    }
    true
}

/// Each key and each value of a map suits its entry type.
#[cycle(suits)]
fn map_suits<'p>(
    entries: &BTreeMap<MapKey, Value<'p>>,
    kind: &Kind<'p>,
    strictness: Strictness,
) -> bool
    ensures { (pool : PoolType) (k : KindType) → IsKind pool kind.now k
        → result ≡ entries_fit strictness pool k
        (map (λ e. (e.0, fit_of e.1)) entries.now.entries) }
{
    let Some((keys, values)) = entry_fields(kind) else {
        return false;
    };
    let (key_kind, value_kind) = (keys.kind(), values.kind());
    'entries: for (key, value) in entries.iter() {
        if !key.is_valid(&key_kind) || !value_suits(value, &value_kind, strictness) {
            return false;
        }
    }
    true
}

/// What a field or an extension holds suits it, its label included.
#[cycle(suits)]
pub fn content_suits<'p>(value: &Value<'p>, field: AnyField<'p>, strictness: Strictness) -> bool
    ensures { result ≡ (fit_of value.now).whole strictness (either_pool field.entry)
        (either_type field.entry) }
{
    match value {
        Value::List(values) => {
            field.is_list() && list_suits(values.as_slice(), &field.kind(), strictness)
        }
        Value::Map(entries) => field.is_map() && map_suits(entries, &field.kind(), strictness),
        _ => !field.is_list() && !field.is_map() && value_suits(value, &field.kind(), strictness),
    }
}

/// What the declared fields hold suits them.
#[cycle(suits)]
fn fields_suit<'p>(
    parts: &Parts<'p>,
    descriptor: MessageDescriptor<'p>,
    strictness: Strictness,
) -> bool
    ensures { result ≡ list_all
        (field_fits strictness descriptor.entry.pool.now descriptor.entry.index)
        (fits_of parts.now.fields) }
{
    'fields: for (number, value) in parts.fields.numbers().iter().zip(parts.fields.values()) {
        let Some(field) = declared_field(descriptor, *number) else {
            return false;
        };
        if !content_suits(value, AnyField::Field(field), strictness) {
            return false;
        }
    }
    true
}

/// What the extensions hold suits them.
#[cycle(suits)]
fn extensions_suit<'p>(
    parts: &Parts<'p>,
    descriptor: MessageDescriptor<'p>,
    strictness: Strictness,
) -> bool
    ensures { result ≡ list_all
        (extension_fits strictness descriptor.entry.pool.now descriptor.entry.index)
        (fits_of parts.now.extensions) }
{
    'extensions: for (number, value) in parts
        .extensions
        .numbers()
        .iter()
        .zip(parts.extensions.values())
    {
        let Some(extension) = declared_extension(descriptor, *number) else {
            return false;
        };
        if !content_suits(value, AnyField::Extension(extension), strictness) {
            return false;
        }
    }
    true
}

/// What the message holds suits its type.
#[cycle(suits)]
fn message_suits(message: &DynamicMessage<'_>, strictness: Strictness) -> bool
    ensures { result ≡ suits_type strictness message.now }
{
    let descriptor = message.descriptor();
    match message.held() {
        Held::Block(parts) => {
            fields_suit(parts, descriptor, strictness)
                && extensions_suit(parts, descriptor, strictness)
        }
        Held::Nothing => true,
    }
}

/// A message that is asked whether what it holds suits its type.
pub trait MessageTests {
    ghost use Rattle.reflect_message.specs.Names.{DynamicMessage};
    ghost use Rattle.reflect_numbered.specs.declared.validity.Strictness.TheVariants.{Shape, Types};

    /// The message that it is.
    ghost message: { Self → DynamicMessage };

    /// At every depth each content has the case that its field's kind and label ask for, and so has
    /// each key of a map. Takes no memory.
    fn is_encodable(&self) -> bool
        ensures { result ≡ suits_type Shape (message self.now) };

    /// The message is encodable, and at every depth each message is of its field's type. Takes no
    /// memory.
    fn is_typed(&self) -> bool
        ensures { result ≡ suits_type Types (message self.now) };
}

impl MessageTests for DynamicMessage<'_> {
    ghost message = { λ m. m };

    fn is_encodable(&self) -> bool {
        message_suits(self, Strictness::Shape)
    }

    fn is_typed(&self) -> bool {
        message_suits(self, Strictness::Types)
    }
}
