//! Defaults: what stands for a field that is not set.

ghost use Rattle.std.specs.Prelude.{◌≡◌, ◌||◌, not, true, None, Some, IsTrue, IfOk, option_map};
ghost use Rattle.reflect_pool.specs.FieldsLeft.{field_type};
ghost use Rattle.reflect_scalar.specs.Defaults.{default_in};
ghost use Rattle.reflect_scalar.specs.FieldTypes.{extension_pool, extension_type, field_pool};
ghost use Rattle.reflect_scalar.specs.Singles.{scalar_view};
ghost use Rattle.reflect_message.specs.Bytes.{form_of, is_default, is_set};
ghost use Rattle.reflect_message.specs.Defaults.{IsDefault, IsKindDefault};
ghost use Rattle.reflect_message.specs.Messages.{IsStart, message_in};
ghost use Rattle.reflect_message.specs.Names.{DynamicMessage};
ghost use Rattle.reflect_message.specs.KindTypes.{IsScalarType, IsMessageType};
ghost use Rattle.reflect_message.specs.Singles.{single};

use crate::message::DynamicMessage;
use crate::scalar_value::ScalarValue;
use crate::value::Value;
use reflect_pool::{ExtensionDescriptor, FieldDescriptor, Kind};
use reflect_scalar::{FieldDescriptorLike, Scalar, default_scalar};
use std::alloc::{AllocError, Global};
use std::collections::BTreeMap;

/// What one value of a field or an extension is where none is set: an empty message, else what its
/// declaration or its kind says.
pub fn default_one<'p, F: FieldDescriptorLike<'p>>(
    alloc: Global,
    field: &F,
) -> Result<Value<'p>, AllocError>
    ensures scalar { IfOk result (λ v. IsScalarType (F.says field.now).kind → single v
        ≡ default_in (F.pool field.now) (F.says field.now)) }
    ensures message { IfOk result (λ v. IsMessageType (F.says field.now).kind → (m : DynamicMessage)
        × (message_in v ≡ Some m) × IsStart (F.pool field.now) (F.says field.now).kind None m) }
{
    match field.kind() {
        Kind::Message(inner) => Ok(Value::Message(DynamicMessage::new(alloc, inner))),
        kind => match default_scalar(field) {
            Some(scalar) => Value::from_scalar(alloc, scalar),
            None => Ok(Value::default_value(alloc, &kind)),
        },
    }
}

/// The default of a field or an extension: empty of a list, a map or a message, else what its
/// declaration or its kind says.
pub fn default_of<'p, F: FieldDescriptorLike<'p>>(
    alloc: Global,
    field: &F,
) -> Result<Value<'p>, AllocError>
    ensures { IfOk result (IsDefault (F.pool field.now) (F.says field.now)) }
{
    if field.is_map() {
        return Ok(Value::Map(BTreeMap::new(alloc)));
    }
    if field.is_list() {
        return Ok(Value::List(Vec::new(alloc)));
    }
    default_one(alloc, field)
}

/// A single value is the default of a field or an extension.
pub fn is_default_scalar<'p, F: FieldDescriptorLike<'p>>(
    value: Option<Scalar<'_>>,
    field: &F,
) -> bool
    ensures { result ≡ is_default (F.pool field.now) (F.says field.now)
        (option_map scalar_view value.entry) }
{
    match (value, default_scalar(field)) {
        (Some(value), Some(default)) => value == default,
        _ => false,
    }
}

/// A field or an extension that holds the single value is set: it has presence, or the value is not
/// its default.
pub fn is_present_scalar<'p, F: FieldDescriptorLike<'p>>(value: Scalar<'_>, field: &F) -> bool
    ensures { result ≡ ((F.says field.now).presence
        || not (is_default (F.pool field.now) (F.says field.now)
        (Some (scalar_view value.entry)))) }
{
    field.supports_presence() || !is_default_scalar(Some(value), field)
}

/// A field or an extension that holds the value is set: it has presence, or the value is not its
/// default. A message always is content.
pub fn is_present<'p, F: FieldDescriptorLike<'p>>(value: &Value<'p>, field: &F) -> bool
    ensures presence { (F.says field.now).presence ≡ true → IsTrue result }
    ensures set { result ≡ is_set (F.pool field.now) (F.says field.now) (form_of value.now) }
{
    field.supports_presence()
        || match value {
            Value::Message(_) => true,
            Value::List(values) => !values.is_empty(),
            Value::Map(entries) => !entries.is_empty(),
            _ => !is_default_scalar(value.as_scalar(), field),
        }
}

impl<'p> Value<'p> {
    /// The default of a field that holds one value of the kind: zero, false or empty, of an enum
    /// its first value. Takes no memory.
    ///
    /// Messages hold no floating-point numbers; of these kinds it is the bits of zero.
    pub fn default_value(alloc: Global, kind: &Kind<'p>) -> Value<'p>
        ensures { IsKindDefault kind.now result }
    {
        if let Kind::Message(descriptor) = kind {
            return Value::Message(DynamicMessage::new(alloc, *descriptor));
        }
        match Scalar::default_value(kind) {
            Some(Scalar::Bool(truth)) => Value::Bool(truth),
            Some(Scalar::I32(n)) => Value::I32(n),
            Some(Scalar::I64(n)) => Value::I64(n),
            Some(Scalar::U32(n)) => Value::U32(n),
            Some(Scalar::U64(n)) => Value::U64(n),
            Some(Scalar::EnumNumber(n)) => Value::EnumNumber(n),
            Some(Scalar::Bytes(_)) => Value::Bytes(Vec::new(alloc)),
            Some(Scalar::String(_)) | None => Value::String(String::new(alloc)),
        }
    }

    /// The default of the field: empty of a list or a map, else what its declaration or its kind
    /// says.
    pub fn default_value_for_field(
        alloc: Global,
        field: &FieldDescriptor<'p>,
    ) -> Result<Value<'p>, AllocError>
        ensures { IfOk result (IsDefault (field_pool field.now) (field_type field.now)) }
    {
        default_of(alloc, field)
    }

    /// The default of the extension, as that of a field.
    pub fn default_value_for_extension(
        alloc: Global,
        extension: &ExtensionDescriptor<'p>,
    ) -> Result<Value<'p>, AllocError>
        ensures { IfOk result (IsDefault (extension_pool extension.now)
            (extension_type extension.now)) }
    {
        default_of(alloc, extension)
    }
}
