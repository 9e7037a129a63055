//! The default of a field, read from the text of its record.

ghost use Rattle.std.specs.Prelude.{IfOk};
ghost use Rattle.reflect_tables.specs.Views.{kind_of, default_of as default_view};
ghost use Rattle.reflect_fields.specs.FieldDefaults.{IsScalarDefault, IsDefault};

use descriptor_records::{FieldDescriptorProto, FieldType};
use protox_lex::unescape;
use reflect_defaults::{DefaultText, read_default};
use reflect_tables::{StoredDefault, StoredKind};
use std::alloc::{AllocError, Global};

/// The default that a text means for a scalar type, or none where it does not suit the type.
fn scalar_default(
    alloc: Global,
    field_type: FieldType,
    text: &str,
) -> Result<Option<StoredDefault>, AllocError>
    ensures { IfOk result (λ d. IsScalarDefault field_type text.now (default_view d)) }
{
    Ok(match read_default(field_type, text) {
        Some(DefaultText::I64(value)) => Some(StoredDefault::I64(value)),
        Some(DefaultText::U64(value)) => Some(StoredDefault::U64(value)),
        Some(DefaultText::Bool(value)) => Some(StoredDefault::Bool(value)),
        Some(DefaultText::Text) => Some(StoredDefault::Text(String::from_str(alloc, text)?)),
        Some(DefaultText::Bytes) => {
            Some(StoredDefault::Bytes(unescape(alloc, text.as_bytes())?))
        }
        Some(DefaultText::Float) => Some(StoredDefault::Float(String::from_str(alloc, text)?)),
        None => None,
    })
}

/// The default that a field's record gives for its kind, if it gives one that suits.
pub fn default_of(
    alloc: Global,
    kind: StoredKind,
    field: &FieldDescriptorProto,
) -> Result<Option<StoredDefault>, AllocError>
    ensures { IfOk result (λ d. IsDefault (kind_of kind) field.now (default_view d)) }
{
    let Some(text) = &field.default_value else {
        return Ok(None);
    };
    if let StoredKind::Enum(_) = kind {
        return Ok(Some(StoredDefault::Enum(text.clone()?)));
    }
    match field.field_type.and_then(FieldType::from_number) {
        Some(field_type) => scalar_default(alloc, field_type, text.as_str()),
        None => Ok(None),
    }
}
