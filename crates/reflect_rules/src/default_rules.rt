//! The rules of fields' defaults.

ghost use Rattle.std.specs.Prelude.{OnOk};
ghost use Rattle.reflect_faults.specs.Faults.{Adds, place_at};
ghost use Rattle.reflect_defaults.specs.Defaults.{IsScalarSuited};
ghost use Rattle.reflect_rules.specs.Rules.{IsSuited, IsDefaultOf, default_faults};

use crate::types::Types;
use descriptor_records::{FieldDescriptorProto, FieldType, tag};
use reflect_defaults::read_default;
use reflect_faults::{DescriptorErrorKind, Faults};
use reflect_scope::{DefinitionKind, FileIndex};
use std::alloc::{AllocError, Global};

/// The text is a default of the scalar type that has the number.
fn suits_scalar(number: Option<i32>, text: &str) -> bool
    ensures { IsScalarSuited number text.now result }
{
    let Some(number) = number else {
        return false;
    };
    match FieldType::from_number(number) {
        Some(field_type) => read_default(field_type, text).is_some(),
        None => false,
    }
}

/// A default suits its field: it is a value of the scalar type or the name of a value of the enum.
/// No message type has one.
fn suits<T: Types>(
    types: &T,
    field_type: Option<i32>,
    meaning: Option<DefinitionKind>,
    value: &str,
) -> bool
    ensures { IsSuited (T.values types.now) field_type meaning value.now result }
{
    match meaning {
        Some(DefinitionKind::Enum(index)) => types.has_value(index, value),
        Some(_) => false,
        None => suits_scalar(field_type, value),
    }
}

/// The field has no default, or one that suits it.
pub fn has_right_default<T: Types>(
    types: &T,
    field: &FieldDescriptorProto,
    meaning: Option<DefinitionKind>,
) -> bool
    ensures { IsDefaultOf (T.values types.now) field.now.field_type meaning
        field.now.default_value result }
{
    match &field.default_value {
        Some(value) => suits(types, field.field_type, meaning, value.as_str()),
        None => true,
    }
}

/// Lists a default that does not suit its field.
pub fn check_default(
    alloc: Global,
    faults: &mut Faults<'_>,
    file: FileIndex,
    path: &[i32],
    field: &FieldDescriptorProto,
    suits: bool,
) -> Result<(), AllocError>
    ensures { OnOk result (Adds faults.old faults.new
        (default_faults (place_at faults.old file) path.now field.now.default_value suits)) }
{
    let Some(value) = &field.default_value else {
        return Ok(());
    };
    if suits {
        return Ok(());
    }
    let found = faults.label_at(alloc, file, path, tag::field::DEFAULT_VALUE)?;
    let value = String::from_str(alloc, value.as_str())?;
    faults.push(DescriptorErrorKind::InvalidFieldDefault { value, found })
}
