//! The rules of enums (protobuf.dev, "Enumerations").

ghost use Rattle.std.specs.Prelude.{◌≡◌, OnOk, IfOk, map};
ghost use Rattle.reflect_faults.specs.Faults.{Adds, place_at};
ghost use Rattle.reflect_rules.specs.EnumRules.{allows_aliases as may_alias, alias_faults, first_faults, enum_faults};

use crate::repeats::{Numbered, list_repeats};
use descriptor_records::{EnumDescriptorProto, EnumValueDescriptorProto, tag};
use reflect_faults::{DescriptorErrorKind, Faults};
use reflect_scope::FileIndex;
use reflect_walk::VisitError;
use std::alloc::{AllocError, Global};

/// Two values of the enum may have one number.
fn allows_aliases(enumeration: &EnumDescriptorProto) -> bool
    ensures { result ≡ may_alias enumeration.now.options }
{
    match &enumeration.options {
        Some(options) => options.allow_alias.unwrap_or(false),
        None => false,
    }
}

/// The numbers of values, None where one has none.
fn value_numbers(
    alloc: Global,
    values: &[EnumValueDescriptorProto],
) -> Result<Vec<Option<i32>>, AllocError>
    ensures { IfOk result (λ numbers. numbers.items ≡ map (λ x. x.number) values.now) }
{
    let mut numbers = Vec::with_capacity(alloc, values.len())?;
    'turns: for value in values {
        numbers.push(value.number)?;
    }
    Ok(numbers)
}

/// Lists each value's number that an earlier value has, where that is not allowed.
fn check_values(
    alloc: Global,
    faults: &mut Faults<'_>,
    file: FileIndex,
    path: &[i32],
    enumeration: &EnumDescriptorProto,
) -> Result<(), VisitError>
    ensures { OnOk result (Adds faults.old faults.new
        (alias_faults (place_at faults.old file) path.now enumeration.now)) }
{
    if allows_aliases(enumeration) {
        return Ok(());
    }
    let numbers = value_numbers(alloc, enumeration.value.as_slice())?;
    list_repeats(
        alloc,
        faults,
        file,
        path,
        Numbered::EnumValues,
        numbers.as_slice(),
    )
}

/// Lists the first value of a proto3 enum that is not 0.
fn check_first(
    alloc: Global,
    faults: &mut Faults<'_>,
    file: FileIndex,
    path: &[i32],
    number: Option<i32>,
    is_proto3: bool,
) -> Result<(), VisitError>
    ensures { OnOk result (Adds faults.old faults.new
        (first_faults (place_at faults.old file) path.now is_proto3 number)) }
{
    if is_proto3 && number != Some(0) {
        let (list, field) = (tag::enumeration::VALUE, tag::enum_value::NUMBER);
        let found = faults.entry_label(alloc, file, path, list, 0, field)?;
        faults.push(DescriptorErrorKind::InvalidProto3EnumDefault { found })?;
    }
    Ok(())
}

/// Lists what is wrong with an enum: that it has no value, that two of its values have one number
/// without its leave, and in proto3 that the first value's number is not zero. `TooMany` is a
/// value's place past `i32::MAX`.
pub fn check_enum(
    alloc: Global,
    faults: &mut Faults<'_>,
    file: FileIndex,
    path: &[i32],
    enumeration: &EnumDescriptorProto,
    is_proto3: bool,
) -> Result<(), VisitError>
    ensures { OnOk result (Adds faults.old faults.new
        (enum_faults (place_at faults.old file) path.now is_proto3 enumeration.now)) }
{
    let Some(first) = enumeration.value.first() else {
        let found = faults.label(alloc, file, path)?;
        faults.push(DescriptorErrorKind::EmptyEnum { found })?;
        return Ok(());
    };
    check_first(alloc, faults, file, path, first.number, is_proto3)?;
    check_values(alloc, faults, file, path, enumeration)?;
    Ok(())
}
