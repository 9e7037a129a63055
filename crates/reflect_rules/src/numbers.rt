//! The rules of the numbers of fields and extensions (protobuf.dev, "Assigning Field Numbers").

ghost use Rattle.std.specs.Prelude.{◌≡◌, OnOk, IfOk, map, pos};
ghost use Rattle.reflect_declarations.specs.Tree.{parts_of};
ghost use Rattle.reflect_faults.specs.Faults.{Adds, place_at, duplicate_number};
ghost use Rattle.reflect_rules.specs.Numbers.{is_field_number as may_number, number_faults, reserved_faults, kept_faults, outside_faults, oneof_faults};
ghost use Rattle.reflect_rules.specs.Repeats.{repeat_faults};

use crate::repeats::{Numbered, list_repeats};
use descriptor_records::{DescriptorProto, FieldDescriptorProto, MAX_FIELD_NUMBER, tag};
use reflect_faults::{DescriptorErrorKind, Faults};
use reflect_names::is_index;
use reflect_scope::FileIndex;
use reflect_walk::VisitError;
use std::alloc::{AllocError, Global};

/// A field may have the number: one from 1 to the highest that is not kept for protobuf's own use.
fn is_field_number(number: i32) -> bool
    ensures { result ≡ may_number number }
{
    match number {
        19_000..=19_999 => false,
        1..=MAX_FIELD_NUMBER => true,
        _ => false,
    }
}

/// Lists a number that no field may have.
pub fn check_number(
    alloc: Global,
    faults: &mut Faults<'_>,
    file: FileIndex,
    path: &[i32],
    number: i32,
) -> Result<(), AllocError>
    ensures { OnOk result (Adds faults.old faults.new
        (number_faults (place_at faults.old file) path.now number)) }
{
    if is_field_number(number) {
        return Ok(());
    }
    let found = faults.label_at(alloc, file, path, tag::field::NUMBER)?;
    faults.push(DescriptorErrorKind::InvalidFieldNumber { number, found })
}

/// Lists a number that the message type reserves, by the reserved range that has it.
pub fn check_reserved(
    alloc: Global,
    faults: &mut Faults<'_>,
    file: FileIndex,
    path: &[i32],
    number: i32,
    reserved: Option<(i32, i32)>,
) -> Result<(), AllocError>
    ensures { OnOk result (Adds faults.old faults.new
        (reserved_faults (place_at faults.old file) path.now number reserved)) }
{
    let Some((start, end)) = reserved else {
        return Ok(());
    };
    let found = faults.label_at(alloc, file, path, tag::field::NUMBER)?;
    faults.push(DescriptorErrorKind::NumberInReservedRange {
        number,
        start,
        end,
        found,
    })
}

/// Lists a field's number that its message type keeps for extensions, by the range that has it.
pub fn check_not_extension(
    alloc: Global,
    faults: &mut Faults<'_>,
    file: FileIndex,
    path: &[i32],
    number: i32,
    kept: Option<(i32, i32)>,
) -> Result<(), AllocError>
    ensures { OnOk result (Adds faults.old faults.new
        (kept_faults (place_at faults.old file) path.now number kept)) }
{
    let Some((start, end)) = kept else {
        return Ok(());
    };
    let found = faults.label_at(alloc, file, path, tag::field::NUMBER)?;
    faults.push(DescriptorErrorKind::NumberInExtensionRange {
        number,
        start,
        end,
        found,
    })
}

/// Lists an extension's number that the extended message type does not keep for extensions: no
/// range has it.
pub fn check_extension(
    alloc: Global,
    faults: &mut Faults<'_>,
    file: FileIndex,
    path: &[i32],
    number: i32,
    kept: Option<(i32, i32)>,
    message: &str,
) -> Result<(), AllocError>
    ensures { OnOk result (Adds faults.old faults.new
        (outside_faults (place_at faults.old file) path.now number message.now kept)) }
{
    if kept.is_some() {
        return Ok(());
    }
    let found = faults.label_at(alloc, file, path, tag::field::NUMBER)?;
    let message = String::from_str(alloc, message)?;
    faults.push(DescriptorErrorKind::ExtensionNumberOutOfRange {
        number,
        message,
        found,
    })
}

/// The numbers of fields, None where one has none.
fn field_numbers(
    alloc: Global,
    fields: &[FieldDescriptorProto],
) -> Result<Vec<Option<i32>>, AllocError>
    ensures { IfOk result (λ numbers. numbers.items ≡ map (λ x. x.number) fields.now) }
{
    let mut numbers = Vec::with_capacity(alloc, fields.len())?;
    'turns: for field in fields {
        numbers.push(field.number)?;
    }
    Ok(numbers)
}

/// Lists each number of a message's field that an earlier field has. `TooMany` is a field's place
/// past `i32::MAX`.
pub fn check_distinct(
    alloc: Global,
    faults: &mut Faults<'_>,
    file: FileIndex,
    path: &[i32],
    message: &DescriptorProto,
) -> Result<(), VisitError>
    ensures { OnOk result (Adds faults.old faults.new
        (repeat_faults duplicate_number (pos 2) (pos 3) path.now (place_at faults.old file)
        (map (λ f. f.number) (parts_of message.now).field))) }
{
    let numbers = field_numbers(alloc, message.field.as_slice())?;
    list_repeats(
        alloc,
        faults,
        file,
        path,
        Numbered::Fields,
        numbers.as_slice(),
    )
}

/// Lists a field's oneof that its message, which has so many of them, does not have.
pub fn check_oneof(
    alloc: Global,
    faults: &mut Faults<'_>,
    file: FileIndex,
    path: &[i32],
    field: &FieldDescriptorProto,
    oneofs: usize,
) -> Result<(), AllocError>
    ensures { OnOk result (Adds faults.old faults.new
        (oneof_faults (place_at faults.old file) path.now oneofs field.now.oneof_index)) }
{
    let Some(index) = field.oneof_index else {
        return Ok(());
    };
    if is_index(index, oneofs) {
        return Ok(());
    }
    let found = faults.label_at(alloc, file, path, tag::field::ONEOF_INDEX)?;
    faults.push(DescriptorErrorKind::InvalidOneofIndex { index, found })
}
