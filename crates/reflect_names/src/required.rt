ghost use Rattle.std.specs.Prelude.{◌≡◌, OnOk, Some, is_some};
ghost use Rattle.reflect_declarations.specs.Tree.{parts_of};
ghost use Rattle.reflect_declarations.specs.Declarations.{each};
ghost use Rattle.reflect_faults.specs.Faults.{Adds, place_at};
ghost use Rattle.reflect_names.specs.Names.{lacks, is_named_type as names_a_type, field_faults, method_faults, bound_faults, extension_range_faults, reserved_range_faults, enum_range_faults};
ghost use Rattle.std.specs.Prelude.{◌++◌};

use descriptor_records::{
    DescriptorProto, EnumReservedRange, ExtensionRange, FieldDescriptorProto, FieldType,
    MethodDescriptorProto, ReservedRange, tag,
};
use reflect_faults::{DescriptorErrorKind, Faults};
use reflect_scope::FileIndex;
use reflect_walk::{VisitError, entry_path};
use std::alloc::{AllocError, Global};

/// What a record lacks is a fault at the place where it would be.
pub fn require(
    alloc: Global,
    faults: &mut Faults<'_>,
    file: FileIndex,
    path: &[i32],
    tag: i32,
    field: &'static str,
    is_present: bool,
) -> Result<(), AllocError>
    ensures { OnOk result (Adds faults.old faults.new
        (lacks (place_at faults.old file) path.now tag field.now is_present)) }
{
    if is_present {
        return Ok(());
    }
    let found = faults.label_at(alloc, file, path, tag)?;
    faults.push(DescriptorErrorKind::MissingRequiredField { field, found })
}

/// Whether the number stands for a type that has a name of its own: a group, a message or an enum.
fn is_named_type(field_type: Option<i32>) -> bool
    ensures { result ≡ names_a_type field_type }
{
    match field_type {
        Some(field_type) => {
            field_type == FieldType::Group.number()
                || field_type == FieldType::Message.number()
                || field_type == FieldType::Enum.number()
        }
        None => false,
    }
}

/// A field, or an extension: a number, and a type or the name of one. A message, group or enum type
/// needs the name.
pub fn require_of_field(
    alloc: Global,
    faults: &mut Faults<'_>,
    file: FileIndex,
    path: &[i32],
    field: &FieldDescriptorProto,
) -> Result<(), AllocError>
    ensures { OnOk result (Adds faults.old faults.new
        (field_faults (place_at faults.old file) path.now field.now)) }
{
    let number = field.number.is_some();
    require(
        alloc,
        faults,
        file,
        path,
        tag::field::NUMBER,
        "number",
        number,
    )?;
    let named = field.type_name.is_some();
    let typed = named || field.field_type.is_some();
    require(alloc, faults, file, path, tag::field::TYPE, "type", typed)?;
    let complete = named || !is_named_type(field.field_type);
    require(
        alloc,
        faults,
        file,
        path,
        tag::field::TYPE_NAME,
        "type_name",
        complete,
    )
}

/// A method: its input and its output.
pub fn require_of_method(
    alloc: Global,
    faults: &mut Faults<'_>,
    file: FileIndex,
    path: &[i32],
    method: &MethodDescriptorProto,
) -> Result<(), AllocError>
    ensures { OnOk result (Adds faults.old faults.new
        (method_faults (place_at faults.old file) path.now method.now)) }
{
    let input = method.input_type.is_some();
    require(
        alloc,
        faults,
        file,
        path,
        tag::method::INPUT_TYPE,
        "input_type",
        input,
    )?;
    let output = method.output_type.is_some();
    require(
        alloc,
        faults,
        file,
        path,
        tag::method::OUTPUT_TYPE,
        "output_type",
        output,
    )
}

/// A range's bounds, both; its own path is given.
fn require_bounds(
    alloc: Global,
    faults: &mut Faults<'_>,
    file: FileIndex,
    path: &[i32],
    start: Option<i32>,
    end: Option<i32>,
) -> Result<(), AllocError>
    ensures { OnOk result (Adds faults.old faults.new
        (bound_faults (place_at faults.old file) path.now start end)) }
{
    let (from, to) = (start.is_some(), end.is_some());
    require(
        alloc,
        faults,
        file,
        path,
        tag::reserved_range::START,
        "start",
        from,
    )?;
    require(
        alloc,
        faults,
        file,
        path,
        tag::reserved_range::END,
        "end",
        to,
    )
}

fn require_of_extension_ranges(
    alloc: Global,
    faults: &mut Faults<'_>,
    file: FileIndex,
    path: &[i32],
    ranges: &Vec<ExtensionRange>,
) -> Result<(), VisitError>
    ensures { OnOk result (Adds faults.old faults.new
        (each (extension_range_faults (place_at faults.old file) path.now) 0 ranges.now.items)) }
{
    'turns: for (at, range) in ranges.iter().enumerate() {
        let place = entry_path(alloc, path, tag::message::EXTENSION_RANGE, at)?;
        require_bounds(
            alloc,
            faults,
            file,
            place.as_slice(),
            range.start,
            range.end,
        )?;
    }
    Ok(())
}

fn require_of_reserved_ranges(
    alloc: Global,
    faults: &mut Faults<'_>,
    file: FileIndex,
    path: &[i32],
    ranges: &Vec<ReservedRange>,
) -> Result<(), VisitError>
    ensures { OnOk result (Adds faults.old faults.new
        (each (reserved_range_faults (place_at faults.old file) path.now) 0 ranges.now.items)) }
{
    'turns: for (at, range) in ranges.iter().enumerate() {
        let place = entry_path(alloc, path, tag::message::RESERVED_RANGE, at)?;
        require_bounds(
            alloc,
            faults,
            file,
            place.as_slice(),
            range.start,
            range.end,
        )?;
    }
    Ok(())
}

/// The extension ranges and the reserved ranges of a message.
pub fn require_of_message(
    alloc: Global,
    faults: &mut Faults<'_>,
    file: FileIndex,
    path: &[i32],
    message: &DescriptorProto,
) -> Result<(), VisitError>
    ensures { OnOk result (Adds faults.old faults.new
        (each (extension_range_faults (place_at faults.old file) path.now) 0
        (parts_of message.now).extension_range
        ++ each (reserved_range_faults (place_at faults.old file) path.now) 0
        (parts_of message.now).reserved_range)) }
{
    require_of_extension_ranges(alloc, faults, file, path, &message.extension_range)?;
    require_of_reserved_ranges(alloc, faults, file, path, &message.reserved_range)?;
    Ok(())
}

/// The reserved ranges of an enum.
pub fn require_of_enum(
    alloc: Global,
    faults: &mut Faults<'_>,
    file: FileIndex,
    path: &[i32],
    ranges: &Vec<EnumReservedRange>,
) -> Result<(), VisitError>
    ensures { OnOk result (Adds faults.old faults.new
        (each (enum_range_faults (place_at faults.old file) path.now) 0 ranges.now.items)) }
{
    'turns: for (at, range) in ranges.iter().enumerate() {
        let place = entry_path(alloc, path, tag::enumeration::RESERVED_RANGE, at)?;
        require_bounds(
            alloc,
            faults,
            file,
            place.as_slice(),
            range.start,
            range.end,
        )?;
    }
    Ok(())
}
