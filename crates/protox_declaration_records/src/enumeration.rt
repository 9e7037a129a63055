//! The records of enums.

ghost use Rattle.std.specs.Prelude.{◌≡◌, ◌++◌, IfOk, OnOk, map, option_map};
ghost use Rattle.std.specs.List.{flat_map};
ghost use Rattle.descriptor_records.specs.Content.{enum_value_view, enum_view, options_view, texts_view};
ghost use Rattle.protox_declaration_records.specs.EnumRecords as enums;
ghost use Rattle.protox_declaration_records.specs.OptionRecords.{options_of};

use crate::number::{i32_of, last};
use crate::option::{declared, list_options, option_record};
use crate::texts::add_texts;
use descriptor_records::{
    EnumDescriptorProto, EnumReservedRange, EnumValueDescriptorProto, Options,
};
use protox_tree::{Enum, EnumItem, EnumValue, ReservedItems, ReservedRange};
use std::alloc::{AllocError, Global};

/// The record of an enum.
pub fn enum_record(alloc: Global, enumeration: &Enum) -> Result<EnumDescriptorProto, AllocError>
    ensures { IfOk result (λ made. enum_view made ≡ enums.enum_of enumeration.now) }
{
    Ok(EnumDescriptorProto {
        name: Some(enumeration.name.value.clone()?),
        value: values(alloc, &enumeration.items)?,
        options: options(alloc, &enumeration.items)?,
        reserved_range: reserved_ranges(alloc, &enumeration.items)?,
        reserved_name: reserved_names(alloc, &enumeration.items)?,
    })
}

fn values(alloc: Global, items: &Vec<EnumItem>) -> Result<Vec<EnumValueDescriptorProto>, AllocError>
    ensures { IfOk result (λ values. map enum_value_view values.items
        ≡ flat_map enums.value_at items.now.items) }
{
    let mut values = Vec::new(alloc);
    'each: for item in items {
        let EnumItem::Value(value) = item else {
            continue;
        };
        values.push(value_record(alloc, value)?)?;
    }
    Ok(values)
}

fn value_record(alloc: Global, value: &EnumValue) -> Result<EnumValueDescriptorProto, AllocError>
    ensures { IfOk result (λ made. enum_value_view made ≡ enums.value_of value.now) }
{
    Ok(EnumValueDescriptorProto {
        name: Some(value.name.value.clone()?),
        number: i32_of(value.number),
        options: list_options(alloc, &value.options)?,
    })
}

fn options(alloc: Global, items: &Vec<EnumItem>) -> Result<Option<Options>, AllocError>
    ensures { IfOk result (λ options. option_map options_view options
        ≡ options_of (flat_map enums.option_at items.now.items)) }
{
    let mut written = Vec::new(alloc);
    'each: for item in items {
        let EnumItem::Option(option) = item else {
            continue;
        };
        written.push(option_record(alloc, &option.body)?)?;
    }
    Ok(declared(alloc, written))
}

fn reserved_ranges(
    alloc: Global,
    items: &Vec<EnumItem>,
) -> Result<Vec<EnumReservedRange>, AllocError>
    ensures { IfOk result (λ ranges. ranges.items ≡ flat_map enums.ranges_at items.now.items) }
{
    let mut ranges = Vec::new(alloc);
    'each: for item in items {
        let EnumItem::Reserved(reserved) = item else {
            continue;
        };
        add_ranges(&reserved.items, &mut ranges)?;
    }
    Ok(ranges)
}

/// Ranges of enums end with their last number.
fn add_ranges(
    reserved: &ReservedItems,
    records: &mut Vec<EnumReservedRange>,
) -> Result<(), AllocError>
    ensures { OnOk result (records.new.items ≡ records.old.items
        ++ map enums.enum_range_of (enums.ranges_in reserved.now)) }
{
    let ReservedItems::Ranges(ranges) = reserved else {
        return Ok(());
    };
    'each: for range in ranges {
        records.push(range_record(*range))?;
    }
    Ok(())
}

fn range_record(range: ReservedRange) -> EnumReservedRange
    ensures { result ≡ enums.enum_range_of range }
{
    EnumReservedRange {
        start: i32_of(range.start),
        end: last(range, i32::MAX),
    }
}

fn reserved_names(alloc: Global, items: &Vec<EnumItem>) -> Result<Vec<String>, AllocError>
    ensures { IfOk result (λ names. texts_view names ≡ flat_map enums.names_at items.now.items) }
{
    let mut names = Vec::new(alloc);
    'each: for item in items {
        let EnumItem::Reserved(reserved) = item else {
            continue;
        };
        add_reserved_names(alloc, &reserved.items, &mut names)?;
    }
    Ok(names)
}

/// Adds the names that a statement reserves.
pub fn add_reserved_names(
    alloc: Global,
    reserved: &ReservedItems,
    names: &mut Vec<String>,
) -> Result<(), AllocError>
    ensures { OnOk result (texts_view names.new ≡ texts_view names.old
        ++ enums.names_in reserved.now) }
{
    match reserved {
        ReservedItems::Ranges(_) => Ok(()),
        ReservedItems::Names(reserved) => add_texts(alloc, reserved, names),
    }
}
