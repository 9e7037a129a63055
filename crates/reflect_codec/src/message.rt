//! Message types and their ranges. A message type holds others, so functions that call one another
//! read and write it, in place of the traits for records.
ghost use Rattle.std.specs.Prelude.{◌≡◌, ◌++◌, OnOk, unsigned_abs};
ghost use Rattle.std.specs.List.{AllZip};
ghost use Rattle.descriptor_records.specs.declared.message.DescriptorProto.TheViews.{out-DescriptorProto};
ghost use Rattle.reflect_codec.specs.Fields.{records_field};
ghost use Rattle.reflect_codec.specs.Held.{held};
ghost use Rattle.reflect_codec.specs.Written.{extension_range_bytes, reserved_range_bytes, message_bytes};
ghost use Rattle.reflect_codec.specs.Raw.{fields_view, value_view};
ghost use Rattle.reflect_codec.specs.Reading.{ReadsMeant, values_at};
ghost use Rattle.reflect_codec.specs.Faults.{OneOf, MessageFault, InLevel, InExtensionRange, InRange};
ghost use Rattle.reflect_codec.specs.Meaning.{IsExtensionRange, IsLevel, IsMessage, IsReservedRange};

use crate::backward::{Backward, WriteRecord};
use crate::fields::{Fields, RawValue, ReadRecord};
use crate::options::OptionsOf;
use descriptor_records::{DescriptorProto, ExtensionRange, ReservedRange, tag};
use reflect_wire::WireError;
use std::alloc::{AllocError, Global};

/// The message types of a list.
#[cycle(read)]
pub fn message_types(
    alloc: Global,
    fields: &Fields<'_>,
    number: i32,
) -> Result<Vec<DescriptorProto>, WireError>
    ensures { ReadsMeant (λ vs ms. AllZip (IsMessage fields.now.levels) vs ms.items)
        (OneOf (MessageFault fields.now.levels))
        (values_at (unsigned_abs number) (fields_view fields.now.list.items)) result }
{
    let wanted = number.unsigned_abs();
    let mut list = Vec::with_capacity(alloc, fields.count(number))?;
    for field in &fields.list {
        if field.number == wanted {
            list.push(message_type(alloc, field.value, fields.levels)?)?;
        }
    }
    Ok(list)
}

/// A message type that a value holds, below which so many levels of records may lie.
#[cycle(read)]
fn message_type(
    alloc: Global,
    value: RawValue<'_>,
    levels: u32,
) -> Result<DescriptorProto, WireError>
    ensures { ReadsMeant (IsMessage levels) (MessageFault levels) (value_view value.entry) result }
{
    let payload = value.record(levels)?;
    let fields = Fields::read(alloc, payload, levels - 1)?;
    message_from_fields(alloc, &fields)
}

#[cycle(read)]
fn message_from_fields(alloc: Global, fields: &Fields<'_>) -> Result<DescriptorProto, WireError>
    ensures { ReadsMeant (λ fs m. IsLevel (IsMessage fields.now.levels) fields.now.levels fs
        (out-DescriptorProto m)) (InLevel (MessageFault fields.now.levels) fields.now.levels)
        (fields_view fields.now.list.items) result }
{
    Ok(DescriptorProto {
        name: fields.last(alloc, tag::message::NAME)?,
        field: fields.list(alloc, tag::message::FIELD)?,
        extension: fields.list(alloc, tag::message::EXTENSION)?,
        nested_type: message_types(alloc, fields, tag::message::NESTED_TYPE)?,
        enum_type: fields.list(alloc, tag::message::ENUM_TYPE)?,
        extension_range: fields.list(alloc, tag::message::EXTENSION_RANGE)?,
        oneof_decl: fields.list(alloc, tag::message::ONEOF_DECL)?,
        options: fields.options(alloc, tag::message::OPTIONS, OptionsOf::Message)?,
        reserved_range: fields.list(alloc, tag::message::RESERVED_RANGE)?,
        reserved_name: fields.list(alloc, tag::message::RESERVED_NAME)?,
    })
}

/// Puts the message types of a list.
#[cycle(write)]
pub fn put_message_types(
    number: i32,
    list: &[DescriptorProto],
    out: &mut Backward,
) -> Result<(), AllocError>
    ensures { OnOk result (held out.new ≡ records_field message_bytes (unsigned_abs number) list.now
        ++ held out.old) }
{
    let mut left = list;
    while let Some((last, front)) = left.split_last() {
        let end = out.len();
        put_message_type(last, out)?;
        out.put_length(number.unsigned_abs(), end)?;
        left = front;
    }
    Ok(())
}

#[cycle(write)]
fn put_message_type(message: &DescriptorProto, out: &mut Backward) -> Result<(), AllocError>
    ensures { OnOk result (held out.new ≡ message_bytes message.now ++ held out.old) }
{
    out.put_texts(tag::message::RESERVED_NAME, &message.reserved_name)?;
    out.put_records(tag::message::RESERVED_RANGE, &message.reserved_range)?;
    out.put_records(tag::message::ONEOF_DECL, &message.oneof_decl)?;
    out.put_options(tag::message::OPTIONS, &message.options)?;
    out.put_records(tag::message::EXTENSION, &message.extension)?;
    out.put_records(tag::message::EXTENSION_RANGE, &message.extension_range)?;
    out.put_records(tag::message::ENUM_TYPE, &message.enum_type)?;
    put_message_types(tag::message::NESTED_TYPE, &message.nested_type, out)?;
    out.put_records(tag::message::FIELD, &message.field)?;
    out.put_text(tag::message::NAME, &message.name)?;
    Ok(())
}

impl ReadRecord for ExtensionRange {
    ghost facts = { λ levels fs r. IsExtensionRange levels fs r };

    ghost faults = { λ levels fs e. InExtensionRange levels fs e };

    fn from_fields(alloc: Global, fields: &Fields<'_>) -> Result<ExtensionRange, WireError> {
        Ok(ExtensionRange {
            start: fields.last(alloc, tag::extension_range::START)?,
            end: fields.last(alloc, tag::extension_range::END)?,
            options: fields.options(alloc, tag::extension_range::OPTIONS, OptionsOf::Other)?,
        })
    }
}

impl WriteRecord for ExtensionRange {
    ghost bytes = { extension_range_bytes };

    fn put(&self, out: &mut Backward) -> Result<(), AllocError> {
        out.put_options(tag::extension_range::OPTIONS, &self.options)?;
        out.put_int32(tag::extension_range::END, self.end)?;
        out.put_int32(tag::extension_range::START, self.start)?;
        Ok(())
    }
}

impl ReadRecord for ReservedRange {
    ghost facts = { λ levels fs r. IsReservedRange levels fs r };

    ghost faults = { λ levels fs e. InRange levels fs e };

    fn from_fields(alloc: Global, fields: &Fields<'_>) -> Result<ReservedRange, WireError> {
        Ok(ReservedRange {
            start: fields.last(alloc, tag::reserved_range::START)?,
            end: fields.last(alloc, tag::reserved_range::END)?,
        })
    }
}

impl WriteRecord for ReservedRange {
    ghost bytes = { reserved_range_bytes };

    fn put(&self, out: &mut Backward) -> Result<(), AllocError> {
        out.put_int32(tag::reserved_range::END, self.end)?;
        out.put_int32(tag::reserved_range::START, self.start)?;
        Ok(())
    }
}
