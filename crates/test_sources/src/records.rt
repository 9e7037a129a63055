//! One record at the start of bytes, one file, and the numbers of `descriptor.proto`.

use crate::options::write_enums;
use crate::shown::write_shown;
use crate::sources::{tell_file_bytes, tell_options};
use crate::wire::tell_written;
use descriptor_records::{DescriptorProto, FieldType, FileDescriptorProto, Label, join_path};
use reflect_codec::decode_file;
use reflect_wire::{UnknownField, UnknownFieldValue, WireError, WireType};
use std::alloc::{AllocError, Global};
use test_json::{Text, Told, tell_case};

/// The bytes of a record.
fn written(alloc: Global, field: &UnknownField) -> Result<Vec<u8>, WireError> {
    let mut written = Vec::new(alloc);
    field.encode(&mut written)?;
    Ok(written)
}

/// A record: its number, its wire type, its value, its bytes and how many they are.
fn tell_field(alloc: Global, told: &mut Told<'_>, field: &UnknownField) {
    told.tell("number", field.number());
    tell_case(alloc, told, "wire_type", &field.wire_type());
    if let UnknownFieldValue::Varint(number) = field.value() {
        told.tell("varint", *number);
    }
    if let Some(len) = field.encoded_len() {
        told.tell("len", len);
    }
    tell_written(alloc, told, written(alloc, field));
}

/// Tells the first record of bytes, which stands inside so many levels, or how it is refused; and
/// what is left of the bytes.
pub fn tell_record(alloc: Global, told: &mut Told<'_>, bytes: &[u8], levels: u64) {
    let mut rest = bytes;
    let levels = u32::try_from(levels).unwrap_or(0);
    match UnknownField::decode(alloc, &mut rest, levels) {
        Ok(field) => tell_field(alloc, told, &field),
        Err(error) => tell_case(alloc, told, "wire", &error),
    }
    told.tell_bytes("rest", rest);
}

/// Tells a copy of a record.
fn tell_copy(alloc: Global, told: &mut Told<'_>, field: &UnknownField) {
    match field.clone() {
        Ok(copy) => tell_field(alloc, told, &copy),
        Err(_) => told.give_up(),
    }
}

/// Tells a copy of the record of number 3 whose value bytes begin with; and what is left of them.
pub fn tell_third_record(alloc: Global, told: &mut Told<'_>, bytes: &[u8]) {
    let mut rest = bytes;
    match UnknownField::decode_value(alloc, 3, WireType::Varint, &mut rest, 0) {
        Ok(field) => tell_copy(alloc, told, &field),
        Err(error) => tell_case(alloc, told, "wire", &error),
    }
    told.tell_bytes("rest", rest);
}

/// Tells a name that a record may have.
fn tell_name(told: &mut Told<'_>, word: &'static str, name: &Option<String>) {
    if let Some(name) = name {
        told.tell(word, name.as_str());
    }
}

/// Tells how many bytes the options of a message's first field have.
fn tell_field_options(told: &mut Told<'_>, message: &DescriptorProto) {
    if let Some(field) = message.field.first() {
        if let Some(options) = &field.options {
            told.tell("field_options", options.encoded.len());
        }
    }
}

/// Tells the bytes of a file's options, and how many those of its first field have.
fn tell_encoded(told: &mut Told<'_>, file: &FileDescriptorProto) {
    if let Some(options) = &file.options {
        told.tell_bytes("encoded", options.encoded.as_slice());
    }
    if let Some(message) = file.message_type.first() {
        tell_field_options(told, message);
    }
}

/// Tells a file's names, its options and its bytes.
fn tell_whole(alloc: Global, told: &mut Told<'_>, file: &FileDescriptorProto) {
    tell_name(told, "name", &file.name);
    tell_name(told, "package", &file.package);
    tell_name(told, "syntax", &file.syntax);
    tell_encoded(told, file);
    tell_options(alloc, told, file);
    let mut enums = Text::new(alloc);
    write_enums(&mut enums, file);
    told.tell_text("enum_options", enums);
    tell_file_bytes(alloc, told, "record", file);
}

/// The file that bytes spell.
pub fn tell_file(alloc: Global, told: &mut Told<'_>, bytes: &[u8]) {
    match decode_file(alloc, bytes) {
        Ok(file) => tell_whole(alloc, told, &file),
        Err(error) => tell_case(alloc, told, "wire", &error),
    }
}

/// Writes the numbers of labels, and which labels have them.
fn write_label_numbers(out: &mut Text) {
    for label in &[Label::Repeated, Label::Required] {
        let number = label.number();
        write_shown(out, number);
        write_shown(out, Label::from_number(number));
    }
}

/// Writes the numbers of types, and which types have them.
fn write_type_numbers(out: &mut Text) {
    for field_type in &[
        FieldType::Double,
        FieldType::Int32,
        FieldType::Group,
        FieldType::Enum,
        FieldType::Sint64,
    ] {
        let number = field_type.number();
        write_shown(out, number);
        write_shown(out, FieldType::from_number(number));
    }
}

/// Numbers of labels and types, and of none, and a path behind another.
pub fn write_numbers(alloc: Global, out: &mut Text) -> Result<(), AllocError> {
    write_label_numbers(out);
    write_type_numbers(out);
    write_shown(out, Label::from_number(4));
    write_shown(out, FieldType::from_number(19));
    let path = join_path(alloc, &[4, 0], &[2, 1])?;
    write!(out, "{:?}", path.as_slice());
    Ok(())
}
