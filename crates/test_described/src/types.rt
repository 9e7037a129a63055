//! Lines of messages with their oneofs and fields, and of enums with their values.

use crate::fields::write_field;
use crate::parts::{
    write_found, write_home, write_listed, write_named, write_names, write_path, write_record,
    write_truth,
};
use reflect_link::{
    DescriptorPool, EnumDescriptor, EnumReaders, EnumValueDescriptor, EnumValueReaders, InFile,
    MessageDescriptor, MessageReaders, OneofDescriptor, OneofReaders, PoolReaders,
};
use test_json::Text;

/// Writes the pool's messages.
pub fn write_messages(out: &mut Text, pool: &DescriptorPool) {
    for message in pool.all_messages() {
        write_message(out, message);
    }
}

/// Writes a message, what it holds and reserves, its oneofs and its fields.
fn write_message(out: &mut Text, message: MessageDescriptor<'_>) {
    write_message_names(out, message);
    write_entry(out, message);
    write_message_parts(out, message);
    write_message_numbers(out, message);
    write_oneofs(out, message);
    for field in message.fields() {
        write_field(out, field);
    }
}

fn write_oneofs(out: &mut Text, message: MessageDescriptor<'_>) {
    for oneof in message.oneofs() {
        write_oneof(out, oneof);
    }
}

/// Writes a type's name, what it stands in, its record, and what finds it again.
fn write_message_names(out: &mut Text, message: MessageDescriptor<'_>) {
    write_named(out, "message ", message.full_name(), message.name());
    let file = message.parent_file().name();
    write_home(out, message.path(), file, message.package_name());
    write_found(out, " in=", message.parent_message());
    write_record(out, &message.descriptor_proto().name);
    let pool = message.parent_pool();
    let found = pool.get_message_by_name(message.full_name());
    write_found(out, " found=", found);
}

/// The names of the key and the value of a map's entry.
fn write_entry(out: &mut Text, message: MessageDescriptor<'_>) {
    out.push_str(" entry=");
    if message.is_map_entry() {
        out.push_str(message.map_entry_key_field().name());
        out.push_pair(",", message.map_entry_value_field().name());
    }
}

fn write_message_parts(out: &mut Text, message: MessageDescriptor<'_>) {
    write_names(out, " fields=", message.fields());
    write_names(out, " oneofs=", message.oneofs());
    write_names(out, " messages=", message.child_messages());
    write_names(out, " enums=", message.child_enums());
    write_names(out, " extensions=", message.child_extensions());
}

fn write_reserved(out: &mut Text, message: MessageDescriptor<'_>) {
    for range in message.reserved_ranges() {
        out.push_shown(" reserved=", range.start);
        out.push_shown("..", range.end);
    }
}

/// What a type reserves, the ranges that it keeps for extensions, and its extensions.
fn write_message_numbers(out: &mut Text, message: MessageDescriptor<'_>) {
    write_reserved(out, message);
    for range in message.extension_ranges() {
        out.push_shown(" range=", range.start);
        out.push_shown("..", range.end);
    }
    write_names(out, " kept=", message.reserved_names());
    write_extended(out, message);
    out.push_str("\n");
}

/// The full names of a type's extensions.
fn write_extended(out: &mut Text, message: MessageDescriptor<'_>) {
    out.push_str(" extended=");
    let mut is_first = true;
    for extension in message.extensions() {
        if !is_first {
            out.push_str(",");
        }
        out.push_str(extension.full_name());
        is_first = false;
    }
}

fn write_oneof(out: &mut Text, oneof: OneofDescriptor<'_>) {
    write_named(out, "oneof ", oneof.full_name(), oneof.name());
    write_path(out, oneof.path());
    out.push_pair(" in=", oneof.parent_message().full_name());
    write_record(out, &oneof.oneof_descriptor_proto().name);
    write_truth(out, " synthetic=", oneof.is_synthetic());
    write_names(out, " fields=", oneof.fields());
    out.push_str("\n");
}

/// Writes the pool's enums, each with its values.
pub fn write_enums(out: &mut Text, pool: &DescriptorPool) {
    for kind in pool.all_enums() {
        write_enum_names(out, kind);
        write_enum_parts(out, kind);
        write_values(out, kind);
    }
}

/// Writes an enum's name, what it stands in, its record, and what finds it again.
fn write_enum_names(out: &mut Text, kind: EnumDescriptor<'_>) {
    write_named(out, "enum ", kind.full_name(), kind.name());
    let file = kind.parent_file().name();
    write_home(out, kind.path(), file, kind.package_name());
    write_found(out, " in=", kind.parent_message());
    write_record(out, &kind.enum_descriptor_proto().name);
    let found = kind.parent_pool().get_enum_by_name(kind.full_name());
    write_found(out, " found=", found);
}

/// Writes what an enum reserves, the names of its values and its default.
fn write_enum_parts(out: &mut Text, kind: EnumDescriptor<'_>) {
    for range in kind.reserved_ranges() {
        write!(out, " reserved={}..={}", range.start(), range.end());
    }
    write_names(out, " kept=", kind.reserved_names());
    write_names(out, " values=", kind.values());
    out.push_pair(" default=", kind.default_value().name());
    out.push_str("\n");
}

fn write_values(out: &mut Text, kind: EnumDescriptor<'_>) {
    for value in kind.values() {
        write_value(out, value);
    }
}

/// Writes a value of an enum, and what finds it again.
fn write_value(out: &mut Text, value: EnumValueDescriptor<'_>) {
    let kind = value.parent_enum();
    write_named(out, "value ", value.full_name(), value.name());
    out.push_shown(" number=", value.number());
    write_path(out, value.path());
    out.push_pair(" in=", kind.full_name());
    write_record(out, &value.enum_value_descriptor_proto().name);
    write_listed(out, " found=", kind.get_value(value.number()));
    write_listed(out, ",", kind.get_value_by_name(value.name()));
    out.push_str("\n");
}
