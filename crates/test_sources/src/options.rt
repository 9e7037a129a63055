//! Options beside the stored bytes of a record: those that linking reads, and those that a source
//! wrote and no type has read yet.

use descriptor_records::{
    DescriptorProto, DoubleValue, FieldDescriptorProto, FileDescriptorProto, Options,
    ServiceDescriptorProto, UninterpretedOption,
};
use test_json::Text;

/// Writes the parts of an option's name, those in parentheses as such.
fn write_name(out: &mut Text, option: &UninterpretedOption) {
    for part in &option.name {
        let name = part.name_part.as_str();
        if part.is_extension {
            out.push_pair(".(", name);
            out.push_str(")");
        } else {
            out.push_pair(".", name);
        }
    }
}

/// Writes the values that are there, each behind what it is.
fn write_values(out: &mut Text, option: &UninterpretedOption) {
    if let Some(word) = &option.identifier_value {
        out.push_pair(" identifier ", word.as_str());
    }
    if let Some(number) = option.positive_int_value {
        out.push_shown(" positive ", number);
    }
    if let Some(number) = option.negative_int_value {
        out.push_shown(" negative ", number);
    }
    match &option.double_value {
        Some(DoubleValue::Text(literal)) => out.push_pair(" double ", literal.as_str()),
        Some(DoubleValue::Bits(bits)) => out.push_shown(" bits ", *bits),
        None => {}
    }
    if let Some(bytes) = &option.string_value {
        write!(out, " string {:?}", bytes.as_slice());
    }
    if let Some(tokens) = &option.aggregate_value {
        out.push_pair(" aggregate ", tokens.as_str());
    }
}

/// Writes a line for an option that is set.
fn write_set(out: &mut Text, owner: &str, word: &str, value: Option<bool>) {
    if let Some(value) = value {
        out.push_pair(owner, word);
        out.push_shown(" ", value);
        out.push_str("\n");
    }
}

/// Writes a line for each option that linking reads.
fn write_typed(out: &mut Text, owner: &str, options: &Options) {
    write_set(out, owner, " packed", options.packed);
    write_set(out, owner, " allow_alias", options.allow_alias);
    write_set(out, owner, " map_entry", options.map_entry);
}

/// Writes a line for each option that linking reads, and for each that no type has read, behind the
/// declaration's name.
fn write_options(out: &mut Text, owner: &Option<String>, options: &Option<Options>) {
    let owner = owner.as_ref().map_or("", |name| name.as_str());
    let Some(options) = options else {
        return;
    };
    write_typed(out, owner, options);
    for option in &options.uninterpreted_option {
        out.push_str(owner);
        write_name(out, option);
        write_values(out, option);
        out.push_str("\n");
    }
}

/// Writes the options of fields.
fn write_fields(out: &mut Text, fields: &[FieldDescriptorProto]) {
    for field in fields {
        write_options(out, &field.name, &field.options);
    }
}

/// Writes the options of a message, its fields and ranges.
fn write_message(out: &mut Text, message: &DescriptorProto) {
    write_options(out, &message.name, &message.options);
    write_fields(out, message.field.as_slice());
    for range in &message.extension_range {
        write_options(out, &message.name, &range.options);
    }
}

/// Writes the options of a message and of those inside it.
fn write_nest(out: &mut Text, message: &DescriptorProto) {
    write_message(out, message);
    for inner in &message.nested_type {
        write_message(out, inner);
    }
}

/// Writes the options of a service's methods.
fn write_methods(out: &mut Text, service: &ServiceDescriptorProto) {
    for method in &service.method {
        write_options(out, &method.name, &method.options);
    }
}

/// Writes the options of a file and its messages.
fn write_messages(out: &mut Text, file: &FileDescriptorProto) {
    write_options(out, &file.name, &file.options);
    for message in &file.message_type {
        write_nest(out, message);
    }
}

/// Writes the options of a file, its messages and those inside them, and its methods.
pub fn write_file(out: &mut Text, file: &FileDescriptorProto) {
    write_messages(out, file);
    for service in &file.service {
        write_methods(out, service);
    }
}

/// Writes the options of a file's enums.
pub fn write_enums(out: &mut Text, file: &FileDescriptorProto) {
    for kind in &file.enum_type {
        write_options(out, &kind.name, &kind.options);
    }
}
