//! The options that linking reads itself, as sources write them.

ghost use Rattle.std.specs.Prelude.{◌≡◌, map};
ghost use Rattle.descriptor_records.specs.Content.{option_view, options_view, field_view, enum_view, message_view, file_view};
ghost use Rattle.option_parts.specs.TypedOptions.{is_named, truth_of, written_truth, typed_field, typed_enum, typed_message, typed_file, TypedFiles};

use descriptor_records::{
    DescriptorProto, EnumDescriptorProto, FieldDescriptorProto, FileDescriptorProto, Options,
    UninterpretedOption,
};

/// The option has this one plain name.
fn is_named(option: &UninterpretedOption, name: &str) -> bool
    ensures { result ≡ is_named name.now (option_view option.now) }
{
    match option.name.as_slice() {
        [part] => !part.is_extension && part.name_part.as_str() == name,
        _ => false,
    }
}

/// The truth value that the option's value is: the word `true` or `false`.
pub fn truth_said(option: &UninterpretedOption) -> Option<bool>
    ensures { result ≡ truth_of (option_view option.now).identifier_value }
{
    match &option.identifier_value {
        Some(value) if value.as_str() == "true" => Some(true),
        Some(value) if value.as_str() == "false" => Some(false),
        _ => None,
    }
}

/// What the first option of the name says, where its value is true or false.
fn written_truth(options: &Options, name: &str) -> Option<bool>
    ensures { result ≡ written_truth name.now (options_view options.now).uninterpreted_option }
{
    for option in &options.uninterpreted_option {
        if is_named(option, name) {
            return truth_said(option);
        }
    }
    None
}

fn copy_packed(field: &mut FieldDescriptorProto)
    ensures { field_view field.new ≡ typed_field (field_view field.old) }
{
    if let Some(options) = &mut field.options {
        if let Some(packed) = written_truth(options, "packed") {
            options.packed = Some(packed);
        }
    }
}

fn copy_in_fields(fields: &mut Vec<FieldDescriptorProto>)
    ensures { map field_view fields.new.items ≡ map typed_field (map field_view fields.old.items) }
{
    for place in 0..fields.len() {
        copy_packed(&mut fields[place]);
    }
}

fn copy_aliases(enumeration: &mut EnumDescriptorProto)
    ensures { enum_view enumeration.new ≡ typed_enum (enum_view enumeration.old) }
{
    if let Some(options) = &mut enumeration.options {
        if let Some(aliases) = written_truth(options, "allow_alias") {
            options.allow_alias = Some(aliases);
        }
    }
}

fn copy_in_enums(enums: &mut Vec<EnumDescriptorProto>)
    ensures { map enum_view enums.new.items ≡ map typed_enum (map enum_view enums.old.items) }
{
    for place in 0..enums.len() {
        copy_aliases(&mut enums[place]);
    }
}

fn copy_in_messages(messages: &mut Vec<DescriptorProto>)
    ensures { map message_view messages.new.items
        ≡ map typed_message (map message_view messages.old.items) }
{
    for place in 0..messages.len() {
        let message = &mut messages[place];
        copy_in_fields(&mut message.field);
        copy_in_fields(&mut message.extension);
        copy_in_enums(&mut message.enum_type);
        copy_in_messages(&mut message.nested_type);
    }
}

fn copy_in_file(file: &mut FileDescriptorProto)
    ensures { file_view file.new ≡ typed_file (file_view file.old) }
{
    copy_in_fields(&mut file.extension);
    copy_in_enums(&mut file.enum_type);
    copy_in_messages(&mut file.message_type);
}

/// Copies what fields write as `packed` and enums as `allow_alias`, where it is true or false, to
/// where linking reads it. Takes no memory.
pub fn copy_typed_options(files: &mut Vec<FileDescriptorProto>)
    ensures { TypedFiles files.old.items files.new.items }
{
    for place in 0..files.len() {
        copy_in_file(&mut files[place]);
    }
}
