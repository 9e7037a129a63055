//! References written as full names behind a leading dot, and types filled in.

ghost use Rattle.std.specs.Prelude.{◌≡◌, map, Some, None};
ghost use Rattle.descriptor_records.specs.FieldNumbers.{type_number};
ghost use Rattle.descriptor_records.specs.Content.{text_view, field_view, method_view, service_view, message_view, file_view};
ghost use Rattle.reflect_known.specs.GivenNames.{field_name, method_name, names_of_file, names_of_message, service_names};
ghost use Rattle.reflect_tables.specs.Views.{record_file};
ghost use Rattle.reflect_index.specs.Rewriting.{names_left, filled, write_name, write_type, write_extension, write_each, write_message, write_method, write_service, write_file, written};

use descriptor_records::{
    DescriptorProto, FieldDescriptorProto, FieldType, FileDescriptorProto, MethodDescriptorProto,
    ServiceDescriptorProto,
};
use reflect_names::Reference;
use reflect_scope::DefinitionKind;
use std::vec;

/// What the references mean that were not rewritten yet.
type Rest = vec::IntoIter<Reference>;

/// The type of a field whose type name means this, where the record says none.
fn type_of(kind: DefinitionKind) -> FieldType
    ensures { filled None kind ≡ Some (type_number result) }
{
    match kind {
        DefinitionKind::Enum(_) => FieldType::Enum,
        _ => FieldType::Message,
    }
}

/// Writes the next reference in place of a name, if there is one.
fn rewrite_name(name: &mut Option<String>, rest: &mut Rest)
    ensures { (text_view name.new, names_left rest.new)
        ≡ write_name (names_left rest.old) (text_view name.old) }
{
    if name.is_some() {
        if let Some(reference) = rest.next() {
            *name = Some(reference.name);
        }
    }
}

fn rewrite_type(field: &mut FieldDescriptorProto, rest: &mut Rest)
    ensures names { field_name field.new ≡ field_name field.old }
    ensures written { (field_view field.new, names_left rest.new)
        ≡ write_type (names_left rest.old) (field_view field.old) }
{
    if field.type_name.is_none() {
        return;
    }
    if let Some(reference) = rest.next() {
        if field.field_type.is_none() {
            field.field_type = Some(type_of(reference.definition.kind).number());
        }
        field.type_name = Some(reference.name);
    }
}

fn rewrite_fields(fields: &mut Vec<FieldDescriptorProto>, rest: &mut Rest)
    ensures names { map field_name fields.new.items ≡ map field_name fields.old.items }
    ensures written { (map field_view fields.new.items, names_left rest.new)
        ≡ write_each write_type (names_left rest.old) (map field_view fields.old.items) }
{
    'fields: for place in 0..fields.len() {
        rewrite_type(&mut fields[place], rest);
    }
}

fn rewrite_extension(extension: &mut FieldDescriptorProto, rest: &mut Rest)
    ensures names { field_name extension.new ≡ field_name extension.old }
    ensures written { (field_view extension.new, names_left rest.new)
        ≡ write_extension (names_left rest.old) (field_view extension.old) }
{
    rewrite_name(&mut extension.extendee, rest);
    rewrite_type(extension, rest);
}

fn rewrite_extensions(extensions: &mut Vec<FieldDescriptorProto>, rest: &mut Rest)
    ensures names { map field_name extensions.new.items ≡ map field_name extensions.old.items }
    ensures written { (map field_view extensions.new.items, names_left rest.new)
        ≡ write_each write_extension (names_left rest.old) (map field_view extensions.old.items) }
{
    'extensions: for place in 0..extensions.len() {
        rewrite_extension(&mut extensions[place], rest);
    }
}

/// Rewrites the references of messages and of those in them: of a message's fields, then its
/// messages, then its extensions.
fn rewrite_messages(messages: &mut Vec<DescriptorProto>, rest: &mut Rest)
    ensures names { map names_of_message messages.new.items
        ≡ map names_of_message messages.old.items }
    ensures written { (map message_view messages.new.items, names_left rest.new)
        ≡ write_each write_message (names_left rest.old) (map message_view messages.old.items) }
{
    'turns: for place in 0..messages.len() {
        let message = &mut messages[place];
        rewrite_fields(&mut message.field, rest);
        rewrite_messages(&mut message.nested_type, rest);
        rewrite_extensions(&mut message.extension, rest);
    }
}

fn rewrite_method(method: &mut MethodDescriptorProto, rest: &mut Rest)
    ensures names { method_name method.new ≡ method_name method.old }
    ensures written { (method_view method.new, names_left rest.new)
        ≡ write_method (names_left rest.old) (method_view method.old) }
{
    rewrite_name(&mut method.input_type, rest);
    rewrite_name(&mut method.output_type, rest);
}

fn rewrite_methods(methods: &mut Vec<MethodDescriptorProto>, rest: &mut Rest)
    ensures names { map method_name methods.new.items ≡ map method_name methods.old.items }
    ensures written { (map method_view methods.new.items, names_left rest.new)
        ≡ write_each write_method (names_left rest.old) (map method_view methods.old.items) }
{
    'methods: for place in 0..methods.len() {
        rewrite_method(&mut methods[place], rest);
    }
}

fn rewrite_services(services: &mut Vec<ServiceDescriptorProto>, rest: &mut Rest)
    ensures names { map service_names services.new.items ≡ map service_names services.old.items }
    ensures written { (map service_view services.new.items, names_left rest.new)
        ≡ write_each write_service (names_left rest.old) (map service_view services.old.items) }
{
    'services: for place in 0..services.len() {
        rewrite_methods(&mut services[place].method, rest);
    }
}

fn rewrite_file(file: &mut FileDescriptorProto, rest: &mut Rest)
    ensures header { record_file file.new ≡ record_file file.old }
    ensures names { names_of_file file.new ≡ names_of_file file.old }
    ensures written { (file_view file.new, names_left rest.new)
        ≡ write_file (names_left rest.old) (file_view file.old) }
{
    rewrite_messages(&mut file.message_type, rest);
    rewrite_services(&mut file.service, rest);
    rewrite_extensions(&mut file.extension, rest);
}

/// The files with each reference written as its full name behind a leading dot, and with each
/// missing type of a field that has a type name filled in; all else in their records stays. The
/// references are those of the files in the order in which a walk meets them.
pub fn rewritten(
    mut files: Vec<FileDescriptorProto>,
    references: Vec<Reference>,
) -> Vec<FileDescriptorProto>
    ensures headers { map record_file result.items ≡ map record_file files.items }
    ensures names { map names_of_file result.items ≡ map names_of_file files.items }
    ensures records { map file_view result.items
        ≡ written references.items (map file_view files.items) }
{
    let mut rest = references.into_iter();
    for place in 0..files.len() {
        rewrite_file(&mut files[place], &mut rest);
    }
    files
}
