//! The records of files.

ghost use Rattle.std.specs.Prelude.{◌≡◌, IfOk, OnOk, None, map, option_map, string_bytes};
ghost use Rattle.std.specs.List.{flat_map, fold};
ghost use Rattle.descriptor_records.specs.Content as content;
ghost use Rattle.protox_declaration_records.specs.OptionRecords.{options_of};
ghost use Rattle.protox_record.specs.FileRecords as files;
ghost use Rattle.protox_message_records.specs.MessageRecords.{AddsTypes, AreTypes};
ghost use Rattle.protox_tree.specs.FileView as tree;

use crate::import::{dependencies, places};
use descriptor_records::{
    DescriptorProto, EnumDescriptorProto, FieldDescriptorProto, FileDescriptorProto, Options,
    ServiceDescriptorProto,
};
use protox_declaration_records::{declared, enum_record, option_record, service_record};
use protox_field_records::extensions;
use protox_message_records::{message_record, types_of_extend};
use protox_tree::{File, FileItem, ImportKind, Syntax};
use std::alloc::{AllocError, Global};

/// The record of a file of this name, without locations. Refused only for want of memory.
pub fn file_record(
    alloc: Global,
    name: &str,
    file: &File,
) -> Result<FileDescriptorProto, AllocError>
    ensures { IfOk result (λ made. files.IsFile name.now file.now (content.file_view made)) }
{
    let items = &file.items;
    Ok(FileDescriptorProto {
        name: Some(String::from_str(alloc, name)?),
        package: package(alloc, items)?,
        dependency: dependencies(alloc, items)?,
        public_dependency: places(alloc, ImportKind::Public, items)?,
        weak_dependency: places(alloc, ImportKind::Weak, items)?,
        message_type: messages(alloc, file.syntax(), items)?,
        enum_type: enums(alloc, items)?,
        service: services(alloc, items)?,
        extension: file_extensions(alloc, items)?,
        options: options(alloc, items)?,
        source_code_info: None,
        syntax: syntax_name(alloc, file.syntax())?,
    })
}

/// The name of the syntax: proto2 is told by none.
fn syntax_name(alloc: Global, syntax: Syntax) -> Result<Option<String>, AllocError>
    ensures { IfOk result (λ name. option_map string_bytes name ≡ files.syntax_name syntax) }
{
    match syntax {
        Syntax::Proto2 => Ok(None),
        Syntax::Proto3 => Ok(Some(String::from_str(alloc, "proto3")?)),
    }
}

fn package(alloc: Global, items: &Vec<FileItem>) -> Result<Option<String>, AllocError>
    ensures { IfOk result (λ name. option_map string_bytes name
        ≡ fold files.package_after None items.now.items) }
{
    let mut package = None;
    'each: for item in items {
        let FileItem::Package(statement) = item else {
            continue;
        };
        package = Some(statement.name.to_text(alloc)?);
    }
    Ok(package)
}

/// The messages of a file, and the types that its extensions declare.
fn messages(
    alloc: Global,
    syntax: Syntax,
    items: &Vec<FileItem>,
) -> Result<Vec<DescriptorProto>, AllocError>
    ensures { IfOk result (λ types. AreTypes syntax (flat_map files.types_at items.now.items)
        (content.messages_of (map content.message_view types.items))) }
{
    let mut types = Vec::new(alloc);
    'each: for item in items {
        add_types(alloc, syntax, item, &mut types)?;
    }
    Ok(types)
}

/// Adds the types that an item declares.
fn add_types(
    alloc: Global,
    syntax: Syntax,
    item: &FileItem,
    types: &mut Vec<DescriptorProto>,
) -> Result<(), AllocError>
    ensures { OnOk result (AddsTypes syntax (files.types_at item.now)
        (map content.message_view types.old.items) (map content.message_view types.new.items)) }
{
    match item {
        FileItem::Message(message) => {
            types.push(message_record(alloc, syntax, message)?)?;
            Ok(())
        }
        FileItem::Extend(extend) => types_of_extend(alloc, syntax, extend, types),
        _ => Ok(()),
    }
}

fn enums(alloc: Global, items: &Vec<FileItem>) -> Result<Vec<EnumDescriptorProto>, AllocError>
    ensures { IfOk result (λ enums. map content.enum_view enums.items
        ≡ flat_map files.enum_at items.now.items) }
{
    let mut enums = Vec::new(alloc);
    'each: for item in items {
        let FileItem::Enum(enumeration) = item else {
            continue;
        };
        enums.push(enum_record(alloc, enumeration)?)?;
    }
    Ok(enums)
}

fn services(alloc: Global, items: &Vec<FileItem>) -> Result<Vec<ServiceDescriptorProto>, AllocError>
    ensures { IfOk result (λ services. map content.service_view services.items
        ≡ flat_map files.service_at items.now.items) }
{
    let mut services = Vec::new(alloc);
    'each: for item in items {
        let FileItem::Service(service) = item else {
            continue;
        };
        services.push(service_record(alloc, service)?)?;
    }
    Ok(services)
}

fn file_extensions(
    alloc: Global,
    items: &Vec<FileItem>,
) -> Result<Vec<FieldDescriptorProto>, AllocError>
    ensures { IfOk result (λ fields. map content.field_view fields.items
        ≡ flat_map files.extensions_at items.now.items) }
{
    let mut fields = Vec::new(alloc);
    'each: for item in items {
        let FileItem::Extend(extend) = item else {
            continue;
        };
        extensions(alloc, extend, &mut fields)?;
    }
    Ok(fields)
}

fn options(alloc: Global, items: &Vec<FileItem>) -> Result<Option<Options>, AllocError>
    ensures { IfOk result (λ options. option_map content.options_view options
        ≡ options_of (flat_map files.option_at items.now.items)) }
{
    let mut written = Vec::new(alloc);
    'each: for item in items {
        let FileItem::Option(option) = item else {
            continue;
        };
        written.push(option_record(alloc, &option.body)?)?;
    }
    Ok(declared(alloc, written))
}
