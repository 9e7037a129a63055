//! The records of fields, and of the types of map entries.

ghost use Rattle.std.specs.Prelude.{◌≡◌, ◌++◌, ◌||◌, IfOk, None, OnOk, codes, map, option_map, string_bytes};
ghost use Rattle.std.specs.List.{flat_map};
ghost use Rattle.descriptor_records.specs.Content.{field_view, message_view, options_view};
ghost use Rattle.protox_declaration_records.specs.OptionRecords.{options_of};
ghost use Rattle.protox_field_records.specs.FieldName.{field_name_of};
ghost use Rattle.protox_field_records.specs.FieldRecords as fields;
ghost use Rattle.protox_field_records.specs.MapEntries as maps;
ghost use Rattle.protox_tree.specs.NestView.{kind_view};
ghost use Rattle.protox_tree.specs.View.{ty_view};

use descriptor_records::{DescriptorProto, FieldDescriptorProto, FieldType, Label, Options};
use protox_declaration_records::{declared, i32_of, listed, option_record, signed_text, text};
use protox_lex::{Escaped, Int, Span};
use protox_tree::{
    Extend, ExtendItem, Field, FieldKind, Map, OptionBody, OptionValue, Strings, Ty, TypeName,
};
use std::alloc::{AllocError, Global};

/// Adds the fields of an `extend` statement.
pub fn extensions(
    alloc: Global,
    extend: &Extend,
    records: &mut Vec<FieldDescriptorProto>,
) -> Result<(), AllocError>
    ensures { OnOk result (map field_view records.new.items ≡ map field_view records.old.items
        ++ flat_map (fields.extension_at extend.now.extendee) extend.now.items.items) }
{
    'each: for item in &extend.items {
        let ExtendItem::Field(field) = item else {
            continue;
        };
        records.push(extension_record(alloc, &extend.extendee, field)?)?;
    }
    Ok(())
}

/// The record of a field by which a type of this name is extended.
fn extension_record(
    alloc: Global,
    extendee: &TypeName,
    field: &Field,
) -> Result<FieldDescriptorProto, AllocError>
    ensures { IfOk result (λ made. field_view made ≡ fields.extension_of extendee.now field.now) }
{
    let mut record = field_record(alloc, field)?;
    record.extendee = Some(extendee.to_text(alloc)?);
    Ok(record)
}

/// The record of a field, without its oneof.
pub fn field_record(alloc: Global, field: &Field) -> Result<FieldDescriptorProto, AllocError>
    ensures { IfOk result (λ made. field_view made ≡ fields.field_of field.now) }
{
    let name = field.name.value.as_str();
    let kind = &field.kind;
    let bodies = listed(&field.options);
    Ok(FieldDescriptorProto {
        name: Some(field_name(alloc, name, is_group(kind))?),
        number: i32_of(field.number),
        label: Some(label(field.label, kind).number()),
        field_type: type_number(kind),
        type_name: type_name(alloc, name, kind)?,
        extendee: None,
        default_value: default_value(alloc, kind, bodies)?,
        oneof_index: None,
        json_name: json_name(alloc, bodies)?,
        options: other_options(alloc, bodies)?,
        proto3_optional: None,
    })
}

/// The name of a field: a group's field has the name of its type in lower case.
pub fn field_name(alloc: Global, name: &str, is_group: bool) -> Result<String, AllocError>
    ensures { IfOk result (λ written. string_bytes written ≡ field_name_of name.now is_group) }
{
    if is_group {
        name.to_ascii_lowercase(alloc)
    } else {
        String::from_str(alloc, name)
    }
}

/// The field is a group.
pub fn is_group(kind: &FieldKind) -> bool
    ensures { result ≡ fields.is_group (kind_view kind.now) }
{
    match kind {
        FieldKind::Group(_) => true,
        FieldKind::Normal(_) | FieldKind::Map(_) => false,
    }
}

fn label(written: Option<(Label, Span)>, kind: &FieldKind) -> Label
    ensures { result ≡ fields.label_of written (kind_view kind.now) }
{
    match kind {
        FieldKind::Map(_) => Label::Repeated,
        FieldKind::Normal(_) | FieldKind::Group(_) => match written {
            Some((label, _)) => label,
            None => Label::Optional,
        },
    }
}

/// The number of a field's type. Of a type that is named the record has none yet.
fn type_number(kind: &FieldKind) -> Option<i32>
    ensures { result ≡ fields.type_of (kind_view kind.now) }
{
    match kind {
        FieldKind::Normal(ty) => scalar_number(ty),
        FieldKind::Group(_) => Some(FieldType::Group.number()),
        FieldKind::Map(_) => Some(FieldType::Message.number()),
    }
}

fn scalar_number(ty: &Ty) -> Option<i32>
    ensures { result ≡ fields.scalar_number (ty_view ty.now) }
{
    Some(ty.proto_ty()?.number())
}

/// The name of a field's type, where it has one: a group and the entries of a map have types of
/// their own.
fn type_name(alloc: Global, name: &str, kind: &FieldKind) -> Result<Option<String>, AllocError>
    ensures { IfOk result (λ written. option_map string_bytes written
        ≡ fields.type_name_of name.now (kind_view kind.now)) }
{
    match kind {
        FieldKind::Normal(ty) => ty.ty_name(alloc),
        FieldKind::Group(_) => Ok(Some(String::from_str(alloc, name)?)),
        FieldKind::Map(_) => Ok(Some(entry_name(alloc, name)?)),
    }
}

/// The default that the options set: the last one counts.
fn default_value(
    alloc: Global,
    kind: &FieldKind,
    bodies: &[OptionBody],
) -> Result<Option<String>, AllocError>
    ensures { IfOk result (λ value. option_map string_bytes value
        ≡ fields.default_of (kind_view kind.now) bodies.now) }
{
    let mut value = None;
    'each: for body in bodies {
        if body.has_name("default") {
            value = Some(default_text(alloc, kind, &body.value)?);
        }
    }
    Ok(value)
}

/// The JSON name that the options set: the last one counts.
fn json_name(alloc: Global, bodies: &[OptionBody]) -> Result<Option<String>, AllocError>
    ensures { IfOk result (λ name. option_map string_bytes name ≡ fields.json_name_of bodies.now) }
{
    let mut name = None;
    'each: for body in bodies {
        if body.has_name("json_name") {
            name = json_text(alloc, &body.value)?;
        }
    }
    Ok(name)
}

/// All other options.
fn other_options(alloc: Global, bodies: &[OptionBody]) -> Result<Option<Options>, AllocError>
    ensures { IfOk result (λ options. option_map options_view options
        ≡ options_of (flat_map fields.other_at bodies.now)) }
{
    let mut written = Vec::new(alloc);
    'each: for body in bodies {
        if is_field_of_record(body) {
            continue;
        }
        written.push(option_record(alloc, body)?)?;
    }
    Ok(declared(alloc, written))
}

/// The option is a field of its own in the record of a field.
fn is_field_of_record(body: &OptionBody) -> bool
    ensures { result ≡ (fields.is_named (codes "default") body.now
        || fields.is_named (codes "json_name") body.now) }
{
    body.has_name("default") || body.has_name("json_name")
}

fn json_text(alloc: Global, value: &OptionValue) -> Result<Option<String>, AllocError>
    ensures { IfOk result (λ name. option_map string_bytes name ≡ fields.json_text value.now) }
{
    match value {
        OptionValue::String(strings) => Ok(Some(text(alloc, strings)?)),
        _ => Ok(None),
    }
}

/// A default as text: integers in decimal, bytes escaped, and all else as it is written.
fn default_text(alloc: Global, kind: &FieldKind, value: &OptionValue) -> Result<String, AllocError>
    ensures { IfOk result (λ text. string_bytes text
        ≡ fields.default_text (kind_view kind.now) value.now) }
{
    match value {
        OptionValue::Ident(ident) => ident.value.clone(),
        OptionValue::Int(int) => int_text(alloc, *int),
        OptionValue::NegativeWord(word) => signed_text(alloc, true, word.value.as_str()),
        OptionValue::Float { negative, number } => {
            signed_text(alloc, *negative, number.text.as_str())
        }
        OptionValue::String(strings) => string_text(alloc, is_bytes(kind), strings),
        OptionValue::Aggregate(aggregate) => aggregate.text.clone(),
    }
}

fn int_text(alloc: Global, int: Int) -> Result<String, AllocError>
    ensures { IfOk result (λ text. string_bytes text ≡ fields.int_text int) }
{
    let digits = format!(in alloc; "{}", int.value)?;
    signed_text(alloc, int.negative, digits.as_str())
}

/// Strings that are a default: bytes are escaped.
fn string_text(alloc: Global, is_bytes: bool, strings: &Strings) -> Result<String, AllocError>
    ensures { IfOk result (λ text. string_bytes text ≡ fields.string_text is_bytes strings.now) }
{
    if is_bytes {
        let joined = strings.joined(alloc)?;
        format!(in alloc; "{}", Escaped(joined.value.as_slice()))
    } else {
        text(alloc, strings)
    }
}

fn is_bytes(kind: &FieldKind) -> bool
    ensures { result ≡ fields.is_bytes (kind_view kind.now) }
{
    match kind {
        FieldKind::Normal(ty) => matches!(ty.proto_ty(), Some(FieldType::Bytes)),
        FieldKind::Group(_) | FieldKind::Map(_) => false,
    }
}

/// The name of the type of a map's entries: the map's name in camel case, and `Entry`.
fn entry_name(alloc: Global, map: &str) -> Result<String, AllocError>
    ensures { IfOk result (λ name. string_bytes name ≡ fields.entry_name_of map.now) }
{
    let mut name = String::new(alloc);
    let mut raise = true;
    'bytes: for b in map.as_bytes() {
        if *b == b'_' {
            raise = true;
            continue;
        }
        name.push(char::from(letter(raise, *b)))?;
        raise = false;
    }
    name.push_str("Entry")?;
    Ok(name)
}

fn letter(raise: bool, byte: u8) -> u8
    ensures { result ≡ fields.letter raise byte }
{
    if raise {
        byte.to_ascii_uppercase()
    } else {
        byte
    }
}

/// The type of the entries of a map of this name.
pub fn entry_record(alloc: Global, name: &str, entries: &Map) -> Result<DescriptorProto, AllocError>
    ensures { IfOk result (λ made. message_view made ≡ maps.entry_of name.now entries.now) }
{
    Ok(DescriptorProto {
        name: Some(entry_name(alloc, name)?),
        field: entry_fields(alloc, entries)?,
        extension: Vec::new(alloc),
        nested_type: Vec::new(alloc),
        enum_type: Vec::new(alloc),
        extension_range: Vec::new(alloc),
        oneof_decl: Vec::new(alloc),
        options: Some(entry_options(alloc)?),
        reserved_range: Vec::new(alloc),
        reserved_name: Vec::new(alloc),
    })
}

/// The key and the value.
fn entry_fields(alloc: Global, entries: &Map) -> Result<Vec<FieldDescriptorProto>, AllocError>
    ensures { IfOk result (λ parts. map field_view parts.items ≡ maps.entry_fields entries.now) }
{
    let mut fields = Vec::with_capacity(alloc, 2)?;
    fields.push(entry_field(alloc, "key", 1, &entries.key)?)?;
    fields.push(entry_field(alloc, "value", 2, &entries.value)?)?;
    Ok(fields)
}

/// The option `map_entry`, as itself and in its encoded form.
fn entry_options(alloc: Global) -> Result<Options, AllocError>
    ensures { IfOk result (λ options. options_view options ≡ maps.entry_options) }
{
    Ok(Options {
        encoded: Vec::from_slice(alloc, &[0x38, 0x01])?,
        packed: None,
        allow_alias: None,
        map_entry: Some(true),
        uninterpreted_option: Vec::new(alloc),
    })
}

fn entry_field(
    alloc: Global,
    name: &str,
    number: i32,
    ty: &Ty,
) -> Result<FieldDescriptorProto, AllocError>
    ensures { IfOk result (λ made. field_view made ≡ maps.entry_field name.now number ty.now) }
{
    Ok(FieldDescriptorProto {
        name: Some(String::from_str(alloc, name)?),
        number: Some(number),
        label: Some(Label::Optional.number()),
        field_type: scalar_number(ty),
        type_name: ty.ty_name(alloc)?,
        extendee: None,
        default_value: None,
        oneof_index: None,
        json_name: None,
        options: None,
        proto3_optional: None,
    })
}
