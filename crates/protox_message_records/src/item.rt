//! What stands in a message, beside its fields and the types in it.

ghost use Rattle.std.specs.Prelude.{◌≡◌, ◌++◌, IfOk, OnOk, map, option_map};
ghost use Rattle.std.specs.List.{flat_map};
ghost use Rattle.descriptor_records.specs.Content as content;
ghost use Rattle.protox_declaration_records.specs.EnumRecords.{ranges_in};
ghost use Rattle.protox_declaration_records.specs.OptionRecords.{options_of};
ghost use Rattle.protox_message_records.specs.MessageRecords as messages;

use descriptor_records::{
    EnumDescriptorProto, ExtensionRange, FieldDescriptorProto, MAX_FIELD_NUMBER,
    OneofDescriptorProto, Options, ReservedRange as ReservedRangeRecord,
};
use protox_declaration_records::{
    add_reserved_names, declared, enum_record, i32_of, last, list_options, option_record,
};
use protox_field_records::extensions;
use protox_tree::{Extensions, MessageItem, Oneof, OneofItem, ReservedItems, ReservedRange};
use std::alloc::{AllocError, Global};

/// The extensions that are declared in a message.
pub fn own_extensions(
    alloc: Global,
    items: &Vec<MessageItem>,
) -> Result<Vec<FieldDescriptorProto>, AllocError>
    ensures { IfOk result (λ fields. map content.field_view fields.items
        ≡ flat_map messages.extensions_at items.now.items) }
{
    let mut fields = Vec::new(alloc);
    'each: for item in items {
        let MessageItem::Extend(extend) = item else {
            continue;
        };
        extensions(alloc, extend, &mut fields)?;
    }
    Ok(fields)
}

/// The enums that are declared in a message.
pub fn enums(
    alloc: Global,
    items: &Vec<MessageItem>,
) -> Result<Vec<EnumDescriptorProto>, AllocError>
    ensures { IfOk result (λ enums. map content.enum_view enums.items
        ≡ flat_map messages.enum_at items.now.items) }
{
    let mut enums = Vec::new(alloc);
    'each: for item in items {
        let MessageItem::Enum(enumeration) = item else {
            continue;
        };
        enums.push(enum_record(alloc, enumeration)?)?;
    }
    Ok(enums)
}

/// The oneofs that are written.
pub fn oneofs(
    alloc: Global,
    items: &Vec<MessageItem>,
) -> Result<Vec<OneofDescriptorProto>, AllocError>
    ensures { IfOk result (λ oneofs. map content.oneof_view oneofs.items
        ≡ flat_map messages.oneof_at items.now.items) }
{
    let mut oneofs = Vec::new(alloc);
    'each: for item in items {
        let MessageItem::Oneof(oneof) = item else {
            continue;
        };
        oneofs.push(oneof_record(alloc, oneof)?)?;
    }
    Ok(oneofs)
}

fn oneof_record(alloc: Global, oneof: &Oneof) -> Result<OneofDescriptorProto, AllocError>
    ensures { IfOk result (λ made. content.oneof_view made ≡ messages.oneof_of oneof.now) }
{
    Ok(OneofDescriptorProto {
        name: Some(oneof.name.value.clone()?),
        options: member_options(alloc, &oneof.items)?,
    })
}

fn member_options(alloc: Global, items: &Vec<OneofItem>) -> Result<Option<Options>, AllocError>
    ensures { IfOk result (λ options. option_map content.options_view options
        ≡ options_of (flat_map messages.member_option_at items.now.items)) }
{
    let mut written = Vec::new(alloc);
    'each: for item in items {
        let OneofItem::Option(option) = item else {
            continue;
        };
        written.push(option_record(alloc, &option.body)?)?;
    }
    Ok(declared(alloc, written))
}

/// The options of a message, where any are written.
pub fn options(alloc: Global, items: &Vec<MessageItem>) -> Result<Option<Options>, AllocError>
    ensures { IfOk result (λ options. option_map content.options_view options
        ≡ options_of (flat_map messages.option_at items.now.items)) }
{
    let mut written = Vec::new(alloc);
    'each: for item in items {
        let MessageItem::Option(option) = item else {
            continue;
        };
        written.push(option_record(alloc, &option.body)?)?;
    }
    Ok(declared(alloc, written))
}

/// The numbers that extensions may take.
pub fn extension_ranges(
    alloc: Global,
    items: &Vec<MessageItem>,
) -> Result<Vec<ExtensionRange>, AllocError>
    ensures { IfOk result (λ ranges. map content.extension_range_view ranges.items
        ≡ flat_map messages.extension_ranges_at items.now.items) }
{
    let mut ranges = Vec::new(alloc);
    'each: for item in items {
        let MessageItem::Extensions(extensions) = item else {
            continue;
        };
        add_extension_ranges(alloc, extensions, &mut ranges)?;
    }
    Ok(ranges)
}

/// The ranges of one statement have the same options.
fn add_extension_ranges(
    alloc: Global,
    extensions: &Extensions,
    ranges: &mut Vec<ExtensionRange>,
) -> Result<(), AllocError>
    ensures { OnOk result (map content.extension_range_view ranges.new.items
        ≡ map content.extension_range_view ranges.old.items
        ++ map (messages.extension_range_of extensions.now.options) extensions.now.ranges.items) }
{
    'each: for range in &extensions.ranges {
        ranges.push(ExtensionRange {
            start: i32_of(range.start),
            end: end(*range),
            options: list_options(alloc, &extensions.options)?,
        })?;
    }
    Ok(())
}

/// The number behind the last one of a range.
fn end(range: ReservedRange) -> Option<i32>
    ensures { result ≡ messages.end_of range }
{
    last(range, MAX_FIELD_NUMBER)?.checked_add(1)
}

/// The numbers that no field may take.
pub fn reserved_ranges(
    alloc: Global,
    items: &Vec<MessageItem>,
) -> Result<Vec<ReservedRangeRecord>, AllocError>
    ensures { IfOk result (λ ranges. ranges.items
        ≡ flat_map messages.reserved_ranges_at items.now.items) }
{
    let mut ranges = Vec::new(alloc);
    'each: for item in items {
        let MessageItem::Reserved(reserved) = item else {
            continue;
        };
        add_reserved_ranges(&reserved.items, &mut ranges)?;
    }
    Ok(ranges)
}

fn add_reserved_ranges(
    reserved: &ReservedItems,
    records: &mut Vec<ReservedRangeRecord>,
) -> Result<(), AllocError>
    ensures { OnOk result (records.new.items ≡ records.old.items
        ++ map messages.reserved_range_of (ranges_in reserved.now)) }
{
    let ReservedItems::Ranges(ranges) = reserved else {
        return Ok(());
    };
    'each: for range in ranges {
        records.push(ReservedRangeRecord {
            start: i32_of(range.start),
            end: end(*range),
        })?;
    }
    Ok(())
}

/// The names that no field may have.
pub fn reserved_names(alloc: Global, items: &Vec<MessageItem>) -> Result<Vec<String>, AllocError>
    ensures { IfOk result (λ names. content.texts_view names
        ≡ flat_map messages.reserved_names_at items.now.items) }
{
    let mut names = Vec::new(alloc);
    'each: for item in items {
        let MessageItem::Reserved(reserved) = item else {
            continue;
        };
        add_reserved_names(alloc, &reserved.items, &mut names)?;
    }
    Ok(names)
}
