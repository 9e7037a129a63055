//! What messages and values are written as.

ghost use Rattle.text_lines.specs.Added.{Adds, AddsOneOf};
ghost use Rattle.reflect_scalar.specs.Keys.{key_view};
ghost use Rattle.reflect_pool.specs.FieldsLeft.{field_type};
ghost use Rattle.reflect_pool.specs.Kinds.{IsKind};
ghost use Rattle.reflect_scalar.specs.FieldTypes.{extension_pool, extension_type, field_pool};
ghost use Rattle.reflect_message.specs.Messages.{message_in};
ghost use Rattle.print_parts.specs.Entries.{AreChosen, AreDeclared, AreOthers, extension, field, set_entries};
ghost use Rattle.reflect_print.specs.MessageTexts.{
  AreItems,
  IsBracedText,
  IsEntryText,
  IsItemsText,
  IsInBrackets,
  IsKeyText,
  IsListText,
  IsMapText,
  IsNamedText,
  IsPairText,
  IsSingleText,
  IsUrlText,
  IsValueText,
  IsValueUnder,
  before_value,
};
ghost use Rattle.reflect_print.specs.Named.{IsEnumText, kind_given, kind_held, label_of, value_kind};
ghost use Rattle.print_parts.specs.Parts.{other_entry, url_of};
ghost use Rattle.reflect_print.specs.Written.{IsExpansion, IsSpan};
ghost use Rattle.std.specs.Prelude.{◌≡◌, IfOk, None, OnOk, Some, true, false};

use print_parts::{Held, Other, declared_fields, held_message, other_entries};
use reflect_contents::MessageWalks;
use reflect_message::{DynamicMessage, MapKey, Value};
use reflect_pool::{ExtensionDescriptor, FieldDescriptor, Kind};
use std::alloc::AllocError;
use std::collections::BTreeMap;
use text_lines::{Items, Lines, Place};

/// The name of a field of a kind: a group bears its type's.
fn text_name<'p>(field: &FieldDescriptor<'p>, kind: &Kind<'p>) -> &'p str
    requires { IsKind (field_pool field.now) kind.now (field_type field.now).kind }
    ensures { result.now ≡ label_of (field_pool field.now) (field_type field.now) }
{
    match kind {
        Kind::Message(group) if field.is_group() => group.name(),
        _ => field.name(),
    }
}

/// What stands between a name and its value.
fn put_before(lines: &mut Lines, value: &Value<'_>) -> Result<(), AllocError>
    ensures text { OnOk result (Adds lines.old.output
        (before_value lines.old.options.pretty (message_in value.now)) lines.new.output) }
    ensures form { lines.new.options ≡ lines.old.options }
{
    match value {
        Value::Message(_) => lines.padding(),
        _ => lines.colon(),
    }
}

/// The name of an enum's value, or its number where it has none.
fn enum_text(lines: &mut Lines, number: &i32, kind: Option<&Kind<'_>>) -> Result<(), AllocError>
    ensures text { OnOk result (AddsOneOf lines.old.output
        (IsEnumText (kind_given kind.entry) number.now) lines.new.output) }
    ensures form { lines.new.options ≡ lines.old.options }
{
    if let Some(Kind::Enum(descriptor)) = kind {
        if let Some(value) = descriptor.get_value(*number) {
            return lines.put(value.name());
        }
    }
    lines.put_shown(number)
}

/// The key of a map's entry.
fn map_key(lines: &mut Lines, key: &MapKey) -> Result<(), AllocError>
    ensures text { OnOk result (AddsOneOf lines.old.output
        (IsSingleText None (key_view key.now)) lines.new.output) }
    ensures form { lines.new.options ≡ lines.old.options }
{
    match key {
        MapKey::Bool(key) => lines.put_shown(key),
        MapKey::I32(key) => lines.put_shown(key),
        MapKey::I64(key) => lines.put_shown(key),
        MapKey::U32(key) => lines.put_shown(key),
        MapKey::U64(key) => lines.put_shown(key),
        MapKey::String(text) => lines.string(text.as_str().as_bytes()),
    }
}

/// The key of an entry in braces, under its name.
fn entry_key(
    lines: &mut Lines,
    key: &MapKey,
    items: &mut Items,
    at: Place,
) -> Result<(), AllocError>
    requires { items.old ≡ record { in_braces = true; any = false } }
    ensures text { OnOk result (AddsOneOf lines.old.output
        (IsKeyText lines.old.options.pretty at.indent (key_view key.now)) lines.new.output) }
    ensures items { OnOk result (items.new ≡ record { in_braces = true; any = true }) }
    ensures form { lines.new.options ≡ lines.old.options }
{
    lines.next_item(items, at)?;
    lines.put("key")?;
    lines.colon()?;
    map_key(lines, key)
}

/// What is printed in place of a `google.protobuf.Any`, if the form expands it.
fn expanded<'m, 'p>(
    lines: &Lines,
    message: &'m DynamicMessage<'p>,
    at: Place,
) -> Result<Option<Held<'m, 'p>>, AllocError>
    ensures { IfOk result (IsExpansion lines.now.options at.expansions message.now) }
{
    if lines.options.expand_any && at.expansions > 0 {
        Ok(held_message(lines.alloc, message)?)
    } else {
        Ok(None)
    }
}

/// A message in braces.
#[cycle(message)]
fn braced_message(
    lines: &mut Lines,
    message: &DynamicMessage<'_>,
    at: Place,
) -> Result<(), AllocError>
    ensures text { OnOk result (AddsOneOf lines.old.output
        (IsBracedText lines.old.options at.payloads at.expansions at.indent message.now)
        lines.new.output) }
    ensures form { lines.new.options ≡ lines.old.options }
{
    lines.put("{")?;
    let inner = at.in_braces()?;
    let any = items(lines, message, true, inner)?;
    lines.close(any, at)
}

/// What a message holds; says whether anything was printed.
#[cycle(message)]
pub fn items(
    lines: &mut Lines,
    message: &DynamicMessage<'_>,
    in_braces: bool,
    at: Place,
) -> Result<bool, AllocError>
    ensures text { IfOk result (λ any. AddsOneOf lines.old.output
        (IsItemsText lines.old.options at.payloads at.expansions at.indent in_braces message.now
        any) lines.new.output) }
    ensures form { lines.new.options ≡ lines.old.options }
{
    match expanded(lines, message, at)? {
        Some(held) => {
            expansion(lines, &held, in_braces, at)?;
            Ok(true)
        }
        None => entries(lines, message, in_braces, at),
    }
}

/// The fields, extensions and unknown records of a message; says whether there are any.
#[cycle(message)]
fn entries(
    lines: &mut Lines,
    message: &DynamicMessage<'_>,
    in_braces: bool,
    at: Place,
) -> Result<bool, AllocError>
    ensures text { IfOk result (λ any. AddsOneOf lines.old.output
        (AreItems lines.old.options at.payloads at.expansions at.indent in_braces message.now any)
        lines.new.output) }
    ensures form { lines.new.options ≡ lines.old.options }
{
    let mut items = Items::new(in_braces);
    declared(lines, message, &mut items, at)?;
    others(lines, message, &mut items, at)?;
    Ok(items.any)
}

/// The message that a `google.protobuf.Any` holds, under its type's URL.
#[cycle(message)]
fn expansion(
    lines: &mut Lines,
    held: &Held<'_, '_>,
    in_braces: bool,
    at: Place,
) -> Result<(), AllocError>
    ensures text { OnOk result (AddsOneOf lines.old.output
        (IsUrlText lines.old.options at.payloads at.expansions at.indent in_braces
        (url_of held.now) held.now.body)
        lines.new.output) }
    ensures form { lines.new.options ≡ lines.old.options }
{
    let mut items = Items::new(in_braces);
    lines.next_item(&mut items, at)?;
    lines.put_bracketed(held.url())?;
    lines.padding()?;
    let inner = Place {
        expansions: at.expansions.saturating_sub(1),
        ..at.read()
    };
    braced_message(lines, &held.body, inner)
}

/// The declared fields.
#[cycle(message)]
fn declared(
    lines: &mut Lines,
    message: &DynamicMessage<'_>,
    items: &mut Items,
    at: Place,
) -> Result<(), AllocError>
    ensures text { OnOk result (AddsOneOf lines.old.output
        (IsSpan lines.old.options at.payloads at.expansions at.indent items.old items.new
        (AreDeclared lines.old.options message.now))
        lines.new.output) }
    ensures form { lines.new.options ≡ lines.old.options }
{
    if lines.options.skip_default_fields && !lines.options.in_index_order {
        set_fields(lines, message, items, at)
    } else {
        chosen_fields(lines, message, items, at)
    }
}

/// The fields that are set, by ascending number.
#[cycle(message)]
fn set_fields(
    lines: &mut Lines,
    message: &DynamicMessage<'_>,
    items: &mut Items,
    at: Place,
) -> Result<(), AllocError>
    ensures text { OnOk result (AddsOneOf lines.old.output
        (IsSpan lines.old.options at.payloads at.expansions at.indent items.old items.new
        (λ es. es ≡ set_entries message.now))
        lines.new.output) }
    ensures form { lines.new.options ≡ lines.old.options }
{
    'each: for (field, value) in message.fields() {
        lines.next_item(items, at)?;
        field_text(lines, field, value, at)?;
    }
    Ok(())
}

/// The fields that the options choose, in their order.
#[cycle(message)]
fn chosen_fields(
    lines: &mut Lines,
    message: &DynamicMessage<'_>,
    items: &mut Items,
    at: Place,
) -> Result<(), AllocError>
    ensures text { OnOk result (AddsOneOf lines.old.output
        (IsSpan lines.old.options at.payloads at.expansions at.indent items.old items.new
        (AreChosen lines.old.options message.now))
        lines.new.output) }
    ensures form { lines.new.options ≡ lines.old.options }
{
    let fields = declared_fields(lines.alloc, message, lines.options)?;
    'each: for entry in &fields {
        lines.next_item(items, at)?;
        field_text(lines, entry.field, entry.value.value(), at)?;
    }
    Ok(())
}

/// Extensions and unknown records.
#[cycle(message)]
fn others(
    lines: &mut Lines,
    message: &DynamicMessage<'_>,
    items: &mut Items,
    at: Place,
) -> Result<(), AllocError>
    ensures text { OnOk result (AddsOneOf lines.old.output
        (IsSpan lines.old.options at.payloads at.expansions at.indent items.old items.new
        (AreOthers lines.old.options message.now))
        lines.new.output) }
    ensures form { lines.new.options ≡ lines.old.options }
{
    let entries = other_entries(lines.alloc, message, lines.options)?;
    'each: for other in &entries {
        lines.next_item(items, at)?;
        other_text(lines, other, at)?;
    }
    Ok(())
}

/// An extension or an unknown record.
#[cycle(message)]
fn other_text(lines: &mut Lines, other: &Other<'_, '_>, at: Place) -> Result<(), AllocError>
    ensures text { OnOk result (AddsOneOf lines.old.output
        (IsEntryText lines.old.options at.payloads at.expansions at.indent
        (other_entry other.now))
        lines.new.output) }
    ensures form { lines.new.options ≡ lines.old.options }
{
    match other {
        Other::Extension(extension, value) => extension_text(lines, *extension, value, at),
        Other::Unknown(record) => lines.unknown_field(record, at),
    }
}

/// A field with its value.
#[cycle(message)]
fn field_text(
    lines: &mut Lines,
    descriptor: FieldDescriptor<'_>,
    value: &Value<'_>,
    at: Place,
) -> Result<(), AllocError>
    ensures text { OnOk result (AddsOneOf lines.old.output
        (IsEntryText lines.old.options at.payloads at.expansions at.indent
        (field (field_pool descriptor.entry) (field_type descriptor.entry) value.now))
        lines.new.output) }
    ensures form { lines.new.options ≡ lines.old.options }
{
    let kind = descriptor.kind();
    lines.put(text_name(&descriptor, &kind))?;
    named_value(lines, value, Some(&kind), at)
}

/// An extension with its value.
#[cycle(message)]
fn extension_text(
    lines: &mut Lines,
    descriptor: ExtensionDescriptor<'_>,
    value: &Value<'_>,
    at: Place,
) -> Result<(), AllocError>
    ensures text { OnOk result (AddsOneOf lines.old.output
        (IsEntryText lines.old.options at.payloads at.expansions at.indent
        (extension (extension_pool descriptor.entry) (extension_type descriptor.entry) value.now))
        lines.new.output) }
    ensures form { lines.new.options ≡ lines.old.options }
{
    lines.put_bracketed(descriptor.full_name())?;
    named_value(lines, value, Some(&descriptor.kind()), at)
}

/// What stands behind a name: a colon but before a message, and the value.
#[cycle(message)]
fn named_value(
    lines: &mut Lines,
    value: &Value<'_>,
    kind: Option<&Kind<'_>>,
    at: Place,
) -> Result<(), AllocError>
    ensures text { OnOk result (AddsOneOf lines.old.output
        (IsNamedText lines.old.options at.payloads at.expansions at.indent (kind_given kind.entry)
        value.now)
        lines.new.output) }
    ensures form { lines.new.options ≡ lines.old.options }
{
    put_before(lines, value)?;
    value_text(lines, value, kind, at)
}

/// A value of a kind.
#[cycle(message)]
pub fn value_text(
    lines: &mut Lines,
    value: &Value<'_>,
    kind: Option<&Kind<'_>>,
    at: Place,
) -> Result<(), AllocError>
    ensures text { OnOk result (AddsOneOf lines.old.output
        (IsValueText lines.old.options at.payloads at.expansions at.indent (kind_given kind.entry)
        value.now)
        lines.new.output) }
    ensures form { lines.new.options ≡ lines.old.options }
{
    match value {
        Value::Bool(truth) => lines.put_shown(truth),
        Value::I32(number) => lines.put_shown(number),
        Value::I64(number) => lines.put_shown(number),
        Value::U32(number) => lines.put_shown(number),
        Value::U64(number) => lines.put_shown(number),
        Value::EnumNumber(number) => enum_text(lines, number, kind),
        Value::String(text) => lines.string(text.as_str().as_bytes()),
        Value::Bytes(bytes) => lines.string(bytes.as_slice()),
        Value::Message(message) => braced_message(lines, message, at),
        Value::List(values) => list(lines, values.as_slice(), kind, at),
        Value::Map(pairs) => map(lines, pairs, kind, at),
    }
}

/// The values of a list in brackets.
#[cycle(message)]
fn list(
    lines: &mut Lines,
    values: &[Value<'_>],
    kind: Option<&Kind<'_>>,
    at: Place,
) -> Result<(), AllocError>
    ensures text { OnOk result (AddsOneOf lines.old.output
        (IsInBrackets (IsListText lines.old.options at.payloads at.expansions at.indent
        (kind_given kind.entry) true values.now))
        lines.new.output) }
    ensures form { lines.new.options ≡ lines.old.options }
{
    let inner = at.deeper()?;
    lines.put("[")?;
    let mut is_first = true;
    'each: for value in values {
        lines.next_element(&mut is_first)?;
        value_text(lines, value, kind, inner)?;
    }
    lines.put("]")
}

/// The kind of a map's values, by that of its entries.
fn kind_of_values<'p>(kind: Option<&Kind<'p>>) -> Option<Kind<'p>>
    ensures { kind_held result ≡ value_kind (kind_given kind.entry) }
{
    match kind {
        Some(Kind::Message(entry)) if entry.is_map_entry() => {
            Some(entry.map_entry_value_field().kind())
        }
        _ => None,
    }
}

/// The entries of a map as a list of messages.
#[cycle(message)]
fn map(
    lines: &mut Lines,
    pairs: &BTreeMap<MapKey, Value<'_>>,
    kind: Option<&Kind<'_>>,
    at: Place,
) -> Result<(), AllocError>
    ensures text { OnOk result (AddsOneOf lines.old.output
        (IsInBrackets (IsMapText lines.old.options at.payloads at.expansions at.indent
        (value_kind (kind_given kind.entry)) true pairs.now.entries))
        lines.new.output) }
    ensures form { lines.new.options ≡ lines.old.options }
{
    let inner = at.deeper()?;
    let kind_within = kind_of_values(kind);
    lines.put("[")?;
    let mut is_first = true;
    'each: for (key, value) in pairs {
        lines.next_element(&mut is_first)?;
        pair(lines, key, value, kind_within.as_ref(), inner)?;
    }
    lines.put("]")
}

/// An entry of a map as a message.
#[cycle(message)]
fn pair(
    lines: &mut Lines,
    key: &MapKey,
    value: &Value<'_>,
    kind: Option<&Kind<'_>>,
    at: Place,
) -> Result<(), AllocError>
    ensures text { OnOk result (AddsOneOf lines.old.output
        (IsPairText lines.old.options at.payloads at.expansions at.indent (kind_given kind.entry)
        (key.now, value.now))
        lines.new.output) }
    ensures form { lines.new.options ≡ lines.old.options }
{
    lines.put("{")?;
    let inner = at.in_braces()?;
    let mut items = Items::new(true);
    entry_key(lines, key, &mut items, inner)?;
    entry_value(lines, value, kind, &mut items, inner)?;
    lines.close(true, at)
}

/// The value of an entry, under its name.
#[cycle(message)]
fn entry_value(
    lines: &mut Lines,
    value: &Value<'_>,
    kind: Option<&Kind<'_>>,
    items: &mut Items,
    at: Place,
) -> Result<(), AllocError>
    requires { items.old ≡ record { in_braces = true; any = true } }
    ensures text { OnOk result (AddsOneOf lines.old.output
        (IsValueUnder lines.old.options at.payloads at.expansions at.indent (kind_given kind.entry)
        value.now)
        lines.new.output) }
    ensures form { lines.new.options ≡ lines.old.options }
{
    lines.next_item(items, at)?;
    lines.put("value")?;
    named_value(lines, value, kind, at)
}
