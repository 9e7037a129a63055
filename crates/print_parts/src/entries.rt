//! What a message prints, in order.

ghost use Rattle.std.specs.Prelude.{◌≡◌, ◌++◌, IfOk, OnOk, map};
ghost use Rattle.reflect_message.specs.Held.{unknown_of};
ghost use Rattle.reflect_pool.specs.FieldsLeft.{field_type};
ghost use Rattle.reflect_scalar.specs.FieldTypes.{extension_pool, extension_type};
ghost use Rattle.print_parts.specs.Entries.{
  AreChosen,
  AreOthers,
  ArePrinted,
  PutsField,
  extension_entries,
  given_entry,
  is_printed,
  number_of,
  option_list,
  undeclared,
};
ghost use Rattle.print_parts.specs.Parts.{declared_entry, other_entry};

use reflect_contents::MessageWalks;
use reflect_message::{DynamicMessage, FieldRef, Value, declared_field};
use reflect_pool::{ExtensionDescriptor, FieldDescriptor};
use reflect_scalar::holds_floats;
use reflect_wire::UnknownField;
use std::alloc::{AllocError, Global};
use text_lines::FormatOptions;

/// A declared field that is printed, with its value.
#[derive(Drop)]
pub struct Declared<'m, 'p> {
    pub field: FieldDescriptor<'p>,
    pub value: FieldRef<'m, 'p>,
}

/// The declared fields that are printed with these options, by ascending number or as they are
/// declared. Refused for want of memory alone.
pub fn declared_fields<'m, 'p>(
    alloc: Global,
    message: &'m DynamicMessage<'p>,
    options: FormatOptions,
) -> Result<Vec<Declared<'m, 'p>>, AllocError>
    ensures { IfOk result
        (λ fields. AreChosen options message.now (map declared_entry fields.items)) }
{
    let mut fields = printed_fields(alloc, message, options)?;
    if options.in_index_order {
        return Ok(fields);
    }
    fields.sort_by_key(|entry| entry.field.number())?;
    Ok(fields)
}

/// The declared fields that are printed with these options, as they are declared.
fn printed_fields<'m, 'p>(
    alloc: Global,
    message: &'m DynamicMessage<'p>,
    options: FormatOptions,
) -> Result<Vec<Declared<'m, 'p>>, AllocError>
    ensures { IfOk result
        (λ fields. ArePrinted options message.now (map declared_entry fields.items)) }
{
    let mut fields = Vec::new(alloc);
    for declared in message.descriptor().fields() {
        if let Some(field) = declared_field(message.descriptor(), declared.number()) {
            push_field(&mut fields, message, field, options)?;
        }
    }
    Ok(fields)
}

/// Puts the field behind the others, if it is printed.
fn push_field<'m, 'p>(
    fields: &mut Vec<Declared<'m, 'p>>,
    message: &'m DynamicMessage<'p>,
    field: FieldDescriptor<'p>,
    options: FormatOptions,
) -> Result<(), AllocError>
    requires { field.message ≡ message.now.descriptor }
    ensures { OnOk result (PutsField options message.now (field_type field.entry)
        (map declared_entry fields.old.items) (map declared_entry fields.new.items)) }
{
    if is_field_printed(message, &field, options) {
        let value = message.get_field(&field)?;
        fields.push(Declared { field, value })?;
    }
    Ok(())
}

/// The field is set, or it cannot differ from its default and defaults are printed.
fn is_field_printed<'p>(
    message: &DynamicMessage<'p>,
    field: &FieldDescriptor<'p>,
    options: FormatOptions,
) -> bool
    requires { field.now.message ≡ message.now.descriptor }
    ensures { result ≡ is_printed options message.now (field_type field.now) }
{
    (!options.skip_default_fields && !field.supports_presence()) || message.has_field(field)
}

/// What is printed behind the declared fields.
#[derive(Clone, Copy)]
pub enum Other<'m, 'p> {
    Extension(ExtensionDescriptor<'p>, &'m Value<'p>),
    Unknown(&'m UnknownField),
}

impl Other<'_, '_> {
    fn number(&self) -> u32
        ensures { result ≡ number_of (other_entry self.now) }
    {
        match self {
            Other::Extension(extension, _) => extension.number(),
            Other::Unknown(record) => record.number(),
        }
    }
}

/// The extensions that are set and, with these options, the unknown records, by ascending number.
/// Refused for want of memory alone.
pub fn other_entries<'m, 'p>(
    alloc: Global,
    message: &'m DynamicMessage<'p>,
    options: FormatOptions,
) -> Result<Vec<Other<'m, 'p>>, AllocError>
    ensures { IfOk result (λ others. AreOthers options message.now (map other_entry others.items)) }
{
    let mut others = Vec::new(alloc);
    push_extensions(&mut others, message)?;
    if options.skip_unknown_fields {
        return Ok(others);
    }
    push_unknown(&mut others, message)?;
    others.sort_by_key(|other| other.number())?;
    Ok(others)
}

fn push_extensions<'m, 'p>(
    others: &mut Vec<Other<'m, 'p>>,
    message: &'m DynamicMessage<'p>,
) -> Result<(), AllocError>
    ensures { OnOk result (map other_entry others.new.items
        ≡ map other_entry others.old.items ++ extension_entries message.now) }
{
    for (extension, value) in message.extensions() {
        push_extension(others, extension, value)?;
    }
    Ok(())
}

/// Puts the extension behind the others, if messages hold it.
fn push_extension<'m, 'p>(
    others: &mut Vec<Other<'m, 'p>>,
    extension: ExtensionDescriptor<'p>,
    value: &'m Value<'p>,
) -> Result<(), AllocError>
    ensures { OnOk result (map other_entry others.new.items
        ≡ map other_entry others.old.items ++ option_list (given_entry
        (extension_pool extension.entry, (extension_type extension.entry, value.now)))) }
{
    if !holds_floats(&extension) {
        others.push(Other::Extension(extension, value))?;
    }
    Ok(())
}

fn push_unknown<'m, 'p>(
    others: &mut Vec<Other<'m, 'p>>,
    message: &'m DynamicMessage<'p>,
) -> Result<(), AllocError>
    ensures { OnOk result (map other_entry others.new.items
        ≡ map other_entry others.old.items ++ map undeclared (unknown_of message.now)) }
{
    for record in message.unknown_fields() {
        others.push(Other::Unknown(record))?;
    }
    Ok(())
}
