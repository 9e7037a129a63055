//! Fields and extensions alike, as a text sets them.

ghost use Rattle.std.specs.Prelude.{◌≡◌, IfErr, IfNone, IfOk, IfSome, IsTrue, OnErr, OnOk, Some, string_bytes};
ghost use Rattle.reflect_pool.specs.Kinds.{IsKind};
ghost use Rattle.reflect_format.specs.Filled.{IsAlone};
ghost use Rattle.reflect_format.specs.Lacks.{FindsPlain, IsGroupCalled, LacksField, LacksGroup};
ghost use Rattle.reflect_format.specs.Named.{FindsGroup, NamesExtension, NamesField, NoExtensionNamed, NoFieldNamed};
ghost use Rattle.reflect_format.specs.Reads.{IsCause};
ghost use Rattle.reflect_format.specs.Refusals.{HoldsTarget, HoldsMember, IsTextName, RefusesExtension, RefusesField, Shares};
ghost use Rattle.reflect_format.specs.Steps.{AddsValues, AddsPart, Puts, Stays, StaysAscending, StaysExclusive, is_set};
ghost use Rattle.reflect_format.specs.Takes.{BelongsTo, holds_many, target_pool, target_type};
ghost use Rattle.reflect_format.specs.Told.{ExtensionFault, Told};
ghost use Rattle.text_error.specs.Places.{place_of};

use crate::fault::{float_field, unknown_extension, unknown_field};
use reflect_extend::ExtendMessage;
use reflect_message::{DynamicMessage, Value};
use reflect_numbered::FieldsByNumber;
use reflect_pool::{
    ExtensionDescriptor, FieldDescriptor, Kind, MessageDescriptor, OneofDescriptor,
};
use reflect_scalar::holds_floats;
use std::alloc::{AllocError, Global};
use text_error::ParseErrorKind;
use text_lex::Span;

/// What a name stands for.
#[derive(Clone, Copy)]
pub enum Target<'p> {
    Field(FieldDescriptor<'p>),
    Extension(ExtensionDescriptor<'p>),
}

impl<'p> Target<'p> {
    /// The field of a name: of a group its type's name, which the field has in lower case.
    pub fn field(
        alloc: Global,
        descriptor: MessageDescriptor<'p>,
        name: &str,
        span: Span,
    ) -> Result<Target<'p>, ParseErrorKind>
        ensures takes { IfOk result (BelongsTo descriptor.entry) }
        ensures named { IfOk result (NamesField descriptor.entry name.now) }
        ensures unnamed { IfErr result (IsCause (NoFieldNamed descriptor.entry name.now)) }
        ensures refused { IfErr result (RefusesField descriptor.entry name.now) }
        ensures placed { IfErr result (Told (λ kind. place_of kind ≡ Some span)) }
    {
        if let Some(field) = plain_field(descriptor, name) {
            if holds_floats(&field) {
                return Err(float_field(alloc, name, descriptor, span)?);
            }
            return Ok(Target::Field(field));
        }
        match group_field(alloc, descriptor, name)? {
            Some(group) => Ok(Target::Field(group)),
            None => Err(unknown_field(alloc, name, descriptor, span)?),
        }
    }

    /// The extension of a full name.
    pub fn extension(
        alloc: Global,
        descriptor: MessageDescriptor<'p>,
        name: String,
        span: Span,
    ) -> Result<Target<'p>, ParseErrorKind>
        ensures takes { IfOk result (BelongsTo descriptor.entry) }
        ensures named { IfOk result (NamesExtension descriptor.entry (string_bytes name)) }
        ensures unnamed { IfErr result
            (IsCause (NoExtensionNamed descriptor.entry (string_bytes name))) }
        ensures refused { IfErr result (RefusesExtension descriptor.entry (string_bytes name)) }
        ensures told { IfErr result (Told (ExtensionFault descriptor.entry (string_bytes name))) }
        ensures placed { IfErr result (Told (λ kind. place_of kind ≡ Some span)) }
    {
        let Some(extension) = descriptor.get_extension_by_full_name(name.as_str()) else {
            return Err(unknown_extension(alloc, name, descriptor, span)?);
        };
        if holds_floats(&extension) {
            return Err(float_field(alloc, extension.json_name(), descriptor, span)?);
        }
        Ok(Target::Extension(extension))
    }

    /// What it holds; of a map that is the type of its entries.
    pub fn kind(&self) -> Kind<'p>
        ensures { IsKind (target_pool self.now) result (target_type self.now).kind }
    {
        match self {
            Target::Field(field) => field.kind(),
            Target::Extension(extension) => extension.kind(),
        }
    }

    /// It holds any number of values: it is a list or a map.
    pub fn holds_many(&self) -> bool
        ensures { result ≡ holds_many self.now }
    {
        match self {
            Target::Field(field) => field.is_list() || field.is_map(),
            Target::Extension(extension) => extension.is_list() || extension.is_map(),
        }
    }

    /// The name by which a text sets it: of a group its type's, of an extension the full one in
    /// brackets.
    pub fn text_name(&self) -> &'p str
        ensures { IsTextName self.now result.now }
    {
        match self {
            Target::Field(field) => match field.kind() {
                Kind::Message(group) if field.is_group() => group.name(),
                _ => field.name(),
            },
            Target::Extension(extension) => extension.json_name(),
        }
    }

    /// The message holds a value of it.
    pub fn is_set(&self, message: &DynamicMessage<'p>) -> bool
        requires { BelongsTo message.now.descriptor self.now }
        ensures held { IsTrue result → HoldsTarget message.now self.now }
        ensures set { result ≡ is_set message.now self.now }
    {
        match self {
            Target::Field(field) => message.has_field(field),
            Target::Extension(extension) => message.has_extension(extension),
        }
    }

    /// The oneof that it shares with a field which the message holds a value of.
    pub fn rival(&self, message: &DynamicMessage<'p>) -> Option<OneofDescriptor<'p>>
        ensures set { IfSome result
            (λ oneof. Shares self.now oneof × HoldsMember message.now oneof) }
        ensures alone { IfNone result (IsAlone self.now message.now) }
    {
        let Target::Field(field) = self else {
            return None;
        };
        let oneof = field.containing_oneof()?;
        'members: for member in oneof.fields() {
            if message.has_field_by_number(member.number()) {
                return Some(oneof);
            }
        }
        None
    }

    /// Sets it to a value of its kind. A refusal leaves what the message holds.
    pub fn set(&self, message: &mut DynamicMessage<'p>, value: Value<'p>) -> Result<(), AllocError>
        requires { BelongsTo message.old.descriptor self.now }
        ensures type_stays { message.new.descriptor ≡ message.old.descriptor }
        ensures ok { OnOk result (Puts self.now value.entry message.old message.new) }
        ensures exclusive { StaysExclusive self.now message.old message.new }
        ensures ascending { OnOk result (StaysAscending message.old message.new) }
        ensures left { OnErr result (Stays message.old message.new) }
    {
        match self {
            Target::Field(field) => message.set_field(field, value),
            Target::Extension(extension) => message.set_extension(extension, value),
        }
    }

    /// Puts values of its kind behind those of a list, or the entries that they are into a map. A
    /// refusal leaves the values of a list, and of a map perhaps some of the entries more.
    pub fn add(
        &self,
        message: &mut DynamicMessage<'p>,
        values: Vec<Value<'p>>,
    ) -> Result<(), AllocError>
        requires { BelongsTo message.old.descriptor self.now }
        ensures type_stays { message.new.descriptor ≡ message.old.descriptor }
        ensures ok { OnOk result (AddsValues self.now values.entry.items message.old message.new) }
        ensures left { OnErr result (AddsPart self.now values.entry.items message.old message.new) }
    {
        match self {
            Target::Field(field) => message.extend_field(field, values),
            Target::Extension(extension) => message.extend_extension(extension, values),
        }
    }
}

/// The field of a name that is no group.
fn plain_field<'p>(descriptor: MessageDescriptor<'p>, name: &str) -> Option<FieldDescriptor<'p>>
    ensures found { IfSome result (FindsPlain descriptor.entry name.now) }
    ensures lacks { IfNone result (LacksField descriptor.entry name.now) }
{
    let field = descriptor.get_field_by_name(name)?;
    if field.is_group() {
        return None;
    }
    Some(field)
}

/// The group whose type has the name, where no other field has it.
fn group_field<'p>(
    alloc: Global,
    descriptor: MessageDescriptor<'p>,
    name: &str,
) -> Result<Option<FieldDescriptor<'p>>, AllocError>
    ensures found { LacksField descriptor.entry name.now
        → IfOk result (λ found. IfSome found (FindsGroup descriptor.entry name.now)) }
    ensures lacks { IfOk result (λ found. IfNone found (LacksGroup descriptor.entry name.now)) }
{
    let lower = name.to_ascii_lowercase(alloc)?;
    let Some(field) = descriptor.get_field_by_name(lower.as_str()) else {
        return Ok(None);
    };
    if is_group_called(&field, name) {
        Ok(Some(field))
    } else {
        Ok(None)
    }
}

/// The field is a group, whose type has the name.
fn is_group_called(field: &FieldDescriptor<'_>, name: &str) -> bool
    ensures yes { IsTrue result → IsGroupCalled field.now name.now }
    ensures no { IsGroupCalled field.now name.now → IsTrue result }
{
    match field.kind() {
        Kind::Message(group) => field.is_group() && group.name() == name,
        _ => false,
    }
}
