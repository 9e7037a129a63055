//! Messages that hold a message of any type (protobuf.dev, "Any").

ghost use Rattle.std.specs.Option.{option_copied};
ghost use Rattle.std.specs.Prelude.{◌≡◌, IfOk, IfSome, OnOk};
ghost use Rattle.print_parts.specs.Expands.{FindsByUrl, IsFault, bytes_of, text_of};
ghost use Rattle.print_parts.specs.Parts.{HoldsIn, url_of};

use reflect_any::any_fields;
use reflect_decode::DecodeMessage;
use reflect_message::{DynamicMessage, FieldRef, Value};
use reflect_pool::MessageDescriptor;
use reflect_wire::WireError;
use std::alloc::{AllocError, Global};

/// What a `google.protobuf.Any` holds.
#[derive(Drop)]
pub struct Held<'m, 'p> {
    pub type_url: FieldRef<'m, 'p>,
    pub body: DynamicMessage<'p>,
}

impl Held<'_, '_> {
    /// The URL of the type that the message is of.
    pub fn url(&self) -> &str
        ensures { result.now ≡ url_of self.now }
    {
        match text_in(self.type_url.value()) {
            Some(url) => url,
            None => "",
        }
    }
}

/// The text that a value is.
fn text_in<'v>(value: &'v Value<'_>) -> Option<&'v str>
    ensures { option_copied result ≡ text_of value.now }
{
    match value {
        Value::String(text) => Some(text.as_str()),
        _ => None,
    }
}

/// The bytes that a value is.
fn bytes_in<'v>(value: &'v Value<'_>) -> Option<&'v [u8]>
    ensures { option_copied result ≡ bytes_of value.now }
{
    match value {
        Value::Bytes(bytes) => Some(bytes.as_slice()),
        _ => None,
    }
}

/// The type whose name stands behind the last `/` of a type's URL.
fn named_type<'p>(
    descriptor: MessageDescriptor<'p>,
    type_url: &str,
) -> Option<MessageDescriptor<'p>>
    ensures pool { IfSome result (λ d. d.pool.now ≡ descriptor.entry.pool.now) }
    ensures finds { FindsByUrl descriptor.entry.pool.now type_url.now result }
{
    let (_, name) = type_url.rsplit_once('/')?;
    descriptor.parent_pool().get_message_by_name(name)
}

/// Bytes may be at fault; want of memory is handed on.
fn pass_fault(fault: WireError) -> Result<(), AllocError>
    ensures { OnOk result (IsFault fault) }
{
    match fault {
        WireError::Memory => Err(AllocError),
        _ => Ok(()),
    }
}

/// The message that a `google.protobuf.Any` holds, where its type is known and its bytes spell one.
/// Refused for want of memory alone.
pub fn held_message<'m, 'p>(
    alloc: Global,
    message: &'m DynamicMessage<'p>,
) -> Result<Option<Held<'m, 'p>>, AllocError>
    ensures { IfOk result (HoldsIn message.now) }
{
    let Some(fields) = any_fields(message.descriptor()) else {
        return Ok(None);
    };
    let type_url = message.get_field(&fields.type_url)?;
    let Some(url) = text_in(type_url.value()) else {
        return Ok(None);
    };
    let Some(kind) = named_type(message.descriptor(), url) else {
        return Ok(None);
    };
    let value = message.get_field(&fields.value)?;
    let Some(bytes) = bytes_in(value.value()) else {
        return Ok(None);
    };
    match DynamicMessage::decode(alloc, kind, bytes) {
        Ok(body) => Ok(Some(Held { type_url, body })),
        Err(fault) => {
            pass_fault(fault)?;
            Ok(None)
        }
    }
}
