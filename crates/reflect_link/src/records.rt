//! The records of declarations, found along their paths.

ghost use Rattle.std.specs.Prelude.{◌≡◌, ◌<◌, ◌∷◌, [], length, MatchOption};
ghost use Rattle.std.specs.Option.{option_copied};
ghost use Rattle.reflect_pool.specs.Records.{entry_of, message_below, message_along, field_along, oneof_along, enum_along, value_along, extension_along, service_along, method_along, before_last, last_step};

use descriptor_records::{
    DescriptorProto, EnumDescriptorProto, EnumValueDescriptorProto, FieldDescriptorProto,
    FileDescriptorProto, MethodDescriptorProto, OneofDescriptorProto, ServiceDescriptorProto, tag,
};

/// A step of a path: the number of a list, and a place in it.
#[derive(Clone, Copy)]
struct Step {
    number: i32,
    place: i32,
}

/// The first step of a path, and what is left.
fn first_step(path: &[i32]) -> Option<(Step, &[i32])>
    ensures { MatchOption result (length path.now < 2)
        (λ s. path.now ≡ s.0.number ∷ s.0.place ∷ s.1.now) }
{
    let (number, behind) = path.split_first()?;
    let (place, rest) = behind.split_first()?;
    Some((
        Step {
            number: *number,
            place: *place,
        },
        rest,
    ))
}

/// What comes before the last step of a path, and this step.
fn split_last(path: &[i32]) -> Option<(&[i32], Step)>
    ensures { MatchOption result (length path.now < 2)
        (λ s. (s.0.now ≡ before_last path.now)
        × (s.1.number ∷ s.1.place ∷ [] ≡ last_step path.now)) }
{
    let (place, before) = path.split_last()?;
    let (number, parent) = before.split_last()?;
    Some((
        parent,
        Step {
            number: *number,
            place: *place,
        },
    ))
}

/// What the step leads to in the list of a number.
fn entry<T>(list: &[T], number: i32, step: Step) -> Option<&T>
    ensures { option_copied result ≡ entry_of number list.now step.number step.place }
{
    if step.number == number {
        list.get(usize::try_from(step.place).ok()?)
    } else {
        None
    }
}

/// The message at a path that goes on from a message.
fn message_from<'a>(message: &'a DescriptorProto, path: &[i32]) -> Option<&'a DescriptorProto>
    ensures { option_copied result ≡ message_below (Some message.now) path.now }
{
    if path.is_empty() {
        return Some(message);
    }
    let (step, rest) = first_step(path)?;
    let nested = entry(
        message.nested_type.as_slice(),
        tag::message::NESTED_TYPE,
        step,
    )?;
    message_from(nested, rest)
}

/// The message at a path.
pub fn message_record<'a>(
    file: &'a FileDescriptorProto,
    path: &[i32],
) -> Option<&'a DescriptorProto>
    ensures { option_copied result ≡ message_along file.now path.now }
{
    let (step, rest) = first_step(path)?;
    let message = entry(file.message_type.as_slice(), tag::file::MESSAGE_TYPE, step)?;
    message_from(message, rest)
}

/// The field at a path.
pub fn field_record<'a>(
    file: &'a FileDescriptorProto,
    path: &[i32],
) -> Option<&'a FieldDescriptorProto>
    ensures { option_copied result ≡ field_along file.now path.now }
{
    let (parent, step) = split_last(path)?;
    let message = message_record(file, parent)?;
    entry(message.field.as_slice(), tag::message::FIELD, step)
}

/// The oneof at a path.
pub fn oneof_record<'a>(
    file: &'a FileDescriptorProto,
    path: &[i32],
) -> Option<&'a OneofDescriptorProto>
    ensures { option_copied result ≡ oneof_along file.now path.now }
{
    let (parent, step) = split_last(path)?;
    let message = message_record(file, parent)?;
    entry(
        message.oneof_decl.as_slice(),
        tag::message::ONEOF_DECL,
        step,
    )
}

/// The enum at a path.
pub fn enum_record<'a>(
    file: &'a FileDescriptorProto,
    path: &[i32],
) -> Option<&'a EnumDescriptorProto>
    ensures { option_copied result ≡ enum_along file.now path.now }
{
    let (parent, step) = split_last(path)?;
    if parent.is_empty() {
        return entry(file.enum_type.as_slice(), tag::file::ENUM_TYPE, step);
    }
    let message = message_record(file, parent)?;
    entry(message.enum_type.as_slice(), tag::message::ENUM_TYPE, step)
}

/// The enum's value at a path.
pub fn value_record<'a>(
    file: &'a FileDescriptorProto,
    path: &[i32],
) -> Option<&'a EnumValueDescriptorProto>
    ensures { option_copied result ≡ value_along file.now path.now }
{
    let (parent, step) = split_last(path)?;
    let enumeration = enum_record(file, parent)?;
    entry(enumeration.value.as_slice(), tag::enumeration::VALUE, step)
}

/// The extension at a path.
pub fn extension_record<'a>(
    file: &'a FileDescriptorProto,
    path: &[i32],
) -> Option<&'a FieldDescriptorProto>
    ensures { option_copied result ≡ extension_along file.now path.now }
{
    let (parent, step) = split_last(path)?;
    if parent.is_empty() {
        return entry(file.extension.as_slice(), tag::file::EXTENSION, step);
    }
    let message = message_record(file, parent)?;
    entry(message.extension.as_slice(), tag::message::EXTENSION, step)
}

/// The service at a path.
pub fn service_record<'a>(
    file: &'a FileDescriptorProto,
    path: &[i32],
) -> Option<&'a ServiceDescriptorProto>
    ensures { option_copied result ≡ service_along file.now path.now }
{
    let (step, rest) = first_step(path)?;
    if rest.is_empty() {
        entry(file.service.as_slice(), tag::file::SERVICE, step)
    } else {
        None
    }
}

/// The method at a path.
pub fn method_record<'a>(
    file: &'a FileDescriptorProto,
    path: &[i32],
) -> Option<&'a MethodDescriptorProto>
    ensures { option_copied result ≡ method_along file.now path.now }
{
    let (parent, step) = split_last(path)?;
    let service = service_record(file, parent)?;
    entry(service.method.as_slice(), tag::service::METHOD, step)
}
