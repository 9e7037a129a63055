//! What parts of an option's name lead to, as a message holds it.

ghost use Rattle.std.specs.Prelude.{◌≡◌, ◌↔◌, IfOk, IsTrue, true};
ghost use Rattle.option_setter.specs.SetOptions.{Unsets, count_held, place_of as place};
ghost use Rattle.reflect_format.specs.Steps.{held_by};
ghost use Rattle.reflect_format.specs.Takes.{BelongsTo, target_pool, target_type};
ghost use Rattle.reflect_message.specs.Present.{held_if_set};
ghost use Rattle.reflect_pool.specs.Shapes.{holds_list};
ghost use Rattle.reflect_scalar.specs.FieldTypes.{either_pool, either_type};
ghost use Rattle.reflect_scalar.specs.Floats.{HoldsFloats};

use reflect_format::Target;
use reflect_message::{AnyField, DynamicMessage, FieldDescriptorLike, Value};
use reflect_scalar::holds_floats;
use std::alloc::AllocError;

/// The target among all that may be a field.
fn any(target: Target<'_>) -> AnyField<'_>
    ensures pool { either_pool result ≡ target_pool target.entry }
    ensures says { either_type result ≡ target_type target.entry }
{
    match target {
        Target::Field(field) => AnyField::Field(field),
        Target::Extension(extension) => AnyField::Extension(extension),
    }
}

/// The number of the field or the extension.
pub fn number_of(target: Target<'_>) -> u32
    ensures { result ≡ (target_type target.entry).number }
{
    any(target).number()
}

/// It is a list.
pub fn is_list(target: Target<'_>) -> bool
    ensures { result ≡ holds_list (target_pool target.entry) (target_type target.entry) }
{
    any(target).is_list()
}

/// It holds floating-point numbers, which no message does.
pub fn holds_float_numbers(target: Target<'_>) -> bool
    ensures { IsTrue result ↔ HoldsFloats (target_pool target.entry) (target_type target.entry) }
{
    holds_floats(&any(target))
}

/// Unsets the target, one of the message's type, and gives what it held, if it was set. Takes no
/// memory.
pub fn taken<'p>(target: Target<'p>, message: &mut DynamicMessage<'p>) -> Option<Value<'p>>
    requires { BelongsTo message.old.descriptor target }
    ensures type_stays { message.new.descriptor ≡ message.old.descriptor }
    ensures unset { Unsets target.entry message.old message.new }
    ensures taken { result ≡ held_if_set (target_pool target.entry) (target_type target.entry)
        (held_by message.old target.entry) }
{
    match target {
        Target::Field(field) => message.take_field(&field),
        Target::Extension(extension) => message.take_extension(&extension),
    }
}

/// The place in a list as a path has it, as far as 32 bits count.
pub fn place_of(count: usize) -> i32
    ensures { result ≡ place count }
{
    match i32::try_from(count) {
        Ok(place) => place,
        Err(_) => i32::MAX,
    }
}

/// How many values a list has, one of the message's type.
pub fn values_held<'p>(
    target: Target<'p>,
    message: &DynamicMessage<'p>,
) -> Result<usize, AllocError>
    requires { BelongsTo message.now.descriptor target }
    ensures { holds_list (target_pool target.entry) (target_type target.entry) ≡ true
        → IfOk result (λ n. n ≡ count_held (held_by message.now target.entry)) }
{
    let held = match target {
        Target::Field(field) => message.get_field(&field)?,
        Target::Extension(extension) => message.get_extension(&extension)?,
    };
    match held.value().as_list() {
        Some(values) => Ok(values.len()),
        None => Ok(0),
    }
}
