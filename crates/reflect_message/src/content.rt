//! What fields and extensions hold, of what stands under their numbers.

ghost use Rattle.std.specs.Prelude.{◌≡◌, true, None, Some, IsTrue, IsSome, IfSome, IfOk, OnErr};
ghost use Rattle.std.specs.Option.{option_copied};
ghost use Rattle.reflect_entries.specs.Entries.{Updates, value_at};
ghost use Rattle.reflect_message.specs.Present.{held_if_set, is_held};
ghost use Rattle.reflect_message.specs.Shown.{Shows};

use crate::defaults::{default_of, is_present};
use crate::field_ref::FieldRef;
use crate::value::Value;
use reflect_entries::Entries;
use reflect_scalar::FieldDescriptorLike;
use std::alloc::{AllocError, Global};

/// The field, under whose number the value stands, is set.
pub fn is_set<'p, F: FieldDescriptorLike<'p>>(held: Option<&Value<'p>>, field: &F) -> bool
    ensures held { IsTrue result → IsSome held.entry }
    ensures presence { (F.says field.now).presence ≡ true → IsSome held.entry → IsTrue result }
    ensures set { result ≡ is_held (F.pool field.now) (F.says field.now)
        (option_copied held.entry) }
{
    match held {
        Some(value) => is_present(value, field),
        None => false,
    }
}

/// What stands under the field's number, or the field's default.
pub fn lend<'m, 'p, F: FieldDescriptorLike<'p>>(
    alloc: Global,
    held: Option<&'m Value<'p>>,
    field: &F,
) -> Result<FieldRef<'m, 'p>, AllocError>
    ensures shows { IfOk result (Shows (F.pool field.now) (F.says field.now)
        (option_copied held.entry)) }
    ensures unset { OnErr result (option_copied held.entry ≡ None) }
{
    match held {
        Some(value) => Ok(FieldRef::Borrowed(value)),
        None => Ok(FieldRef::Owned(default_of(alloc, field)?)),
    }
}

/// What the field held, taken out, if it was set.
pub fn take<'p, F: FieldDescriptorLike<'p>>(
    content: &mut Entries<Value<'p>>,
    field: &F,
) -> Option<Value<'p>>
    ensures updates { Updates content.old content.new (F.says field.now).number None }
    ensures held { IfSome result (λ v. value_at content.old (F.says field.now).number ≡ Some v) }
    ensures presence { (F.says field.now).presence ≡ true → result
        ≡ value_at content.old (F.says field.now).number }
    ensures taken { result ≡ held_if_set (F.pool field.now) (F.says field.now)
        (value_at content.old (F.says field.now).number) }
{
    let held = content.take(field.number());
    if is_set(held.as_ref(), field) {
        held
    } else {
        None
    }
}
