//! Messages and what they hold.

ghost use Rattle.std.specs.Prelude.{◌≡◌, IfOk, IsTrue};
ghost use Rattle.reflect_entries.specs.Entries.{IsAscending};
ghost use Rattle.reflect_message.specs.Contents.{content_in, content_of};
ghost use Rattle.reflect_copies.specs.Copies.{AreCopies, IsCopy, content_held};
ghost use Rattle.reflect_copies.specs.InOrder.{IsInOrder, entries_in_order, held_in_order, parts_in_order};
ghost use Rattle.reflect_copies.specs.Trees.{held_tree, parts_tree};

use crate::value::value_clone;
use reflect_entries::Entries;
use reflect_message::{DynamicMessage, Held, MessageParts, Parts, Value};
use std::alloc::{AllocError, Global};

#[cycle(clone)]
pub fn message_clone<'p>(message: &DynamicMessage<'p>) -> Result<DynamicMessage<'p>, AllocError>
    ensures same_type { IfOk result (λ m. m.descriptor ≡ message.now.descriptor) }
    ensures copied { IfOk result (λ m. IsCopy (content_of message.now) (content_of m)) }
    ensures content { IfOk result (λ m. held_tree m.held ≡ held_tree message.now.held) }
    ensures in_order { IfOk result (λ m. IsInOrder m) }
{
    let alloc = message.allocator();
    let held = held_clone(alloc, message.held())?;
    Ok(DynamicMessage::with_held(alloc, message.descriptor(), held))
}

#[cycle(clone)]
fn held_clone<'p>(alloc: Global, held: &Held<'p>) -> Result<Held<'p>, AllocError>
    ensures copied { IfOk result (λ copy. IsCopy (content_held held.now) (content_held copy)) }
    ensures content { IfOk result (λ copy. held_tree copy ≡ held_tree held.now) }
    ensures in_order { IfOk result (λ copy. IsTrue (held_in_order copy)) }
{
    match held {
        Held::Nothing => Ok(Held::Nothing),
        Held::Block(parts) => Ok(Held::Block(Box::new(alloc, parts_clone(alloc, parts)?)?)),
    }
}

#[cycle(clone)]
fn parts_clone<'p>(alloc: Global, parts: &Parts<'p>) -> Result<Parts<'p>, AllocError>
    ensures copied { IfOk result (λ copy. IsCopy (content_in parts.now) (content_in copy)) }
    ensures content { IfOk result (λ copy. parts_tree copy ≡ parts_tree parts.now) }
    ensures in_order { IfOk result (λ copy. IsTrue (parts_in_order copy)) }
{
    Ok(Parts {
        fields: entries_clone(alloc, &parts.fields)?,
        choices: parts.choices.clone()?,
        extensions: entries_clone(alloc, &parts.extensions)?,
        unknown: parts.unknown.clone()?,
    })
}

#[cycle(clone)]
fn entries_clone<'p>(
    alloc: Global,
    entries: &Entries<Value<'p>>,
) -> Result<Entries<Value<'p>>, AllocError>
    ensures copies { IfOk result (λ copy. AreCopies entries.now copy) }
    ensures ascending { IfOk result (λ copy. IsAscending copy) }
    ensures in_order { IfOk result (λ copy. IsTrue (entries_in_order copy)) }
{
    let mut copy = Entries::new(alloc);
    copy.reserve(entries.len())?;
    'entries: for (number, value) in entries.numbers().iter().zip(entries.values()) {
        // (of one number the first value counts, as for lookups: a borrow does not tell that
        // numbers ascend)
        copy.fill(*number, value_clone(value)?)?;
    }
    Ok(copy)
}
