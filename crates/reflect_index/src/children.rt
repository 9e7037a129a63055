//! What a message or a file declares itself.

ghost use Rattle.std.specs.Prelude.{◌≡◌, None, Some, map, OnOk};
ghost use Rattle.reflect_tables.specs.Types.{no_children as nothing};
ghost use Rattle.reflect_tables.specs.Views.{children_of, declared_of};
ghost use Rattle.reflect_index.specs.Children.{KeepsRest, draft_children, with_child, with_place, with_service, ListsIn, ListsOutside};

use crate::drafts::{MessageDraft, local_place};
use reflect_scope::{FileIndex, MessageIndex, ServiceIndex};
use reflect_tables::{Child, Children, Declared};
use reflect_walk::VisitError;
use std::alloc::{AllocError, Global};

/// Nothing declared. Takes no memory.
pub fn no_children(alloc: Global) -> Children
    ensures { children_of result ≡ nothing }
{
    Children {
        messages: Vec::new(alloc),
        enums: Vec::new(alloc),
        extensions: Vec::new(alloc),
    }
}

/// Adds a type or an extension behind the others of its sort.
fn push_child(children: &mut Children, child: Child) -> Result<(), AllocError>
    ensures { OnOk result (children_of children.new ≡ with_child child (children_of children.old)) }
{
    match child {
        Child::Message(place) => Ok(children.messages.push(place)?),
        Child::Enum(place) => Ok(children.enums.push(place)?),
        Child::Extension(place) => Ok(children.extensions.push(place)?),
    }
}

/// Adds a type or an extension to what a message declares, where the first of the list has this
/// index in the pool.
fn push_nested(
    messages: &mut Vec<MessageDraft>,
    first: u32,
    message: MessageIndex,
    child: Child,
) -> Result<(), VisitError>
    ensures kept { OnOk result (KeepsRest messages.old.items messages.new.items) }
    ensures nested { OnOk result (ListsIn first (Some message) child
        (map draft_children messages.old.items) (map draft_children messages.new.items)) }
{
    let place = local_place(message, first)?;
    if place < messages.len() {
        push_child(&mut messages[place].children, child)?;
        Ok(())
    } else {
        Err(VisitError::TooMany)
    }
}

/// Adds a type or an extension to what a file declares outside of messages, where the first of the
/// list has this index in the pool.
fn push_outside(
    files: &mut Vec<Declared>,
    first: u32,
    file: FileIndex,
    child: Child,
) -> Result<(), VisitError>
    ensures { OnOk result (ListsOutside first file None (with_place child)
        (map declared_of files.old.items) (map declared_of files.new.items)) }
{
    let place = local_place(file, first)?;
    if place < files.len() {
        push_child(&mut files[place].children, child)?;
        Ok(())
    } else {
        Err(VisitError::TooMany)
    }
}

/// Adds a service to a file, where the first of the list has this index in the pool.
pub fn push_service(
    files: &mut Vec<Declared>,
    first: u32,
    file: FileIndex,
    service: ServiceIndex,
) -> Result<(), VisitError>
    ensures { OnOk result (ListsOutside first file None (with_service service)
        (map declared_of files.old.items) (map declared_of files.new.items)) }
{
    let place = local_place(file, first)?;
    if place < files.len() {
        files[place].services.push(service)?;
        Ok(())
    } else {
        Err(VisitError::TooMany)
    }
}

/// Adds a type or an extension to what the message at `parent` declares, or else to what its file
/// does. The first file and the first message of the lists have these indexes in the pool.
pub fn declare(
    files: &mut Vec<Declared>,
    messages: &mut Vec<MessageDraft>,
    first_file: FileIndex,
    first_message: MessageIndex,
    file: FileIndex,
    parent: Option<MessageIndex>,
    child: Child,
) -> Result<(), VisitError>
    ensures kept { OnOk result (KeepsRest messages.old.items messages.new.items) }
    ensures nested { OnOk result (ListsIn first_message parent child
        (map draft_children messages.old.items) (map draft_children messages.new.items)) }
    ensures outside { OnOk result (ListsOutside first_file file parent (with_place child)
        (map declared_of files.old.items) (map declared_of files.new.items)) }
{
    match parent {
        Some(message) => {
            push_nested(messages, first_message, message, child)?;
            Ok(())
        }
        None => {
            push_outside(files, first_file, file, child)?;
            Ok(())
        }
    }
}
