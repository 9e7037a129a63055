//! The oneofs of proto3 fields that are declared `optional`.

ghost use Rattle.std.specs.Prelude.{◌∷◌, IfOk, map, string_bytes};
ghost use Rattle.std.specs.List.{flat_map};
ghost use Rattle.descriptor_records.specs.Content.{message_view, oneof_view};
ghost use Rattle.protox_message_records.specs.MessageRecords.{alone_at};
ghost use Rattle.protox_message_records.specs.SyntheticOneofs.{AreNamedAfter, IsFreed, IsNamedAfter, names_in};

use crate::member::tells_presence;
use crate::names::declared_names;
use descriptor_records::{DescriptorProto, OneofDescriptorProto};
use protox_field_records::{field_name, is_group};
use protox_tree::{MessageItem, Syntax};
use std::alloc::{AllocError, Global};
use std::collections::BTreeSet;

/// A oneof for each `optional` field of a proto3 message, of which this is the record so far.
pub fn synthetic_oneofs(
    alloc: Global,
    syntax: Syntax,
    items: &Vec<MessageItem>,
    message: &DescriptorProto,
) -> Result<Vec<OneofDescriptorProto>, AllocError>
    ensures { IfOk result (λ oneofs. AreNamedAfter (names_in (message_view message.now))
        (flat_map (alone_at syntax) items.now.items) (map oneof_view oneofs.items)) }
{
    let taken = declared_names(alloc, message)?;
    named_oneofs(alloc, syntax, items, &taken)
}

/// A oneof for each `optional` field of a proto3 message, with names that none of these is.
fn named_oneofs(
    alloc: Global,
    syntax: Syntax,
    items: &Vec<MessageItem>,
    taken: &BTreeSet<&str>,
) -> Result<Vec<OneofDescriptorProto>, AllocError>
    ensures { IfOk result (λ oneofs. AreNamedAfter (map (λ n. n.now) taken.now.keys)
        (flat_map (alone_at syntax) items.now.items) (map oneof_view oneofs.items)) }
{
    let mut oneofs = Vec::new(alloc);
    'each: for item in items {
        let MessageItem::Field(field) = item else {
            continue;
        };
        if !tells_presence(syntax, field.label) {
            continue;
        }
        let name = field_name(alloc, field.name.value.as_str(), is_group(&field.kind))?;
        oneofs.push(synthetic_oneof(alloc, name.as_str(), taken)?)?;
    }
    Ok(oneofs)
}

fn synthetic_oneof(
    alloc: Global,
    field: &str,
    taken: &BTreeSet<&str>,
) -> Result<OneofDescriptorProto, AllocError>
    ensures { IfOk result (λ oneof. IsNamedAfter (map (λ n. n.now) taken.now.keys) field.now
        (oneof_view oneof)) }
{
    Ok(OneofDescriptorProto {
        name: Some(oneof_name(alloc, field, taken)?),
        options: None,
    })
}

/// The name `_` and the field's name, with as many `X` in front as make it free.
fn oneof_name(alloc: Global, field: &str, taken: &BTreeSet<&str>) -> Result<String, AllocError>
    ensures { IfOk result (λ name. IsFreed (map (λ n. n.now) taken.now.keys) (95 ∷ field.now)
        (string_bytes name)) }
{
    let mut name = format!(in alloc; "_{field}")?;
    'letters: while taken.contains(name.as_str()) {
        name = format!(in alloc; "X{name}")?;
    }
    Ok(name)
}
