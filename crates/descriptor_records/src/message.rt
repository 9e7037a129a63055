ghost use Rattle.std.specs.Prelude.{◌≡◌, IfOk, map};
ghost use Rattle.descriptor_records.specs.Content.{extension_range_view, message_view};
ghost use Rattle.descriptor_records.specs.Empty.{empty_message};

use crate::enums::EnumDescriptorProto;
use crate::field::{FieldDescriptorProto, OneofDescriptorProto};
use crate::options::Options;
use std::alloc::{AllocError, Global};

/// A message type, with the types that are declared in it.
#[derive(PartialEq, Drop)]
pub struct DescriptorProto {
    pub name: Option<String>,
    pub field: Vec<FieldDescriptorProto>,
    /// The extensions that are declared in the message, of whatever type they extend.
    pub extension: Vec<FieldDescriptorProto>,
    pub nested_type: Vec<DescriptorProto>,
    pub enum_type: Vec<EnumDescriptorProto>,
    pub extension_range: Vec<ExtensionRange>,
    pub oneof_decl: Vec<OneofDescriptorProto>,
    pub options: Option<Options>,
    pub reserved_range: Vec<ReservedRange>,
    pub reserved_name: Vec<String>,
}

impl DescriptorProto {
    /// A message type without a name and without content. Takes no memory.
    pub fn new(alloc: Global) -> DescriptorProto
        ensures { message_view result ≡ empty_message }
    {
        DescriptorProto {
            name: None,
            field: Vec::new(alloc),
            extension: Vec::new(alloc),
            nested_type: Vec::new(alloc),
            enum_type: Vec::new(alloc),
            extension_range: Vec::new(alloc),
            oneof_decl: Vec::new(alloc),
            options: None,
            reserved_range: Vec::new(alloc),
            reserved_name: Vec::new(alloc),
        }
    }

    /// A copy, with the same content.
    #[cycle(clone)]
    pub fn clone(&self) -> Result<DescriptorProto, AllocError>
        ensures { IfOk result (λ m. message_view m ≡ message_view self.now) }
    {
        Ok(DescriptorProto {
            name: self.name.clone()?,
            field: self.field.clone()?,
            extension: self.extension.clone()?,
            nested_type: clone_messages(&self.nested_type)?,
            enum_type: self.enum_type.clone()?,
            extension_range: self.extension_range.clone()?,
            oneof_decl: self.oneof_decl.clone()?,
            options: self.options.clone()?,
            reserved_range: Vec::from_slice(
                *self.reserved_range.allocator(),
                &self.reserved_range,
            )?,
            reserved_name: self.reserved_name.clone()?,
        })
    }
}

/// Copies of message types, with the same content.
#[cycle(clone)]
pub fn clone_messages(messages: &Vec<DescriptorProto>) -> Result<Vec<DescriptorProto>, AllocError>
    ensures { IfOk result (λ ms. map message_view ms.items ≡ map message_view messages.now.items) }
{
    let mut copies = Vec::with_capacity(*messages.allocator(), messages.len())?;
    for message in messages {
        copies.push(message.clone()?)?;
    }
    Ok(copies)
}

/// Field numbers that extensions may take: from `start`, below `end`.
#[derive(PartialEq, Drop)]
pub struct ExtensionRange {
    pub start: Option<i32>,
    pub end: Option<i32>,
    pub options: Option<Options>,
}

/// Field numbers that no field may take: from `start`, below `end`.
#[derive(Clone, Copy, PartialEq, Eq)]
pub struct ReservedRange {
    pub start: Option<i32>,
    pub end: Option<i32>,
}

impl Clone for ExtensionRange {
    ghost is_clone = { λ a b. extension_range_view b ≡ extension_range_view a };

    fn clone(&self) -> Result<ExtensionRange, AllocError> {
        Ok(ExtensionRange {
            start: self.start,
            end: self.end,
            options: self.options.clone()?,
        })
    }
}
