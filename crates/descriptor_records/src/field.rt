ghost use Rattle.std.specs.Prelude.{◌≡◌};
ghost use Rattle.descriptor_records.specs.Content.{field_view, oneof_view};
ghost use Rattle.descriptor_records.specs.Empty.{empty_field};
ghost use Rattle.descriptor_records.specs.FieldNumbers.{label_number, type_number, IsLabelOf, IsTypeOf};

use crate::options::Options;
use std::alloc::AllocError;

/// The highest number of a field, for which `max` stands in a range of a message.
pub const MAX_FIELD_NUMBER: i32 = 536_870_911;

/// A field, or an extension.
#[derive(PartialEq, Drop)]
pub struct FieldDescriptorProto {
    pub name: Option<String>,
    pub number: Option<i32>,
    /// A number of [`Label`].
    pub label: Option<i32>,
    /// A number of [`FieldType`]; with a `type_name` it may be missing until the file is linked.
    pub field_type: Option<i32>,
    /// The name of a message, group or enum type. Behind a leading dot it is a full name.
    pub type_name: Option<String>,
    /// Of an extension, the name of the extended type.
    pub extendee: Option<String>,
    /// The default as text; bytes are escaped as in C.
    pub default_value: Option<String>,
    /// An index into the message's `oneof_decl`.
    pub oneof_index: Option<i32>,
    pub json_name: Option<String>,
    pub options: Option<Options>,
    /// The field of a proto3 file was declared `optional`.
    pub proto3_optional: Option<bool>,
}

impl FieldDescriptorProto {
    /// A field without a name and without content. Takes no memory.
    pub fn new() -> FieldDescriptorProto
        ensures { field_view result ≡ empty_field }
    {
        FieldDescriptorProto {
            name: None,
            number: None,
            label: None,
            field_type: None,
            type_name: None,
            extendee: None,
            default_value: None,
            oneof_index: None,
            json_name: None,
            options: None,
            proto3_optional: None,
        }
    }
}

/// A group of fields of which at most one is set.
#[derive(PartialEq, Drop)]
pub struct OneofDescriptorProto {
    pub name: Option<String>,
    pub options: Option<Options>,
}

/// How often a field may stand.
#[derive(Clone, Copy, PartialEq, Eq, Debug)]
pub enum Label {
    Optional = 1,
    Required = 2,
    Repeated = 3,
}

impl Label {
    /// The number that stands for the label in a record.
    #[inline]
    pub fn number(self) -> i32
        ensures { result ≡ label_number self }
    {
        self as i32
    }

    /// The label of a number, if there is one.
    #[inline]
    pub fn from_number(number: i32) -> Option<Label>
        ensures { IsLabelOf number result }
    {
        match number {
            1 => Some(Label::Optional),
            2 => Some(Label::Required),
            3 => Some(Label::Repeated),
            _ => None,
        }
    }
}

/// What a field holds.
#[derive(Clone, Copy, PartialEq, Eq, Debug)]
pub enum FieldType {
    Double = 1,
    Float = 2,
    Int64 = 3,
    Uint64 = 4,
    Int32 = 5,
    Fixed64 = 6,
    Fixed32 = 7,
    Bool = 8,
    String = 9,
    Group = 10,
    Message = 11,
    Bytes = 12,
    Uint32 = 13,
    Enum = 14,
    Sfixed32 = 15,
    Sfixed64 = 16,
    Sint32 = 17,
    Sint64 = 18,
}

impl FieldType {
    /// The number that stands for the type in a record.
    #[inline]
    pub fn number(self) -> i32
        ensures { result ≡ type_number self }
    {
        self as i32
    }

    /// The type of a number, if there is one.
    #[inline]
    pub fn from_number(number: i32) -> Option<FieldType>
        ensures { IsTypeOf number result }
    {
        match number {
            1 => Some(FieldType::Double),
            2 => Some(FieldType::Float),
            3 => Some(FieldType::Int64),
            4 => Some(FieldType::Uint64),
            5 => Some(FieldType::Int32),
            6 => Some(FieldType::Fixed64),
            7 => Some(FieldType::Fixed32),
            8 => Some(FieldType::Bool),
            9 => Some(FieldType::String),
            10 => Some(FieldType::Group),
            11 => Some(FieldType::Message),
            12 => Some(FieldType::Bytes),
            13 => Some(FieldType::Uint32),
            14 => Some(FieldType::Enum),
            15 => Some(FieldType::Sfixed32),
            16 => Some(FieldType::Sfixed64),
            17 => Some(FieldType::Sint32),
            18 => Some(FieldType::Sint64),
            _ => None,
        }
    }
}

impl Clone for FieldDescriptorProto {
    ghost is_clone = { λ a b. field_view b ≡ field_view a };

    fn clone(&self) -> Result<FieldDescriptorProto, AllocError> {
        Ok(FieldDescriptorProto {
            name: self.name.clone()?,
            number: self.number,
            label: self.label,
            field_type: self.field_type,
            type_name: self.type_name.clone()?,
            extendee: self.extendee.clone()?,
            default_value: self.default_value.clone()?,
            oneof_index: self.oneof_index,
            json_name: self.json_name.clone()?,
            options: self.options.clone()?,
            proto3_optional: self.proto3_optional,
        })
    }
}

impl Clone for OneofDescriptorProto {
    ghost is_clone = { λ a b. oneof_view b ≡ oneof_view a };

    fn clone(&self) -> Result<OneofDescriptorProto, AllocError> {
        Ok(OneofDescriptorProto {
            name: self.name.clone()?,
            options: self.options.clone()?,
        })
    }
}
