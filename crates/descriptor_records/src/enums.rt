ghost use Rattle.std.specs.Prelude.{◌≡◌};
ghost use Rattle.descriptor_records.specs.Content.{enum_value_view, enum_view};
ghost use Rattle.descriptor_records.specs.Empty.{empty_enum};

use crate::options::Options;
use std::alloc::{AllocError, Global};

/// An enum type.
#[derive(PartialEq, Drop)]
pub struct EnumDescriptorProto {
    pub name: Option<String>,
    pub value: Vec<EnumValueDescriptorProto>,
    pub options: Option<Options>,
    pub reserved_range: Vec<EnumReservedRange>,
    pub reserved_name: Vec<String>,
}

impl EnumDescriptorProto {
    /// An enum type without a name and without values. Takes no memory.
    pub fn new(alloc: Global) -> EnumDescriptorProto
        ensures { enum_view result ≡ empty_enum }
    {
        EnumDescriptorProto {
            name: None,
            value: Vec::new(alloc),
            options: None,
            reserved_range: Vec::new(alloc),
            reserved_name: Vec::new(alloc),
        }
    }
}

/// A value of an enum type.
#[derive(PartialEq, Drop)]
pub struct EnumValueDescriptorProto {
    pub name: Option<String>,
    pub number: Option<i32>,
    pub options: Option<Options>,
}

/// Numbers that no value of an enum may take: from `start` to `end`, both included.
#[derive(Clone, Copy, PartialEq, Eq)]
pub struct EnumReservedRange {
    pub start: Option<i32>,
    pub end: Option<i32>,
}

impl Clone for EnumDescriptorProto {
    ghost is_clone = { λ a b. enum_view b ≡ enum_view a };

    fn clone(&self) -> Result<EnumDescriptorProto, AllocError> {
        Ok(EnumDescriptorProto {
            name: self.name.clone()?,
            value: self.value.clone()?,
            options: self.options.clone()?,
            reserved_range: Vec::from_slice(
                *self.reserved_range.allocator(),
                &self.reserved_range,
            )?,
            reserved_name: self.reserved_name.clone()?,
        })
    }
}

impl Clone for EnumValueDescriptorProto {
    ghost is_clone = { λ a b. enum_value_view b ≡ enum_value_view a };

    fn clone(&self) -> Result<EnumValueDescriptorProto, AllocError> {
        Ok(EnumValueDescriptorProto {
            name: self.name.clone()?,
            number: self.number,
            options: self.options.clone()?,
        })
    }
}
