//! Enum types and their values.
ghost use Rattle.reflect_codec.specs.Written.{enum_bytes, enum_value_bytes, enum_range_bytes};
ghost use Rattle.reflect_codec.specs.Faults.{InEnum, InEnumValue, InRange};
ghost use Rattle.reflect_codec.specs.Meaning.{IsEnum, IsEnumRange, IsEnumValue};

use crate::backward::{Backward, WriteRecord};
use crate::fields::{Fields, ReadRecord};
use crate::options::OptionsOf;
use descriptor_records::{EnumDescriptorProto, EnumReservedRange, EnumValueDescriptorProto, tag};
use reflect_wire::WireError;
use std::alloc::{AllocError, Global};

impl ReadRecord for EnumDescriptorProto {
    ghost facts = { λ levels fs r. IsEnum levels fs r };

    ghost faults = { λ levels fs e. InEnum levels fs e };

    fn from_fields(alloc: Global, fields: &Fields<'_>) -> Result<EnumDescriptorProto, WireError> {
        Ok(EnumDescriptorProto {
            name: fields.last(alloc, tag::enumeration::NAME)?,
            value: fields.list(alloc, tag::enumeration::VALUE)?,
            options: fields.options(alloc, tag::enumeration::OPTIONS, OptionsOf::Enum)?,
            reserved_range: fields.list(alloc, tag::enumeration::RESERVED_RANGE)?,
            reserved_name: fields.list(alloc, tag::enumeration::RESERVED_NAME)?,
        })
    }
}

impl WriteRecord for EnumDescriptorProto {
    ghost bytes = { enum_bytes };

    fn put(&self, out: &mut Backward) -> Result<(), AllocError> {
        out.put_texts(tag::enumeration::RESERVED_NAME, &self.reserved_name)?;
        out.put_records(tag::enumeration::RESERVED_RANGE, &self.reserved_range)?;
        out.put_options(tag::enumeration::OPTIONS, &self.options)?;
        out.put_records(tag::enumeration::VALUE, &self.value)?;
        out.put_text(tag::enumeration::NAME, &self.name)?;
        Ok(())
    }
}

impl ReadRecord for EnumValueDescriptorProto {
    ghost facts = { λ levels fs r. IsEnumValue levels fs r };

    ghost faults = { λ levels fs e. InEnumValue levels fs e };

    fn from_fields(
        alloc: Global,
        fields: &Fields<'_>,
    ) -> Result<EnumValueDescriptorProto, WireError> {
        Ok(EnumValueDescriptorProto {
            name: fields.last(alloc, tag::enum_value::NAME)?,
            number: fields.last(alloc, tag::enum_value::NUMBER)?,
            options: fields.options(alloc, tag::enum_value::OPTIONS, OptionsOf::Other)?,
        })
    }
}

impl WriteRecord for EnumValueDescriptorProto {
    ghost bytes = { enum_value_bytes };

    fn put(&self, out: &mut Backward) -> Result<(), AllocError> {
        out.put_options(tag::enum_value::OPTIONS, &self.options)?;
        out.put_int32(tag::enum_value::NUMBER, self.number)?;
        out.put_text(tag::enum_value::NAME, &self.name)?;
        Ok(())
    }
}

impl ReadRecord for EnumReservedRange {
    ghost facts = { λ levels fs r. IsEnumRange levels fs r };

    ghost faults = { λ levels fs e. InRange levels fs e };

    fn from_fields(alloc: Global, fields: &Fields<'_>) -> Result<EnumReservedRange, WireError> {
        Ok(EnumReservedRange {
            start: fields.last(alloc, tag::reserved_range::START)?,
            end: fields.last(alloc, tag::reserved_range::END)?,
        })
    }
}

impl WriteRecord for EnumReservedRange {
    ghost bytes = { enum_range_bytes };

    fn put(&self, out: &mut Backward) -> Result<(), AllocError> {
        out.put_int32(tag::reserved_range::END, self.end)?;
        out.put_int32(tag::reserved_range::START, self.start)?;
        Ok(())
    }
}
