//! Fields, extensions and oneofs.
ghost use Rattle.reflect_codec.specs.Written.{field_bytes, oneof_bytes};
ghost use Rattle.reflect_codec.specs.Faults.{InField, InOneof};
ghost use Rattle.reflect_codec.specs.Meaning.{IsField, IsOneof};

use crate::backward::{Backward, WriteRecord};
use crate::fields::{Fields, ReadRecord};
use crate::options::OptionsOf;
use descriptor_records::{FieldDescriptorProto, OneofDescriptorProto, tag};
use reflect_wire::WireError;
use std::alloc::{AllocError, Global};

impl ReadRecord for FieldDescriptorProto {
    ghost facts = { λ levels fs r. IsField levels fs r };

    ghost faults = { λ levels fs e. InField levels fs e };

    fn from_fields(alloc: Global, fields: &Fields<'_>) -> Result<FieldDescriptorProto, WireError> {
        Ok(FieldDescriptorProto {
            name: fields.last(alloc, tag::field::NAME)?,
            number: fields.last(alloc, tag::field::NUMBER)?,
            label: fields.last(alloc, tag::field::LABEL)?,
            field_type: fields.last(alloc, tag::field::TYPE)?,
            type_name: fields.last(alloc, tag::field::TYPE_NAME)?,
            extendee: fields.last(alloc, tag::field::EXTENDEE)?,
            default_value: fields.last(alloc, tag::field::DEFAULT_VALUE)?,
            oneof_index: fields.last(alloc, tag::field::ONEOF_INDEX)?,
            json_name: fields.last(alloc, tag::field::JSON_NAME)?,
            options: fields.options(alloc, tag::field::OPTIONS, OptionsOf::Field)?,
            proto3_optional: fields.last(alloc, tag::field::PROTO3_OPTIONAL)?,
        })
    }
}

impl WriteRecord for FieldDescriptorProto {
    ghost bytes = { field_bytes };

    fn put(&self, out: &mut Backward) -> Result<(), AllocError> {
        out.put_bool(tag::field::PROTO3_OPTIONAL, self.proto3_optional)?;
        out.put_text(tag::field::JSON_NAME, &self.json_name)?;
        out.put_int32(tag::field::ONEOF_INDEX, self.oneof_index)?;
        out.put_options(tag::field::OPTIONS, &self.options)?;
        out.put_text(tag::field::DEFAULT_VALUE, &self.default_value)?;
        out.put_text(tag::field::TYPE_NAME, &self.type_name)?;
        out.put_int32(tag::field::TYPE, self.field_type)?;
        out.put_int32(tag::field::LABEL, self.label)?;
        out.put_int32(tag::field::NUMBER, self.number)?;
        out.put_text(tag::field::EXTENDEE, &self.extendee)?;
        out.put_text(tag::field::NAME, &self.name)?;
        Ok(())
    }
}

impl ReadRecord for OneofDescriptorProto {
    ghost facts = { λ levels fs r. IsOneof levels fs r };

    ghost faults = { λ levels fs e. InOneof levels fs e };

    fn from_fields(alloc: Global, fields: &Fields<'_>) -> Result<OneofDescriptorProto, WireError> {
        Ok(OneofDescriptorProto {
            name: fields.last(alloc, tag::oneof::NAME)?,
            options: fields.options(alloc, tag::oneof::OPTIONS, OptionsOf::Other)?,
        })
    }
}

impl WriteRecord for OneofDescriptorProto {
    ghost bytes = { oneof_bytes };

    fn put(&self, out: &mut Backward) -> Result<(), AllocError> {
        out.put_options(tag::oneof::OPTIONS, &self.options)?;
        out.put_text(tag::oneof::NAME, &self.name)?;
        Ok(())
    }
}
