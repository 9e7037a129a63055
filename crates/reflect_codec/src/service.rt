//! Services and their methods.
ghost use Rattle.reflect_codec.specs.Written.{service_bytes, method_bytes};
ghost use Rattle.reflect_codec.specs.Faults.{InMethod, InService};
ghost use Rattle.reflect_codec.specs.Meaning.{IsMethod, IsService};

use crate::backward::{Backward, WriteRecord};
use crate::fields::{Fields, ReadRecord};
use crate::options::OptionsOf;
use descriptor_records::{MethodDescriptorProto, ServiceDescriptorProto, tag};
use reflect_wire::WireError;
use std::alloc::{AllocError, Global};

impl ReadRecord for ServiceDescriptorProto {
    ghost facts = { λ levels fs r. IsService levels fs r };

    ghost faults = { λ levels fs e. InService levels fs e };

    fn from_fields(
        alloc: Global,
        fields: &Fields<'_>,
    ) -> Result<ServiceDescriptorProto, WireError> {
        Ok(ServiceDescriptorProto {
            name: fields.last(alloc, tag::service::NAME)?,
            method: fields.list(alloc, tag::service::METHOD)?,
            options: fields.options(alloc, tag::service::OPTIONS, OptionsOf::Other)?,
        })
    }
}

impl WriteRecord for ServiceDescriptorProto {
    ghost bytes = { service_bytes };

    fn put(&self, out: &mut Backward) -> Result<(), AllocError> {
        out.put_options(tag::service::OPTIONS, &self.options)?;
        out.put_records(tag::service::METHOD, &self.method)?;
        out.put_text(tag::service::NAME, &self.name)?;
        Ok(())
    }
}

impl ReadRecord for MethodDescriptorProto {
    ghost facts = { λ levels fs r. IsMethod levels fs r };

    ghost faults = { λ levels fs e. InMethod levels fs e };

    fn from_fields(alloc: Global, fields: &Fields<'_>) -> Result<MethodDescriptorProto, WireError> {
        Ok(MethodDescriptorProto {
            name: fields.last(alloc, tag::method::NAME)?,
            input_type: fields.last(alloc, tag::method::INPUT_TYPE)?,
            output_type: fields.last(alloc, tag::method::OUTPUT_TYPE)?,
            options: fields.options(alloc, tag::method::OPTIONS, OptionsOf::Other)?,
            client_streaming: fields.last(alloc, tag::method::CLIENT_STREAMING)?,
            server_streaming: fields.last(alloc, tag::method::SERVER_STREAMING)?,
        })
    }
}

impl WriteRecord for MethodDescriptorProto {
    ghost bytes = { method_bytes };

    fn put(&self, out: &mut Backward) -> Result<(), AllocError> {
        out.put_bool(tag::method::SERVER_STREAMING, self.server_streaming)?;
        out.put_bool(tag::method::CLIENT_STREAMING, self.client_streaming)?;
        out.put_options(tag::method::OPTIONS, &self.options)?;
        out.put_text(tag::method::OUTPUT_TYPE, &self.output_type)?;
        out.put_text(tag::method::INPUT_TYPE, &self.input_type)?;
        out.put_text(tag::method::NAME, &self.name)?;
        Ok(())
    }
}
