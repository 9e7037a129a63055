//! Files and sets of files.
ghost use Rattle.reflect_codec.specs.Written.{set_bytes, file_bytes};
ghost use Rattle.reflect_codec.specs.Faults.{InSet, InFile};
ghost use Rattle.reflect_codec.specs.Meaning.{IsFile, IsSet};

use crate::backward::{Backward, WriteRecord};
use crate::fields::{Fields, ReadRecord};
use crate::message::{message_types, put_message_types};
use crate::options::OptionsOf;
use descriptor_records::{FileDescriptorProto, FileDescriptorSet, tag};
use reflect_wire::WireError;
use std::alloc::{AllocError, Global};

impl ReadRecord for FileDescriptorSet {
    ghost facts = { λ levels fs r. IsSet levels fs r };

    ghost faults = { λ levels fs e. InSet levels fs e };

    fn from_fields(alloc: Global, fields: &Fields<'_>) -> Result<FileDescriptorSet, WireError> {
        Ok(FileDescriptorSet {
            file: fields.list(alloc, tag::set::FILE)?,
        })
    }
}

impl WriteRecord for FileDescriptorSet {
    ghost bytes = { set_bytes };

    fn put(&self, out: &mut Backward) -> Result<(), AllocError> {
        out.put_records(tag::set::FILE, &self.file)?;
        Ok(())
    }
}

impl ReadRecord for FileDescriptorProto {
    ghost facts = { λ levels fs r. IsFile levels fs r };

    ghost faults = { λ levels fs e. InFile levels fs e };

    fn from_fields(alloc: Global, fields: &Fields<'_>) -> Result<FileDescriptorProto, WireError> {
        Ok(FileDescriptorProto {
            name: fields.last(alloc, tag::file::NAME)?,
            package: fields.last(alloc, tag::file::PACKAGE)?,
            dependency: fields.list(alloc, tag::file::DEPENDENCY)?,
            public_dependency: fields.int32s(alloc, tag::file::PUBLIC_DEPENDENCY)?,
            weak_dependency: fields.int32s(alloc, tag::file::WEAK_DEPENDENCY)?,
            message_type: message_types(alloc, fields, tag::file::MESSAGE_TYPE)?,
            enum_type: fields.list(alloc, tag::file::ENUM_TYPE)?,
            service: fields.list(alloc, tag::file::SERVICE)?,
            extension: fields.list(alloc, tag::file::EXTENSION)?,
            options: fields.options(alloc, tag::file::OPTIONS, OptionsOf::Other)?,
            source_code_info: fields.merged(alloc, tag::file::SOURCE_CODE_INFO)?,
            syntax: fields.last(alloc, tag::file::SYNTAX)?,
        })
    }
}

impl WriteRecord for FileDescriptorProto {
    ghost bytes = { file_bytes };

    fn put(&self, out: &mut Backward) -> Result<(), AllocError> {
        out.put_text(tag::file::SYNTAX, &self.syntax)?;
        out.put_int32s(tag::file::WEAK_DEPENDENCY, &self.weak_dependency)?;
        out.put_int32s(tag::file::PUBLIC_DEPENDENCY, &self.public_dependency)?;
        out.put_optional(tag::file::SOURCE_CODE_INFO, &self.source_code_info)?;
        out.put_options(tag::file::OPTIONS, &self.options)?;
        out.put_records(tag::file::EXTENSION, &self.extension)?;
        out.put_records(tag::file::SERVICE, &self.service)?;
        out.put_records(tag::file::ENUM_TYPE, &self.enum_type)?;
        put_message_types(tag::file::MESSAGE_TYPE, &self.message_type, out)?;
        out.put_texts(tag::file::DEPENDENCY, &self.dependency)?;
        out.put_text(tag::file::PACKAGE, &self.package)?;
        out.put_text(tag::file::NAME, &self.name)?;
        Ok(())
    }
}
