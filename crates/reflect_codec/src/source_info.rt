//! Where declarations stand in their source.
ghost use Rattle.reflect_codec.specs.Written.{source_info_bytes, location_bytes};
ghost use Rattle.reflect_codec.specs.Faults.{InLocation, InSourceInfo};
ghost use Rattle.reflect_codec.specs.Meaning.{IsLocation, IsSourceInfo};

use crate::backward::{Backward, WriteRecord};
use crate::fields::{Fields, ReadRecord};
use descriptor_records::{Location, SourceCodeInfo, tag};
use reflect_wire::WireError;
use std::alloc::{AllocError, Global};

impl ReadRecord for SourceCodeInfo {
    ghost facts = { λ levels fs r. IsSourceInfo levels fs r };

    ghost faults = { λ levels fs e. InSourceInfo levels fs e };

    fn from_fields(alloc: Global, fields: &Fields<'_>) -> Result<SourceCodeInfo, WireError> {
        Ok(SourceCodeInfo {
            location: fields.list(alloc, tag::source_info::LOCATION)?,
        })
    }
}

impl WriteRecord for SourceCodeInfo {
    ghost bytes = { source_info_bytes };

    fn put(&self, out: &mut Backward) -> Result<(), AllocError> {
        out.put_records(tag::source_info::LOCATION, &self.location)?;
        Ok(())
    }
}

impl ReadRecord for Location {
    ghost facts = { λ levels fs r. IsLocation levels fs r };

    ghost faults = { λ levels fs e. InLocation levels fs e };

    fn from_fields(alloc: Global, fields: &Fields<'_>) -> Result<Location, WireError> {
        Ok(Location {
            path: fields.int32s(alloc, tag::location::PATH)?,
            span: fields.int32s(alloc, tag::location::SPAN)?,
            leading_comments: fields.last(alloc, tag::location::LEADING_COMMENTS)?,
            trailing_comments: fields.last(alloc, tag::location::TRAILING_COMMENTS)?,
            leading_detached_comments: fields.list(
                alloc,
                tag::location::LEADING_DETACHED_COMMENTS,
            )?,
        })
    }
}

impl WriteRecord for Location {
    ghost bytes = { location_bytes };

    fn put(&self, out: &mut Backward) -> Result<(), AllocError> {
        out.put_texts(
            tag::location::LEADING_DETACHED_COMMENTS,
            &self.leading_detached_comments,
        )?;
        out.put_text(tag::location::TRAILING_COMMENTS, &self.trailing_comments)?;
        out.put_text(tag::location::LEADING_COMMENTS, &self.leading_comments)?;
        out.put_packed(tag::location::SPAN, &self.span)?;
        out.put_packed(tag::location::PATH, &self.path)?;
        Ok(())
    }
}
