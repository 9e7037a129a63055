//! Options, whose bytes are kept, and from which the few that linking needs are read.
ghost use Rattle.std.specs.Prelude.{◌≡◌, unsigned_abs};
ghost use Rattle.reflect_codec.specs.Raw.{fields_view};
ghost use Rattle.reflect_codec.specs.Reading.{ReadsMeant, IsLastIf, values_at};
ghost use Rattle.reflect_codec.specs.Faults.{OneIf, OptionsFault, InNamePart, InUninterpretedOption};
ghost use Rattle.reflect_codec.specs.Meaning.{AreOptions, IsNamePart, IsUninterpretedOption, is_enum, is_field, is_message};

use crate::fields::{FieldValue, Fields, ReadRecord};
use descriptor_records::{NamePart, Options, UninterpretedOption, tag};
use reflect_wire::{MAX_LEVELS, WireError};
use std::alloc::Global;

/// What the options are of, by the option that linking needs of it.
#[derive(Clone, Copy)]
pub enum OptionsOf {
    Field,
    Enum,
    Message,
    Other,
}

impl OptionsOf {
    fn is_field(self) -> bool
        ensures { result ≡ is_field self }
    {
        matches!(self, OptionsOf::Field)
    }

    fn is_enum(self) -> bool
        ensures { result ≡ is_enum self }
    {
        matches!(self, OptionsOf::Enum)
    }

    fn is_message(self) -> bool
        ensures { result ≡ is_message self }
    {
        matches!(self, OptionsOf::Message)
    }
}

impl<'b> Fields<'b> {
    /// Options, of which further ones stand behind the first.
    ///
    /// They are a level of the record that holds them; the levels inside are counted from them.
    pub fn options(
        &self,
        alloc: Global,
        number: i32,
        of: OptionsOf,
    ) -> Result<Option<Options>, WireError>
        ensures { ReadsMeant (AreOptions of self.now.levels) (OptionsFault of self.now.levels)
            (values_at (unsigned_abs number) (fields_view self.now.list.items)) result }
    {
        match self.joined(alloc, number, MAX_LEVELS)? {
            Some(fields) => Ok(Some(Options {
                encoded: self.joined_bytes(alloc, number)?,
                packed: fields.last_if(of.is_field(), alloc, tag::options::PACKED)?,
                allow_alias: fields.last_if(of.is_enum(), alloc, tag::options::ALLOW_ALIAS)?,
                map_entry: fields.last_if(of.is_message(), alloc, tag::options::MAP_ENTRY)?,
                uninterpreted_option: fields.list(alloc, tag::UNINTERPRETED_OPTION)?,
            })),
            None => Ok(None),
        }
    }

    /// The last value of a field that is read only where it is wanted.
    fn last_if<T: FieldValue>(
        &self,
        wanted: bool,
        alloc: Global,
        number: i32,
    ) -> Result<Option<T>, WireError>
        ensures { ReadsMeant (IsLastIf wanted (T.means self.now.levels))
            (OneIf wanted (T.faults self.now.levels))
            (values_at (unsigned_abs number) (fields_view self.now.list.items)) result }
    {
        if wanted {
            self.last(alloc, number)
        } else {
            Ok(None)
        }
    }
}

impl ReadRecord for UninterpretedOption {
    ghost facts = { λ levels fs r. IsUninterpretedOption levels fs r };

    ghost faults = { λ levels fs e. InUninterpretedOption levels fs e };

    fn from_fields(alloc: Global, fields: &Fields<'_>) -> Result<UninterpretedOption, WireError> {
        Ok(UninterpretedOption {
            name: fields.list(alloc, tag::uninterpreted_option::NAME)?,
            identifier_value: fields.last(alloc, tag::uninterpreted_option::IDENTIFIER_VALUE)?,
            positive_int_value: fields.last(alloc, tag::uninterpreted_option::POSITIVE_INT_VALUE)?,
            negative_int_value: fields.last(alloc, tag::uninterpreted_option::NEGATIVE_INT_VALUE)?,
            double_value: fields.last(alloc, tag::uninterpreted_option::DOUBLE_VALUE)?,
            string_value: fields.last(alloc, tag::uninterpreted_option::STRING_VALUE)?,
            aggregate_value: fields.last(alloc, tag::uninterpreted_option::AGGREGATE_VALUE)?,
        })
    }
}

impl ReadRecord for NamePart {
    ghost facts = { λ levels fs r. IsNamePart levels fs r };

    ghost faults = { λ levels fs e. InNamePart levels fs e };

    fn from_fields(alloc: Global, fields: &Fields<'_>) -> Result<NamePart, WireError> {
        let name_part: Option<String> = fields.last(alloc, tag::name_part::NAME_PART)?;
        let is_extension: Option<bool> = fields.last(alloc, tag::name_part::IS_EXTENSION)?;
        Ok(NamePart {
            name_part: name_part.unwrap_or(String::new(alloc)),
            is_extension: is_extension.unwrap_or(false),
        })
    }
}
