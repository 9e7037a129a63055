ghost use Rattle.std.specs.Prelude.{◌≡◌};
ghost use Rattle.descriptor_records.specs.Content.{double_view, name_view, option_view, options_view};
ghost use Rattle.descriptor_records.specs.Empty.{empty_option, empty_options};

use std::alloc::{AllocError, Global};

/// The options of one declaration, of whatever kind it is.
///
/// A declaration's options are a message of a type that `descriptor.proto` defines and that anyone
/// may extend. So they are kept as that message's wire bytes; beside these stand the few that
/// linking needs, and the options that a source wrote and that no type has read yet.
#[derive(PartialEq, Drop)]
pub struct Options {
    /// The wire bytes of the settled options.
    pub encoded: Vec<u8>,
    /// Of a field: a list of numbers is written as one record.
    pub packed: Option<bool>,
    /// Of an enum: several names may have one number.
    pub allow_alias: Option<bool>,
    /// Of a message: it is the type of a map's entries.
    pub map_entry: Option<bool>,
    /// Options as they were written, which no type has read yet.
    pub uninterpreted_option: Vec<UninterpretedOption>,
}

impl Options {
    /// No options. Takes no memory.
    pub fn new(alloc: Global) -> Options
        ensures { options_view result ≡ empty_options }
    {
        Options {
            encoded: Vec::new(alloc),
            packed: None,
            allow_alias: None,
            map_entry: None,
            uninterpreted_option: Vec::new(alloc),
        }
    }
}

/// An option as it was written.
#[derive(PartialEq, Drop)]
pub struct UninterpretedOption {
    pub name: Vec<NamePart>,
    pub identifier_value: Option<String>,
    pub positive_int_value: Option<u64>,
    pub negative_int_value: Option<i64>,
    pub double_value: Option<DoubleValue>,
    pub string_value: Option<Vec<u8>>,
    /// The tokens between the braces of `{ .. }`, with one space between each two.
    pub aggregate_value: Option<String>,
}

impl UninterpretedOption {
    /// An option without a name and without a value. Takes no memory.
    pub fn new(alloc: Global) -> UninterpretedOption
        ensures { option_view result ≡ empty_option }
    {
        UninterpretedOption {
            name: Vec::new(alloc),
            identifier_value: None,
            positive_int_value: None,
            negative_int_value: None,
            double_value: None,
            string_value: None,
            aggregate_value: None,
        }
    }
}

/// A part of an option's name.
#[derive(PartialEq, Drop)]
pub struct NamePart {
    pub name_part: String,
    /// The part stood in parentheses, and names an extension.
    pub is_extension: bool,
}

/// A floating-point number that nothing has read.
#[derive(PartialEq, Drop)]
pub enum DoubleValue {
    /// A literal of a source, with its sign.
    Text(String),
    /// The 64 bits of a descriptor set.
    Bits(u64),
}

impl Clone for Options {
    ghost is_clone = { λ a b. options_view b ≡ options_view a };

    fn clone(&self) -> Result<Options, AllocError> {
        Ok(Options {
            encoded: self.encoded.clone()?,
            packed: self.packed,
            allow_alias: self.allow_alias,
            map_entry: self.map_entry,
            uninterpreted_option: self.uninterpreted_option.clone()?,
        })
    }
}

impl Clone for UninterpretedOption {
    ghost is_clone = { λ a b. option_view b ≡ option_view a };

    fn clone(&self) -> Result<UninterpretedOption, AllocError> {
        Ok(UninterpretedOption {
            name: self.name.clone()?,
            identifier_value: self.identifier_value.clone()?,
            positive_int_value: self.positive_int_value,
            negative_int_value: self.negative_int_value,
            double_value: self.double_value.clone()?,
            string_value: self.string_value.clone()?,
            aggregate_value: self.aggregate_value.clone()?,
        })
    }
}

impl Clone for NamePart {
    ghost is_clone = { λ a b. name_view b ≡ name_view a };

    fn clone(&self) -> Result<NamePart, AllocError> {
        Ok(NamePart {
            name_part: self.name_part.clone()?,
            is_extension: self.is_extension,
        })
    }
}

impl Clone for DoubleValue {
    ghost is_clone = { λ a b. double_view b ≡ double_view a };

    fn clone(&self) -> Result<DoubleValue, AllocError> {
        match self {
            DoubleValue::Text(text) => Ok(DoubleValue::Text(text.clone()?)),
            DoubleValue::Bits(bits) => Ok(DoubleValue::Bits(*bits)),
        }
    }
}
