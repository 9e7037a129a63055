//! What an option's value says to a field of a kind.

ghost use Rattle.std.specs.Prelude.{◌≡◌, IfErr, IfOk, IfSome, option_map, string_bytes};
ghost use Rattle.std.specs.Option.{IsSome, option_and_then};
ghost use Rattle.descriptor_records.specs.Content.{OptionContent, option_view};
ghost use Rattle.option_setter.specs.OptionNames.{UnlessMemory};
ghost use Rattle.option_setter.specs.OptionValues.{IsSaid, MakesSaid, SaysNoText, SaysNothing, number, number_64, plain_said, without_sign};
ghost use Rattle.option_setter.specs.SetOptions.{RefusesValue};
ghost use Rattle.option_setter.specs.WrittenNames.{name_told};
ghost use Rattle.reflect_format.specs.Enums.{number_named};
ghost use Rattle.reflect_format.specs.Kinds.{single_of};
ghost use Rattle.protobuf_model.specs.Types.{bytes, string};
ghost use Rattle.reflect_pool.specs.declared.kind.Kind.{Kind};
ghost use Rattle.text_model.specs.Scalars.{string_in};

use descriptor_records::UninterpretedOption;
use option_parts::{OptionErrorKind, truth_said};
use reflect_format::Parser;
use reflect_link::{EnumDescriptor, Kind, MessageDescriptor};
use reflect_message::{DynamicMessage, Value};
use std::alloc::{AllocError, Global};
use text_error::{ParseError, ParseErrorKind};

/// Why an option's value is none of its field.
#[derive(Drop)]
pub enum ValueFault {
    /// It is no value of the field's kind.
    Unsuited,
    /// The text in its braces is refused.
    Text(ParseError),
    /// Want of memory.
    Memory,
}

impl From<AllocError> for ValueFault {
    ghost use Rattle.option_setter.specs.declared.option_value.ValueFault.TheVariants.{Memory};

    ghost from_gives = { λ _ e. e ≡ Memory };

    fn from(_error: AllocError) -> ValueFault {
        ValueFault::Memory
    }
}

impl ValueFault {
    /// The fault of the option of this name.
    pub fn of_option(self, name: String) -> OptionErrorKind
        ensures refused { (k : Kind) (o : OptionContent) → SaysNothing k o self
            → UnlessMemory (RefusesValue k o) result }
        ensures named { IfSome (name_told result) (λ told. told ≡ string_bytes name) }
    {
        match self {
            ValueFault::Unsuited => OptionErrorKind::InvalidOptionType { name },
            ValueFault::Text(error) => OptionErrorKind::InvalidMessageOption { name, error },
            ValueFault::Memory => OptionErrorKind::Memory,
        }
    }
}

/// The identifier that the option's value is.
fn identifier(option: &UninterpretedOption) -> Option<&str>
    ensures { option_map (λ w. w.now) result ≡ (option_view option.now).identifier_value }
{
    match &option.identifier_value {
        Some(name) => Some(name.as_str()),
        None => None,
    }
}

/// The number that the option's value is. Where there are two, the positive one counts.
fn signed(option: &UninterpretedOption) -> Option<i64>
    ensures { result ≡ number_64 (option_view option.now) }
{
    match option.positive_int_value {
        Some(number) => i64::try_from(number).ok(),
        None => option.negative_int_value,
    }
}

/// The number without a sign that the option's value is.
fn unsigned(option: &UninterpretedOption) -> Option<u64>
    ensures { result ≡ option_and_then without_sign (number (option_view option.now)) }
{
    match option.positive_int_value {
        Some(number) => Some(number),
        None => u64::try_from(option.negative_int_value?).ok(),
    }
}

/// The number of the value that the option names.
fn enum_number(option: &UninterpretedOption, kind: EnumDescriptor<'_>) -> Option<i32>
    ensures { result ≡ option_and_then (number_named kind.entry)
        (option_view option.now).identifier_value }
{
    Some(kind.get_value_by_name(identifier(option)?)?.number())
}

/// The value of a kind that takes no memory.
fn plain_value<'p>(option: &UninterpretedOption, kind: Kind<'p>) -> Option<Value<'p>>
    ensures said { option_and_then single_of result
        ≡ plain_said kind.entry (option_view option.now) }
    ensures single { IfSome result (λ v. IsSome (single_of v)) }
{
    match kind {
        Kind::Bool => Some(Value::Bool(truth_said(option)?)),
        Kind::Int32 | Kind::Sint32 | Kind::Sfixed32 => {
            Some(Value::I32(i32::try_from(signed(option)?).ok()?))
        }
        Kind::Int64 | Kind::Sint64 | Kind::Sfixed64 => Some(Value::I64(signed(option)?)),
        Kind::Uint32 | Kind::Fixed32 => Some(Value::U32(u32::try_from(unsigned(option)?).ok()?)),
        Kind::Uint64 | Kind::Fixed64 => Some(Value::U64(unsigned(option)?)),
        Kind::Enum(kind) => Some(Value::EnumNumber(enum_number(option, kind)?)),
        _ => None,
    }
}

/// The bytes of the string that the option's value is.
fn bytes_said(option: &UninterpretedOption) -> Option<&[u8]>
    ensures { option_map (λ b. b.now) result ≡ (option_view option.now).string_value }
{
    match &option.string_value {
        Some(bytes) => Some(bytes.as_slice()),
        None => None,
    }
}

/// The string that the option's value is, if it is UTF-8.
fn text_value<'p>(
    alloc: Global,
    option: &UninterpretedOption,
) -> Result<Option<Value<'p>>, AllocError>
    ensures said { IfOk result (λ v. option_and_then single_of v
        ≡ option_and_then (string_in string) (option_view option.now).string_value) }
    ensures single { IfOk result (λ v. IfSome v (λ v. IsSome (single_of v))) }
{
    let Some(bytes) = bytes_said(option) else {
        return Ok(None);
    };
    match str::from_utf8(bytes) {
        Ok(text) => Ok(Some(Value::String(String::from_str(alloc, text)?))),
        Err(_) => Ok(None),
    }
}

/// The bytes that the option's value is.
fn bytes_value<'p>(
    alloc: Global,
    option: &UninterpretedOption,
) -> Result<Option<Value<'p>>, AllocError>
    ensures said { IfOk result (λ v. option_and_then single_of v
        ≡ option_and_then (string_in bytes) (option_view option.now).string_value) }
    ensures single { IfOk result (λ v. IfSome v (λ v. IsSome (single_of v))) }
{
    match bytes_said(option) {
        Some(bytes) => Ok(Some(Value::Bytes(Vec::from_slice(alloc, bytes)?))),
        None => Ok(None),
    }
}

/// The message that the text in the option's braces makes.
fn aggregate<'p>(
    alloc: Global,
    option: &UninterpretedOption,
    kind: MessageDescriptor<'p>,
) -> Result<DynamicMessage<'p>, ValueFault>
    ensures made { IfOk result (MakesSaid kind.entry (option_view option.now)) }
    ensures nothing { IfErr result (SaysNoText kind.entry (option_view option.now)) }
{
    let Some(text) = &option.aggregate_value else {
        return Err(ValueFault::Unsuited);
    };
    let mut message = DynamicMessage::new(alloc, kind);
    match Parser::new(alloc, text.as_str()).parse_message(&mut message) {
        Ok(()) => Ok(message),
        Err(error) => match error.kind() {
            ParseErrorKind::Memory => Err(ValueFault::Memory),
            _ => Err(ValueFault::Text(error)),
        },
    }
}

/// One value of the kind that the option's value says: truth values by `true` and `false`, integers
/// in range, strings as UTF-8, bytes, enums by name, messages in braces.
///
/// `Unsuited` where it says none, `Text` where what stands in braces makes none, `Memory`.
pub fn option_value<'p>(
    alloc: Global,
    option: &UninterpretedOption,
    kind: Kind<'p>,
) -> Result<Value<'p>, ValueFault>
    ensures said { IfOk result (IsSaid kind.entry (option_view option.now)) }
    ensures nothing { IfErr result (SaysNothing kind.entry (option_view option.now)) }
{
    let said = match kind {
        Kind::String => text_value(alloc, option)?,
        Kind::Bytes => bytes_value(alloc, option)?,
        Kind::Message(kind) => return Ok(Value::Message(aggregate(alloc, option, kind)?)),
        _ => plain_value(option, kind),
    };
    said.ok_or(ValueFault::Unsuited)
}
