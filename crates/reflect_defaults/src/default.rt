//! What the texts of defaults say.

ghost use Rattle.std.specs.Prelude.{◌≡◌};
ghost use Rattle.descriptor_records.specs.declared.field.FieldType.TheVariants as types;
ghost use Rattle.reflect_defaults.specs.Defaults.{is_decimal, is_integer, SaysDefault};

use descriptor_records::FieldType;
use protox_lex::is_escaped;

/// What the text of a scalar field's default says.
#[derive(Clone, Copy, PartialEq, Debug)]
pub enum DefaultText {
    I64(i64),
    U64(u64),
    Bool(bool),
    /// The text itself.
    Text,
    /// The bytes that the text has once its escapes are read.
    Bytes,
    /// A floating-point number, whose text is not read.
    Float,
}

/// One or more decimal digits.
fn are_digits(text: &[u8]) -> bool
    ensures { result ≡ is_decimal text.now }
{
    for b in text {
        if !b.is_ascii_digit() {
            return false;
        }
    }
    !text.is_empty()
}

/// Decimal digits, which may have a `-` in front.
fn is_integer(text: &[u8]) -> bool
    ensures { result ≡ is_integer text.now }
{
    if !text.is_empty() && text[0] == b'-' {
        are_digits(&text[1..])
    } else {
        are_digits(text)
    }
}

fn signed_32(text: &str) -> Option<DefaultText>
    ensures { SaysDefault types.Int32 text.now result }
{
    if !is_integer(text.as_bytes()) {
        return None;
    }
    match text.parse::<i32>() {
        Ok(number) => Some(DefaultText::I64(i64::from(number))),
        Err(_) => None,
    }
}

fn signed_64(text: &str) -> Option<DefaultText>
    ensures { SaysDefault types.Int64 text.now result }
{
    if !is_integer(text.as_bytes()) {
        return None;
    }
    match text.parse::<i64>() {
        Ok(number) => Some(DefaultText::I64(number)),
        Err(_) => None,
    }
}

fn unsigned_32(text: &str) -> Option<DefaultText>
    ensures { SaysDefault types.Uint32 text.now result }
{
    if !are_digits(text.as_bytes()) {
        return None;
    }
    match text.parse::<u32>() {
        Ok(number) => Some(DefaultText::U64(u64::from(number))),
        Err(_) => None,
    }
}

fn unsigned_64(text: &str) -> Option<DefaultText>
    ensures { SaysDefault types.Uint64 text.now result }
{
    if !are_digits(text.as_bytes()) {
        return None;
    }
    match text.parse::<u64>() {
        Ok(number) => Some(DefaultText::U64(number)),
        Err(_) => None,
    }
}

fn truth(text: &str) -> Option<DefaultText>
    ensures { SaysDefault types.Bool text.now result }
{
    match text {
        "true" => Some(DefaultText::Bool(true)),
        "false" => Some(DefaultText::Bool(false)),
        _ => None,
    }
}

/// Reads the default of a field of a scalar type from its text, as `descriptor.proto` says of
/// `default_value`. None where the text is no value of the type, and for the types that are no
/// scalars.
///
/// Integers are decimal, with a `-` in front where the type has negative numbers; truth values are
/// `true` and `false`; bytes are escaped as in C.
pub fn read_default(field_type: FieldType, text: &str) -> Option<DefaultText>
    ensures { SaysDefault field_type text.now result }
{
    match field_type {
        FieldType::Int32 | FieldType::Sint32 | FieldType::Sfixed32 => signed_32(text),
        FieldType::Int64 | FieldType::Sint64 | FieldType::Sfixed64 => signed_64(text),
        FieldType::Uint32 | FieldType::Fixed32 => unsigned_32(text),
        FieldType::Uint64 | FieldType::Fixed64 => unsigned_64(text),
        FieldType::Bool => truth(text),
        FieldType::String => Some(DefaultText::Text),
        FieldType::Bytes if is_escaped(text.as_bytes()) => Some(DefaultText::Bytes),
        FieldType::Float | FieldType::Double => Some(DefaultText::Float),
        FieldType::Bytes | FieldType::Group | FieldType::Message | FieldType::Enum => None,
    }
}
