//! One payload: read, translated, written.

ghost use Rattle.std.specs.Prelude.{◌≡◌, ◌⊎◌, true, false, ◌∷◌, ◌++◌, ◌-◌, [], ℕ, List, length, slice_index, IfOk, IfErr, IfSome, OnOk, string_bytes, IsUtf8, Ok, Some};
ghost use Rattle.std.specs.List.{AllPass};
ghost use Rattle.std.specs.Io.KnownBytes.{Appends, IsAtEnd};
ghost use Rattle.hex.specs.Hex.{decode_of};
ghost use Rattle.schema_core.specs.Serving.{Answers, IsNoHex, IsPayload, IsTrimmed, RefusesInput, is_margin, shown};
ghost use Rattle.schema_core.specs.Texts.{told};
ghost use Rattle.schema_core.specs.declared.payload.Fault.TheVariants as fault;

use crate::error::SchemaError;
use crate::schema::Schema;
use hex::FromHexError;
use schema_words::Action;
use std::alloc::{AllocError, AllocFailed, Global};
use std::error::Error;
use std::fmt;
use std::io::{ErrorKind, Read, Write};

/// Why a payload was not answered.
#[derive(Debug, Drop)]
pub enum Fault {
    /// The schema refuses it.
    Schema(SchemaError),
    /// Wire bytes were to come as hexadecimal text, and what came is none.
    NotHex,
    /// A text was to come, and what came is not UTF-8.
    NotUtf8,
    /// The input cannot be read.
    Read,
    /// The output cannot be written.
    Write,
    /// Want of memory.
    Memory,
}

impl fmt::Display for Fault {
    ghost output = { λ f. Some (told f) };

    fn fmt<W: fmt::Write>(&self, f: &mut fmt::Formatter<W>) -> fmt::Result {
        match self {
            Fault::Schema(error) => write!(f, "{error}"),
            Fault::NotHex => f.write_str("the input is not hexadecimal"),
            Fault::NotUtf8 => f.write_str("the input is not UTF-8"),
            Fault::Read => f.write_str("the input cannot be read"),
            Fault::Write => f.write_str("the output cannot be written"),
            Fault::Memory => f.write_str("out of memory"),
        }
    }
}

impl Error for Fault {}

impl From<SchemaError> for Fault {
    ghost use Rattle.schema_core.specs.Serving.{of_schema};

    ghost from_gives = { λ error f. f ≡ of_schema error };

    fn from(error: SchemaError) -> Fault {
        match error {
            SchemaError::Memory => Fault::Memory,
            other => Fault::Schema(other),
        }
    }
}

impl From<AllocError> for Fault {
    ghost from_gives = { λ _ f. f ≡ fault.Memory };

    fn from(_error: AllocError) -> Fault {
        Fault::Memory
    }
}

impl<T: Drop> From<AllocFailed<T>> for Fault {
    ghost from_gives = { λ _ f. f ≡ fault.Memory };

    fn from(_error: AllocFailed<T>) -> Fault {
        Fault::Memory
    }
}

/// All bytes of a reader.
fn read_all<R: Read>(alloc: Global, input: &mut R) -> Result<Vec<u8>, Fault>
    ensures bytes { IfOk result (λ bytes. IfSome (R.remaining input.old)
        (λ given. bytes.items ≡ given)) }
    ensures end { OnOk result (IsAtEnd (R.remaining input.new)) }
    ensures err { IfErr result (λ f. (f ≡ fault.Read) ⊎ (f ≡ fault.Memory)) }
{
    let mut bytes = Vec::new(alloc);
    match input.read_to_end(&mut bytes) {
        Ok(_) => Ok(bytes),
        Err(error) => match error.kind() {
            ErrorKind::OutOfMemory => Err(Fault::Memory),
            _ => Err(Fault::Read),
        },
    }
}

fn write_all<W: Write>(output: &mut W, bytes: &[u8]) -> Result<(), Fault>
    ensures ok { OnOk result (Appends (W.contents output.old) (W.contents output.new) bytes.now) }
    ensures err { IfErr result (λ f. f ≡ fault.Write) }
{
    if output.write_all(bytes).is_ok() && output.flush().is_ok() {
        Ok(())
    } else {
        Err(Fault::Write)
    }
}

/// Bytes as text.
fn utf8(bytes: &[u8]) -> Result<&str, Fault>
    ensures ok { IfOk result (λ text. (text.now ≡ bytes.now) × IsUtf8 bytes.now) }
    ensures err { IfErr result (λ f. (f ≡ fault.NotUtf8) × ¬ IsUtf8 bytes.now) }
{
    str::from_utf8(bytes).map_err(|_| Fault::NotUtf8)
}

/// A space or a line end's byte.
fn is_margin(b: u8) -> bool
    ensures { result ≡ is_margin b }
{
    matches!(b, b' ' | b'\r' | b'\n')
}

/// What stands behind the spaces and line ends at the front.
fn trim_start(text: &[u8]) -> &[u8]
    ensures cut { (front : List ℕ) × AllPass is_margin front × (text.now ≡ front ++ result.now) }
    ensures begins { is_margin (slice_index result.now 0) ≡ false }
{
    let mut start = 0;
    'front: while start < text.len() && is_margin(text[start]) {
        start += 1;
    }
    &text[start..]
}

/// What stands before the spaces and line ends at the end.
fn trim_end(text: &[u8]) -> &[u8]
    ensures cut { (back : List ℕ) × AllPass is_margin back × (text.now ≡ result.now ++ back) }
    ensures ends { is_margin (slice_index result.now (length result.now - 1)) ≡ false }
{
    let mut end = text.len();
    'back: while end > 0 && is_margin(text[end - 1]) {
        end -= 1;
    }
    &text[..end]
}

/// The bytes that hexadecimal text stands for; spaces and line ends around it do not count.
fn from_hex(alloc: Global, input: &[u8]) -> Result<Vec<u8>, Fault>
    ensures ok { IfOk result (λ bytes. (text : List ℕ) × IsTrimmed input.now text
        × (decode_of text ≡ Ok bytes.items)) }
    ensures err { IfErr result (λ f. (f ≡ fault.Memory)
        ⊎ ((f ≡ fault.NotHex) × IsNoHex input.now)) }
{
    match hex::decode(alloc, trim_end(trim_start(input))) {
        Ok(bytes) => Ok(bytes),
        Err(FromHexError::OutOfMemory) => Err(Fault::Memory),
        Err(_) => Err(Fault::NotHex),
    }
}

/// Text with a line end behind it.
fn line(mut text: String) -> Result<String, Fault>
    ensures ok { IfOk result (λ line. string_bytes line ≡ string_bytes text ++ 10 ∷ []) }
    ensures err { IfErr result (λ f. f ≡ fault.Memory) }
{
    text.push('\n')?;
    Ok(text)
}

/// The wire bytes of a payload.
fn payload_bytes(alloc: Global, is_hex: bool, input: Vec<u8>) -> Result<Vec<u8>, Fault>
    ensures ok { IfOk result (λ bytes. IsPayload is_hex input.items bytes.items) }
    ensures err { IfErr result (λ f. (f ≡ fault.Memory)
        ⊎ ((f ≡ fault.NotHex) × (is_hex ≡ true) × IsNoHex input.items)) }
{
    if is_hex {
        from_hex(alloc, input.as_slice())
    } else {
        Ok(input)
    }
}

/// Writes wire bytes as an answer: with `is_hex` as a line of hexadecimal text.
///
/// Before a `Write` fault a part of it may be written; where memory runs out, nothing is.
pub fn write_bytes<W: Write>(
    alloc: Global,
    is_hex: bool,
    bytes: &[u8],
    output: &mut W,
) -> Result<(), Fault>
    ensures ok { OnOk result (Appends (W.contents output.old) (W.contents output.new)
        (shown is_hex bytes.now)) }
    ensures err { IfErr result (λ f. (f ≡ fault.Write)
        ⊎ ((f ≡ fault.Memory) × (output.new ≡ output.old))) }
{
    if is_hex {
        let text = line(hex::encode(alloc, bytes)?)?;
        write_all(output, text.as_str().as_bytes())
    } else {
        write_all(output, bytes)
    }
}

/// Reads `input` whole, translates it as a message of the type, and writes the answer to `output`.
///
/// With `is_hex` wire bytes are read and written as hexadecimal text, written in lower case and
/// with a line end. Text is written with a line end. Before a `Write` fault a part of the answer
/// may be written; before any other, nothing is.
pub fn serve<R: Read, W: Write>(
    alloc: Global,
    schema: &Schema,
    action: Action,
    type_name: &str,
    is_hex: bool,
    input: &mut R,
    output: &mut W,
) -> Result<(), Fault>
    ensures read { OnOk result (IsAtEnd (R.remaining input.new)) }
    ensures answered { OnOk result
        (IfSome (R.remaining input.old)
        (λ given. (written : List ℕ) × Answers action schema.now.pool type_name.now is_hex given
        written × Appends (W.contents output.old) (W.contents output.new) written)) }
    ensures refused { IfErr result
        (λ f. IfSome (R.remaining input.old)
        (λ given. RefusesInput action schema.now.pool type_name.now is_hex given f)) }
    ensures kept { IfErr result (λ f. (f ≡ fault.Write) ⊎ (output.new ≡ output.old)) }
{
    let input = read_all(alloc, input)?;
    match action {
        Action::Encode => {
            let bytes = schema.encode(type_name, utf8(input.as_slice())?)?;
            write_bytes(alloc, is_hex, bytes.as_slice(), output)
        }
        Action::Decode => {
            let bytes = payload_bytes(alloc, is_hex, input)?;
            let text = line(schema.decode(type_name, bytes.as_slice())?)?;
            write_all(output, text.as_str().as_bytes())
        }
        Action::Recode => {
            let bytes = payload_bytes(alloc, is_hex, input)?;
            let bytes = schema.recode(type_name, bytes.as_slice())?;
            write_bytes(alloc, is_hex, bytes.as_slice(), output)
        }
    }
}
