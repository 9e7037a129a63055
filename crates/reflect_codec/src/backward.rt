//! A buffer that is filled from its end to its front.
ghost use Rattle.std.specs.Prelude.{◌≡◌, ◌≤◌, ℕ, List, ◌∷◌, ◌++◌, [], length, reverse, take, drop, OnOk, OnErr, IfErr, unsigned_abs};
ghost use Rattle.std.specs.Int.{w64, cast_unsigned};
ghost use Rattle.std.specs.List.{flat_map};
ghost use Rattle.reflect_wire.specs.declared.wire_error.WireError.TheVariants.{Memory};
ghost use Rattle.reflect_wire.specs.Records.{key_of};
ghost use Rattle.reflect_wire.specs.Encoding.{varint_bytes, key_bytes};
ghost use Rattle.reflect_codec.specs.Held.{held};
ghost use Rattle.reflect_codec.specs.Fields.{payload_field, number_field, text_field, texts_field, int32_field, int32s_field, packed_field, bool_field, record_field, records_field, options_field};

use descriptor_records::Options;
use reflect_wire::{WireError, WireKey, WireType, code_of_key, sign_extended};
use std::alloc::{AllocError, Global};

/// A record that is written.
pub trait WriteRecord {
    /// The bytes that the record is written as.
    ghost bytes: { Self → List ℕ };

    /// Puts the fields that are present, by ascending number.
    fn put(&self, out: &mut Backward) -> Result<(), AllocError>
        ensures { OnOk result (held out.new ≡ bytes self.now ++ held out.old) };
}

/// Bytes that are written from the last to the first: what is put in stands before what was put in
/// earlier.
///
/// So the length of a record is known when it is written in front of the record, and nothing is
/// measured twice. Calls are refused for want of memory alone, and then it is not said what is
/// held.
#[derive(Drop)]
pub struct Backward {
    /// The last byte first.
    reversed: Vec<u8>,
}

impl Backward {
    /// Nothing yet. Takes no memory.
    pub fn new(alloc: Global) -> Backward
        ensures { held result ≡ [] }
    {
        Backward {
            reversed: Vec::new(alloc),
        }
    }

    /// The bytes, first to last. Takes no memory.
    pub fn into_bytes(self) -> Vec<u8>
        ensures { result.items ≡ held self }
    {
        let mut bytes = self.reversed;
        bytes.reverse();
        bytes
    }

    /// Appends the bytes, first to last. A refusal leaves the vector.
    pub fn append_to(self, out: &mut Vec<u8>) -> Result<(), WireError>
        ensures ok { OnOk result (out.new.items ≡ out.old.items ++ held self) }
        ensures err { IfErr result (λ e. e ≡ Memory) }
        ensures left { OnErr result (out.new.items ≡ out.old.items) }
    {
        out.extend_from_slice(&self.into_bytes())?;
        Ok(())
    }

    /// How many bytes are held.
    pub fn len(&self) -> usize
        ensures { result ≡ length (held self.now) }
    {
        self.reversed.len()
    }

    fn put_byte(&mut self, byte: u8) -> Result<(), AllocError>
        ensures { OnOk result (held self.new ≡ byte ∷ held self.old) }
    {
        self.reversed.push(byte)?;
        Ok(())
    }

    /// Puts bytes in front of those that are held.
    pub fn put_bytes(&mut self, bytes: &[u8]) -> Result<(), AllocError>
        ensures { OnOk result (held self.new ≡ bytes.now ++ held self.old) }
    {
        let start = self.reversed.len();
        self.reversed.extend_from_slice(bytes)?;
        reverse_from(&mut self.reversed, start);
        Ok(())
    }

    /// Puts the shortest varint of a number in front.
    pub fn put_varint(&mut self, n: u64) -> Result<(), AllocError>
        ensures { OnOk result (held self.new ≡ varint_bytes n ++ held self.old) }
    {
        if n < 128 {
            self.put_byte(n as u8)?;
            return Ok(());
        }
        self.put_varint(n / 128)?;
        self.put_byte((n % 128 + 128) as u8)?;
        Ok(())
    }

    /// Puts the key of a record in front.
    pub fn put_key(&mut self, key: WireKey) -> Result<(), AllocError>
        ensures { OnOk result (held self.new ≡ key_bytes key ++ held self.old) }
    {
        self.put_varint(code_of_key(key))
    }

    /// Puts the key and the length before a payload, behind which `end` bytes were held.
    pub fn put_length(&mut self, number: u32, end: usize) -> Result<(), AllocError>
        ensures { (payload behind : List ℕ) → held self.old ≡ payload ++ behind → length behind
            ≡ end
            → OnOk result (held self.new ≡ payload_field number payload ++ behind) }
    {
        let len = self.len().saturating_sub(end);
        self.put_varint(len as u64)?;
        self.put_key(WireKey {
            number,
            wire: WireType::LengthDelimited,
        })
    }

    fn put_payload(&mut self, number: i32, payload: &[u8]) -> Result<(), AllocError>
        ensures { OnOk result (held self.new ≡ payload_field (unsigned_abs number) payload.now
            ++ held self.old) }
    {
        let end = self.len();
        self.put_bytes(payload)?;
        self.put_length(number.unsigned_abs(), end)
    }

    /// Puts the record of a text, none where it is missing.
    pub fn put_text(&mut self, number: i32, text: &Option<String>) -> Result<(), AllocError>
        ensures { OnOk result (held self.new ≡ text_field (unsigned_abs number) text.now
            ++ held self.old) }
    {
        if let Some(text) = text {
            self.put_payload(number, text.as_bytes())?;
        }
        Ok(())
    }

    /// Puts the records of texts, one for each.
    pub fn put_texts(&mut self, number: i32, texts: &[String]) -> Result<(), AllocError>
        ensures { OnOk result (held self.new ≡ texts_field (unsigned_abs number) texts.now
            ++ held self.old) }
    {
        let mut left = texts;
        while let Some((last, front)) = left.split_last() {
            self.put_payload(number, last.as_bytes())?;
            left = front;
        }
        Ok(())
    }

    fn put_number(&mut self, number: i32, n: u64) -> Result<(), AllocError>
        ensures { OnOk result (held self.new ≡ number_field (unsigned_abs number) n
            ++ held self.old) }
    {
        self.put_varint(n)?;
        self.put_key(record_key(number, WireType::Varint))?;
        Ok(())
    }

    /// Puts the record of a number, none where it is missing.
    pub fn put_int32(&mut self, number: i32, n: Option<i32>) -> Result<(), AllocError>
        ensures { OnOk result (held self.new ≡ int32_field (unsigned_abs number) n
            ++ held self.old) }
    {
        if let Some(n) = n {
            self.put_number(number, sign_extended(n))?;
        }
        Ok(())
    }

    /// Puts the record of a truth value, none where it is missing.
    pub fn put_bool(&mut self, number: i32, truth: Option<bool>) -> Result<(), AllocError>
        ensures { OnOk result (held self.new ≡ bool_field (unsigned_abs number) truth
            ++ held self.old) }
    {
        if let Some(truth) = truth {
            self.put_number(number, u64::from(truth))?;
        }
        Ok(())
    }

    /// A list, one record a number.
    pub fn put_int32s(&mut self, number: i32, list: &[i32]) -> Result<(), AllocError>
        ensures { OnOk result (held self.new ≡ int32s_field (unsigned_abs number) list.now
            ++ held self.old) }
    {
        let mut left = list;
        while let Some((last, front)) = left.split_last() {
            self.put_number(number, sign_extended(*last))?;
            left = front;
        }
        Ok(())
    }

    fn put_varints(&mut self, list: &[i32]) -> Result<(), AllocError>
        ensures { OnOk result (held self.new
            ≡ flat_map (λ n. varint_bytes (cast_unsigned w64 n)) list.now ++ held self.old) }
    {
        let mut left = list;
        while let Some((last, front)) = left.split_last() {
            self.put_varint(sign_extended(*last))?;
            left = front;
        }
        Ok(())
    }

    /// A list in one record, none where it is empty.
    pub fn put_packed(&mut self, number: i32, list: &[i32]) -> Result<(), AllocError>
        ensures { OnOk result (held self.new ≡ packed_field (unsigned_abs number) list.now
            ++ held self.old) }
    {
        if list.is_empty() {
            return Ok(());
        }
        let end = self.len();
        self.put_varints(list)?;
        self.put_length(number.unsigned_abs(), end)
    }

    /// Puts a record, with its key and its length in front.
    pub fn put_record<R: WriteRecord>(&mut self, number: i32, inner: &R) -> Result<(), AllocError>
        ensures { OnOk result (held self.new
            ≡ payload_field (unsigned_abs number) (R.bytes inner.now) ++ held self.old) }
    {
        let end = self.len();
        inner.put(self)?;
        self.put_length(number.unsigned_abs(), end)
    }

    /// Puts a record, if there is one.
    pub fn put_optional<R: WriteRecord>(
        &mut self,
        number: i32,
        inner: &Option<R>,
    ) -> Result<(), AllocError>
        ensures { OnOk result (held self.new ≡ record_field R.bytes (unsigned_abs number) inner.now
            ++ held self.old) }
    {
        if let Some(inner) = inner {
            self.put_record(number, inner)?;
        }
        Ok(())
    }

    /// Puts the records of a list.
    pub fn put_records<R: WriteRecord>(&mut self, number: i32, list: &[R]) -> Result<(), AllocError>
        ensures { OnOk result (held self.new ≡ records_field R.bytes (unsigned_abs number) list.now
            ++ held self.old) }
    {
        let mut left = list;
        while let Some((last, front)) = left.split_last() {
            self.put_record(number, last)?;
            left = front;
        }
        Ok(())
    }

    /// Options are written as the bytes that they hold.
    pub fn put_options(&mut self, number: i32, options: &Option<Options>) -> Result<(), AllocError>
        ensures { OnOk result (held self.new ≡ options_field (unsigned_abs number) options.now
            ++ held self.old) }
    {
        if let Some(options) = options {
            self.put_payload(number, &options.encoded)?;
        }
        Ok(())
    }
}

/// Turns around what stands from a place on.
fn reverse_from(bytes: &mut Vec<u8>, from: usize)
    requires { from ≤ length bytes.old.items }
    ensures { bytes.new.items ≡ take from bytes.old.items ++ reverse (drop from bytes.old.items) }
{
    bytes.as_mut_slice()[from..].reverse();
}

/// The key of a record field, whose number is one of the table of `descriptor.proto`.
fn record_key(number: i32, wire: WireType) -> WireKey
    ensures { result ≡ key_of (unsigned_abs number) wire }
{
    WireKey {
        number: number.unsigned_abs(),
        wire,
    }
}
