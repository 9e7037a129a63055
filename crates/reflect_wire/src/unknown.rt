//! Records of fields that no descriptor declares, kept as they came.
ghost use Rattle.std.specs.Prelude.{◌≡◌, ◌-◌, ◌<◌, ◌≤◌, ◌^◌, ◌↔◌, ◌++◌, [], ◌∷◌, IsTrue, IfOk, IfErr, OnOk, OnErr, SomeIff, length};
ghost use Rattle.std.specs.Slice.Iter.{iter_rest};
ghost use Rattle.reflect_wire.specs.Faults.{ValueFault, GroupFault, FieldFault, SetFault, TellsTrue};
ghost use Rattle.reflect_wire.specs.Reads.{ReadsBy, Fronts, RefusesFront, RefusesWhole};
ghost use Rattle.reflect_wire.specs.Records.{IsValue, IsGroup, IsField, SpellsRecords, key_of, wire_of, no_records};
ghost use Rattle.reflect_wire.specs.Encoding.{payload_bytes, field_bytes, records_bytes, KeepsFront, IsUnwritten};
ghost use Rattle.reflect_wire.specs.Views.{payload_view, records_view, field_view, set_view, fields_of};
ghost use Rattle.reflect_wire.specs.declared.wire_key.TheConstants.{MAX_FIELD_NUMBER};

use crate::read::{delimited_at, fixed32_at, fixed64_at, key_at, varint_at};
use crate::wire_error::WireError;
use crate::wire_key::{WireKey, WireType};
use crate::write::{
    delimited_len, keep_written, key_len, push_delimited, push_fixed32, push_fixed64, push_key,
    push_varint, reserve_room, varint_len,
};
use std::alloc::{AllocError, AllocFailed, Global};
use std::slice;

/// How many levels of messages and groups may lie below the top, wherever records are read.
pub const MAX_LEVELS: u32 = 100;

/// A record of a field that no descriptor declares.
#[derive(Drop)]
#[cycle(unknown)]
pub struct UnknownField {
    number: u32,
    value: UnknownFieldValue,
}

/// What such a record holds, by its wire type.
#[derive(Drop)]
#[cycle(unknown)]
pub enum UnknownFieldValue {
    Varint(u64),
    /// The eight bytes as a number, the lowest first.
    SixtyFourBit(u64),
    LengthDelimited(Vec<u8>),
    Group(UnknownFieldSet),
    /// The four bytes as a number, the lowest first.
    ThirtyTwoBit(u32),
}

/// Records in the order in which they came.
#[derive(Drop)]
#[cycle(unknown)]
pub struct UnknownFieldSet {
    fields: Vec<UnknownField>,
}

/// The value behind a key, with at most `levels` groups in one another.
///
/// Refused as the reader of its form is; `TooDeep` where more groups nest, `EndGroupMismatch` where
/// an end tag stands outside a group or has another number than the group that it ends.
#[cycle(value)]
pub fn value_at(
    alloc: Global,
    key: WireKey,
    bytes: &[u8],
    levels: u32,
) -> Result<(UnknownFieldValue, &[u8]), WireError>
    ensures read { ReadsBy payload_view (IsValue levels key) bytes.now result }
    ensures fault { IfErr result (TellsTrue (ValueFault levels key) bytes.now) }
{
    match key.wire {
        WireType::Varint => {
            let (n, rest) = varint_at(bytes)?;
            Ok((UnknownFieldValue::Varint(n), rest))
        }
        WireType::SixtyFourBit => {
            let (n, rest) = fixed64_at(bytes)?;
            Ok((UnknownFieldValue::SixtyFourBit(n), rest))
        }
        WireType::LengthDelimited => {
            let (payload, rest) = delimited_at(bytes)?;
            Ok((
                UnknownFieldValue::LengthDelimited(payload.to_vec(alloc)?),
                rest,
            ))
        }
        WireType::StartGroup => {
            if levels == 0 {
                return Err(WireError::TooDeep);
            }
            let (fields, rest) = group_at(alloc, key.number, bytes, levels - 1)?;
            Ok((UnknownFieldValue::Group(UnknownFieldSet { fields }), rest))
        }
        WireType::EndGroup => Err(WireError::EndGroupMismatch),
        WireType::ThirtyTwoBit => {
            let (n, rest) = fixed32_at(bytes)?;
            Ok((UnknownFieldValue::ThirtyTwoBit(n), rest))
        }
    }
}

/// The records up to the end of a group, and that end.
#[cycle(value)]
fn group_at(
    alloc: Global,
    number: u32,
    bytes: &[u8],
    levels: u32,
) -> Result<(Vec<UnknownField>, &[u8]), WireError>
    ensures read { ReadsBy (λ v. records_view v.items) (IsGroup levels number) bytes.now result }
    ensures fault { IfErr result (TellsTrue (GroupFault levels number) bytes.now) }
{
    let mut fields = Vec::new(alloc);
    let mut rest = bytes;
    loop {
        let (key, behind) = key_at(rest)?;
        if let WireType::EndGroup = key.wire {
            if key.number != number {
                return Err(WireError::EndGroupMismatch);
            }
            return Ok((fields, behind));
        }
        let (value, behind) = value_at(alloc, key, behind, levels)?;
        fields.push(UnknownField {
            number: key.number,
            value,
        })?;
        rest = behind;
    }
}

impl UnknownField {
    /// The record at the front, below `depth` levels; the bytes then begin behind it.
    ///
    /// Refused as `key_at` and `value_at` are, of at most 100 levels with those above. A refusal
    /// leaves the bytes.
    pub fn decode(alloc: Global, bytes: &mut &[u8], depth: u32) -> Result<UnknownField, WireError>
        ensures ok { IfOk result (λ f. Fronts (IsField (100 - depth)) bytes.old.now (field_view f)
            bytes.new.now) }
        ensures err { IfErr result (λ e. RefusesFront (IsField (100 - depth)) bytes.old.now e) }
        ensures fault { IfErr result (TellsTrue (FieldFault (100 - depth)) bytes.old.now) }
        ensures left { OnErr result (bytes.new ≡ bytes.old) }
    {
        let (key, rest) = key_at(*bytes)?;
        let (value, rest) = value_at(alloc, key, rest, MAX_LEVELS.saturating_sub(depth))?;
        *bytes = rest;
        Ok(UnknownField {
            number: key.number,
            value,
        })
    }

    /// The record of this number whose key was read already: its value stands at the front.
    ///
    /// Refused as `value_at` is, of at most 100 levels with the `depth` above. A refusal leaves the
    /// bytes.
    pub fn decode_value(
        alloc: Global,
        number: u32,
        wire_type: WireType,
        bytes: &mut &[u8],
        depth: u32,
    ) -> Result<UnknownField, WireError>
        requires positive { 0 < number }
        requires small { number ≤ MAX_FIELD_NUMBER }
        ensures number { IfOk result (λ f. (field_view f).0 ≡ number) }
        ensures ok { IfOk result (λ f. Fronts (IsValue (100 - depth) (key_of number wire_type))
            bytes.old.now (field_view f).1 bytes.new.now) }
        ensures err { IfErr result (λ e. RefusesFront
            (IsValue (100 - depth) (key_of number wire_type)) bytes.old.now e) }
        ensures fault { IfErr result (TellsTrue (ValueFault (100 - depth) (key_of number wire_type))
            bytes.old.now) }
        ensures left { OnErr result (bytes.new ≡ bytes.old) }
    {
        let key = WireKey {
            number,
            wire: wire_type,
        };
        let (value, rest) = value_at(alloc, key, *bytes, MAX_LEVELS.saturating_sub(depth))?;
        *bytes = rest;
        Ok(UnknownField { number, value })
    }

    /// The field's number.
    pub fn number(&self) -> u32
        ensures { result ≡ (field_view self.now).0 }
    {
        self.number
    }

    /// The form of the value.
    pub fn wire_type(&self) -> WireType
        ensures { result ≡ wire_of (field_view self.now).1 }
    {
        match &self.value {
            UnknownFieldValue::Varint(_) => WireType::Varint,
            UnknownFieldValue::SixtyFourBit(_) => WireType::SixtyFourBit,
            UnknownFieldValue::LengthDelimited(_) => WireType::LengthDelimited,
            UnknownFieldValue::Group(_) => WireType::StartGroup,
            UnknownFieldValue::ThirtyTwoBit(_) => WireType::ThirtyTwoBit,
        }
    }

    /// The value.
    pub fn value(&self) -> &UnknownFieldValue
        ensures { payload_view result.now ≡ (field_view self.now).1 }
    {
        &self.value
    }

    /// How many bytes the record is written in, `None` past `usize::MAX`.
    #[cycle(length)]
    pub fn encoded_len(&self) -> Option<usize>
        ensures { let n = length (field_bytes (field_view self.now)) in SomeIff result
            (n < 2 ^ 64) n }
    {
        let value = self.value.encoded_len(self.number)?;
        key_len(self.key()).checked_add(value)
    }

    /// Appends the record.
    ///
    /// `TooLong` where its length passes `usize::MAX`. A refusal leaves the vector.
    pub fn encode(&self, out: &mut Vec<u8>) -> Result<(), WireError>
        ensures ok { OnOk result (out.new.items ≡ out.old.items
            ++ field_bytes (field_view self.now)) }
        ensures err { IfErr result (IsUnwritten (field_bytes (field_view self.now))) }
        ensures left { OnErr result (out.new.items ≡ out.old.items) }
    {
        reserve_room(out, self.encoded_len())?;
        let start = out.len();
        let written = self.write(out);
        keep_written(out, start, written)
    }

    /// Appends the record; a refusal may leave a part of it behind.
    #[cycle(write)]
    pub fn write(&self, out: &mut Vec<u8>) -> Result<(), AllocError>
        ensures ok { OnOk result (out.new.items ≡ out.old.items
            ++ field_bytes (field_view self.now)) }
        ensures err { OnErr result (KeepsFront out.old.items out.new.items) }
    {
        push_key(out, self.key())?;
        self.value.write(self.number, out)?;
        Ok(())
    }

    fn key(&self) -> WireKey
        ensures { result ≡ key_of (field_view self.now).0 (wire_of (field_view self.now).1) }
    {
        WireKey {
            number: self.number,
            wire: self.wire_type(),
        }
    }

    /// A copy.
    #[cycle(clone)]
    pub fn clone(&self) -> Result<UnknownField, AllocError>
        ensures { IfOk result (λ f. field_view f ≡ field_view self.now) }
    {
        Ok(UnknownField {
            number: self.number,
            value: self.value.clone()?,
        })
    }
}

impl UnknownFieldValue {
    /// How many bytes stand behind the key, `None` past `usize::MAX`.
    #[cycle(length)]
    fn encoded_len(&self, number: u32) -> Option<usize>
        ensures { let n = length (payload_bytes number (payload_view self.now)) in SomeIff result
            (n < 2 ^ 64) n }
    {
        match self {
            UnknownFieldValue::Varint(n) => Some(varint_len(*n)),
            UnknownFieldValue::SixtyFourBit(_) => Some(8),
            UnknownFieldValue::LengthDelimited(payload) => delimited_len(payload.len()),
            UnknownFieldValue::Group(set) => {
                let end = WireKey {
                    number,
                    wire: WireType::EndGroup,
                };
                set.encoded_len()?.checked_add(key_len(end))
            }
            UnknownFieldValue::ThirtyTwoBit(_) => Some(4),
        }
    }

    /// Appends what stands behind the key.
    #[cycle(write)]
    fn write(&self, number: u32, out: &mut Vec<u8>) -> Result<(), AllocError>
        ensures ok { OnOk result (out.new.items ≡ out.old.items
            ++ payload_bytes number (payload_view self.now)) }
        ensures err { OnErr result (KeepsFront out.old.items out.new.items) }
    {
        match self {
            UnknownFieldValue::Varint(n) => push_varint(out, *n),
            UnknownFieldValue::SixtyFourBit(n) => push_fixed64(out, *n),
            UnknownFieldValue::LengthDelimited(payload) => push_delimited(out, payload),
            UnknownFieldValue::Group(set) => {
                set.write(out)?;
                let end = WireKey {
                    number,
                    wire: WireType::EndGroup,
                };
                push_key(out, end)
            }
            UnknownFieldValue::ThirtyTwoBit(n) => push_fixed32(out, *n),
        }
    }

    /// A copy.
    #[cycle(clone)]
    pub fn clone(&self) -> Result<UnknownFieldValue, AllocError>
        ensures { IfOk result (λ v. payload_view v ≡ payload_view self.now) }
    {
        match self {
            UnknownFieldValue::Varint(n) => Ok(UnknownFieldValue::Varint(*n)),
            UnknownFieldValue::SixtyFourBit(n) => Ok(UnknownFieldValue::SixtyFourBit(*n)),
            UnknownFieldValue::LengthDelimited(payload) => {
                Ok(UnknownFieldValue::LengthDelimited(payload.clone()?))
            }
            UnknownFieldValue::Group(set) => Ok(UnknownFieldValue::Group(set.clone()?)),
            UnknownFieldValue::ThirtyTwoBit(n) => Ok(UnknownFieldValue::ThirtyTwoBit(*n)),
        }
    }
}

impl UnknownFieldSet {
    /// No records.
    pub fn new(alloc: Global) -> UnknownFieldSet
        ensures { set_view result ≡ no_records }
    {
        UnknownFieldSet {
            fields: Vec::new(alloc),
        }
    }

    /// The records that the bytes spell, of at most 100 levels.
    ///
    /// Refused as `UnknownField::decode` is.
    pub fn decode(alloc: Global, bytes: &[u8]) -> Result<UnknownFieldSet, WireError>
        ensures ok { IfOk result (λ s. SpellsRecords 100 bytes.now (set_view s)) }
        ensures err { IfErr result (RefusesWhole (SpellsRecords 100) bytes.now) }
        ensures fault { IfErr result (TellsTrue (SetFault 100) bytes.now) }
    {
        let mut set = UnknownFieldSet::new(alloc);
        let mut rest = bytes;
        while !rest.is_empty() {
            set.insert(UnknownField::decode(alloc, &mut rest, 0)?)?;
        }
        Ok(set)
    }

    /// The records in order.
    pub fn iter(&self) -> slice::Iter<'_, UnknownField>
        ensures items { iter_rest result ≡ fields_of self.now }
        ensures view { set_view self.now ≡ records_view (iter_rest result) }
    {
        self.fields.iter()
    }

    /// Whether there are no records.
    pub fn is_empty(&self) -> bool
        ensures { IsTrue result ↔ (set_view self.now ≡ no_records) }
    {
        self.fields.is_empty()
    }

    /// Puts a record behind the others. Refused for want of memory, it gives the record back and
    /// the set is as before.
    pub fn insert(&mut self, field: UnknownField) -> Result<(), AllocFailed<UnknownField>>
        ensures ok { OnOk result (fields_of self.new ≡ fields_of self.old ++ field ∷ []) }
        ensures view { set_view self.new ≡ records_view (fields_of self.new) }
        ensures given_back { IfErr result (λ y. y.value ≡ field) }
        ensures left { OnErr result (fields_of self.new ≡ fields_of self.old) }
    {
        self.fields.push(field)?;
        Ok(())
    }

    /// How many bytes the records are written in, `None` past `usize::MAX`.
    #[cycle(length)]
    pub fn encoded_len(&self) -> Option<usize>
        ensures { let n = length (records_bytes (set_view self.now)) in SomeIff result
            (n < 2 ^ 64) n }
    {
        let mut len = 0usize;
        for field in &self.fields {
            len = len.checked_add(field.encoded_len()?)?;
        }
        Some(len)
    }

    /// Appends the records in order.
    ///
    /// `TooLong` where their length passes `usize::MAX`. A refusal leaves the vector.
    pub fn encode(&self, out: &mut Vec<u8>) -> Result<(), WireError>
        ensures ok { OnOk result (out.new.items ≡ out.old.items
            ++ records_bytes (set_view self.now)) }
        ensures err { IfErr result (IsUnwritten (records_bytes (set_view self.now))) }
        ensures left { OnErr result (out.new.items ≡ out.old.items) }
    {
        reserve_room(out, self.encoded_len())?;
        let start = out.len();
        let written = self.write(out);
        keep_written(out, start, written)
    }

    /// Appends the records in order; a refusal may leave a part of them behind.
    #[cycle(write)]
    pub fn write(&self, out: &mut Vec<u8>) -> Result<(), AllocError>
        ensures ok { OnOk result (out.new.items ≡ out.old.items
            ++ records_bytes (set_view self.now)) }
        ensures err { OnErr result (KeepsFront out.old.items out.new.items) }
    {
        for field in &self.fields {
            field.write(out)?;
        }
        Ok(())
    }

    /// A copy.
    #[cycle(clone)]
    pub fn clone(&self) -> Result<UnknownFieldSet, AllocError>
        ensures { IfOk result (λ s. set_view s ≡ set_view self.now) }
    {
        let mut fields = Vec::with_capacity(*self.fields.allocator(), self.fields.len())?;
        for field in &self.fields {
            fields.push(field.clone()?)?;
        }
        Ok(UnknownFieldSet { fields })
    }
}
