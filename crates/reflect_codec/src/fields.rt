//! The fields of a record that is being read, and the readers of what they hold.
ghost use Rattle.std.specs.Prelude.{◌≡◌, ◌≢◌, ℕ, ◌-◌, List, IfOk, IfErr, IfSome, option_map, length, string_bytes, unsigned_abs};
ghost use Rattle.std.specs.List.{AllZip};
ghost use Rattle.reflect_wire.specs.Faults.{ValueFault, TellsTrue};
ghost use Rattle.reflect_wire.specs.Reads.{ReadsBy};
ghost use Rattle.reflect_wire.specs.declared.wire_error.WireError.TheVariants.{Memory};
ghost use Rattle.reflect_codec.specs.Faults.{BytesFault, OneOf, NumberFault, DoubleFault, PayloadFault, TextFault, PackedFault, NumbersFault, PlaceFault, PartFault, RecordFault, MergedFault};
ghost use Rattle.reflect_codec.specs.Raw.{value_view, fields_view, IsRawValue, MoreFields, MoreNumbers};
ghost use Rattle.reflect_codec.specs.Reading.{Value, Field, ReadsMeant, ReadsMeantBy, SpellsFields, values_at, IsText, IsNumber, IsInt32, IsInt64, IsBool, IsDouble, IsPayload, IsNumbers, IsPartBelow, IsRecord, IsLast, AreNumbers, AreJoined, IsMerged, SpellsNumbers, int32_of, HasPayload, ArePayloads};

use descriptor_records::DoubleValue;
use reflect_wire::{
    WireError, WireKey, WireType, delimited_at, fixed64_at, key_at, low_half, value_at, varint_at,
};
use std::alloc::Global;

/// What a field holds. A payload is lent, not copied.
#[derive(Clone, Copy)]
pub enum RawValue<'b> {
    Varint(u64),
    /// The eight bytes as a number, the lowest first.
    SixtyFourBit(u64),
    Payload(&'b [u8]),
    /// Four bytes or a group, which no field of a descriptor record holds.
    Other,
}

/// A field of a record.
#[derive(Clone, Copy)]
pub struct RawField<'b> {
    pub number: u32,
    pub value: RawValue<'b>,
}

/// The fields of a record, in the order in which they came.
#[derive(Drop)]
pub struct Fields<'b> {
    pub list: Vec<RawField<'b>>,
    /// How many levels of records may lie below this one.
    pub levels: u32,
}

/// What a single value of a field is read as.
pub trait FieldValue: Sized + Drop {
    ghost use Rattle.reflect_wire.specs.declared.wire_error.WireError.{WireError};

    /// The values that are read as this, below which so many levels may lie.
    ghost means: { ℕ → Value → Self → Type 0 };
    /// Why a value is refused.
    ghost faults: { ℕ → Value → WireError → Type 0 };

    /// The value, below which so many levels of records may lie.
    ///
    /// `BadWireType` where the value has another form, `BadUtf8` where a text is none.
    fn from_value(alloc: Global, value: RawValue<'_>, levels: u32) -> Result<Self, WireError>
        ensures { ReadsMeant (means levels) (faults levels) (value_view value.entry) result };
}

/// A record that is read from its fields.
pub trait ReadRecord: Sized + Drop {
    ghost use Rattle.reflect_wire.specs.declared.wire_error.WireError.{WireError};

    /// What the fields mean, below which so many levels of records may lie.
    ghost facts: { ℕ → List Field → Self → Type 0 };
    /// Why they are refused.
    ghost faults: { ℕ → List Field → WireError → Type 0 };

    /// The record. Fields that it does not have are dropped.
    fn from_fields(alloc: Global, fields: &Fields<'_>) -> Result<Self, WireError>
        ensures { ReadsMeant (facts fields.now.levels) (faults fields.now.levels)
            (fields_view fields.now.list.items) result };
}

/// The value behind a key. A value that no descriptor record has is passed over.
fn raw_value_at(
    alloc: Global,
    key: WireKey,
    bytes: &[u8],
    levels: u32,
) -> Result<(RawValue<'_>, &[u8]), WireError>
    ensures read { ReadsBy value_view (IsRawValue levels key) bytes.now result }
    ensures fault { IfErr result (TellsTrue (ValueFault levels key) bytes.now) }
{
    match key.wire {
        WireType::Varint => {
            let (n, rest) = varint_at(bytes)?;
            Ok((RawValue::Varint(n), rest))
        }
        WireType::SixtyFourBit => {
            let (n, rest) = fixed64_at(bytes)?;
            Ok((RawValue::SixtyFourBit(n), rest))
        }
        WireType::LengthDelimited => {
            let (payload, rest) = delimited_at(bytes)?;
            Ok((RawValue::Payload(payload), rest))
        }
        _ => {
            let (_, rest) = value_at(alloc, key, bytes, levels)?;
            Ok((RawValue::Other, rest))
        }
    }
}

/// For how many fields there is room at first in a record of so many bytes: enough for most, so
/// that few lists grow.
fn first_room(bytes: usize) -> usize {
    (bytes / 16).clamp(8, 64)
}

/// The fields with those behind them that the bytes spell.
fn with_fields<'b>(
    fields: Vec<RawField<'b>>,
    alloc: Global,
    bytes: &'b [u8],
    levels: u32,
) -> Result<Vec<RawField<'b>>, WireError>
    ensures { MoreFields (SpellsFields levels) (BytesFault levels)
        (fields_view fields.entry.items) bytes.now result }
{
    let mut list = fields;
    let mut rest = bytes;
    while !rest.is_empty() {
        let (key, behind) = key_at(rest)?;
        let (value, behind) = raw_value_at(alloc, key, behind, levels)?;
        list.push(RawField {
            number: key.number,
            value,
        })?;
        rest = behind;
    }
    Ok(list)
}

/// The fields with those behind them of the record that a value holds, which stands below `outside`
/// levels.
fn with_part<'b>(
    fields: Vec<RawField<'b>>,
    alloc: Global,
    value: RawValue<'b>,
    outside: u32,
    inside: u32,
) -> Result<Vec<RawField<'b>>, WireError>
    ensures { MoreFields (IsPartBelow outside inside) (PartFault outside inside)
        (fields_view fields.entry.items) (value_view value.entry) result }
{
    let payload = value.record(outside)?;
    with_fields(fields, alloc, payload, inside)
}

impl<'b> Fields<'b> {
    /// The fields that the bytes spell, below which so many levels of records may lie.
    pub fn read(alloc: Global, bytes: &'b [u8], levels: u32) -> Result<Fields<'b>, WireError>
        ensures read { ReadsMeantBy (λ f. fields_view f.list.items) (SpellsFields levels)
            (BytesFault levels) bytes.now result }
        ensures levels { IfOk result (λ f. f.levels ≡ levels) }
    {
        let room = Vec::with_capacity(alloc, first_room(bytes.len()))?;
        let list = with_fields(room, alloc, bytes, levels)?;
        Ok(Fields { list, levels })
    }

    /// How many values a field has.
    pub fn count(&self, number: i32) -> usize
        ensures { result
            ≡ length (values_at (unsigned_abs number) (fields_view self.now.list.items)) }
    {
        let wanted = number.unsigned_abs();
        let mut count = 0;
        for field in &self.list {
            if field.number == wanted {
                count += 1;
            }
        }
        count
    }

    /// The last value of a field.
    pub fn last<T: FieldValue>(&self, alloc: Global, number: i32) -> Result<Option<T>, WireError>
        ensures { ReadsMeant (IsLast (T.means self.now.levels)) (OneOf (T.faults self.now.levels))
            (values_at (unsigned_abs number) (fields_view self.now.list.items)) result }
    {
        let wanted = number.unsigned_abs();
        let mut found = None;
        for field in &self.list {
            if field.number == wanted {
                found = Some(T::from_value(alloc, field.value, self.levels)?);
            }
        }
        Ok(found)
    }

    /// All values of a field.
    pub fn list<T: FieldValue>(&self, alloc: Global, number: i32) -> Result<Vec<T>, WireError>
        ensures { ReadsMeant (λ vs ts. AllZip (T.means self.now.levels) vs ts.items)
            (OneOf (T.faults self.now.levels))
            (values_at (unsigned_abs number) (fields_view self.now.list.items)) result }
    {
        let wanted = number.unsigned_abs();
        let mut list = Vec::with_capacity(alloc, self.count(number))?;
        for field in &self.list {
            if field.number == wanted {
                list.push(T::from_value(alloc, field.value, self.levels)?)?;
            }
        }
        Ok(list)
    }

    /// The numbers of a list, of which each value holds one or, packed, several.
    pub fn int32s(&self, alloc: Global, number: i32) -> Result<Vec<i32>, WireError>
        ensures { ReadsMeant (λ vs zs. AreNumbers vs zs.items) (OneOf NumbersFault)
            (values_at (unsigned_abs number) (fields_view self.now.list.items)) result }
    {
        let wanted = number.unsigned_abs();
        let mut list = Vec::new(alloc);
        for field in &self.list {
            if field.number == wanted {
                list = with_numbers(list, field.value)?;
            }
        }
        Ok(list)
    }

    /// The fields of all records of a field, joined, with `levels` below them. `None` where there
    /// is no record.
    pub fn joined(
        &self,
        alloc: Global,
        number: i32,
        levels: u32,
    ) -> Result<Option<Fields<'b>>, WireError>
        ensures read { ReadsMeantBy (option_map (λ f. fields_view f.list.items))
            (AreJoined self.now.levels levels) (OneOf (PartFault self.now.levels levels))
            (values_at (unsigned_abs number) (fields_view self.now.list.items)) result }
        ensures levels { IfOk result (λ o. IfSome o (λ f. f.levels ≡ levels)) }
    {
        let wanted = number.unsigned_abs();
        let mut found = None;
        for field in &self.list {
            if field.number == wanted {
                found = Some(with_part(
                    found.unwrap_or(Vec::new(alloc)),
                    alloc,
                    field.value,
                    self.levels,
                    levels,
                )?);
            }
        }
        Ok(found.map(|list| Fields { list, levels }))
    }

    /// A record, of which further ones are merged into the first.
    pub fn merged<R: ReadRecord>(&self, alloc: Global, number: i32) -> Result<Option<R>, WireError>
        ensures { ReadsMeant (IsMerged R.facts self.now.levels)
            (MergedFault R.faults self.now.levels)
            (values_at (unsigned_abs number) (fields_view self.now.list.items)) result }
    {
        match self.joined(alloc, number, self.levels.saturating_sub(1))? {
            Some(fields) => Ok(Some(R::from_fields(alloc, &fields)?)),
            None => Ok(None),
        }
    }

    /// The payloads of a field, joined.
    pub fn joined_bytes(&self, alloc: Global, number: i32) -> Result<Vec<u8>, WireError>
        ensures { ReadsMeant (λ vs bytes. ArePayloads vs bytes.items) (OneOf PayloadFault)
            (values_at (unsigned_abs number) (fields_view self.now.list.items)) result }
    {
        let wanted = number.unsigned_abs();
        let mut bytes = Vec::new(alloc);
        for field in &self.list {
            if field.number == wanted {
                bytes.extend_from_slice(field.value.payload()?)?;
            }
        }
        Ok(bytes)
    }
}

impl<'b> RawValue<'b> {
    fn varint(self) -> Result<u64, WireError>
        ensures read { ReadsMeant IsNumber NumberFault (value_view self.entry) result }
        ensures memory { IfErr result (λ e. e ≢ Memory) }
    {
        match self {
            RawValue::Varint(n) => Ok(n),
            _ => Err(WireError::BadWireType),
        }
    }

    fn payload(self) -> Result<&'b [u8], WireError>
        ensures read { ReadsMeantBy (λ p. p.now) IsPayload PayloadFault (value_view self.entry)
            result }
        ensures memory { IfErr result (λ e. e ≢ Memory) }
    {
        match self {
            RawValue::Payload(payload) => Ok(payload),
            _ => Err(WireError::BadWireType),
        }
    }

    /// The payload of a record. `TooDeep` where none may lie below.
    pub fn record(self, levels: u32) -> Result<&'b [u8], WireError>
        ensures read { ReadsMeantBy (λ p. p.now) (HasPayload levels) (PlaceFault levels)
            (value_view self.entry) result }
        ensures memory { IfErr result (λ e. e ≢ Memory) }
    {
        let payload = self.payload()?;
        if levels == 0 {
            return Err(WireError::TooDeep);
        }
        Ok(payload)
    }
}

/// The low 32 bits of a number, as a signed one.
fn int32_of(n: u64) -> i32
    ensures { result ≡ int32_of n }
{
    low_half(n).cast_signed()
}

/// The list with the number behind it that a value holds, or all those of a packed one.
fn with_numbers(numbers: Vec<i32>, value: RawValue<'_>) -> Result<Vec<i32>, WireError>
    ensures { MoreNumbers IsNumbers NumbersFault numbers.items (value_view value.entry) result }
{
    let mut list = numbers;
    match value {
        RawValue::Varint(n) => {
            list.push(int32_of(n))?;
            Ok(list)
        }
        RawValue::Payload(payload) => with_packed(list, payload),
        _ => Err(WireError::BadWireType),
    }
}

/// The list with the numbers behind it that a packed list holds.
fn with_packed(numbers: Vec<i32>, payload: &[u8]) -> Result<Vec<i32>, WireError>
    ensures { MoreNumbers SpellsNumbers PackedFault numbers.items payload.now result }
{
    let mut list = numbers;
    let mut left = payload;
    while !left.is_empty() {
        let (n, rest) = varint_at(left)?;
        list.push(int32_of(n))?;
        left = rest;
    }
    Ok(list)
}

impl FieldValue for String {
    ghost means = { λ levels v t. IsText v (string_bytes t) };

    ghost faults = { λ levels v e. TextFault v e };

    fn from_value(alloc: Global, value: RawValue<'_>, _levels: u32) -> Result<String, WireError> {
        match str::from_utf8(value.payload()?) {
            Ok(text) => Ok(String::from_str(alloc, text)?),
            Err(_) => Err(WireError::BadUtf8),
        }
    }
}

impl FieldValue for Vec<u8> {
    ghost means = { λ levels v b. IsPayload v b.items };

    ghost faults = { λ levels v e. PayloadFault v e };

    fn from_value(alloc: Global, value: RawValue<'_>, _levels: u32) -> Result<Vec<u8>, WireError> {
        Ok(value.payload()?.to_vec(alloc)?)
    }
}

/// The low 32 bits count.
impl FieldValue for i32 {
    ghost means = { λ levels v z. IsInt32 v z };

    ghost faults = { λ levels v e. NumberFault v e };

    fn from_value(_alloc: Global, value: RawValue<'_>, _levels: u32) -> Result<i32, WireError> {
        Ok(int32_of(value.varint()?))
    }
}

impl FieldValue for u64 {
    ghost means = { λ levels v n. IsNumber v n };

    ghost faults = { λ levels v e. NumberFault v e };

    fn from_value(_alloc: Global, value: RawValue<'_>, _levels: u32) -> Result<u64, WireError> {
        value.varint()
    }
}

impl FieldValue for i64 {
    ghost means = { λ levels v z. IsInt64 v z };

    ghost faults = { λ levels v e. NumberFault v e };

    fn from_value(_alloc: Global, value: RawValue<'_>, _levels: u32) -> Result<i64, WireError> {
        Ok(value.varint()?.cast_signed())
    }
}

/// Any number but 0 is true.
impl FieldValue for bool {
    ghost means = { λ levels v b. IsBool v b };

    ghost faults = { λ levels v e. NumberFault v e };

    fn from_value(_alloc: Global, value: RawValue<'_>, _levels: u32) -> Result<bool, WireError> {
        Ok(value.varint()? != 0)
    }
}

impl FieldValue for DoubleValue {
    ghost means = { λ levels v d. IsDouble v d };

    ghost faults = { λ levels v e. DoubleFault v e };

    fn from_value(
        _alloc: Global,
        value: RawValue<'_>,
        _levels: u32,
    ) -> Result<DoubleValue, WireError> {
        match value {
            RawValue::SixtyFourBit(bits) => Ok(DoubleValue::Bits(bits)),
            _ => Err(WireError::BadWireType),
        }
    }
}

impl<R: ReadRecord> FieldValue for R {
    ghost means = { λ levels v r. IsRecord R.facts levels v r };

    ghost faults = { λ levels v e. RecordFault R.faults levels v e };

    fn from_value(alloc: Global, value: RawValue<'_>, levels: u32) -> Result<R, WireError> {
        let payload = value.record(levels)?;
        let fields = Fields::read(alloc, payload, levels - 1)?;
        R::from_fields(alloc, &fields)
    }
}
