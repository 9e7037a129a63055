//! Records of fields that no type declares, as text.

ghost use Rattle.text_lines.specs.Added.{Adds, AddsOneOf};
ghost use Rattle.text_lines.specs.Pieces.{colon, hexadecimal, quoted};
ghost use Rattle.text_lines.specs.UnknownTexts.{
  Infers,
  IsBraced,
  IsPayloadText,
  IsRecordText,
  IsValueText,
};
ghost use Rattle.reflect_wire.specs.Records.{group};
ghost use Rattle.reflect_wire.specs.Views.{field_view, payload_view, set_view};
ghost use Rattle.std.specs.Fmt.{decimal};
ghost use Rattle.std.specs.Prelude.{◌≡◌, ◌++◌, IfOk, OnOk};

use crate::lines::{Items, Lines};
use crate::output::{put, put_hex_32, put_hex_64, put_shown};
use crate::place::Place;
use reflect_wire::{UnknownField, UnknownFieldSet, UnknownFieldValue, WireError};
use std::alloc::{AllocError, Global};

/// The records that a payload spells, unless it is empty or spells none.
fn inferred(alloc: Global, payload: &[u8]) -> Result<Option<UnknownFieldSet>, AllocError>
    ensures { IfOk result (Infers payload.now) }
{
    if payload.is_empty() {
        return Ok(None);
    }
    match UnknownFieldSet::decode(alloc, payload) {
        Ok(records) => Ok(Some(records)),
        Err(WireError::Memory) => Err(AllocError),
        Err(_) => Ok(None),
    }
}

impl Lines {
    /// A record with its number.
    #[cycle(unknown)]
    pub fn unknown_field(&mut self, record: &UnknownField, at: Place) -> Result<(), AllocError>
        ensures text { OnOk result (AddsOneOf self.old.output
            (IsRecordText self.old.options.pretty
            (IsPayloadText at.payloads self.old.options.pretty) at.indent
            (field_view «record».now))
            self.new.output) }
        ensures form { self.new.options ≡ self.old.options }
    {
        put_shown(&mut self.output, record.number())?;
        self.unknown_value(record.value(), at)
    }

    /// What stands behind a record's number.
    #[cycle(unknown)]
    fn unknown_value(&mut self, value: &UnknownFieldValue, at: Place) -> Result<(), AllocError>
        ensures text { OnOk result (AddsOneOf self.old.output
            (IsValueText self.old.options.pretty
            (IsPayloadText at.payloads self.old.options.pretty) at.indent
            (payload_view value.now))
            self.new.output) }
        ensures form { self.new.options ≡ self.old.options }
    {
        match value {
            UnknownFieldValue::Varint(value) => self.varint(*value),
            UnknownFieldValue::ThirtyTwoBit(value) => self.fixed_32(*value),
            UnknownFieldValue::SixtyFourBit(value) => self.fixed_64(*value),
            UnknownFieldValue::LengthDelimited(payload) => self.payload(payload.as_slice(), at),
            UnknownFieldValue::Group(records) => self.group(records, at),
        }
    }

    fn varint(&mut self, value: u64) -> Result<(), AllocError>
        ensures text { OnOk result (Adds self.old.output
            (colon self.old.options.pretty ++ decimal value) self.new.output) }
        ensures form { self.new.options ≡ self.old.options }
    {
        self.colon()?;
        put_shown(&mut self.output, value)
    }

    fn fixed_32(&mut self, value: u32) -> Result<(), AllocError>
        ensures text { OnOk result (Adds self.old.output
            (colon self.old.options.pretty ++ hexadecimal 8 value) self.new.output) }
        ensures form { self.new.options ≡ self.old.options }
    {
        self.colon()?;
        put_hex_32(&mut self.output, value)
    }

    fn fixed_64(&mut self, value: u64) -> Result<(), AllocError>
        ensures text { OnOk result (Adds self.old.output
            (colon self.old.options.pretty ++ hexadecimal 16 value) self.new.output) }
        ensures form { self.new.options ≡ self.old.options }
    {
        self.colon()?;
        put_hex_64(&mut self.output, value)
    }

    /// A payload: as records where it spells some, else as a string.
    #[cycle(unknown)]
    fn payload(&mut self, payload: &[u8], at: Place) -> Result<(), AllocError>
        ensures text { OnOk result (AddsOneOf self.old.output
            (IsPayloadText at.payloads self.old.options.pretty at.indent payload.now)
            self.new.output) }
        ensures form { self.new.options ≡ self.old.options }
    {
        if let Some(payloads) = at.payloads.checked_sub(1) {
            if let Some(records) = inferred(self.alloc, payload)? {
                return self.group(
                    &records,
                    Place {
                        payloads,
                        ..at.read()
                    },
                );
            }
        }
        self.bytes(payload)
    }

    /// Bytes behind a number.
    fn bytes(&mut self, bytes: &[u8]) -> Result<(), AllocError>
        ensures text { OnOk result (Adds self.old.output
            (colon self.old.options.pretty ++ quoted bytes.now) self.new.output) }
        ensures form { self.new.options ≡ self.old.options }
    {
        self.colon()?;
        self.string(bytes)
    }

    /// Records in braces behind a number.
    #[cycle(unknown)]
    fn group(&mut self, records: &UnknownFieldSet, at: Place) -> Result<(), AllocError>
        ensures text { OnOk result (AddsOneOf self.old.output
            (IsValueText self.old.options.pretty
            (IsPayloadText at.payloads self.old.options.pretty) at.indent
            (group (set_view records.now)))
            self.new.output) }
        ensures form { self.new.options ≡ self.old.options }
    {
        self.padding()?;
        self.braced_records(records, at)
    }

    /// Records in braces.
    #[cycle(unknown)]
    fn braced_records(&mut self, records: &UnknownFieldSet, at: Place) -> Result<(), AllocError>
        ensures text { OnOk result (AddsOneOf self.old.output
            (IsBraced self.old.options.pretty
            (IsPayloadText at.payloads self.old.options.pretty) at.indent
            (set_view records.now))
            self.new.output) }
        ensures form { self.new.options ≡ self.old.options }
    {
        put(&mut self.output, "{")?;
        let inner = at.in_braces()?;
        let mut items = Items::new(true);
        for record in records.iter() {
            self.next_item(&mut items, inner)?;
            self.unknown_field(record, inner)?;
        }
        self.close(items.any, at)
    }
}
