/// The form in which a record's value is written.
#[derive(Clone, Copy, Debug, PartialEq, Eq)]
pub enum WireType {
    /// A number of at most ten bytes, seven bits in each.
    Varint,
    /// Eight bytes, the lowest first.
    SixtyFourBit,
    /// A length, and so many bytes.
    LengthDelimited,
    /// The records behind are those of a group, up to its end tag.
    StartGroup,
    /// The end tag of a group.
    EndGroup,
    /// Four bytes, the lowest first.
    ThirtyTwoBit,
}

/// The highest number of a field. `descriptor_records` has it too, for the numbers that records of
/// descriptors hold: neither crate stands on the other.
pub const MAX_FIELD_NUMBER: u32 = 536_870_911;

/// What stands before a record's value: the field's number and the value's form.
#[derive(Clone, Copy, PartialEq, Eq)]
pub struct WireKey {
    pub number: u32,
    pub wire: WireType,
}
