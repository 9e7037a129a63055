ghost use Rattle.std.specs.Prelude.{◌≡◌, ℕ, List, Bool};
ghost use Rattle.reflect_tables.specs.Ranges.{IsRangeOf};
ghost use Rattle.reflect_rules.specs.TypesSay.{TypesSay};
ghost use Rattle.reflect_rules.specs.Walks.{ranges_in};

use reflect_scope::{EnumIndex, MessageIndex};
use reflect_tables::NumberRanges;

/// What the rules ask about message types and enums, those of the files and older ones, by index.
pub trait Types {
    /// What is told of message types.
    ghost says: { Self → TypesSay };

    /// What `has_value` may answer: of the enum of an index and a name.
    ghost values: { Self → ℕ → List ℕ → Bool → Type 0 };

    /// The numbers that no field or extension of the message type may take.
    fn reserved_numbers(&self, message: MessageIndex) -> Option<&NumberRanges>
        ensures { ranges_in result ≡ (says self.now).reserved message };

    /// The numbers that extensions of the message type may take.
    fn extension_numbers(&self, message: MessageIndex) -> Option<&NumberRanges>
        ensures { ranges_in result ≡ (says self.now).extensions message };

    /// The message type is the type of a map's entries.
    fn is_map_entry(&self, message: MessageIndex) -> bool
        ensures { result ≡ (says self.now).is_entry message };

    /// The full name of the message type.
    fn message_name(&self, message: MessageIndex) -> &str
        ensures { result.now ≡ (says self.now).name message };

    /// The enum has a value of this name.
    fn has_value(&self, enumeration: EnumIndex, name: &str) -> bool
        ensures { values self.now enumeration name.now result };
}

/// A range that has the number, if there are ranges and one of them has it.
pub fn find_in(ranges: Option<&NumberRanges>, number: i32) -> Option<(i32, i32)>
    ensures { IsRangeOf (ranges_in ranges.entry) number result }
{
    match ranges {
        Some(ranges) => ranges.find(number),
        None => None,
    }
}
