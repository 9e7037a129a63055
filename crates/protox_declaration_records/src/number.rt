//! Numbers in the fields of records.

ghost use Rattle.std.specs.Prelude.{◌≡◌};
ghost use Rattle.protox_declaration_records.specs.Numbers as numbers;

use protox_lex::Int;
use protox_tree::{RangeEnd, ReservedRange};

/// The signed number, where 32 bits hold it.
pub fn i32_of(int: Int) -> Option<i32>
    ensures { result ≡ numbers.i32_of int }
{
    int.as_i32()
}

/// The signed number, where 64 bits hold it.
pub fn i64_of(int: Int) -> Option<i64>
    ensures { result ≡ numbers.i64_of int }
{
    int.as_i64()
}

/// The last number of a range, where `max` stands for this one.
pub fn last(range: ReservedRange, max: i32) -> Option<i32>
    ensures { result ≡ numbers.last_of range max }
{
    match range.end {
        RangeEnd::None => i32_of(range.start),
        RangeEnd::Int(int) => i32_of(int),
        RangeEnd::Max(_) => Some(max),
    }
}
