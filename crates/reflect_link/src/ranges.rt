//! The ranges and names that a type reserves.

ghost use Rattle.std.specs.Prelude.{◌≡◌};
ghost use Rattle.reflect_link.specs.Reserved.{bound_of};

use descriptor_records::{EnumReservedRange, ExtensionRange, ReservedRange};
use std::ops::{Range, RangeInclusive};

/// A bound of a record, 0 where it has none that a field number may be.
fn bound(number: Option<i32>) -> u32
    ensures { result ≡ bound_of number }
{
    match number {
        Some(number) => u32::try_from(number).unwrap_or(0),
        None => 0,
    }
}

/// Ranges of field numbers that no field may have.
#[derive(Drop)]
pub struct ReservedRanges<'p> {
    pub(crate) rest: &'p [ReservedRange],
}

impl<'p> Iterator for ReservedRanges<'p> {
    ghost use Rattle.std.specs.Iterator.{YieldsFirstBy, item_count};
    ghost use Rattle.reflect_link.specs.Reserved.{reserved_left};

    type Item = Range<u32>;

    ghost next_gives = { YieldsFirstBy (λ r. (r.start, r.end)) reserved_left };

    ghost remaining = { item_count reserved_left };

    fn next(&mut self) -> Option<Range<u32>> {
        let (range, others) = self.rest.split_first()?;
        self.rest = others;
        Some(bound(range.start)..bound(range.end))
    }

    fn size_hint(&self) -> (usize, Option<usize>) {
        let left = self.len();
        (left, Some(left))
    }
}

impl<'p> ExactSizeIterator for ReservedRanges<'p> {
    fn len(&self) -> usize {
        self.rest.len()
    }
}

/// Ranges of field numbers that are kept for extensions.
#[derive(Drop)]
pub struct ExtensionRanges<'p> {
    pub(crate) rest: &'p [ExtensionRange],
}

impl<'p> Iterator for ExtensionRanges<'p> {
    ghost use Rattle.std.specs.Iterator.{YieldsFirstBy, item_count};
    ghost use Rattle.reflect_link.specs.Reserved.{ranges_left};

    type Item = Range<u32>;

    ghost next_gives = { YieldsFirstBy (λ r. (r.start, r.end)) ranges_left };

    ghost remaining = { item_count ranges_left };

    fn next(&mut self) -> Option<Range<u32>> {
        let (range, others) = self.rest.split_first()?;
        self.rest = others;
        Some(bound(range.start)..bound(range.end))
    }

    fn size_hint(&self) -> (usize, Option<usize>) {
        let left = self.len();
        (left, Some(left))
    }
}

impl<'p> ExactSizeIterator for ExtensionRanges<'p> {
    fn len(&self) -> usize {
        self.rest.len()
    }
}

/// Ranges of numbers that no value of an enum may have.
#[derive(Drop)]
pub struct EnumReservedRanges<'p> {
    pub(crate) rest: &'p [EnumReservedRange],
}

impl<'p> Iterator for EnumReservedRanges<'p> {
    ghost use Rattle.std.specs.Iterator.{YieldsFirstBy, item_count};
    ghost use Rattle.std.specs.Range.{range_inclusive_start, range_inclusive_end};
    ghost use Rattle.reflect_link.specs.Reserved.{enum_left};

    type Item = RangeInclusive<i32>;

    ghost next_gives = { YieldsFirstBy
        (λ r. (range_inclusive_start r, range_inclusive_end r)) enum_left };

    ghost remaining = { item_count enum_left };

    fn next(&mut self) -> Option<RangeInclusive<i32>> {
        let (range, others) = self.rest.split_first()?;
        self.rest = others;
        Some(range.start.unwrap_or(0)..=range.end.unwrap_or(0))
    }

    fn size_hint(&self) -> (usize, Option<usize>) {
        let left = self.len();
        (left, Some(left))
    }
}

impl<'p> ExactSizeIterator for EnumReservedRanges<'p> {
    fn len(&self) -> usize {
        self.rest.len()
    }
}

/// Names that are reserved.
#[derive(Drop)]
pub struct ReservedNames<'p> {
    pub(crate) rest: &'p [String],
}

impl<'p> Iterator for ReservedNames<'p> {
    ghost use Rattle.std.specs.Iterator.{YieldsFirstBy, item_count};
    ghost use Rattle.reflect_link.specs.Reserved.{names_left};

    type Item = &'p str;

    ghost next_gives = { YieldsFirstBy (λ n. n.now) names_left };

    ghost remaining = { item_count names_left };

    fn next(&mut self) -> Option<&'p str> {
        let (name, others) = self.rest.split_first()?;
        self.rest = others;
        Some(name.as_str())
    }

    fn size_hint(&self) -> (usize, Option<usize>) {
        let left = self.len();
        (left, Some(left))
    }
}

impl<'p> ExactSizeIterator for ReservedNames<'p> {
    fn len(&self) -> usize {
        self.rest.len()
    }
}
