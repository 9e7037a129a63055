ghost use Rattle.std.specs.Prelude.{◌≡◌, ◌<◌, ◌≤ℤ◌, ◌⊎◌, pos, IfOk, IsPermutation, length, map, slice_index_or, unwrap_or};
ghost use Rattle.reflect_tables.specs.Furthest.{RiseByStart, EndLast, no_range};
ghost use Rattle.reflect_tables.specs.Ranges.{IsRangeOf, reserved_range, extension_range};

use descriptor_records::{ExtensionRange, ReservedRange};
use std::alloc::{AllocError, Global};

/// The numbers from `start`, below `end`.
#[derive(Clone, Copy)]
struct NumberRange {
    start: i32,
    end: i32,
}

/// Ranges of numbers, which may overlap, by ascending start.
#[derive(Drop)]
pub struct NumberRanges {
    ranges: Vec<NumberRange>,
    /// At each place that of the range which ends last of those up to there.
    furthest: Vec<usize>,
    ghost rise: { RiseByStart ranges.items },
    ghost each: { length furthest.items ≡ length ranges.items },
    ghost last: { EndLast ranges.items furthest.items },
}

/// Of the places of two ranges that of the one which ends later, and of ranges that end alike the
/// first.
fn later(ranges: &[NumberRange], first: usize, second: usize) -> usize
    requires first { first < length ranges.now }
    requires second { second < length ranges.now }
    ensures either { (result ≡ first) ⊎ (result ≡ second) }
    ensures not_before_first { (slice_index_or ranges.now first no_range).end ≤ℤ
        (slice_index_or ranges.now result no_range).end }
    ensures not_before_second { (slice_index_or ranges.now second no_range).end ≤ℤ
        (slice_index_or ranges.now result no_range).end }
{
    if ranges[first].end < ranges[second].end {
        second
    } else {
        first
    }
}

/// The places of the ranges that end last of those up to each place.
fn furthest_places(alloc: Global, ranges: &[NumberRange]) -> Result<Vec<usize>, AllocError>
    ensures each { IfOk result (λ places. length places.items ≡ length ranges.now) }
    ensures last { IfOk result (λ places. EndLast ranges.now places.items) }
{
    let mut places = Vec::with_capacity(alloc, ranges.len())?;
    let mut last = 0;
    for at in 0..ranges.len() {
        last = later(ranges, last, at);
        places.push(last)?;
    }
    Ok(places)
}

impl NumberRanges {
    ghost use Rattle.reflect_tables.specs.Views.{ranges_of};

    /// The ranges of numbers that no field may take.
    pub fn reserved(alloc: Global, records: &[ReservedRange]) -> Result<NumberRanges, AllocError>
        ensures { IfOk result (λ r. IsPermutation (map reserved_range records.now) (ranges_of r)) }
    {
        let mut ranges = Vec::with_capacity(alloc, records.len())?;
        'turns: for record in records {
            ranges.push(range_of(record.start, record.end))?;
        }
        NumberRanges::sorted(alloc, ranges)
    }

    /// The ranges of numbers that extensions may take.
    pub fn extensions(alloc: Global, records: &[ExtensionRange]) -> Result<NumberRanges, AllocError>
        ensures { IfOk result (λ r. IsPermutation (map extension_range records.now) (ranges_of r)) }
    {
        let mut ranges = Vec::with_capacity(alloc, records.len())?;
        'turns: for record in records {
            ranges.push(range_of(record.start, record.end))?;
        }
        NumberRanges::sorted(alloc, ranges)
    }

    fn sorted(alloc: Global, mut ranges: Vec<NumberRange>) -> Result<NumberRanges, AllocError>
        ensures { IfOk result (λ r. IsPermutation ranges.items r.ranges.items) }
    {
        ranges.sort_unstable_by_key(|range| range.start);
        let furthest = furthest_places(alloc, ranges.as_slice())?;
        Ok(NumberRanges { ranges, furthest })
    }

    /// The start and the end of a range that has the number, if one does. Takes no memory, and a
    /// number of steps that grows with the logarithm of the ranges' count.
    pub fn find(&self, number: i32) -> Option<(i32, i32)>
        ensures { IsRangeOf (ranges_of self.now) number result }
    {
        let behind = self
            .ranges
            .as_slice()
            .partition_point(|range| range.start <= number);
        if behind == 0 {
            return None;
        }
        let range = self.ranges[self.furthest[behind - 1]];
        if number < range.end {
            Some((range.start, range.end))
        } else {
            None
        }
    }
}

fn range_of(start: Option<i32>, end: Option<i32>) -> NumberRange
    ensures start { result.start ≡ unwrap_or start (pos 0) }
    ensures end { result.end ≡ unwrap_or end (pos 0) }
{
    NumberRange {
        start: start.unwrap_or(0),
        end: end.unwrap_or(0),
    }
}
