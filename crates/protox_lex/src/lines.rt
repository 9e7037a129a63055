//! Lines and columns.

ghost use Rattle.std.specs.List.Sorted.{IsNonDecreasing};
ghost use Rattle.std.specs.Prelude.{IfOk, pos, ◌≡◌, ◌+◌, ◌<◌, ◌≤◌, ◌^◌, ℕ, length, slice_index};

use crate::span::Span;
use memchr::memchr_iter;
use std::alloc::{AllocError, Global};

/// Where the lines of a source end.
#[derive(Debug, Drop)]
pub struct LineResolver {
    /// The offsets of the line feeds, in ascending order.
    ends: Vec<usize>,
    ghost ascending: { IsNonDecreasing ends.items },
    ghost few: { length ends.items < 2 ^ 31 },
}

impl LineResolver {
    ghost use Rattle.protox_lex.specs.Lines.{feeds_of, line_at, column_at, span_at};
    ghost use Rattle.protox_lex.specs.Resolver.{feeds};

    /// Reads the lines of a source. Refused only for want of memory.
    pub fn new(alloc: Global, source: &str) -> Result<LineResolver, AllocError>
        requires { length source.now < 2 ^ 31 }
        ensures { IfOk result (λ r. feeds r ≡ feeds_of source.now) }
    {
        let mut ends = Vec::new(alloc);
        let mut feeds = memchr_iter(b'\n', source.as_bytes());
        'feeds: while let Some(end) = feeds.next() {
            ends.push(end)?;
        }
        Ok(LineResolver { ends })
    }

    /// The line and the column of an offset that an `i32` counts: the line feeds before it, and the
    /// bytes behind the last of them. Takes no memory.
    pub fn resolve(&self, offset: usize) -> (i32, i32)
        requires { offset < 2 ^ 31 }
        ensures line { result.0 ≡ pos (line_at (feeds self.now) offset) }
        ensures column { result.1 ≡ pos (column_at (feeds self.now) offset) }
    {
        let line = self.line(offset);
        (line as i32, self.column(line, offset) as i32)
    }

    /// The number of line feeds before an offset.
    fn line(&self, offset: usize) -> usize
        ensures within { result ≤ length self.now.ends.items }
        ensures before { (k : ℕ) → k < result → slice_index self.now.ends.items k < offset }
        ensures behind { (k : ℕ) → result ≤ k → k < length self.now.ends.items → offset
            ≤ slice_index self.now.ends.items k }
    {
        self.ends.partition_point(|end| *end < offset)
    }

    /// The bytes between the start of a line and an offset in it.
    fn column(&self, line: usize, offset: usize) -> usize
        requires within { line ≤ length self.now.ends.items }
        requires before { (k : ℕ) → k < line → slice_index self.now.ends.items k < offset }
        ensures first { line ≡ 0 → result ≡ offset }
        ensures later { (k : ℕ) → line ≡ k + 1 → result + (slice_index self.now.ends.items k + 1)
            ≡ offset }
    {
        if line == 0 {
            offset
        } else {
            offset - self.ends[line - 1] - 1
        }
    }

    /// Line, column and end column of a span on one line; line, column, end line and end column of
    /// another one. Refused only for want of memory.
    pub fn resolve_span(&self, alloc: Global, span: Span) -> Result<Vec<i32>, AllocError>
        requires start { span.start < 2 ^ 31 }
        requires end { span.end < 2 ^ 31 }
        ensures { IfOk result (λ place. place.items
            ≡ span_at (feeds self.now) span.start span.end) }
    {
        let (line, column) = self.resolve(span.start);
        let (end_line, end_column) = self.resolve(span.end);
        let mut place = Vec::with_capacity(alloc, 4)?;
        place.push(line)?;
        place.push(column)?;
        if line != end_line {
            place.push(end_line)?;
        }
        place.push(end_column)?;
        Ok(place)
    }
}
