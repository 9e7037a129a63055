//! Ranges of numbers.

ghost use Rattle.std.specs.Prelude.{◌≡◌};
ghost use Rattle.protox_tree.specs.Places as places;

use crate::option::OptionList;
use crate::text::Strings;
use protox_lex::{Int, Span, across};

/// The second bound of a range.
#[derive(Clone, Copy)]
pub enum RangeEnd {
    /// The range is one number.
    None,
    Int(Int),
    /// The word `max`.
    Max(Span),
}

/// Numbers from one bound to another, both included.
#[derive(Clone, Copy)]
pub struct ReservedRange {
    pub start: Int,
    pub end: RangeEnd,
}

impl ReservedRange {
    /// That of the first bound.
    pub fn start_span(&self) -> Span
        ensures { result ≡ self.now.start.span }
    {
        self.start.span
    }

    /// That of the start, where no other bound is written.
    pub fn end_span(&self) -> Span
        ensures { result ≡ places.end_span self.now.start self.now.end }
    {
        match self.end {
            RangeEnd::None => self.start.span,
            RangeEnd::Int(int) => int.span,
            RangeEnd::Max(span) => span,
        }
    }

    /// From the first bound to the second one, where that is written.
    pub fn span(&self) -> Span
        ensures { result ≡ places.range_span self.now }
    {
        across(self.start.span, self.end_span())
    }
}

/// The statement `extensions .. ;`.
#[derive(Drop)]
pub struct Extensions {
    pub ranges: Vec<ReservedRange>,
    pub options: Option<OptionList>,
    pub span: Span,
}

/// What a `reserved` statement lists.
#[derive(Drop)]
pub enum ReservedItems {
    Ranges(Vec<ReservedRange>),
    Names(Vec<Strings>),
}

/// The statement `reserved .. ;`.
#[derive(Drop)]
pub struct Reserved {
    pub items: ReservedItems,
    pub span: Span,
}
