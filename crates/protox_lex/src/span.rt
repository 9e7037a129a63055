//! Places of a source.

ghost use Rattle.std.specs.Prelude.{◌≡◌};
ghost use Rattle.protox_lex.specs.Span as spec;

/// The bytes of a source from `start` on, up to `end`.
#[derive(Clone, Copy, PartialEq, Eq, Debug)]
pub struct Span {
    pub start: usize,
    pub end: usize,
}

/// From the start of the first span to the end of the last.
pub fn across(first: Span, last: Span) -> Span
    ensures { result ≡ spec.across first last }
{
    Span {
        start: first.start,
        end: last.end,
    }
}
