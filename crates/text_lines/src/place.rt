ghost use Rattle.std.specs.Prelude.{◌≡◌, ◌+◌, ◌≤◌, ◌⊎◌, IfOk, OnErr};

use std::alloc::AllocError;

/// How many payloads that look like records may be printed as such in one another.
const MAX_PAYLOADS: u32 = 100;

/// How many expanded messages may be printed in one another.
const MAX_EXPANSIONS: u32 = 100;

/// How many values may nest in what is read of bytes: in an expanded message, or in a payload that
/// is printed as records. Each takes stack, and how deep they nest is for who made the bytes to
/// say.
const MAX_LEVELS_READ: usize = 1_000;

/// Where in the text something is printed.
#[derive(Clone, Copy)]
pub struct Place {
    /// How many spaces a line begins with in the pretty form.
    pub indent: usize,
    /// How many more values may nest. Each takes memory, so no value that a caller made runs out of
    /// them.
    pub levels: usize,
    /// How many more payloads may be printed as records.
    pub payloads: u32,
    /// How many more messages may be expanded.
    pub expansions: u32,
}

impl Place {
    /// At the start of a text.
    pub const TOP: Place = Place {
        indent: 0,
        levels: usize::MAX,
        payloads: MAX_PAYLOADS,
        expansions: MAX_EXPANSIONS,
    };

    /// One level deeper on the same line.
    pub fn deeper(self) -> Result<Place, AllocError>
        ensures levels { IfOk result (λ p. self.levels ≡ p.levels + 1) }
        ensures place { IfOk result (λ p. p ≡ record self { levels = p.levels }) }
        ensures err { OnErr result (self.levels ≡ 0) }
    {
        match self.levels.checked_sub(1) {
            Some(levels) => Ok(Place { levels, ..self }),
            None => Err(AllocError),
        }
    }

    /// The same place in what is read of bytes, where at most a thousand more values nest.
    pub fn read(self) -> Place
        ensures levels { result.levels ≤ self.levels }
        ensures bound { result.levels ≤ 1000 }
        ensures as_many { (result.levels ≡ self.levels) ⊎ (result.levels ≡ 1000) }
        ensures place { result ≡ record self { levels = result.levels } }
    {
        Place {
            levels: self.levels.min(MAX_LEVELS_READ),
            ..self
        }
    }

    /// In braces at this place. A line with more spaces than a `usize` counts is wanted for no text
    /// that memory holds.
    pub fn in_braces(self) -> Result<Place, AllocError>
        ensures levels { IfOk result (λ p. self.levels ≡ p.levels + 1) }
        ensures place { IfOk result
            (λ p. p ≡ record self { indent = self.indent + 2; levels = p.levels }) }
    {
        let inner = self.deeper()?;
        match inner.indent.checked_add(2) {
            Some(indent) => Ok(Place { indent, ..inner }),
            None => Err(AllocError),
        }
    }
}
