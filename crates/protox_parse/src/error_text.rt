//! How refusals of sources print.

ghost use Rattle.std.specs.Fmt.{WritesOnOk};
ghost use Rattle.std.specs.Prelude.{◌≡◌, ◌+ℤ◌, pos, Some};
ghost use Rattle.protox_parse.specs.Refusals.{place_text, told, told_at};

use crate::error::ParseError;
use std::fmt;

/// The text of the first fault.
impl fmt::Display for ParseError {
    ghost output = { λ e. Some (told e) };

    fn fmt<W: fmt::Write>(&self, f: &mut fmt::Formatter<W>) -> fmt::Result {
        match self.kind() {
            Some(kind) => write!(f, "{kind}"),
            None => f.write_str("out of memory"),
        }
    }
}

/// The file, the line and column from 1 where the first fault has a place, and its text.
impl fmt::Debug for ParseError {
    ghost debug_output = { λ e. Some (told_at e) };

    fn fmt<W: fmt::Write>(&self, f: &mut fmt::Formatter<W>) -> fmt::Result {
        match self {
            ParseError::Memory => write!(f, "{self}"),
            ParseError::Refused(_) => {
                write!(f, "{}:", self.file())?;
                write_place(f, self.position())?;
                write!(f, " {self}")
            }
        }
    }
}

/// A line and a column from 1, with a colon behind each, where there are any.
fn write_place<W: fmt::Write>(f: &mut fmt::Formatter<W>, place: Option<(i32, i32)>) -> fmt::Result
    ensures { WritesOnOk W.write_str_gives f.old result (place_text place) f.new }
{
    match place {
        Some((line, column)) => write!(f, "{}:{}:", from_one(line), from_one(column)),
        None => Ok(()),
    }
}

/// A number that is counted from 0, counted from 1.
fn from_one(count: i32) -> i64
    ensures { result ≡ count +ℤ pos 1 }
{
    i64::from(count) + 1
}
