//! The contents of a string literal, printed.

ghost use Rattle.std.specs.Fmt.{WritesOnOk};
ghost use Rattle.std.specs.Prelude.{Some};
ghost use Rattle.protox_lex.specs.Lex.{bytes_of, unescaped};
ghost use Rattle.text_lex.specs.Printed.{escaped, escaped_byte};

use protox_lex::{Escaped as SourceEscaped, Meaning, unit};
use std::fmt;

/// Bytes that print as the contents of a string in a fault: tabs, line ends and printable ASCII as
/// sources have them, and each other byte as `\x` and two hexadecimal digits.
#[derive(Clone, Copy)]
pub struct Escaped<'a>(pub &'a [u8]);

impl fmt::Display for Escaped<'_> {
    ghost output = { λ e. Some (escaped e.0.now) };

    fn fmt<W: fmt::Write>(&self, f: &mut fmt::Formatter<W>) -> fmt::Result {
        for b in self.0 {
            write!(f, "{}", EscapedByte(*b))?;
        }
        Ok(())
    }
}

/// A byte of a string in a fault.
#[derive(Clone, Copy)]
struct EscapedByte(u8);

impl fmt::Display for EscapedByte {
    ghost output = { λ b. Some (escaped_byte b.0) };

    fn fmt<W: fmt::Write>(&self, f: &mut fmt::Formatter<W>) -> fmt::Result {
        let b = self.0;
        match b {
            b'\t' | b'\n' | b'\r' | b' '..=b'~' => write!(f, "{}", SourceEscaped(&[b])),
            _ => write!(f, "\\x{b:02x}"),
        }
    }
}

/// Writes the bytes that a string's contents mean, escaped.
pub fn write_contents<W: fmt::Write>(f: &mut fmt::Formatter<W>, raw: &[u8]) -> fmt::Result
    ensures { WritesOnOk W.write_str_gives f.old result (escaped (unescaped raw.now)) f.new }
{
    let mut at = 0;
    while at < raw.len() {
        let (meaning, len) = unit(&raw[at..]);
        write_meaning(f, meaning)?;
        at += len;
    }
    Ok(())
}

fn write_meaning<W: fmt::Write>(f: &mut fmt::Formatter<W>, meaning: Meaning) -> fmt::Result
    ensures { WritesOnOk W.write_str_gives f.old result (escaped (bytes_of meaning)) f.new }
{
    match meaning {
        Meaning::Byte(b) => write!(f, "{}", EscapedByte(b)),
        Meaning::Char(c) => write!(f, "{}", Escaped(c.encode_utf8(&mut [0; 4]).as_bytes())),
    }
}
