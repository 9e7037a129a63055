//! Texts behind a text.

ghost use Rattle.std.specs.Prelude.{IfSome, OnOk};
ghost use Rattle.text_lines.specs.Added.{Adds};
ghost use Rattle.text_lines.specs.Pieces.{hexadecimal};

use std::alloc::AllocError;
use std::fmt;

/// A text.
pub(crate) fn put(output: &mut String, text: &str) -> Result<(), AllocError>
    ensures { OnOk result (Adds output.old text.now output.new) }
{
    output.push_str(text)
}

/// A value as it displays itself.
pub(crate) fn put_shown<D: fmt::Display + Drop>(
    output: &mut String,
    value: D,
) -> Result<(), AllocError>
    ensures { OnOk result (IfSome (D.output value) (λ text. Adds output.old text output.new)) }
{
    write!(output, "{value}")
}

/// A number of 32 bits with all its hexadecimal digits.
pub(crate) fn put_hex_32(output: &mut String, n: u32) -> Result<(), AllocError>
    ensures { OnOk result (Adds output.old (hexadecimal 8 n) output.new) }
{
    write!(output, "0x{n:08x}")
}

/// A number of 64 bits with all its hexadecimal digits.
pub(crate) fn put_hex_64(output: &mut String, n: u64) -> Result<(), AllocError>
    ensures { OnOk result (Adds output.old (hexadecimal 16 n) output.new) }
{
    write!(output, "0x{n:016x}")
}
