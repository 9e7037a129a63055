//! The lines that a run writes, of its refusals and of its words.

ghost use Rattle.std.specs.Prelude.{◌≡◌, ◌⊎◌, IfSome, OnErr, OnOk};
ghost use Rattle.clap.specs.Values.{kind_of};
ghost use Rattle.run_parts.specs.Statuses.{IsShown, refusal_status, usage_status};
ghost use Rattle.run_parts.specs.Streams.{Gets, GetsPart, GetsSome, between, line_of};
ghost use Rattle.run_parts.specs.Usage.{TellsRefusal, TellsUntyped, TellsUsage};

use crate::files::FileFault;
use clap::error::ErrorKind;
use schema_words::require_type;
use std::alloc::Global;
use std::io::Write;
use std::{fmt, io};

/// Writes bytes to a stream, piece by piece, until it has taken all of them or refuses some.
///
/// A write that is interrupted is tried again. A stream that takes no byte refuses, and so does one
/// that was written to as often as a 64-bit number counts.
//
// (the standard library's `write_all` does so too, but does not tell that what a refused call has
// written is a beginning of the bytes)
fn write_pieces<W: Write>(stream: &mut W, bytes: &[u8]) -> io::Result<()>
    ensures whole { OnOk result (Gets (between W.contents stream.old stream.new) bytes.now) }
    ensures part { OnErr result (GetsPart (between W.contents stream.old stream.new) bytes.now) }
{
    let mut rest = bytes;
    let mut tries = u64::MAX;
    'writes: while !rest.is_empty() {
        if tries == 0 {
            return Err(io::Error::from(io::ErrorKind::TimedOut));
        }
        tries -= 1;
        match stream.write(rest) {
            Ok(0) => return Err(io::Error::from(io::ErrorKind::WriteZero)),
            Ok(n) => rest = &rest[n..],
            Err(error) => {
                if error.kind() != io::ErrorKind::Interrupted {
                    return Err(error);
                }
            }
        }
    }
    Ok(())
}

/// Writes a text to a stream, with a line end; a stream that refuses some of it gets no more.
///
/// `Ok` where all of the line is written, else a beginning of it is: nothing where memory ran out,
/// which is an error too.
pub fn write_line<W: Write, D: fmt::Display + Drop>(
    alloc: Global,
    stream: &mut W,
    text: D,
) -> io::Result<()>
    ensures whole { OnOk result (IfSome (D.output text)
        (λ t. Gets (between W.contents stream.old stream.new) (line_of t))) }
    ensures part { OnErr result (IfSome (D.output text)
        (λ t. GetsPart (between W.contents stream.old stream.new) (line_of t))) }
    ensures some { GetsSome (between W.contents stream.old stream.new) }
{
    let line = format!(in alloc; "{text}\n")?;
    write_pieces(stream, line.as_str().as_bytes())
}

/// Writes the version, whose text ends its line itself; a stream that refuses some of it gets no
/// more.
fn write_version<W: Write>(alloc: Global, stream: &mut W, version: clap::Error) {
    if let Ok(line) = format!(in alloc; "{version}") {
        let _ = write_pieces(stream, line.as_str().as_bytes());
    }
}

/// Writes why the command line is refused, and gives the status: 5 where memory ran out, and else 2.
fn tell_refusal<E: Write>(alloc: Global, error: clap::Error, errors: &mut E) -> u8
    ensures status { result ≡ refusal_status (kind_of error) }
    ensures told { TellsRefusal (kind_of error) (between E.contents errors.old errors.new) }
{
    match error.kind() {
        ErrorKind::OutOfMemory => {
            let _ = write_line(alloc, errors, FileFault::Memory);
            5
        }
        _ => {
            let _ = write_line(alloc, errors, error);
            2
        }
    }
}

/// Writes help or the version, where it was asked for, and else why the command line is refused,
/// and gives the status: 0 where something was asked for, and else that of the refusal.
pub fn tell_usage<W: Write, E: Write>(
    alloc: Global,
    error: clap::Error,
    output: &mut W,
    errors: &mut E,
) -> u8
    ensures status { result ≡ usage_status (kind_of error) }
    ensures kept { IsShown (kind_of error) ⊎ (output.new ≡ output.old) }
    ensures told { TellsUsage (kind_of error) (between E.contents errors.old errors.new) }
{
    match error.kind() {
        ErrorKind::DisplayHelp => {
            let _ = write_line(alloc, output, error);
            0
        }
        ErrorKind::DisplayVersion => {
            write_version(alloc, output, error);
            0
        }
        _ => tell_refusal(alloc, error, errors),
    }
}

/// Writes that a payload wants a type, in the words of the command line, and gives the status.
pub fn tell_untyped<E: Write>(alloc: Global, words: &[&str], errors: &mut E) -> u8
    ensures { TellsUntyped result (between E.contents errors.old errors.new) }
{
    match require_type(alloc, words) {
        Ok(()) => 2,
        Err(error) => tell_refusal(alloc, error, errors),
    }
}
