//! Files, inputs and outputs in memory; the streams give or take a byte at a call, and fail once
//! they answered so many calls.

use reflect_schema::{ReadFault, SourceFiles};
use serde_json::Value;
use std::alloc::{AllocError, Global};
use std::io;
use std::io::{Read, Write};
use test_json::members::{bytes, items, text};

/// The bytes of a member: those of its `text`, or without one those that it has as `hex`.
pub fn content(alloc: Global, member: &Value) -> Result<Vec<u8>, AllocError> {
    if member.get("hex").is_some() {
        return bytes(alloc, member, "hex");
    }
    Vec::from_slice(alloc, text(member, "text").as_bytes())
}

/// The files of a case, each with its path and its content.
#[derive(Drop)]
pub struct CaseFiles<'c> {
    pub case: &'c Value,
}

impl<'c> SourceFiles for CaseFiles<'c> {
    fn read(&mut self, alloc: Global, path: &str) -> Result<Vec<u8>, ReadFault> {
        for file in items(self.case, "files") {
            if text(file, "path") == path {
                return content(alloc, file).map_err(|_| ReadFault::Memory);
            }
        }
        Err(ReadFault::Read)
    }
}

/// How many calls a stream still answers, and how many came after it failed.
#[derive(Clone, Copy)]
pub struct Calls {
    good: u64,
    pub has_failed: bool,
    pub later: u64,
}

impl Calls {
    /// So many calls are answered; all, where none are counted.
    pub fn new(good: Option<u64>) -> Calls {
        Calls {
            good: good.unwrap_or(u64::MAX),
            has_failed: false,
            later: 0,
        }
    }

    /// Answers a call, or fails.
    fn answer(&mut self) -> io::Result<()> {
        if self.has_failed {
            self.later = self.later.saturating_add(1);
        }
        if self.good == 0 {
            self.has_failed = true;
            return Err(io::Error::from(io::ErrorKind::Other));
        }
        self.good -= 1;
        Ok(())
    }
}

/// A reader of some bytes.
#[derive(Drop)]
pub struct Input<'b> {
    pub bytes: &'b [u8],
    pub calls: Calls,
}

impl<'b> Read for Input<'b> {
    fn read(&mut self, buffer: &mut [u8]) -> io::Result<usize> {
        self.calls.answer()?;
        let (Some(place), Some((byte, others))) = (buffer.first_mut(), self.bytes.split_first())
        else {
            return Ok(0);
        };
        *place = *byte;
        self.bytes = others;
        Ok(1)
    }
}

/// A writer that keeps what it took.
#[derive(Drop)]
pub struct Output {
    pub bytes: Vec<u8>,
    pub calls: Calls,
}

impl Write for Output {
    fn write(&mut self, bytes: &[u8]) -> io::Result<usize> {
        self.calls.answer()?;
        match bytes.first() {
            Some(byte) => {
                self.bytes.push(*byte)?;
                Ok(1)
            }
            None => Ok(0),
        }
    }

    fn flush(&mut self) -> io::Result<()> {
        self.calls.answer()
    }
}
