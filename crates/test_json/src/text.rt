//! Texts that are put together.

use std::alloc::{AllocError, Global};
use std::fmt::Display;

/// A text that is written piece by piece.
///
/// Want of memory is told when the text is taken, so that none who writes a piece of it has an
/// error to pass on: a function that writes an answer costs a proof of each place where it returns.
#[derive(Drop)]
pub struct Text {
    written: String,
    has_room: bool,
}

impl Text {
    pub fn new(alloc: Global) -> Text {
        Text {
            written: String::new(alloc),
            has_room: true,
        }
    }

    /// Says that there was no room.
    pub fn give_up(&mut self) {
        self.has_room = false;
    }

    /// Says whether a call had room.
    pub fn check(&mut self, outcome: Result<(), AllocError>) {
        if outcome.is_err() {
            self.give_up();
        }
    }

    /// Writes a piece.
    pub fn push_str(&mut self, piece: &str) {
        let outcome = self.written.push_str(piece);
        self.check(outcome);
    }

    /// Writes a word and a text behind it.
    pub fn push_pair(&mut self, word: &str, text: &str) {
        self.push_str(word);
        self.push_str(text);
    }

    /// Writes a value as it displays itself. `write!` calls it.
    pub fn write_fmt<D: Display + Drop>(&mut self, value: D) {
        if self.written.write_fmt(value).is_err() {
            self.give_up();
        }
    }

    /// Writes a word, and a value behind it as it displays itself.
    pub fn push_shown<D: Display + Drop>(&mut self, word: &str, value: D) {
        self.push_str(word);
        self.write_fmt(value);
    }

    /// Writes a word, and a text behind it in quotes.
    pub fn push_quoted(&mut self, word: &str, text: &str) {
        self.push_str(word);
        write!(self, "{text:?}");
    }

    /// Writes where something stands: the place of its first byte, and that behind its last.
    pub fn push_span(&mut self, start: usize, end: usize) {
        write!(self, "{start}..{end}");
    }

    /// Writes bytes as hex text.
    pub fn push_hex(&mut self, bytes: &[u8]) {
        for byte in bytes {
            write!(self, "{byte:02x}");
        }
    }

    /// Whether nothing is written.
    pub fn is_empty(&self) -> bool {
        self.written.is_empty()
    }

    /// The whole text, if there was room for it and for all that was checked.
    pub fn into_string(self) -> Result<String, AllocError> {
        let Text { written, has_room } = self;
        if has_room {
            Ok(written)
        } else {
            Err(AllocError)
        }
    }
}
