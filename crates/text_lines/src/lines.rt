//! Lines, items and their separators.

ghost use Rattle.text_lines.specs.Added.{Adds};
ghost use Rattle.text_lines.specs.Pieces.{
  before_element,
  before_item,
  bracketed,
  colon,
  last_line,
  new_line,
  padding,
  quoted,
};
ghost use Rattle.std.specs.Prelude.{
  ◌≡◌,
  ◌++◌,
  ◌∷◌,
  [],
  IfSome,
  OnOk,
  string_bytes,
  true,
  false,
};

use crate::options::FormatOptions;
use crate::output::{put, put_shown};
use crate::place::Place;
use protox_lex::Escaped;
use std::alloc::{AllocError, Global};
use std::fmt;

/// A text that grows, in the form of the options. Its calls are refused for want of memory alone,
/// and may then have added a part of what they add.
#[derive(Drop)]
pub struct Lines {
    pub alloc: Global,
    pub options: FormatOptions,
    pub output: String,
}

/// How far a list of lines or of entries is.
#[derive(Clone, Copy)]
pub struct Items {
    /// Braces stand around the items.
    pub in_braces: bool,
    /// An item is printed.
    pub any: bool,
}

impl Items {
    /// No item is printed yet.
    pub fn new(in_braces: bool) -> Items
        ensures { result ≡ record { in_braces = in_braces; any = false } }
    {
        Items {
            in_braces,
            any: false,
        }
    }
}

impl Lines {
    /// No text yet.
    pub fn new(alloc: Global, options: FormatOptions) -> Lines
        ensures text { string_bytes result.output ≡ [] }
        ensures form { result.options ≡ options }
    {
        Lines {
            alloc,
            options,
            output: String::new(alloc),
        }
    }

    /// A text.
    pub fn put(&mut self, text: &str) -> Result<(), AllocError>
        ensures text { OnOk result (Adds self.old.output text.now self.new.output) }
        ensures form { self.new.options ≡ self.old.options }
    {
        put(&mut self.output, text)
    }

    /// A value as it displays itself.
    pub fn put_shown<D: fmt::Display + Drop>(&mut self, value: D) -> Result<(), AllocError>
        ensures text { OnOk result (IfSome (D.output value)
            (λ text. Adds self.old.output text self.new.output)) }
        ensures form { self.new.options ≡ self.old.options }
    {
        put_shown(&mut self.output, value)
    }

    /// A name in brackets.
    pub fn put_bracketed(&mut self, name: &str) -> Result<(), AllocError>
        ensures text { OnOk result (Adds self.old.output (bracketed name.now) self.new.output) }
        ensures form { self.new.options ≡ self.old.options }
    {
        write!(self.output, "[{name}]")
    }

    /// What stands before an element of a list.
    pub fn next_element(&mut self, is_first: &mut bool) -> Result<(), AllocError>
        ensures text { OnOk result (Adds self.old.output
            (before_element self.old.options.pretty is_first.old) self.new.output) }
        ensures first { OnOk result (is_first.new ≡ false) }
        ensures form { self.new.options ≡ self.old.options }
    {
        if !*is_first {
            put(&mut self.output, ",")?;
            self.padding()?;
        }
        *is_first = false;
        Ok(())
    }

    /// What stands before an item.
    pub fn next_item(&mut self, items: &mut Items, at: Place) -> Result<(), AllocError>
        ensures text { OnOk result (Adds self.old.output
            (before_item self.old.options.pretty items.old.in_braces items.old.any at.indent)
            self.new.output) }
        ensures items { OnOk result (items.new ≡ record items.old { any = true }) }
        ensures form { self.new.options ≡ self.old.options }
    {
        if self.options.pretty {
            if items.any || items.in_braces {
                self.line(at)?;
            }
        } else if items.any {
            put(&mut self.output, ",")?;
        }
        items.any = true;
        Ok(())
    }

    /// The brace behind items that stand in braces at a place.
    pub fn close(&mut self, any: bool, at: Place) -> Result<(), AllocError>
        ensures text { OnOk result (Adds self.old.output
            (last_line self.old.options.pretty any at.indent ++ 125 ∷ []) self.new.output) }
        ensures form { self.new.options ≡ self.old.options }
    {
        self.last_line(any, at)?;
        put(&mut self.output, "}")
    }

    /// The line that the brace behind items stands in.
    fn last_line(&mut self, any: bool, at: Place) -> Result<(), AllocError>
        ensures text { OnOk result (Adds self.old.output
            (last_line self.old.options.pretty any at.indent) self.new.output) }
        ensures form { self.new.options ≡ self.old.options }
    {
        if any && self.options.pretty {
            self.line(at)?;
        }
        Ok(())
    }

    /// The end of a line, and the spaces that the next one begins with.
    fn line(&mut self, at: Place) -> Result<(), AllocError>
        ensures text { OnOk result (Adds self.old.output (new_line at.indent) self.new.output) }
        ensures form { self.new.options ≡ self.old.options }
    {
        put(&mut self.output, "\n")?;
        for _ in 0..at.indent {
            put(&mut self.output, " ")?;
        }
        Ok(())
    }

    /// A space where the form has one.
    pub fn padding(&mut self) -> Result<(), AllocError>
        ensures text { OnOk result (Adds self.old.output (padding self.old.options.pretty)
            self.new.output) }
        ensures form { self.new.options ≡ self.old.options }
    {
        if self.options.pretty {
            put(&mut self.output, " ")?;
        }
        Ok(())
    }

    /// A colon and the space behind it.
    pub fn colon(&mut self) -> Result<(), AllocError>
        ensures text { OnOk result (Adds self.old.output (colon self.old.options.pretty)
            self.new.output) }
        ensures form { self.new.options ≡ self.old.options }
    {
        put(&mut self.output, ":")?;
        self.padding()
    }

    /// Bytes as a string literal.
    pub fn string(&mut self, bytes: &[u8]) -> Result<(), AllocError>
        ensures text { OnOk result (Adds self.old.output (quoted bytes.now) self.new.output) }
        ensures form { self.new.options ≡ self.old.options }
    {
        let contents = Escaped(bytes);
        write!(self.output, "\"{contents}\"")
    }
}
