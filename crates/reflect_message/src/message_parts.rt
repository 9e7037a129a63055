//! What readers and writers of bytes see of a message.

ghost use Rattle.std.specs.Prelude.{◌≡◌, IfOk, OnErr};
ghost use Rattle.reflect_entries.specs.Undeclared.{undeclared};
ghost use Rattle.reflect_message.specs.Held.{fields_of, choices_of, extensions_of, unknown_of};

use crate::message::DynamicMessage;
use crate::parts::{Held, Parts};
use std::alloc::{AllocError, Global};

/// A message whose parts can be taken out and put back.
pub trait MessageParts<'p> {
    ghost use Rattle.reflect_message.specs.Names.{DynamicMessage};

    /// The message that it is.
    ghost message: { Self → DynamicMessage };

    /// What the message's memory comes from.
    fn allocator(&self) -> Global;

    /// What the message holds.
    fn held(&self) -> &Held<'p>
        ensures { result.now ≡ (message self.now).held };

    /// The block of what the message holds, taken out, or a new one. A refusal leaves the message.
    fn take_block(&mut self) -> Result<Box<Parts<'p>>, AllocError>
        ensures type_stays { (message self.new).descriptor ≡ (message self.old).descriptor }
        ensures fields { IfOk result (λ block. block.value.fields ≡ fields_of (message self.old)) }
        ensures choices { IfOk result (λ block. block.value.choices.members
            ≡ choices_of (message self.old)) }
        ensures extensions { IfOk result
            (λ block. block.value.extensions ≡ extensions_of (message self.old)) }
        ensures unknown { IfOk result (λ block. undeclared block.value.unknown
            ≡ unknown_of (message self.old)) }
        ensures err { OnErr result (self.new ≡ self.old) };

    /// Lets the message hold what the block does, and nothing else.
    fn put_block(&mut self, parts: Box<Parts<'p>>)
        ensures type_stays { (message self.new).descriptor ≡ (message self.old).descriptor }
        ensures fields { fields_of (message self.new) ≡ parts.entry.value.fields }
        ensures choices { choices_of (message self.new) ≡ parts.entry.value.choices.members }
        ensures extensions { extensions_of (message self.new) ≡ parts.entry.value.extensions }
        ensures unknown { unknown_of (message self.new) ≡ undeclared parts.entry.value.unknown };
}

impl<'p> MessageParts<'p> for DynamicMessage<'p> {
    ghost message = { λ m. m };

    fn allocator(&self) -> Global {
        self.alloc
    }

    fn held(&self) -> &Held<'p> {
        &self.held
    }

    fn take_block(&mut self) -> Result<Box<Parts<'p>>, AllocError> {
        match self.block() {
            Some(block) => Ok(block),
            None => Ok(Box::new(self.alloc, Parts::new(self.alloc))?),
        }
    }

    fn put_block(&mut self, parts: Box<Parts<'p>>) {
        self.held = Held::Block(parts);
    }
}
