//! The comments of a gap.

ghost use Rattle.std.specs.Prelude.{◌≡◌, [], ◌∷◌, ◌++◌, None, false, true, OnOk, OnErr, MatchOption, option_map, option_to_list, map, length};
ghost use Rattle.std.specs.String.{string_bytes};

use std::alloc::{AllocError, Global};
use std::mem;

/// The comments of one gap, cut into blocks.
///
/// Line comments that follow one another are one block, and a block comment is a block by itself.
/// Whom a comment belongs to is told by "Comments" of `SourceCodeInfo` in protobuf's
/// `descriptor.proto`.
#[derive(Debug, Drop)]
pub struct Comments {
    blocks: Vec<String>,
    /// Another line comment lengthens the last block.
    is_open: bool,
    /// A blank line follows the last block.
    is_detached: bool,
    ghost open_is_unparted: { is_open ≡ true → is_detached ≡ false },
}

impl Comments {
    ghost use Rattle.protox_lex.specs.Blocks.{blocks, lengthened, with_block};

    /// No comments. Takes no memory.
    pub fn new(alloc: Global) -> Comments
        ensures texts { (blocks result).texts ≡ [] }
        ensures open { (blocks result).is_open ≡ false }
        ensures parted { (blocks result).is_parted ≡ false }
    {
        Comments {
            blocks: Vec::new(alloc),
            is_open: false,
            is_detached: false,
        }
    }

    /// A block comment is a block by itself. For want of memory nothing is changed.
    pub fn block_comment(&mut self, text: &str) -> Result<(), AllocError>
        ensures ok { OnOk result (blocks self.new ≡ with_block (blocks self.old) text.now) }
        ensures err { OnErr result (blocks self.new ≡ blocks self.old) }
    {
        self.push(text)?;
        self.is_open = false;
        Ok(())
    }

    /// A line comment lengthens the block that is open, or opens one. For want of memory nothing is
    /// changed.
    pub fn line_comment(&mut self, text: &str) -> Result<(), AllocError>
        ensures lengthens { OnOk result
            ((blocks self.old).is_open ≡ true → (blocks self.new).texts
            ≡ lengthened (blocks self.old).texts text.now) }
        ensures opens { OnOk result ((blocks self.old).is_open ≡ false → (blocks self.new).texts
            ≡ (blocks self.old).texts ++ text.now ∷ []) }
        ensures open { OnOk result ((blocks self.new).is_open ≡ true) }
        ensures parted { OnOk result ((blocks self.new).is_parted ≡ false) }
        ensures err { OnErr result (blocks self.new ≡ blocks self.old) }
    {
        if self.is_open {
            if let Some(last) = self.blocks.last_mut() {
                return last.push_str(text);
            }
        }
        self.push(text)?;
        self.is_open = true;
        Ok(())
    }

    fn push(&mut self, text: &str) -> Result<(), AllocError>
        ensures texts { OnOk result ((blocks self.new).texts
            ≡ (with_block (blocks self.old) text.now).texts) }
        ensures parted { OnOk result ((blocks self.new).is_parted ≡ false) }
        ensures err { OnErr result (blocks self.new ≡ blocks self.old) }
    {
        let block = String::from_str(*self.blocks.allocator(), text)?;
        self.blocks.push(block)?;
        self.is_detached = false;
        Ok(())
    }

    /// A blank line: it closes the open block, and parts the last one from what follows.
    pub fn detach(&mut self)
        ensures texts { (blocks self.new).texts ≡ (blocks self.old).texts }
        ensures open { (blocks self.new).is_open ≡ false }
        ensures parted { (blocks self.new).is_parted ≡ true }
    {
        self.flush();
        self.is_detached = true;
    }

    /// Closes the open block.
    pub fn flush(&mut self)
        ensures texts { (blocks self.new).texts ≡ (blocks self.old).texts }
        ensures open { (blocks self.new).is_open ≡ false }
        ensures parted { (blocks self.new).is_parted ≡ (blocks self.old).is_parted }
    {
        self.is_open = false;
    }

    /// Drops all comments, and with them both marks. Takes no memory.
    pub fn reset(&mut self)
        ensures texts { (blocks self.new).texts ≡ [] }
        ensures open { (blocks self.new).is_open ≡ false }
        ensures parted { (blocks self.new).is_parted ≡ false }
    {
        self.blocks.clear();
        self.is_open = false;
        self.is_detached = false;
    }

    /// Takes the blocks: the detached ones, and the leading one, which is the last where no blank
    /// line followed it.
    pub fn take_leading(&mut self) -> (Vec<String>, Option<String>)
        ensures all { (blocks self.old).texts ≡ map string_bytes result.0.items
            ++ option_to_list (option_map string_bytes result.1) }
        ensures parted { (blocks self.old).is_parted ≡ true → result.1 ≡ None }
        ensures last { (blocks self.old).is_parted ≡ false → result.1 ≡ None
            → (blocks self.old).texts ≡ [] }
        ensures after { (blocks self.new).texts ≡ [] }
        ensures closed { (blocks self.new).is_open ≡ false }
        ensures unparted { (blocks self.new).is_parted ≡ false }
    {
        let alloc = *self.blocks.allocator();
        let mut detached = mem::replace(&mut self.blocks, Vec::new(alloc));
        let leading = if self.is_detached {
            None
        } else {
            detached.pop()
        };
        self.reset();
        (detached, leading)
    }

    /// How many blocks there are.
    pub fn count(&self) -> usize
        ensures { result ≡ length (blocks self.now).texts }
    {
        self.blocks.len()
    }

    /// Takes the first block.
    pub fn take_trailing(&mut self) -> Option<String>
        ensures first { MatchOption result
            (((blocks self.old).texts ≡ []) × (blocks self.new ≡ blocks self.old))
            (λ t. (blocks self.old).texts ≡ string_bytes t ∷ (blocks self.new).texts) }
        ensures open { (blocks self.new).is_open ≡ (blocks self.old).is_open }
        ensures parted { (blocks self.new).is_parted ≡ (blocks self.old).is_parted }
    {
        if self.blocks.is_empty() {
            None
        } else {
            Some(self.blocks.remove(0))
        }
    }
}
