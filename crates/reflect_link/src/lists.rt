//! Iterators over types and extensions by their places.

ghost use Rattle.std.specs.Prelude.{◌<◌, All, length};
ghost use Rattle.std.proofs.Props.{props};

use reflect_pool::{DescriptorPool, EnumDescriptor, ExtensionDescriptor, MessageDescriptor};
use reflect_scope::{EnumIndex, ExtensionIndex, MessageIndex};

/// Message types, as they were declared.
#[derive(Drop)]
pub struct Messages<'p> {
    pub(crate) pool: &'p DescriptorPool,
    pub(crate) places: &'p [MessageIndex],
    ghost inside: { All (λ place. place < length pool.now.messages)
        places.now } by { Prim.hlevel props },
}

impl<'p> Iterator for Messages<'p> {
    ghost use Rattle.std.specs.Iterator.{YieldsFirstBy, item_count};
    ghost use Rattle.reflect_link.specs.ListsLeft.{messages_left};
    ghost use Rattle.reflect_link.specs.TypesLeft.{message_place};

    type Item = MessageDescriptor<'p>;

    ghost next_gives = { YieldsFirstBy message_place messages_left };

    ghost remaining = { item_count messages_left };

    fn next(&mut self) -> Option<MessageDescriptor<'p>> {
        let (place, others) = self.places.split_first()?;
        self.places = others;
        self.pool.message_at(*place)
    }

    fn size_hint(&self) -> (usize, Option<usize>) {
        let left = self.len();
        (left, Some(left))
    }
}

impl<'p> ExactSizeIterator for Messages<'p> {
    fn len(&self) -> usize {
        self.places.len()
    }
}

/// Enum types, as they were declared.
#[derive(Drop)]
pub struct Enums<'p> {
    pub(crate) pool: &'p DescriptorPool,
    pub(crate) places: &'p [EnumIndex],
    ghost inside: { All (λ place. place < length pool.now.enums)
        places.now } by { Prim.hlevel props },
}

impl<'p> Iterator for Enums<'p> {
    ghost use Rattle.std.specs.Iterator.{YieldsFirstBy, item_count};
    ghost use Rattle.reflect_link.specs.ListsLeft.{enums_left};
    ghost use Rattle.reflect_link.specs.TypesLeft.{enum_place};

    type Item = EnumDescriptor<'p>;

    ghost next_gives = { YieldsFirstBy enum_place enums_left };

    ghost remaining = { item_count enums_left };

    fn next(&mut self) -> Option<EnumDescriptor<'p>> {
        let (place, others) = self.places.split_first()?;
        self.places = others;
        self.pool.enum_at(*place)
    }

    fn size_hint(&self) -> (usize, Option<usize>) {
        let left = self.len();
        (left, Some(left))
    }
}

impl<'p> ExactSizeIterator for Enums<'p> {
    fn len(&self) -> usize {
        self.places.len()
    }
}

/// Extensions, as they were declared.
#[derive(Drop)]
pub struct Extensions<'p> {
    pub(crate) pool: &'p DescriptorPool,
    pub(crate) places: &'p [ExtensionIndex],
    ghost inside: { All (λ place. place < length pool.now.extensions)
        places.now } by { Prim.hlevel props },
}

impl<'p> Iterator for Extensions<'p> {
    ghost use Rattle.std.specs.Iterator.{YieldsFirstBy, item_count};
    ghost use Rattle.reflect_link.specs.ListsLeft.{extensions_left};
    ghost use Rattle.reflect_pool.specs.ExtensionsLeft.{extension_place};

    type Item = ExtensionDescriptor<'p>;

    ghost next_gives = { YieldsFirstBy extension_place extensions_left };

    ghost remaining = { item_count extensions_left };

    fn next(&mut self) -> Option<ExtensionDescriptor<'p>> {
        let (place, others) = self.places.split_first()?;
        self.places = others;
        self.pool.extension_at(*place)
    }

    fn size_hint(&self) -> (usize, Option<usize>) {
        let left = self.len();
        (left, Some(left))
    }
}

impl<'p> ExactSizeIterator for Extensions<'p> {
    fn len(&self) -> usize {
        self.places.len()
    }
}
