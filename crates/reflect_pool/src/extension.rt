ghost use Rattle.std.specs.Prelude.{◌≡◌, ◌<◌, All, length, None, Some, IfSome, MatchOption};
ghost use Rattle.std.proofs.Props.{props};
ghost use Rattle.reflect_tables.specs.Types.{ExtensionWithin, counts_of, extension_at};
ghost use Rattle.reflect_tables.specs.Views.{extension_of};

use crate::kind::{DefaultValue, Kind};
use crate::message::MessageDescriptor;
use crate::pool::DescriptorPool;
use crate::reading::{default_value, is_map, kind_in};
use reflect_scope::{ExtensionIndex, MessageIndex};
use reflect_tables::{Cardinality, StoredExtension};
use std::collections::btree_map;

/// An extension of a pool: a field of a message type that is declared elsewhere.
#[derive(Clone, Copy)]
pub struct ExtensionDescriptor<'p> {
    pub(crate) pool: &'p DescriptorPool,
    pub(crate) index: ExtensionIndex,
    ghost in_range: { index < length pool.now.extensions },
}

impl<'p> ExtensionDescriptor<'p> {
    ghost use Rattle.reflect_pool.specs.Defaults.{IsDefault};
    ghost use Rattle.reflect_pool.specs.Kinds.{IsKind};
    ghost use Rattle.reflect_pool.specs.Shapes.{holds_list, holds_map};

    /// The pool that the extension stands in.
    pub fn parent_pool(&self) -> &'p DescriptorPool
        ensures { result.now ≡ self.now.pool.now }
    {
        self.pool
    }

    fn stored(&self) -> &'p StoredExtension
        ensures view { extension_of result.now ≡ extension_at self.now.pool.now self.now.index }
        ensures within { ExtensionWithin (counts_of self.now.pool.now) (extension_of result.now) }
    {
        let pool = self.pool;
        &pool.tables.extensions[self.index as usize]
    }

    /// The message that the extension is declared in, if it is one, whatever it extends.
    pub fn parent_message(&self) -> Option<MessageDescriptor<'p>>
        ensures pool { IfSome result (λ d. d.pool.now ≡ self.now.pool.now) }
        ensures parent { MatchOption result
            ((extension_at self.now.pool.now self.now.index).parent ≡ None)
            (λ d. (extension_at self.now.pool.now self.now.index).parent ≡ Some d.index) }
    {
        self.pool.message_at(self.stored().parent?)
    }

    /// The message type that it extends.
    pub fn containing_message(&self) -> MessageDescriptor<'p>
        ensures pool { result.pool.now ≡ self.now.pool.now }
        ensures index { result.index ≡ (extension_at self.now.pool.now self.now.index).extendee }
    {
        MessageDescriptor {
            pool: self.pool,
            index: self.stored().extendee,
        }
    }

    /// The name, as it is declared.
    pub fn name(&self) -> &'p str
        ensures { result.now ≡ (extension_at self.now.pool.now self.now.index).field.name }
    {
        self.stored().field.name.as_str()
    }

    /// The name with those of all that holds the declaration before it, joined by dots, without a
    /// leading dot.
    pub fn full_name(&self) -> &'p str
        ensures { result.now ≡ (extension_at self.now.pool.now self.now.index).field.full_name }
    {
        self.stored().field.full_name.as_str()
    }

    /// The full name in brackets.
    pub fn json_name(&self) -> &'p str
        ensures { result.now ≡ (extension_at self.now.pool.now self.now.index).json_name }
    {
        self.stored().json_name.as_str()
    }

    /// Where the declaration stands in its file's record.
    pub fn path(&self) -> &'p [i32]
        ensures { result.now ≡ (extension_at self.now.pool.now self.now.index).field.path }
    {
        self.stored().field.path.as_slice()
    }

    /// The number that stands in the keys of its records.
    pub fn number(&self) -> u32
        ensures { result ≡ (extension_at self.now.pool.now self.now.index).field.number }
    {
        self.stored().field.number
    }

    /// How often it may stand.
    pub fn cardinality(&self) -> Cardinality
        ensures { result ≡ (extension_at self.now.pool.now self.now.index).field.cardinality }
    {
        self.stored().field.cardinality
    }

    /// The value is written between two tags, and its type is declared with the extension.
    pub fn is_group(&self) -> bool
        ensures { result ≡ (extension_at self.now.pool.now self.now.index).field.group }
    {
        self.stored().field.is_group
    }

    /// It holds any number of values, and is no map.
    pub fn is_list(&self) -> bool
        ensures { result ≡ holds_list self.now.pool.now
            (extension_at self.now.pool.now self.now.index).field }
    {
        self.cardinality() == Cardinality::Repeated && !self.is_map()
    }

    /// Its values are the entries of a map.
    pub fn is_map(&self) -> bool
        ensures { result ≡ holds_map self.now.pool.now
            (extension_at self.now.pool.now self.now.index).field }
    {
        is_map(self.pool, &self.stored().field)
    }

    /// A list of numbers is written as one record.
    pub fn is_packed(&self) -> bool
        ensures { result ≡ (extension_at self.now.pool.now self.now.index).field.packed }
    {
        self.stored().field.is_packed
    }

    /// An extension that is not set differs from one that holds the default.
    pub fn supports_presence(&self) -> bool
        ensures { result ≡ (extension_at self.now.pool.now self.now.index).field.presence }
    {
        self.stored().field.supports_presence
    }

    /// What it holds; of a map that is the type of its entries.
    pub fn kind(&self) -> Kind<'p>
        ensures { IsKind self.now.pool.now result
            (extension_at self.now.pool.now self.now.index).field.kind }
    {
        kind_in(self.pool, self.stored().field.kind)
    }

    /// The default that the declaration gives, if it gives one.
    pub fn default(&self) -> Option<DefaultValue<'p>>
        ensures { IsDefault self.now.pool.now
            (extension_at self.now.pool.now self.now.index).field result }
    {
        default_value(self.pool, &self.stored().field)
    }
}

/// Both have one place and one full name in their pools.
impl<'p> PartialEq for ExtensionDescriptor<'p> {
    ghost use Rattle.std.specs.Cmp.Rules.{comparing};
    ghost use Rattle.std.proofs.Common.{rules};
    ghost use Rattle.reflect_pool.specs.Same.{same_extension};

    ghost eq = { same_extension };

    ghost laws = { Prim.search (comparing, rules) };

    fn eq(&self, other: &ExtensionDescriptor<'p>) -> bool {
        self.index == other.index && self.full_name() == other.full_name()
    }
}

impl<'p> Eq for ExtensionDescriptor<'p> {
    ghost use Rattle.std.specs.Cmp.Rules.{comparing};
    ghost use Rattle.std.proofs.Common.{rules};

    ghost laws = { Prim.search (comparing, rules) };
}

/// The extensions of a message type, by ascending number.
#[derive(Drop)]
pub struct MessageExtensions<'p> {
    pub(crate) pool: &'p DescriptorPool,
    pub(crate) found: btree_map::Range<'p, (MessageIndex, u32), ExtensionIndex>,
    ghost inside: { All (λ e. e.1 < length pool.now.extensions) found } by { Prim.hlevel props },
}

impl<'p> Iterator for MessageExtensions<'p> {
    ghost use Rattle.std.specs.Iterator.{YieldsFirstBy, item_count};
    ghost use Rattle.reflect_pool.specs.ExtensionsLeft.{extension_place, extensions_left};

    type Item = ExtensionDescriptor<'p>;

    ghost next_gives = { YieldsFirstBy extension_place extensions_left };

    ghost remaining = { item_count extensions_left };

    fn next(&mut self) -> Option<ExtensionDescriptor<'p>> {
        let (_, place) = self.found.next()?;
        self.pool.extension_at(*place)
    }
}
