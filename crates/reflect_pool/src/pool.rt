ghost use Rattle.std.specs.Prelude.{◌≡◌, ◌<◌, map, length, Contains, IfSome, IsSome};
ghost use Rattle.std.specs.Bool.{Decides};
ghost use Rattle.std.specs.Option.{option_map};
ghost use Rattle.reflect_tables.specs.Finding.{IsFirst};
ghost use Rattle.reflect_tables.specs.Types.{PoolType};
ghost use Rattle.reflect_scope.specs.Known.{known_of};
ghost use Rattle.reflect_pool.specs.Dots.{without_dot};
ghost use Rattle.reflect_pool.specs.Linked.{empty_pool};

use crate::enums::EnumDescriptor;
use crate::extension::ExtensionDescriptor;
use crate::message::MessageDescriptor;
use name_table::NameTable;
use reflect_scope::{
    Definition, DefinitionKind, EnumIndex, ExtensionIndex, FileIndex, Links, MessageIndex,
};
use reflect_tables::Tables;
use std::alloc::Global;
use std::collections::BTreeMap;
use std::marker::Model;

/// Linked files with what they declare.
///
/// The descriptors are lent from it: each is a place in the pool that knows its pool.
#[derive(Drop)]
pub struct DescriptorPool {
    pub(crate) tables: Tables,
    /// What each file imports.
    pub(crate) links: Vec<Links>,
    /// The places of the files, by their names.
    pub(crate) file_names: BTreeMap<String, FileIndex>,
    /// What the full names stand for.
    pub(crate) names: NameTable<Definition>,
    /// The places of the extensions, by the message that they extend and their number.
    pub(crate) extension_numbers: BTreeMap<(MessageIndex, u32), ExtensionIndex>,
}

impl Model for DescriptorPool {
    ghost use Rattle.std.specs.Coded.{codes};
    ghost use Rattle.descriptor_records.specs.contracts.message.DescriptorProto as nested;
    ghost use Rattle.reflect_tables.specs.Types.{PoolType};
    ghost use Rattle.reflect_tables.specs.Views.{pool_of};
    ghost use Rattle.reflect_pool.specs.Linked.{IsLinked};

    ghost Value = { PoolType };

    ghost coded = { Prim.hlevel (codes, nested.the_row.coded) };

    ghost view = { λ p. pool_of p.tables };

    ghost invariant = { λ p. IsLinked (pool_of p.tables) p.names p.file_names
        p.extension_numbers p.links.items p.tables.messages.items };
}

/// A full name without its leading dot, if it has one.
fn without_dot(name: &str) -> &str
    ensures { result.now ≡ without_dot name.now }
{
    match name.strip_prefix('.') {
        Some(rest) => rest,
        None => name,
    }
}

/// What a full name stands for, which may have one leading dot.
pub(crate) fn kind_of(names: &NameTable<Definition>, name: &str) -> Option<DefinitionKind>
    ensures { result ≡ option_map (λ d. d.kind) (known_of names.now (without_dot name.now)) }
{
    kind_named(names, without_dot(name))
}

/// What a full name without a leading dot stands for.
fn kind_named(names: &NameTable<Definition>, name: &str) -> Option<DefinitionKind>
    ensures { result ≡ option_map (λ d. d.kind) (known_of names.now name.now) }
{
    Some(names.get(name)?.kind)
}

impl DescriptorPool {
    ghost use Rattle.reflect_pool.specs.Finds.{IsOnly};
    ghost use Rattle.reflect_pool.specs.FindsNames.{FindsMessage, FindsEnum, FindsExtension};

    /// A pool without files. Takes no memory.
    pub fn new(alloc: Global) -> DescriptorPool
        ensures { result ≡ empty_pool }
    {
        DescriptorPool {
            tables: Tables::new(alloc),
            links: Vec::new(alloc),
            file_names: BTreeMap::new(alloc),
            names: NameTable::new(alloc),
            extension_numbers: BTreeMap::new(alloc),
        }
    }

    /// The message type at a place, if there is one.
    pub fn message_at(&self, index: MessageIndex) -> Option<MessageDescriptor<'_>>
        ensures pool { IfSome result (λ d. d.pool.now ≡ self.now) }
        ensures index { IfSome result (λ d. d.index ≡ index) }
        ensures there { index < length self.now.messages → IsSome result }
    {
        if (index as usize) < self.tables.messages.len() {
            Some(MessageDescriptor { pool: self, index })
        } else {
            None
        }
    }

    /// The enum type at a place, if there is one.
    pub fn enum_at(&self, index: EnumIndex) -> Option<EnumDescriptor<'_>>
        ensures pool { IfSome result (λ d. d.pool.now ≡ self.now) }
        ensures index { IfSome result (λ d. d.index ≡ index) }
        ensures there { index < length self.now.enums → IsSome result }
    {
        if (index as usize) < self.tables.enums.len() {
            Some(EnumDescriptor { pool: self, index })
        } else {
            None
        }
    }

    /// The extension at a place, if there is one.
    pub fn extension_at(&self, index: ExtensionIndex) -> Option<ExtensionDescriptor<'_>>
        ensures pool { IfSome result (λ d. d.pool.now ≡ self.now) }
        ensures index { IfSome result (λ d. d.index ≡ index) }
        ensures there { index < length self.now.extensions → IsSome result }
    {
        if (index as usize) < self.tables.extensions.len() {
            Some(ExtensionDescriptor { pool: self, index })
        } else {
            None
        }
    }

    /// The message type of a full name, which may have one leading dot. Takes no memory.
    pub fn get_message_by_name(&self, name: &str) -> Option<MessageDescriptor<'_>>
        ensures pool { IfSome result (λ d. d.pool.now ≡ self.now) }
        ensures finds { FindsMessage self.now name.now result }
    {
        match kind_of(&self.names, name)? {
            DefinitionKind::Message(index) => self.message_at(index),
            _ => None,
        }
    }

    /// The enum type of a full name, which may have one leading dot. Takes no memory.
    pub fn get_enum_by_name(&self, name: &str) -> Option<EnumDescriptor<'_>>
        ensures pool { IfSome result (λ d. d.pool.now ≡ self.now) }
        ensures finds { FindsEnum self.now name.now result }
    {
        match kind_of(&self.names, name)? {
            DefinitionKind::Enum(index) => self.enum_at(index),
            _ => None,
        }
    }

    /// The extension of a full name, which may have one leading dot. Takes no memory.
    pub fn get_extension_by_name(&self, name: &str) -> Option<ExtensionDescriptor<'_>>
        ensures pool { IfSome result (λ d. d.pool.now ≡ self.now) }
        ensures finds { FindsExtension self.now name.now result }
    {
        match kind_of(&self.names, name)? {
            DefinitionKind::Extension(index) => self.extension_at(index),
            _ => None,
        }
    }

    /// The place of the extension of a message with a number.
    pub(crate) fn extension_place(&self, message: MessageIndex, number: u32) -> Option<u32>
        ensures { IsFirst (λ x. (x.extendee ≡ message) × (x.field.number ≡ number))
            self.now.extensions result }
    {
        self.extension_numbers.get(&(message, number)).copied()
    }

    /// The place of the extension of a full name without a leading dot.
    pub(crate) fn extension_named(&self, name: &str) -> Option<ExtensionIndex>
        ensures { IsOnly (λ x. x.field.full_name ≡ name.now) self.now.extensions result }
    {
        match kind_named(&self.names, name)? {
            DefinitionKind::Extension(index) => Some(index),
            _ => None,
        }
    }

    /// The pool has a file of this name.
    pub fn has_file(&self, name: &str) -> bool
        ensures { Decides result (Contains (map (λ f. f.name) self.now.files) name.now) }
    {
        self.file_names.contains_key(name)
    }
}
