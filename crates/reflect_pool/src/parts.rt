//! What a pool consists of, given away and taken back.

ghost use Rattle.std.specs.Prelude.{◌≡◌};
ghost use Rattle.reflect_tables.specs.Views.{pool_of};
ghost use Rattle.reflect_pool.specs.Linked.{IsLinked};

use crate::pool::DescriptorPool;
use name_table::NameTable;
use reflect_scope::{Definition, ExtensionIndex, FileIndex, Links, MessageIndex};
use reflect_tables::Tables;
use std::collections::BTreeMap;

/// The tables of a pool, which hold its entries and what these are found by.
#[derive(Drop)]
pub struct PoolParts {
    pub tables: Tables,
    /// What each file imports.
    pub links: Vec<Links>,
    /// The places of the files, by their names.
    pub file_names: BTreeMap<String, FileIndex>,
    /// What the full names stand for.
    pub names: NameTable<Definition>,
    /// The places of the extensions, by the message that they extend and their number.
    pub extension_numbers: BTreeMap<(MessageIndex, u32), ExtensionIndex>,
}

impl DescriptorPool {
    /// The pool of these parts, which have to fit together as those of a pool do. Takes no memory.
    pub fn from_parts(parts: PoolParts) -> DescriptorPool
        requires { IsLinked (pool_of parts.tables) parts.names parts.file_names
            parts.extension_numbers parts.links.items parts.tables.messages.items }
        ensures { result ≡ pool_of parts.tables }
    {
        let PoolParts {
            tables,
            links,
            file_names,
            names,
            extension_numbers,
        } = parts;
        DescriptorPool {
            tables,
            links,
            file_names,
            names,
            extension_numbers,
        }
    }

    /// The parts of the pool. Takes no memory.
    pub fn into_parts(self) -> PoolParts
        ensures holds { pool_of result.tables ≡ self }
        ensures linked { IsLinked (pool_of result.tables) result.names result.file_names
            result.extension_numbers result.links.items result.tables.messages.items }
    {
        let DescriptorPool {
            tables,
            links,
            file_names,
            names,
            extension_numbers,
        } = self;
        PoolParts {
            tables,
            links,
            file_names,
            names,
            extension_numbers,
        }
    }
}
