//! The records of numbers that a message's type does not declare.

ghost use Rattle.std.specs.Prelude.{◌≡◌, ◌↔◌, ◌<◌, ◌^◌, ◌++◌, [], length, IsTrue, IfOk, OnOk, OnErr, SomeIff};
ghost use Rattle.std.proofs.Props.{props};
ghost use Rattle.reflect_wire.specs.Encoding.{records_bytes};
ghost use Rattle.reflect_wire.specs.Views.{field_view, records_of};
ghost use Rattle.reflect_codec.specs.Held.{held};
ghost use Rattle.reflect_entries.specs.Descends.{IsDescent};
ghost use Rattle.reflect_entries.specs.Sets.{AreGrouped, with_record, above, up_to};

use reflect_codec::Backward;
use reflect_wire::{UnknownField, UnknownFieldSet};
use std::alloc::{AllocError, Global};
use std::collections::{BTreeMap, btree_map};
use std::slice;

/// Records by their numbers, those of a number as they came.
///
/// Which numbers come is up to the bytes, so they stand in a map, where none costs more than the
/// logarithm of their count.
#[derive(Drop)]
pub struct UnknownRecords {
    alloc: Global,
    /// What stands under a number is not empty.
    sets: BTreeMap<u32, UnknownFieldSet>,
    ghost grouped: { AreGrouped sets.entries } by { Prim.hlevel props },
}

impl UnknownRecords {
    ghost use Rattle.reflect_entries.specs.Left.{unread, unwritten};
    ghost use Rattle.reflect_entries.specs.Undeclared.{undeclared};

    /// No records. Takes no memory.
    pub fn new(alloc: Global) -> UnknownRecords
        ensures { undeclared result ≡ [] }
    {
        UnknownRecords {
            alloc,
            sets: BTreeMap::new(alloc),
        }
    }

    /// There are no records.
    pub fn is_empty(&self) -> bool
        ensures { IsTrue result ↔ (undeclared self.now ≡ []) }
    {
        self.sets.is_empty()
    }

    /// Puts a record behind those of its number. A refusal leaves the records.
    pub fn insert(&mut self, field: UnknownField) -> Result<(), AllocError>
        ensures placed { OnOk result (undeclared self.new
            ≡ with_record (undeclared self.old) (field_view field)) }
        ensures left { OnErr result (undeclared self.new ≡ undeclared self.old) }
    {
        let number = field.number();
        if let Some(set) = self.sets.get_mut(&number) {
            set.insert(field)?;
            return Ok(());
        }
        let mut set = UnknownFieldSet::new(self.alloc);
        set.insert(field)?;
        self.sets.insert(number, set)?;
        Ok(())
    }

    /// The records by ascending number. Takes no memory.
    pub fn iter(&self) -> UnknownFields<'_>
        ensures { unread result ≡ undeclared self.now }
    {
        let none: &[UnknownField] = &[];
        UnknownFields {
            current: none.iter(),
            sets: self.sets.iter(),
        }
    }

    /// How many bytes the records are written in, `None` past `usize::MAX`. Takes no memory.
    pub fn encoded_len(&self) -> Option<usize>
        ensures { let n = length (records_bytes (records_of (undeclared self.now))) in SomeIff
            result (n < 2 ^ 64) n }
    {
        let mut len = 0usize;
        for (_number, set) in self.sets.iter() {
            len = len.checked_add(set.encoded_len()?)?;
        }
        Some(len)
    }

    /// The records from the highest number down, to be written from the last byte to the first.
    /// Takes no memory.
    pub fn descent(&self) -> Descent<'_>
        ensures { unwritten result ≡ undeclared self.now }
    {
        let mut rest = self.sets.iter();
        let ahead = rest.next_back();
        Descent {
            alloc: self.alloc,
            rest,
            ahead,
        }
    }

    /// Drops the records. Takes no memory.
    pub fn clear(&mut self)
        ensures { undeclared self.new ≡ [] }
    {
        self.sets.clear();
    }

    /// A copy.
    pub fn clone(&self) -> Result<UnknownRecords, AllocError>
        ensures { IfOk result (λ copy. undeclared copy ≡ undeclared self.now) }
    {
        let mut sets = BTreeMap::new(self.alloc);
        for (number, set) in self.sets.iter() {
            sets.insert(*number, set.clone()?)?;
        }
        Ok(UnknownRecords {
            alloc: self.alloc,
            sets,
        })
    }
}

/// The records that a message's type does not declare, by ascending number.
#[derive(Drop)]
pub struct UnknownFields<'m> {
    current: slice::Iter<'m, UnknownField>,
    sets: btree_map::Iter<'m, u32, UnknownFieldSet>,
}

impl<'m> Iterator for UnknownFields<'m> {
    ghost use Rattle.std.specs.Iterator.{YieldsFirstBy, item_count};
    ghost use Rattle.reflect_wire.specs.Views.{field_view};
    ghost use Rattle.reflect_entries.specs.Left.{unread};

    type Item = &'m UnknownField;

    ghost next_gives = { YieldsFirstBy (λ r. field_view r.now) unread };

    ghost remaining = { item_count unread };

    fn next(&mut self) -> Option<&'m UnknownField> {
        'sets: loop {
            if let Some(field) = self.current.next() {
                return Some(field);
            }
            let (_number, set) = self.sets.next()?;
            self.current = set.iter();
        }
    }
}

/// Records from the highest number down.
#[derive(Drop)]
pub struct Descent<'u> {
    alloc: Global,
    rest: btree_map::Iter<'u, u32, UnknownFieldSet>,
    /// The next number and its records.
    ahead: Option<(&'u u32, &'u UnknownFieldSet)>,
    ghost descends: { IsDescent rest ahead } by { Prim.hlevel props },
}

impl<'u> Descent<'u> {
    ghost use Rattle.reflect_entries.specs.Left.{unwritten};

    /// Puts the records of the numbers that are left above one.
    pub fn put_above(&mut self, out: &mut Backward, least: u32) -> Result<(), AllocError>
        ensures written { OnOk result (held out.new
            ≡ records_bytes (records_of (above least (unwritten self.old))) ++ held out.old) }
        ensures rest { OnOk result (unwritten self.new ≡ up_to least (unwritten self.old)) }
    {
        'above: while let Some((number, set)) = self.ahead {
            if *number <= least {
                return Ok(());
            }
            let mut records = Vec::new(self.alloc);
            set.write(&mut records)?;
            out.put_bytes(&records)?;
            self.ahead = self.rest.next_back();
        }
        Ok(())
    }
}
