//! Values under field numbers, which strictly ascend.

ghost use Rattle.std.specs.Prelude.{◌≡◌, ◌<◌, ◌≤◌, ◌↔◌, IsTrue, [], length, map, IfOk, IfErr, OnErr, OnOk, Some, None};
ghost use Rattle.std.specs.List.{HoldsAt, insert};
ghost use Rattle.std.specs.List.Sorted.{IsPartitionPoint, IsSearchInRange};
ghost use Rattle.std.specs.Option.{option_copied};
ghost use Rattle.std.specs.Slice.Iter.{iter_rest};
ghost use Rattle.std.specs.Vec.Iter.{into_iter_items};
ghost use Rattle.reflect_entries.specs.Entries.{Updates, value_at, Ascend};

use std::alloc::{AllocError, Global};
use std::marker::Model;
use std::{slice, vec};

/// Values by ascending number, each number once.
pub struct Entries<V> {
    numbers: Vec<u32>,
    values: Vec<V>,
}

impl<V> Model for Entries<V> {
    ghost use Rattle.std.specs.Prelude.{◌≡◌, List, ℕ, length};
    ghost use Rattle.std.specs.List.{zip};
    ghost use Rattle.std.specs.List.Sorted.{IsStrictlySortedBy};
    ghost use Rattle.std.specs.Ordering.{nat_cmp};
    ghost use Rattle.std.specs.Coded.{coded_list};
    ghost use base.Stored.{coded×, coded_ℕ};

    ghost Value = { List (ℕ × V) };

    ghost coded = { coded_list (coded× coded_ℕ V.code) };

    ghost view = { λ e. zip e.numbers.items e.values.items };

    ghost invariant = { λ e. (length e.values.items ≡ length e.numbers.items)
        × IsStrictlySortedBy nat_cmp e.numbers.items };
}

impl<V: Drop> Drop for Entries<V> {
    fn drop(self) {
        let Entries {
            numbers: _,
            values: _,
        } = self;
    }
}

/// The place of a number, or where it would stand. The last place is tried first, since the records
/// of a message mostly ascend, and those of a list have one number.
fn place(numbers: &[u32], number: u32) -> Result<usize, usize>
    ensures in_range { IsSearchInRange result (length numbers.now) }
    ensures found { IfOk result (HoldsAt (λ n. n ≡ number) numbers.now) }
    ensures between { Ascend numbers.now
        → IfErr result (IsPartitionPoint (λ n. n < number) (λ n. number < n) numbers.now) }
{
    match numbers.last() {
        Some(last) if *last < number => Err(numbers.len()),
        Some(last) if *last == number => Ok(numbers.len() - 1),
        _ => numbers.binary_search(&number),
    }
}

/// Puts a number and a value into the same place of their lists. A refusal leaves both lists.
fn insert_both<V: Drop>(
    numbers: &mut Vec<u32>,
    values: &mut Vec<V>,
    at: usize,
    number: u32,
    value: V,
) -> Result<(), AllocError>
    requires numbers { at ≤ length numbers.old.items }
    requires values { at ≤ length values.old.items }
    ensures number { OnOk result (numbers.new.items ≡ insert numbers.old.items at number) }
    ensures value { OnOk result (values.new.items ≡ insert values.old.items at value) }
    ensures numbers_stay { OnErr result (numbers.new.items ≡ numbers.old.items) }
    ensures values_stay { OnErr result (values.new.items ≡ values.old.items) }
{
    numbers.reserve(1)?;
    values.insert(at, value)?;
    numbers.insert(at, number)?;
    Ok(())
}

impl<V> Entries<V> {
    ghost use Rattle.reflect_entries.specs.Ahead.{entries_left, taken};

    /// No entries. Takes no memory.
    pub fn new(alloc: Global) -> Entries<V>
        ensures { result ≡ [] }
    {
        Entries {
            numbers: Vec::new(alloc),
            values: Vec::new(alloc),
        }
    }

    /// How many there are.
    pub fn len(&self) -> usize
        ensures { result ≡ length self.now }
    {
        self.numbers.len()
    }

    /// There are none.
    pub fn is_empty(&self) -> bool
        ensures { IsTrue result ↔ (self.now ≡ []) }
    {
        self.numbers.is_empty()
    }

    /// The numbers with their values, by ascending number.
    pub fn iter(&self) -> Iter<'_, V>
        ensures { entries_left result ≡ self.now }
    {
        Iter {
            numbers: self.numbers.iter(),
            values: self.values.iter(),
        }
    }

    /// The numbers with their values, taken out, by ascending number.
    pub fn into_iter(self) -> IntoIter<V>
        ensures { taken result ≡ self }
    {
        let Entries { numbers, values } = self;
        IntoIter {
            numbers: numbers.into_iter(),
            values: values.into_iter(),
        }
    }

    /// Makes room for further entries. Which there are stays, whatever the result.
    pub fn reserve(&mut self, additional: usize) -> Result<(), AllocError>
        ensures { self.new ≡ self.old }
    {
        self.numbers.reserve(additional)?;
        self.values.reserve(additional)
    }

    /// Drops all entries. Takes no memory.
    pub fn clear(&mut self)
    where
        V: Drop,
        ensures { self.new ≡ [] }
    {
        self.numbers.clear();
        self.values.clear();
    }

    /// The numbers, which ascend.
    pub fn numbers(&self) -> &[u32]
        ensures { result.now ≡ map (λ e. e.0) self.now }
    {
        self.numbers.as_slice()
    }

    /// The values, by their numbers.
    pub fn values(&self) -> &[V]
        ensures { result.now ≡ map (λ e. e.1) self.now }
    {
        self.values.as_slice()
    }

    /// What stands under a number.
    pub fn get(&self, number: u32) -> Option<&V>
        ensures { option_copied result ≡ value_at self.now number }
    {
        match place(self.numbers.as_slice(), number) {
            Ok(at) => Some(&self.values[at]),
            Err(_) => None,
        }
    }

    /// What stood under a number, taken out of its place.
    pub fn take(&mut self, number: u32) -> Option<V>
    where
        V: Drop,
        ensures value { result ≡ value_at self.old number }
        ensures updates { Updates self.old self.new number None }
    {
        match place(self.numbers.as_slice(), number) {
            Ok(at) => {
                self.numbers.remove(at);
                Some(self.values.remove(at))
            }
            Err(_) => None,
        }
    }

    /// Puts a value under a number, over what stood there. A refusal leaves the entries.
    pub fn set(&mut self, number: u32, value: V) -> Result<(), AllocError>
    where
        V: Drop,
        ensures refused { OnErr result (self.new ≡ self.old) }
        ensures updates { OnOk result (Updates self.old self.new number (Some value)) }
    {
        match place(self.numbers.as_slice(), number) {
            Ok(at) => {
                self.values[at] = value;
            }
            Err(at) => {
                insert_both(&mut self.numbers, &mut self.values, at, number, value)?;
            }
        }
        Ok(())
    }
}

impl Entries<u32> {
    /// A copy.
    pub fn clone(&self) -> Result<Entries<u32>, AllocError>
        ensures { IfOk result (λ copy. copy ≡ self.now) }
    {
        Ok(Entries {
            numbers: self.numbers.clone()?,
            values: self.values.clone()?,
        })
    }
}

impl<V> Entries<V> {
    ghost use Rattle.std.specs.Borrow.{sem};
    ghost use Rattle.reflect_entries.specs.Lent.{lends_value, lends_slot};
    ghost use Rattle.std.specs.Option.{option_copied_mut, unwrap_or};

    /// What stands under a number, to be changed.
    pub fn get_mut(&mut self, number: u32) -> Option<&mut V>
        ensures* writes_back { sem 𝓛 (lends_value V.row self.entry number result) }
        ensures value { option_copied_mut result ≡ value_at self.old number }
    {
        match place(self.numbers.as_slice(), number) {
            Ok(at) => Some(&mut self.values[at]),
            Err(_) => None,
        }
    }

    /// The place of a number, where the default is put if nothing stands under it. A refusal leaves
    /// the entries.
    fn room(&mut self, number: u32, default: V) -> Result<usize, AllocError>
    where
        V: Drop,
        ensures found { IfOk result (λ at. (at < length self.new)
            × HoldsAt (λ e. e.0 ≡ number) self.new at) }
        ensures updates { OnOk result (Updates self.old self.new number
            (Some (unwrap_or (value_at self.old number) default))) }
        ensures refused { OnErr result (self.new ≡ self.old) }
    {
        match place(self.numbers.as_slice(), number) {
            Ok(at) => Ok(at),
            Err(at) => {
                insert_both(&mut self.numbers, &mut self.values, at, number, default)?;
                Ok(at)
            }
        }
    }

    /// Puts the value where nothing stands under the number. A refusal leaves the entries.
    pub fn fill(&mut self, number: u32, value: V) -> Result<(), AllocError>
    where
        V: Drop,
        ensures updates { OnOk result (Updates self.old self.new number
            (Some (unwrap_or (value_at self.old number) value))) }
        ensures refused { OnErr result (self.new ≡ self.old) }
    {
        self.room(number, value)?;
        Ok(())
    }

    /// What stands under a number, to be changed; where nothing does, the default is put there. A
    /// refusal leaves the entries.
    pub fn slot(&mut self, number: u32, default: V) -> Result<&mut V, AllocError>
    where
        V: Drop,
        ensures* writes_back { sem 𝓛 (lends_slot V.row self.entry number result) }
        ensures value { IfOk result (λ r. r.now ≡ unwrap_or (value_at self.old number) default) }
    {
        let at = self.room(number, default)?;
        Ok(&mut self.values[at])
    }
}

/// Numbers with their values, by ascending number.
#[derive(Drop)]
pub struct Iter<'e, V> {
    numbers: slice::Iter<'e, u32>,
    values: slice::Iter<'e, V>,
    ghost each: { length (iter_rest values) ≡ length (iter_rest numbers) },
}

impl<'e, V> Iterator for Iter<'e, V> {
    ghost use Rattle.std.specs.Iterator.{YieldsFirstBy, item_count};
    ghost use Rattle.reflect_entries.specs.Ahead.{entries_left, lent};

    type Item = (u32, &'e V);

    ghost next_gives = { YieldsFirstBy lent entries_left };

    ghost remaining = { item_count entries_left };

    fn next(&mut self) -> Option<(u32, &'e V)> {
        let number = self.numbers.next()?;
        let value = self.values.next()?;
        Some((*number, value))
    }
}

/// Numbers with their values, taken out, by ascending number.
#[derive(Drop)]
pub struct IntoIter<V> {
    numbers: vec::IntoIter<u32>,
    values: vec::IntoIter<V>,
    ghost each: { length (into_iter_items values) ≡ length (into_iter_items numbers) },
}

impl<V: Drop> Iterator for IntoIter<V> {
    ghost use Rattle.std.specs.Iterator.{YieldsFirstBy, item_count};
    ghost use Rattle.reflect_entries.specs.Ahead.{taken};

    type Item = (u32, V);

    ghost next_gives = { YieldsFirstBy (λ e. e) taken };

    ghost remaining = { item_count taken };

    fn next(&mut self) -> Option<(u32, V)> {
        let number = self.numbers.next()?;
        let value = self.values.next()?;
        Some((number, value))
    }
}
