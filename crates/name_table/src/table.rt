ghost use Rattle.std.specs.Prelude.{◌≡◌, ℕ, List, Bool, IfOk, OnOk, OnErr, None};
ghost use Rattle.name_table.specs.Slots.{AreApart};

use crate::hash::hash_of;
use crate::key::NameHash;
use crate::put::put_if_free;
use crate::slot::Slot;
use std::alloc::{AllocError, Global};
use std::collections::BTreeMap;

/// Which values stay in a table.
pub trait ValueTest<V> {
    ghost keeps: { Self → V → Bool };

    /// Whether a value stays.
    fn keeps(&self, value: &V) -> bool
        ensures { result ≡ keeps self.now value.now };
}

/// What names stand for.
#[derive(Drop)]
pub struct NameTable<V: Copy> {
    /// By the hash of the name: one name for each.
    slots: BTreeMap<NameHash, Slot<V>>,
    /// The names whose hash another name has.
    crowded: BTreeMap<String, V>,
    ghost apart: { AreApart slots crowded },
}

impl<V: Copy> NameTable<V> {
    ghost use Rattle.name_table.specs.Hash.{hash_of};
    ghost use Rattle.name_table.specs.Known.{known_in, first_stays, kept};
    ghost use Rattle.name_table.specs.Slots.{in_slots};

    /// A table without names. Takes no memory.
    #[tactic(auto, unfolding(crate::specs::Known::known_in))]
    pub fn new(alloc: Global) -> NameTable<V>
        ensures known { known_in result ≡ λ _. None }
    {
        NameTable {
            slots: BTreeMap::new(alloc),
            crowded: BTreeMap::new(alloc),
        }
    }

    /// What a name stands for. Takes no memory.
    #[tactic(auto, unfolding(crate::specs::Known::known_in))]
    pub fn get(&self, name: &str) -> Option<V>
        ensures { result ≡ known_in self.now name.now }
    {
        match self.held_at(hash_of(name), name) {
            Some(value) => Some(value),
            None => self.crowded.get(name).copied(),
        }
    }

    /// What stands under the hash of a name, if it has the name.
    #[inline]
    fn held_at(&self, hash: NameHash, name: &str) -> Option<V>
        requires { hash.bits ≡ hash_of name.now }
        ensures { result ≡ in_slots self.now.slots name.now }
    {
        let held = self.slots.get(&hash)?;
        if held.name.as_str() == name {
            Some(held.value)
        } else {
            None
        }
    }

    /// What the name stands for already; or else nothing, and it stands for `value` from then on.
    /// Refused for want of memory alone, and then each name stands for what it stood for.
    #[tactic(auto, unfolding(crate::specs::Known::known_in))]
    pub fn insert_first(
        &mut self,
        alloc: Global,
        name: &str,
        value: V,
    ) -> Result<Option<V>, AllocError>
        ensures found { IfOk result (λ found. found ≡ known_in self.old name.now) }
        ensures known { OnOk result
            (known_in self.new ≡ first_stays (known_in self.old) name.now value) }
        ensures unchanged { OnErr result (known_in self.new ≡ known_in self.old) }
    {
        if let Some(first) = self.crowded.get(name).copied() {
            return Ok(Some(first));
        }
        let hash = hash_of(name);
        let slot = Slot {
            name: String::from_str(alloc, name)?,
            value,
        };
        match put_if_free(&mut self.slots, hash, slot)? {
            None => Ok(None),
            Some(slot) => match self.held_at(hash, name) {
                Some(first) => Ok(Some(first)),
                None => {
                    self.crowded.insert(slot.name, slot.value)?;
                    Ok(None)
                }
            },
        }
    }

    /// Leaves only the names of values that pass the test. Takes no memory.
    pub fn retain<T: ValueTest<V>>(&mut self, test: &T)
        ensures { (t : List ℕ)
            → known_in self.new t ≡ kept (T.keeps test.now) (known_in self.old t) }
    {
        self.slots.retain(|_, slot| test.keeps(&slot.value));
        self.crowded.retain(|_, value| test.keeps(&*value));
    }
}
