ghost use Rattle.std.specs.Prelude.{◌≡◌, ◌<◌, ◌^◌, length, None, Some, IfSome, IsSome, MatchOption};
ghost use Rattle.reflect_tables.specs.Types.{EnumWithin, counts_of, enum_at};
ghost use Rattle.reflect_tables.specs.Views.{enum_of, value_of};
ghost use Rattle.reflect_pool.specs.Parts.{type_of_value};

use crate::message::MessageDescriptor;
use crate::pool::DescriptorPool;
use reflect_scope::{EnumIndex, EnumValueIndex};
use reflect_tables::{StoredEnum, StoredValue};

/// An enum type of a pool.
#[derive(Clone, Copy)]
pub struct EnumDescriptor<'p> {
    pub(crate) pool: &'p DescriptorPool,
    pub(crate) index: EnumIndex,
    ghost in_range: { index < length pool.now.enums },
}

impl<'p> EnumDescriptor<'p> {
    ghost use Rattle.reflect_pool.specs.Finds.{FindsValue};
    ghost use Rattle.reflect_pool.specs.PartsLeft.{values_left};
    ghost use Rattle.reflect_pool.specs.PlacesLeft.{places_from};

    /// The pool that the type stands in.
    pub fn parent_pool(&self) -> &'p DescriptorPool
        ensures { result.now ≡ self.now.pool.now }
    {
        self.pool
    }

    fn stored(&self) -> &'p StoredEnum
        ensures view { enum_of result.now ≡ enum_at self.now.pool.now self.now.index }
        ensures within { EnumWithin (counts_of self.now.pool.now) (enum_of result.now) }
    {
        let pool = self.pool;
        &pool.tables.enums[self.index as usize]
    }

    /// The message that the type is declared in, if it is one.
    pub fn parent_message(&self) -> Option<MessageDescriptor<'p>>
        ensures pool { IfSome result (λ d. d.pool.now ≡ self.now.pool.now) }
        ensures parent { MatchOption result
            ((enum_at self.now.pool.now self.now.index).parent ≡ None)
            (λ d. (enum_at self.now.pool.now self.now.index).parent ≡ Some d.index) }
    {
        self.pool.message_at(self.stored().parent?)
    }

    /// The name in the declaration that holds the type.
    pub fn name(&self) -> &'p str
        ensures { result.now ≡ (enum_at self.now.pool.now self.now.index).name }
    {
        self.stored().name.as_str()
    }

    /// The name with those of all that holds the type before it, joined by dots, without a leading
    /// dot.
    pub fn full_name(&self) -> &'p str
        ensures { result.now ≡ (enum_at self.now.pool.now self.now.index).full_name }
    {
        self.stored().full_name.as_str()
    }

    /// Where the declaration stands in its file's record.
    pub fn path(&self) -> &'p [i32]
        ensures { result.now ≡ (enum_at self.now.pool.now self.now.index).path }
    {
        self.stored().path.as_slice()
    }

    /// The value that a field of the type has where none is set: the first that was declared.
    pub fn default_value(&self) -> EnumValueDescriptor<'p>
        ensures enumeration { result.enumeration ≡ self.now }
        ensures first { result.index ≡ 0 }
    {
        let _ = self.stored();
        EnumValueDescriptor {
            enumeration: *self,
            index: 0,
        }
    }

    /// The values, as they were declared.
    pub fn values(&self) -> EnumValues<'p>
        ensures { values_left result ≡ places_from self.now 0
            (length (enum_at self.now.pool.now self.now.index).values) }
    {
        EnumValues {
            enumeration: *self,
            next: 0,
        }
    }

    /// The value of a number, of several the first that was declared. Takes no memory, and a number
    /// of steps that grows with the logarithm of the values' count.
    pub fn get_value(&self, number: i32) -> Option<EnumValueDescriptor<'p>>
        ensures enumeration { IfSome result (λ v. v.enumeration ≡ self.now) }
        ensures first { FindsValue (λ v. v.number ≡ number) self.now result }
    {
        let place = self.stored().values.of_number(number)?;
        Some(EnumValueDescriptor {
            enumeration: *self,
            index: place,
        })
    }

    /// The value of a name. Takes no memory, and a number of steps that grows with the logarithm of
    /// the values' count.
    pub fn get_value_by_name(&self, name: &str) -> Option<EnumValueDescriptor<'p>>
        ensures enumeration { IfSome result (λ v. v.enumeration ≡ self.now) }
        ensures first { FindsValue (λ v. v.name ≡ name.now) self.now result }
    {
        let place = self.stored().values.of_name(name)?;
        Some(EnumValueDescriptor {
            enumeration: *self,
            index: place,
        })
    }

    /// The value at a place.
    fn value_at(&self, place: EnumValueIndex) -> Option<EnumValueDescriptor<'p>>
        ensures enumeration { IfSome result (λ v. v.enumeration ≡ self.now) }
        ensures place { IfSome result (λ v. v.index ≡ place) }
        ensures there { place < length (enum_at self.now.pool.now self.now.index).values
            → IsSome result }
        ensures few { IfSome result (λ v. v.index < 2 ^ 31) }
    {
        if (place as usize) < self.stored().values.list.len() {
            Some(EnumValueDescriptor {
                enumeration: *self,
                index: place,
            })
        } else {
            None
        }
    }
}

/// Both have one place and one full name in their pools.
impl<'p> PartialEq for EnumDescriptor<'p> {
    ghost use Rattle.std.specs.Cmp.Rules.{comparing};
    ghost use Rattle.std.proofs.Common.{rules};
    ghost use Rattle.reflect_pool.specs.Same.{same_enum};

    ghost eq = { same_enum };

    ghost laws = { Prim.search (comparing, rules) };

    fn eq(&self, other: &EnumDescriptor<'p>) -> bool {
        self.index == other.index && self.full_name() == other.full_name()
    }
}

impl<'p> Eq for EnumDescriptor<'p> {
    ghost use Rattle.std.specs.Cmp.Rules.{comparing};
    ghost use Rattle.std.proofs.Common.{rules};

    ghost laws = { Prim.search (comparing, rules) };
}

/// The values of an enum type, as they were declared.
#[derive(Drop)]
pub struct EnumValues<'p> {
    enumeration: EnumDescriptor<'p>,
    next: EnumValueIndex,
}

impl<'p> Iterator for EnumValues<'p> {
    ghost use Rattle.std.specs.Iterator.{YieldsFirstBy, item_count};
    ghost use Rattle.reflect_pool.specs.PartsLeft.{value_place, values_left};

    type Item = EnumValueDescriptor<'p>;

    ghost next_gives = { YieldsFirstBy value_place values_left };

    ghost remaining = { item_count values_left };

    fn next(&mut self) -> Option<EnumValueDescriptor<'p>> {
        let value = self.enumeration.value_at(self.next)?;
        self.next += 1;
        Some(value)
    }

    fn size_hint(&self) -> (usize, Option<usize>) {
        let left = self.len();
        (left, Some(left))
    }
}

impl<'p> ExactSizeIterator for EnumValues<'p> {
    fn len(&self) -> usize {
        let values = &self.enumeration.stored().values.list;
        values.len().saturating_sub(self.next as usize)
    }
}

/// A value of an enum type.
#[derive(Clone, Copy)]
pub struct EnumValueDescriptor<'p> {
    pub(crate) enumeration: EnumDescriptor<'p>,
    pub(crate) index: EnumValueIndex,
    ghost in_range: { index < length (enum_at enumeration.pool.now enumeration.index).values },
}

impl<'p> EnumValueDescriptor<'p> {
    /// The pool that the value's type stands in.
    pub fn parent_pool(&self) -> &'p DescriptorPool
        ensures { result.now ≡ self.now.enumeration.pool.now }
    {
        self.enumeration.pool
    }

    /// The enum type that the value belongs to.
    pub fn parent_enum(&self) -> EnumDescriptor<'p>
        ensures { result ≡ self.now.enumeration }
    {
        self.enumeration
    }

    fn stored(&self) -> &'p StoredValue
        ensures { value_of result.now ≡ type_of_value self.now.enumeration.pool.now
            self.now.enumeration.index self.now.index }
    {
        let pool = self.enumeration.pool;
        &pool.tables.enums[self.enumeration.index as usize]
            .values
            .list[self.index as usize]
    }

    /// The name, as it is declared.
    pub fn name(&self) -> &'p str
        ensures { result.now ≡ (type_of_value self.now.enumeration.pool.now
            self.now.enumeration.index self.now.index).name }
    {
        self.stored().name.as_str()
    }

    /// The value's name behind that of what the enum is declared in.
    pub fn full_name(&self) -> &'p str
        ensures { result.now ≡ (type_of_value self.now.enumeration.pool.now
            self.now.enumeration.index self.now.index).full_name }
    {
        self.stored().full_name.as_str()
    }

    /// Where the declaration stands in its file's record.
    pub fn path(&self) -> &'p [i32]
        ensures { result.now ≡ (type_of_value self.now.enumeration.pool.now
            self.now.enumeration.index self.now.index).path }
    {
        self.stored().path.as_slice()
    }

    /// The number. Where the enum allows aliases another value may have it too.
    pub fn number(&self) -> i32
        ensures { result ≡ (type_of_value self.now.enumeration.pool.now self.now.enumeration.index
            self.now.index).number }
    {
        self.stored().number
    }
}

/// Both have one place in one type.
impl<'p> PartialEq for EnumValueDescriptor<'p> {
    ghost use Rattle.std.specs.Cmp.Rules.{comparing};
    ghost use Rattle.std.proofs.Common.{rules};
    ghost use Rattle.reflect_pool.specs.Same.{same_value};

    ghost eq = { same_value };

    ghost laws = { Prim.search (comparing, rules) };

    fn eq(&self, other: &EnumValueDescriptor<'p>) -> bool {
        self.index == other.index && self.enumeration == other.enumeration
    }
}

impl<'p> Eq for EnumValueDescriptor<'p> {
    ghost use Rattle.std.specs.Cmp.Rules.{comparing};
    ghost use Rattle.std.proofs.Common.{rules};

    ghost laws = { Prim.search (comparing, rules) };
}
