ghost use Rattle.std.specs.Prelude.{◌≡◌, ◌<◌, All, length, map};
ghost use Rattle.std.proofs.Props.{props};
ghost use Rattle.reflect_tables.specs.Types.{type_at, type_of_field};
ghost use Rattle.reflect_tables.specs.Views.{oneof_of};
ghost use Rattle.reflect_pool.specs.Parts.{type_of_oneof, members_of};

use crate::field::FieldDescriptor;
use crate::message::MessageDescriptor;
use crate::pool::DescriptorPool;
use reflect_scope::{FieldIndex, OneofIndex};
use reflect_tables::StoredOneof;

/// A oneof of a message type.
#[derive(Clone, Copy)]
pub struct OneofDescriptor<'p> {
    pub(crate) message: MessageDescriptor<'p>,
    pub(crate) index: OneofIndex,
    ghost in_range: { index < length (type_at message.pool.now message.index).oneofs },
}

impl<'p> OneofDescriptor<'p> {
    ghost use Rattle.reflect_pool.specs.FieldsLeft.{type_in};
    ghost use Rattle.reflect_pool.specs.PartsLeft.{members_left};
    ghost use Rattle.reflect_pool.specs.PlacesLeft.{places_in};

    /// The pool that the oneof's type stands in.
    pub fn parent_pool(&self) -> &'p DescriptorPool
        ensures { result.now ≡ self.now.message.pool.now }
    {
        self.message.pool
    }

    /// The message type that the oneof belongs to.
    pub fn parent_message(&self) -> MessageDescriptor<'p>
        ensures { result ≡ self.now.message }
    {
        self.message
    }

    fn stored(&self) -> &'p StoredOneof
        ensures view { oneof_of result.now ≡ type_of_oneof self.now.message.pool.now
            self.now.message.index self.now.index }
        ensures within { All (λ place. place < length (type_at self.now.message.pool.now
            self.now.message.index).fields) result.now.fields.items }
        ensures members { map (type_of_field self.now.message.pool.now self.now.message.index)
            (type_of_oneof self.now.message.pool.now self.now.message.index self.now.index).fields
            ≡ members_of self.now.message.pool.now self.now.message.index self.now.index }
    {
        let pool = self.message.pool;
        &pool.tables.messages[self.message.index as usize].oneofs[self.index as usize]
    }

    /// The name, as it is declared.
    pub fn name(&self) -> &'p str
        ensures { result.now ≡ (type_of_oneof self.now.message.pool.now self.now.message.index
            self.now.index).name }
    {
        self.stored().name.as_str()
    }

    /// The type's full name, a dot and the oneof's name.
    pub fn full_name(&self) -> &'p str
        ensures { result.now ≡ (type_of_oneof self.now.message.pool.now self.now.message.index
            self.now.index).full_name }
    {
        self.stored().full_name.as_str()
    }

    /// Where the declaration stands in its file's record.
    pub fn path(&self) -> &'p [i32]
        ensures { result.now ≡ (type_of_oneof self.now.message.pool.now self.now.message.index
            self.now.index).path }
    {
        self.stored().path.as_slice()
    }

    /// It stands for one field of a proto3 file that was declared `optional`.
    pub fn is_synthetic(&self) -> bool
        ensures { result ≡ (type_of_oneof self.now.message.pool.now self.now.message.index
            self.now.index).synthetic }
    {
        self.stored().is_synthetic
    }

    /// The members, as they were declared.
    pub fn fields(&self) -> OneofFields<'p>
        ensures places { members_left result ≡ places_in self.now.message
            (type_of_oneof self.now.message.pool.now self.now.message.index
            self.now.index).fields }
        ensures members { map type_in (members_left result)
            ≡ members_of self.now.message.pool.now self.now.message.index self.now.index }
    {
        OneofFields {
            message: self.message,
            places: self.stored().fields.as_slice(),
        }
    }
}

/// Both have one place in one type.
impl<'p> PartialEq for OneofDescriptor<'p> {
    ghost use Rattle.std.specs.Cmp.Rules.{comparing};
    ghost use Rattle.std.proofs.Common.{rules};
    ghost use Rattle.reflect_pool.specs.Same.{same_oneof};

    ghost eq = { same_oneof };

    ghost laws = { Prim.search (comparing, rules) };

    fn eq(&self, other: &OneofDescriptor<'p>) -> bool {
        self.index == other.index && self.message == other.message
    }
}

impl<'p> Eq for OneofDescriptor<'p> {
    ghost use Rattle.std.specs.Cmp.Rules.{comparing};
    ghost use Rattle.std.proofs.Common.{rules};

    ghost laws = { Prim.search (comparing, rules) };
}

/// The members of a oneof, as they were declared.
#[derive(Drop)]
pub struct OneofFields<'p> {
    message: MessageDescriptor<'p>,
    places: &'p [FieldIndex],
    ghost inside: { All (λ place. place < length (type_at message.pool.now message.index).fields)
        places.now } by { Prim.hlevel props },
}

impl<'p> Iterator for OneofFields<'p> {
    ghost use Rattle.std.specs.Iterator.{YieldsFirstBy, item_count};
    ghost use Rattle.reflect_pool.specs.FieldsLeft.{field_place};
    ghost use Rattle.reflect_pool.specs.PartsLeft.{members_left};

    type Item = FieldDescriptor<'p>;

    ghost next_gives = { YieldsFirstBy field_place members_left };

    ghost remaining = { item_count members_left };

    fn next(&mut self) -> Option<FieldDescriptor<'p>> {
        let (place, others) = self.places.split_first()?;
        self.places = others;
        self.message.field_at(*place)
    }

    fn size_hint(&self) -> (usize, Option<usize>) {
        let left = self.len();
        (left, Some(left))
    }
}

impl<'p> ExactSizeIterator for OneofFields<'p> {
    fn len(&self) -> usize {
        self.places.len()
    }
}

/// The oneofs of a message type, as they were declared.
#[derive(Drop)]
pub struct Oneofs<'p> {
    pub(crate) message: MessageDescriptor<'p>,
    pub(crate) next: OneofIndex,
}

impl<'p> Iterator for Oneofs<'p> {
    ghost use Rattle.std.specs.Iterator.{YieldsFirstBy, item_count};
    ghost use Rattle.reflect_pool.specs.PartsLeft.{oneof_place, oneofs_left};

    type Item = OneofDescriptor<'p>;

    ghost next_gives = { YieldsFirstBy oneof_place oneofs_left };

    ghost remaining = { item_count oneofs_left };

    fn next(&mut self) -> Option<OneofDescriptor<'p>> {
        let oneof = self.message.oneof_at(self.next)?;
        self.next += 1;
        Some(oneof)
    }

    fn size_hint(&self) -> (usize, Option<usize>) {
        let left = self.len();
        (left, Some(left))
    }
}

impl<'p> ExactSizeIterator for Oneofs<'p> {
    fn len(&self) -> usize {
        let oneofs = &self.message.stored().oneofs;
        oneofs.len().saturating_sub(self.next as usize)
    }
}
