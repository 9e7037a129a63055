ghost use Rattle.std.specs.Prelude.{◌≡◌, ◌<◌, ◌^◌, ◌↔◌, All, length, map, None, Some, IfSome, IsSome, IsTrue, MatchOption};
ghost use Rattle.reflect_tables.specs.Types.{MessageWithin, counts_of, type_at, extension_at};
ghost use Rattle.reflect_tables.specs.Views.{message_of};

use crate::extension::{ExtensionDescriptor, MessageExtensions};
use crate::field::FieldDescriptor;
use crate::oneof::{OneofDescriptor, Oneofs};
use crate::pool::DescriptorPool;
use reflect_scope::{ExtensionIndex, FieldIndex, MessageIndex, OneofIndex};
use reflect_tables::StoredMessage;

/// A message type of a pool.
#[derive(Clone, Copy)]
pub struct MessageDescriptor<'p> {
    pub(crate) pool: &'p DescriptorPool,
    pub(crate) index: MessageIndex,
    ghost in_range: { index < length pool.now.messages },
}

impl<'p> MessageDescriptor<'p> {
    ghost use Rattle.reflect_pool.specs.Brackets.{in_brackets};
    ghost use Rattle.reflect_pool.specs.ExtensionsLeft.{AreExtensions, extension_in, extensions_left};
    ghost use Rattle.reflect_pool.specs.Finds.{FindsAny, FindsField};
    ghost use Rattle.reflect_pool.specs.PartsLeft.{oneofs_left};
    ghost use Rattle.reflect_pool.specs.PlacesLeft.{places_from};
    ghost use Rattle.reflect_pool.specs.Same.{same_message};

    /// The pool that the type stands in.
    pub fn parent_pool(&self) -> &'p DescriptorPool
        ensures { result.now ≡ self.now.pool.now }
    {
        self.pool
    }

    pub(crate) fn stored(&self) -> &'p StoredMessage
        ensures view { message_of result.now ≡ type_at self.now.pool.now self.now.index }
        ensures within { MessageWithin (counts_of self.now.pool.now) (message_of result.now) }
    {
        let pool = self.pool;
        &pool.tables.messages[self.index as usize]
    }

    /// The message that the type is declared in, if it is one.
    pub fn parent_message(&self) -> Option<MessageDescriptor<'p>>
        ensures pool { IfSome result (λ d. d.pool.now ≡ self.now.pool.now) }
        ensures parent { MatchOption result
            ((type_at self.now.pool.now self.now.index).parent ≡ None)
            (λ d. (type_at self.now.pool.now self.now.index).parent ≡ Some d.index) }
    {
        self.pool.message_at(self.stored().parent?)
    }

    /// The name in the declaration that holds the type.
    pub fn name(&self) -> &'p str
        ensures { result.now ≡ (type_at self.now.pool.now self.now.index).name }
    {
        self.stored().name.as_str()
    }

    /// The name with those of all that holds the type before it, joined by dots, without a leading
    /// dot.
    pub fn full_name(&self) -> &'p str
        ensures { result.now ≡ (type_at self.now.pool.now self.now.index).full_name }
    {
        self.stored().full_name.as_str()
    }

    /// Where the declaration stands in its file's record.
    pub fn path(&self) -> &'p [i32]
        ensures { result.now ≡ (type_at self.now.pool.now self.now.index).path }
    {
        self.stored().path.as_slice()
    }

    /// Both have one place and one full name in their pools.
    pub fn is_same(&self, other: &MessageDescriptor<'p>) -> bool
        ensures { result ≡ same_message self.now other.now }
    {
        self.index == other.index && self.full_name() == other.full_name()
    }

    /// The fields, as they were declared.
    pub fn fields(&self) -> Fields<'p>
        ensures { result ≡ record { message = self.now; next = 0 } }
    {
        Fields {
            message: *self,
            next: 0,
        }
    }

    /// The oneofs, as they were declared.
    pub fn oneofs(&self) -> Oneofs<'p>
        ensures { oneofs_left result ≡ places_from self.now 0
            (length (type_at self.now.pool.now self.now.index).oneofs) }
    {
        Oneofs {
            message: *self,
            next: 0,
        }
    }

    /// The field of a number. Takes no memory, and a number of steps that grows with the logarithm
    /// of the fields' count.
    pub fn get_field(&self, number: u32) -> Option<FieldDescriptor<'p>>
        ensures message { IfSome result (λ f. f.message ≡ self.now) }
        ensures first { FindsField (λ f. f.number ≡ number) self.now result }
    {
        let place = self.stored().fields.of_number(number)?;
        Some(FieldDescriptor {
            message: *self,
            index: place,
        })
    }

    /// The field of a name. Takes no memory, and a number of steps that grows with the logarithm of
    /// the fields' count.
    pub fn get_field_by_name(&self, name: &str) -> Option<FieldDescriptor<'p>>
        ensures message { IfSome result (λ f. f.message ≡ self.now) }
        ensures first { FindsField (λ f. f.name ≡ name.now) self.now result }
    {
        let place = self.stored().fields.of_name(name)?;
        Some(FieldDescriptor {
            message: *self,
            index: place,
        })
    }

    /// The field of a written JSON name, of several the first that was declared. Takes no memory,
    /// and a number of steps that grows with the logarithm of the fields' count.
    pub fn get_field_by_json_name(&self, name: &str) -> Option<FieldDescriptor<'p>>
        ensures message { IfSome result (λ f. f.message ≡ self.now) }
        ensures first { FindsField (λ f. f.json_name ≡ Some name.now) self.now result }
    {
        let place = self.stored().fields.of_json_name(name)?;
        Some(FieldDescriptor {
            message: *self,
            index: place,
        })
    }

    /// The field at a place.
    pub(crate) fn field_at(&self, place: FieldIndex) -> Option<FieldDescriptor<'p>>
        ensures message { IfSome result (λ f. f.message ≡ self.now) }
        ensures place { IfSome result (λ f. f.index ≡ place) }
        ensures there { place < length (type_at self.now.pool.now self.now.index).fields
            → IsSome result }
        ensures few { IfSome result (λ f. f.index < 2 ^ 31) }
    {
        if (place as usize) < self.stored().fields.list.len() {
            Some(FieldDescriptor {
                message: *self,
                index: place,
            })
        } else {
            None
        }
    }

    /// The oneof at a place.
    pub(crate) fn oneof_at(&self, place: OneofIndex) -> Option<OneofDescriptor<'p>>
        ensures message { IfSome result (λ o. o.message ≡ self.now) }
        ensures place { IfSome result (λ o. o.index ≡ place) }
        ensures there { place < length (type_at self.now.pool.now self.now.index).oneofs
            → IsSome result }
        ensures few { IfSome result (λ o. o.index < 2 ^ 31) }
    {
        if (place as usize) < self.stored().oneofs.len() {
            Some(OneofDescriptor {
                message: *self,
                index: place,
            })
        } else {
            None
        }
    }

    /// The type is one of a map's entries.
    pub fn is_map_entry(&self) -> bool
        ensures { IsTrue result ↔ IsSome (type_at self.now.pool.now self.now.index).entry }
    {
        self.stored().entry.is_some()
    }

    /// The key of a map's entry.
    pub fn map_entry_key_field(&self) -> FieldDescriptor<'p>
        requires { IsSome (type_at self.now.pool.now self.now.index).entry }
        ensures message { result.message ≡ self.now }
        ensures place { IfSome (type_at self.now.pool.now self.now.index).entry
            (λ e. result.index ≡ e.key) }
    {
        FieldDescriptor {
            message: *self,
            index: self.stored().entry.unwrap().key,
        }
    }

    /// The value of a map's entry.
    pub fn map_entry_value_field(&self) -> FieldDescriptor<'p>
        requires { IsSome (type_at self.now.pool.now self.now.index).entry }
        ensures message { result.message ≡ self.now }
        ensures place { IfSome (type_at self.now.pool.now self.now.index).entry
            (λ e. result.index ≡ e.value) }
    {
        FieldDescriptor {
            message: *self,
            index: self.stored().entry.unwrap().value,
        }
    }

    /// The extensions of the type, by ascending number.
    pub fn extensions(&self) -> MessageExtensions<'p>
        ensures pool { All (λ p. p.0 ≡ self.now.pool.now) (extensions_left result) }
        ensures extensions { AreExtensions self.now.pool.now self.now.index
            (map extension_in (extensions_left result)) }
    {
        let pool = self.pool;
        MessageExtensions {
            pool,
            found: pool
                .extension_numbers
                .range((self.index, 0)..(self.index + 1, 0)),
        }
    }

    /// The extension of the type with a number. Takes no memory.
    pub fn get_extension(&self, number: u32) -> Option<ExtensionDescriptor<'p>>
        ensures extendee { IfSome result
            (λ x. (x.pool.now ≡ self.now.pool.now)
            × ((extension_at self.now.pool.now x.index).extendee ≡ self.now.index)) }
        ensures number { IfSome result
            (λ x. (extension_at x.pool.now x.index).field.number ≡ number) }
        ensures finds { FindsAny (λ x. (x.extendee ≡ self.now.index) × (x.field.number ≡ number))
            self.now.pool.now result }
    {
        let pool = self.pool;
        pool.extension_at(pool.extension_place(self.index, number)?)
    }

    /// The extension of the type with a full name. Takes no memory.
    pub fn get_extension_by_full_name(&self, name: &str) -> Option<ExtensionDescriptor<'p>>
        ensures extendee { IfSome result
            (λ x. (x.pool.now ≡ self.now.pool.now)
            × ((extension_at self.now.pool.now x.index).extendee ≡ self.now.index)) }
        ensures finds { FindsAny (λ x. (x.extendee ≡ self.now.index)
            × (x.field.full_name ≡ name.now)) self.now.pool.now result }
    {
        let pool = self.pool;
        self.extension_of(pool.extension_named(name)?)
    }

    /// The extension of the type whose full name stands in these brackets. Takes no memory.
    pub fn get_extension_by_json_name(&self, name: &str) -> Option<ExtensionDescriptor<'p>>
        ensures extendee { IfSome result
            (λ x. (x.pool.now ≡ self.now.pool.now)
            × ((extension_at self.now.pool.now x.index).extendee ≡ self.now.index)) }
        ensures finds { FindsAny (λ x. (x.extendee ≡ self.now.index)
            × (in_brackets x.field.full_name ≡ name.now)) self.now.pool.now result }
    {
        let name = name.strip_prefix('[')?.strip_suffix(']')?;
        self.get_extension_by_full_name(name)
    }

    /// The extension at a place, if it is one of the type.
    fn extension_of(&self, place: ExtensionIndex) -> Option<ExtensionDescriptor<'p>>
        ensures extendee { IfSome result
            (λ x. (x.pool.now ≡ self.now.pool.now)
            × ((extension_at self.now.pool.now x.index).extendee ≡ self.now.index)) }
        ensures index { IfSome result (λ x. x.index ≡ place) }
        ensures there { place < length self.now.pool.now.extensions
            → (extension_at self.now.pool.now place).extendee ≡ self.now.index → IsSome result }
    {
        let pool = self.pool;
        if pool.tables.extensions.get(place as usize)?.extendee == self.index {
            pool.extension_at(place)
        } else {
            None
        }
    }
}

/// Both have one place and one full name in their pools.
impl<'p> PartialEq for MessageDescriptor<'p> {
    ghost use Rattle.std.specs.Cmp.Rules.{comparing};
    ghost use Rattle.std.proofs.Common.{rules};
    ghost use Rattle.reflect_pool.specs.Same.{same_message};

    ghost eq = { same_message };

    ghost laws = { Prim.search (comparing, rules) };

    fn eq(&self, other: &MessageDescriptor<'p>) -> bool {
        self.is_same(other)
    }
}

impl<'p> Eq for MessageDescriptor<'p> {
    ghost use Rattle.std.specs.Cmp.Rules.{comparing};
    ghost use Rattle.std.proofs.Common.{rules};

    ghost laws = { Prim.search (comparing, rules) };
}

/// The fields of a message type, as they were declared.
#[derive(Drop)]
pub struct Fields<'p> {
    message: MessageDescriptor<'p>,
    next: u32,
}

impl<'p> Iterator for Fields<'p> {
    ghost use Rattle.std.specs.Iterator.{YieldsFirstBy, item_count};
    ghost use Rattle.reflect_pool.specs.FieldsLeft.{field_place, fields_left};

    type Item = FieldDescriptor<'p>;

    ghost next_gives = { YieldsFirstBy field_place fields_left };

    ghost remaining = { item_count fields_left };

    fn next(&mut self) -> Option<FieldDescriptor<'p>> {
        let field = self.message.field_at(self.next)?;
        self.next += 1;
        Some(field)
    }

    fn size_hint(&self) -> (usize, Option<usize>) {
        let left = self.len();
        (left, Some(left))
    }
}

impl<'p> ExactSizeIterator for Fields<'p> {
    fn len(&self) -> usize {
        let fields = &self.message.stored().fields.list;
        fields.len().saturating_sub(self.next as usize)
    }
}
