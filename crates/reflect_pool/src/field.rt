ghost use Rattle.std.specs.Prelude.{◌≡◌, ◌<◌, length, None, Some, IfSome, IsSome, MatchOption};
ghost use Rattle.reflect_tables.specs.Types.{IsAmong, IsWithin, counts_of, type_at, type_of_field};
ghost use Rattle.reflect_tables.specs.Views.{field_of, kind_of};

use crate::kind::{DefaultValue, Kind};
use crate::message::MessageDescriptor;
use crate::oneof::OneofDescriptor;
use crate::pool::DescriptorPool;
use crate::reading::{default_value, is_map, kind_in};
use reflect_scope::FieldIndex;
use reflect_tables::{Cardinality, StoredField};

/// A field of a message type.
#[derive(Clone, Copy)]
pub struct FieldDescriptor<'p> {
    pub(crate) message: MessageDescriptor<'p>,
    pub(crate) index: FieldIndex,
    ghost in_range: { index < length (type_at message.pool.now message.index).fields },
}

impl<'p> FieldDescriptor<'p> {
    ghost use Rattle.reflect_pool.specs.Defaults.{IsDefault};
    ghost use Rattle.reflect_pool.specs.Kinds.{IsKind};
    ghost use Rattle.reflect_pool.specs.Shapes.{holds_list, holds_map, is_required};

    /// The pool that the field's type stands in.
    pub fn parent_pool(&self) -> &'p DescriptorPool
        ensures { result.now ≡ self.now.message.pool.now }
    {
        self.message.pool
    }

    /// The message type that the field belongs to.
    pub fn parent_message(&self) -> MessageDescriptor<'p>
        ensures { result ≡ self.now.message }
    {
        self.message
    }

    fn stored(&self) -> &'p StoredField
        ensures view { field_of result.now ≡ type_of_field self.now.message.pool.now
            self.now.message.index self.now.index }
        ensures within { IsWithin (counts_of self.now.message.pool.now) (kind_of result.now.kind) }
        ensures oneof { IsAmong (length (type_at self.now.message.pool.now
            self.now.message.index).oneofs) result.now.oneof }
    {
        let pool = self.message.pool;
        &pool.tables.messages[self.message.index as usize]
            .fields
            .list[self.index as usize]
    }

    /// The name, as it is declared.
    pub fn name(&self) -> &'p str
        ensures { result.now ≡ (type_of_field self.now.message.pool.now self.now.message.index
            self.now.index).name }
    {
        self.stored().name.as_str()
    }

    /// The type's full name, a dot and the field's name.
    pub fn full_name(&self) -> &'p str
        ensures { result.now ≡ (type_of_field self.now.message.pool.now self.now.message.index
            self.now.index).full_name }
    {
        self.stored().full_name.as_str()
    }

    /// The JSON name that was written, if one was.
    pub fn json_name(&self) -> Option<&'p str>
        ensures { MatchOption result ((type_of_field self.now.message.pool.now
            self.now.message.index self.now.index).json_name ≡ None)
            (λ name. (type_of_field self.now.message.pool.now self.now.message.index
            self.now.index).json_name ≡ Some name.now) }
    {
        self.stored().json_name.as_deref()
    }

    /// Where the declaration stands in its file's record.
    pub fn path(&self) -> &'p [i32]
        ensures { result.now ≡ (type_of_field self.now.message.pool.now self.now.message.index
            self.now.index).path }
    {
        self.stored().path.as_slice()
    }

    /// The number that stands in the keys of its records.
    pub fn number(&self) -> u32
        ensures { result ≡ (type_of_field self.now.message.pool.now self.now.message.index
            self.now.index).number }
    {
        self.stored().number
    }

    /// How often it may stand.
    pub fn cardinality(&self) -> Cardinality
        ensures { result ≡ (type_of_field self.now.message.pool.now self.now.message.index
            self.now.index).cardinality }
    {
        self.stored().cardinality
    }

    /// The field has to be set (proto2).
    pub fn is_required(&self) -> bool
        ensures { result ≡ is_required
            (type_of_field self.now.message.pool.now self.now.message.index
            self.now.index).cardinality }
    {
        self.cardinality() == Cardinality::Required
    }

    /// The value is written between two tags, and its type is declared with the field.
    pub fn is_group(&self) -> bool
        ensures { result ≡ (type_of_field self.now.message.pool.now self.now.message.index
            self.now.index).group }
    {
        self.stored().is_group
    }

    /// The field holds any number of values, and is no map.
    pub fn is_list(&self) -> bool
        ensures { result ≡ holds_list self.now.message.pool.now
            (type_of_field self.now.message.pool.now self.now.message.index self.now.index) }
    {
        self.cardinality() == Cardinality::Repeated && !self.is_map()
    }

    /// The field's values are the entries of a map.
    pub fn is_map(&self) -> bool
        ensures { result ≡ holds_map self.now.message.pool.now
            (type_of_field self.now.message.pool.now self.now.message.index self.now.index) }
    {
        is_map(self.message.pool, self.stored())
    }

    /// A list of numbers is written as one record.
    pub fn is_packed(&self) -> bool
        ensures { result ≡ (type_of_field self.now.message.pool.now self.now.message.index
            self.now.index).packed }
    {
        self.stored().is_packed
    }

    /// A field that is not set differs from one that holds the default.
    pub fn supports_presence(&self) -> bool
        ensures { result ≡ (type_of_field self.now.message.pool.now self.now.message.index
            self.now.index).presence }
    {
        self.stored().supports_presence
    }

    /// The oneof that the field is a member of, a synthetic one too; none where it is in none.
    pub fn containing_oneof(&self) -> Option<OneofDescriptor<'p>>
        ensures message { IfSome result (λ o. o.message ≡ self.now.message) }
        ensures place { IfSome result (λ o.
            (type_of_field self.now.message.pool.now self.now.message.index self.now.index).oneof
            ≡ Some o.index) }
        ensures there { IsSome (type_of_field self.now.message.pool.now self.now.message.index
            self.now.index).oneof → IsSome result }
    {
        self.message.oneof_at(self.stored().oneof?)
    }

    /// What it holds; of a map that is the type of its entries.
    pub fn kind(&self) -> Kind<'p>
        ensures { IsKind self.now.message.pool.now result
            (type_of_field self.now.message.pool.now self.now.message.index self.now.index).kind }
    {
        kind_in(self.message.pool, self.stored().kind)
    }

    /// The default that the declaration gives, if it gives one.
    pub fn default(&self) -> Option<DefaultValue<'p>>
        ensures { IsDefault self.now.message.pool.now
            (type_of_field self.now.message.pool.now self.now.message.index self.now.index) result }
    {
        default_value(self.message.pool, self.stored())
    }
}

/// Both have one place in one type.
impl<'p> PartialEq for FieldDescriptor<'p> {
    ghost use Rattle.std.specs.Cmp.Rules.{comparing};
    ghost use Rattle.std.proofs.Common.{rules};
    ghost use Rattle.reflect_pool.specs.Same.{same_field};

    ghost eq = { same_field };

    ghost laws = { Prim.search (comparing, rules) };

    fn eq(&self, other: &FieldDescriptor<'p>) -> bool {
        self.index == other.index && self.message == other.message
    }
}

impl<'p> Eq for FieldDescriptor<'p> {
    ghost use Rattle.std.specs.Cmp.Rules.{comparing};
    ghost use Rattle.std.proofs.Common.{rules};

    ghost laws = { Prim.search (comparing, rules) };
}
