//! What a message holds, apart from its type.

ghost use Rattle.std.specs.Prelude.{◌≡◌, ℕ, [], Some, OnOk, OnErr};
ghost use Rattle.std.specs.Option.{IsSome, unwrap_or};
ghost use Rattle.reflect_entries.specs.Entries.{IsAscending, Updates, value_at};
ghost use Rattle.reflect_entries.specs.Members.{first_member_of};
ghost use Rattle.reflect_entries.specs.Undeclared.{undeclared};
ghost use Rattle.reflect_pool.specs.FieldsLeft.{field_type};
ghost use Rattle.reflect_message.specs.Oneofs.{MakesRoom, Changes, Chooses, Unsets};

use crate::value::{Value, ValueOf};
use reflect_entries::{Choices, Entries, UnknownRecords};
use reflect_pool::{FieldDescriptor, MessageDescriptor};
use std::alloc::{AllocError, Global};

/// Where a message keeps its parts: in a block of their own, so that a value of a list takes little
/// room, and none before something is put.
#[derive(Drop)]
#[cycle(value)]
pub enum HeldOf<D> {
    Nothing,
    Block(Box<PartsOf<D>>),
}

/// Where a message of a type of a pool keeps its parts.
pub type Held<'p> = HeldOf<MessageDescriptor<'p>>;

/// What a message holds, of whose type a `D` tells.
#[derive(Drop)]
#[cycle(value)]
pub struct PartsOf<D> {
    /// What the declared fields hold, by their numbers.
    pub fields: Entries<ValueOf<D>>,
    /// Which members of oneofs may be among these.
    pub choices: Choices,
    /// What the extensions hold, by their numbers.
    pub extensions: Entries<ValueOf<D>>,
    /// The records of numbers that the type does not declare.
    pub unknown: UnknownRecords,
}

/// What a message holds.
pub type Parts<'p> = PartsOf<MessageDescriptor<'p>>;

impl<'p> Parts<'p> {
    /// Nothing is held. Takes no memory.
    pub fn new(alloc: Global) -> Parts<'p>
        ensures fields { result.fields ≡ [] }
        ensures choices { result.choices.members ≡ [] }
        ensures extensions { result.extensions ≡ [] }
        ensures unknown { undeclared result.unknown ≡ [] }
    {
        Parts {
            fields: Entries::new(alloc),
            choices: Choices::new(alloc),
            extensions: Entries::new(alloc),
            unknown: UnknownRecords::new(alloc),
        }
    }

    /// Puts the default where the field holds nothing, and unsets the other members of its oneof. A
    /// refusal leaves what is held.
    pub fn fill_field(
        &mut self,
        field: &FieldDescriptor<'p>,
        default: Value<'p>,
    ) -> Result<(), AllocError>
        ensures here { OnOk result (value_at self.new.fields (field_type field.now).number
            ≡ Some (unwrap_or (value_at self.old.fields (field_type field.now).number)
            default.entry)) }
        ensures changes { OnOk result (Changes field.now self.old.choices.members self.old.fields
            self.new.fields) }
        ensures ascending { OnOk result (IsAscending self.new.fields) }
        ensures chooses { OnOk result (Chooses field.now self.old.choices.members
            self.new.choices.members) }
        ensures err { OnErr result (self.new.fields ≡ self.old.fields) }
        ensures room { OnErr result (MakesRoom field.now self.old.choices.members
            self.new.choices.members) }
        ensures extensions { self.new.extensions ≡ self.old.extensions }
        ensures unknown { self.new.unknown ≡ self.old.unknown }
    {
        self.choices.make_room(field)?;
        self.fields.fill(field.number(), default)?;
        self.clear_siblings(field);
        Ok(())
    }

    /// Puts the default where the extension of the number holds nothing. A refusal leaves what is
    /// held.
    pub fn fill_extension(&mut self, number: u32, default: Value<'p>) -> Result<(), AllocError>
        ensures updates { OnOk result (Updates self.old.extensions self.new.extensions number
            (Some (unwrap_or (value_at self.old.extensions number) default.entry))) }
        ensures err { OnErr result (self.new.extensions ≡ self.old.extensions) }
        ensures fields { self.new.fields ≡ self.old.fields }
        ensures choices { self.new.choices ≡ self.old.choices }
        ensures unknown { self.new.unknown ≡ self.old.unknown }
    {
        self.extensions.fill(number, default)
    }

    /// Sets the field over what it held, and unsets the other members of its oneof. A refusal
    /// leaves what is held.
    pub fn set_field(
        &mut self,
        field: &FieldDescriptor<'p>,
        value: Value<'p>,
    ) -> Result<(), AllocError>
        ensures here { OnOk result (value_at self.new.fields (field_type field.now).number
            ≡ Some value.entry) }
        ensures changes { OnOk result (Changes field.now self.old.choices.members self.old.fields
            self.new.fields) }
        ensures ascending { OnOk result (IsAscending self.new.fields) }
        ensures chooses { OnOk result (Chooses field.now self.old.choices.members
            self.new.choices.members) }
        ensures err { OnErr result (self.new.fields ≡ self.old.fields) }
        ensures room { OnErr result (MakesRoom field.now self.old.choices.members
            self.new.choices.members) }
        ensures extensions { self.new.extensions ≡ self.old.extensions }
        ensures unknown { self.new.unknown ≡ self.old.unknown }
    {
        self.choices.make_room(field)?;
        self.fields.set(field.number(), value)?;
        self.clear_siblings(field);
        Ok(())
    }

    /// Unsets the other members of the oneof of a field, for whose choice there is room. Numbers
    /// that ascend still do.
    pub fn clear_siblings(&mut self, field: &FieldDescriptor<'p>)
        ensures unsets { Unsets field.now self.old.choices.members self.old.fields self.new.fields }
        ensures ascending { IsAscending self.old.fields → IsAscending self.new.fields }
        ensures chooses { ((first : ℕ) → first_member_of field.now ≡ Some first
            → IsSome (value_at self.old.choices.members first))
            → Chooses field.now self.old.choices.members self.new.choices.members }
        ensures extensions { self.new.extensions ≡ self.old.extensions }
        ensures unknown { self.new.unknown ≡ self.old.unknown }
    {
        if let Some(sibling) = self.choices.choose(field) {
            self.fields.take(sibling);
        }
    }
}
