//! Which member of each oneof was set last.

ghost use Rattle.std.specs.Prelude.{◌≡◌, ◌≢◌, ℕ, [], None, Some, IfOk, OnOk, OnErr};
ghost use Rattle.std.specs.Option.{IsSome};
ghost use Rattle.reflect_entries.specs.Entries.{Updates, value_at};
ghost use Rattle.reflect_entries.specs.Members.{other_than, first_member_of};
ghost use Rattle.reflect_pool.specs.FieldsLeft.{field_type};

use crate::entries::Entries;
use reflect_pool::FieldDescriptor;
use std::alloc::{AllocError, Global};
use std::mem;

/// The member of each oneof that was set last. No other member of it is set, so that none has to be
/// looked for.
#[derive(Drop)]
pub struct Choices {
    /// The members' numbers by those of the first members of their oneofs.
    members: Entries<u32>,
}

/// The number of the first member of the field's oneof.
fn first_member(field: &FieldDescriptor<'_>) -> Option<u32>
    ensures { result ≡ first_member_of field.now }
{
    Some(field.containing_oneof()?.fields().next()?.number())
}

/// Notes the member as the one that was set last of the oneof whose first member has the number, if
/// there is room for it, and gives the number of the one before, if it is another.
fn note(members: &mut Entries<u32>, first: u32, member: u32) -> Option<u32>
    ensures before { result ≡ other_than member (value_at members.old first) }
    ensures updates { IsSome (value_at members.old first)
        → Updates members.old members.new first (Some member) }
    ensures no_room { value_at members.old first ≡ None → members.new ≡ members.old }
{
    let before = mem::replace(members.get_mut(first)?, member);
    if before == member { None } else { Some(before) }
}

impl Choices {
    ghost use Rattle.reflect_entries.specs.Choosing.{choice};

    /// No member was set. Takes no memory.
    pub fn new(alloc: Global) -> Choices
        ensures { result.members ≡ [] }
    {
        Choices {
            members: Entries::new(alloc),
        }
    }

    /// Makes room for the choice of the field, if it is a member of a oneof. What was noted stays;
    /// where nothing was, the field is noted.
    pub fn make_room(&mut self, field: &FieldDescriptor<'_>) -> Result<(), AllocError>
        ensures room { OnOk result ((first : ℕ) → first_member_of field.now ≡ Some first
            → IsSome (choice self.new first)) }
        ensures first { OnOk result ((first : ℕ) → first_member_of field.now ≡ Some first
            → choice self.old first ≡ None → choice self.new first
            ≡ Some (field_type field.now).number) }
        ensures others { (other : ℕ) → first_member_of field.now ≢ Some other
            → choice self.new other ≡ choice self.old other }
        ensures stays { (first : ℕ) → IsSome (choice self.old first) → choice self.new first
            ≡ choice self.old first }
        ensures refused { OnErr result (self.new.members ≡ self.old.members) }
    {
        if let Some(first) = first_member(field) {
            self.members.slot(first, field.number())?;
        }
        Ok(())
    }

    /// Notes the field, for which there is room, as the member of its oneof that was set last, and
    /// gives the number of the one before, if it is another.
    pub fn choose(&mut self, field: &FieldDescriptor<'_>) -> Option<u32>
        ensures before { (first : ℕ) → first_member_of field.now ≡ Some first → result
            ≡ other_than (field_type field.now).number (choice self.old first) }
        ensures alone { first_member_of field.now ≡ None → result ≡ None }
        ensures noted { (first : ℕ) → first_member_of field.now ≡ Some first
            → IsSome (choice self.old first) → choice self.new first
            ≡ Some (field_type field.now).number }
        ensures no_room { (first : ℕ) → choice self.old first ≡ None → choice self.new first
            ≡ None }
        ensures others { (other : ℕ) → first_member_of field.now ≢ Some other
            → choice self.new other ≡ choice self.old other }
    {
        note(&mut self.members, first_member(field)?, field.number())
    }

    /// Forgets all choices. Takes no memory.
    pub fn clear(&mut self)
        ensures { (first : ℕ) → choice self.new first ≡ None }
    {
        self.members.clear();
    }

    /// A copy.
    pub fn clone(&self) -> Result<Choices, AllocError>
        ensures { IfOk result (λ copy. copy.members ≡ self.now.members) }
    {
        Ok(Choices {
            members: self.members.clone()?,
        })
    }
}
