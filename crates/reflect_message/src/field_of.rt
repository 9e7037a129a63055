//! Fields and extensions, as those that messages lend a value of.

ghost use Rattle.std.specs.Prelude.{◌≡◌, ℕ, Option, Some, IsSome, IfSome, OnOk, OnErr};
ghost use Rattle.reflect_entries.specs.Entries.{value_at};
ghost use Rattle.reflect_message.specs.Held.{extensions_of, fields_of, Stays, UpdatesExtension, UpdatesField};

use crate::defaults::default_of;
use crate::message::{DynamicMessage, MessageOf};
use crate::message_parts::MessageParts;
use reflect_pool::{ExtensionDescriptor, FieldDescriptor, MessageDescriptor};
use std::alloc::AllocError;

/// A field of messages of whose types a `D` tells.
pub trait FieldOf<D> {
    ghost use Rattle.reflect_message.specs.declared.message.MessageOf.{MessageOf};
    ghost use Rattle.reflect_message.specs.declared.value.ValueOf.{ValueOf};

    /// The field is one of the type.
    ghost suits: { Self → D → Type 0 };

    /// The number that it stands under.
    ghost number_of: { Self → ℕ };

    /// The value is the one that is held, or the default where none is.
    ghost shows: { Self → Option (ValueOf D) → ValueOf D → Type 0 };

    /// What a message is before and after the field is set to the value.
    ghost sets: { Self → MessageOf D → MessageOf D → ValueOf D → Type 0 };

    /// What a message is before and after a refusal.
    ghost leaves: { Self → MessageOf D → MessageOf D → Type 0 };

    /// The number that stands in the keys of its records.
    fn number(&self) -> u32
        ensures { result ≡ number_of self.now };

    /// Sets the field to its default where it holds nothing, else to what it holds. A refusal
    /// leaves the message.
    fn fill(&self, message: &mut MessageOf<D>) -> Result<(), AllocError>
        requires { suits self.now message.old.descriptor }
        ensures here { OnOk result
            (IsSome (value_at (fields_of message.new) (number_of self.now))) }
        ensures filled { OnOk result
            (IfSome (value_at (fields_of message.new) (number_of self.now)) (λ v.
            shows self.now (value_at (fields_of message.old) (number_of self.now)) v
            × sets self.now message.old message.new v)) }
        ensures refused { OnErr result (leaves self.now message.old message.new) };

    /// A value that goes over the one that the field was set to is what it is set to.
    ghost sets_again: { (f : Self) (old between new : MessageOf D) (v w : ValueOf D)
        → sets f old between v → UpdatesField between new (number_of f) (Some w)
        → sets f old new w };
}

/// An extension of messages of whose types a `D` tells.
pub trait ExtensionOf<D> {
    ghost use Rattle.reflect_message.specs.declared.value.ValueOf.{ValueOf};

    /// The number that it stands under.
    ghost number_of: { Self → ℕ };

    /// The value is the one that is held, or the default where none is.
    ghost shows: { Self → Option (ValueOf D) → ValueOf D → Type 0 };

    /// The number that stands in the keys of its records.
    fn number(&self) -> u32
        ensures { result ≡ number_of self.now };

    /// Sets the extension to its default where it holds nothing, else to what it holds. A refusal
    /// leaves the message.
    fn fill(&self, message: &mut MessageOf<D>) -> Result<(), AllocError>
        ensures here { OnOk result
            (IsSome (value_at (extensions_of message.new) (number_of self.now))) }
        ensures filled { OnOk result
            (IfSome (value_at (extensions_of message.new) (number_of self.now)) (λ v.
            shows self.now (value_at (extensions_of message.old) (number_of self.now)) v
            × UpdatesExtension message.old message.new (number_of self.now) (Some v))) }
        ensures refused { OnErr result (Stays message.old message.new) };
}

impl<'p> FieldOf<MessageDescriptor<'p>> for FieldDescriptor<'p> {
    ghost use Rattle.reflect_pool.specs.FieldsLeft.{field_type};
    ghost use Rattle.reflect_scalar.specs.FieldTypes.{field_pool};
    ghost use Rattle.reflect_message.specs.Declares.{Declares};
    ghost use Rattle.reflect_message.specs.Oneofs.{LeavesHeld, PutsField};
    ghost use Rattle.reflect_message.specs.Shown.{IsHeldOrDefault};
    ghost use Rattle.reflect_message.specs.Again.{put_again};

    ghost suits = { λ f d. Declares d f };

    ghost number_of = { λ f. (field_type f).number };

    ghost shows = { λ f. IsHeldOrDefault (field_pool f) (field_type f) };

    ghost sets = { λ f old new v. PutsField old new f v };

    ghost leaves = { λ f old new. LeavesHeld old new f };

    ghost sets_again = { put_again };

    fn number(&self) -> u32 {
        FieldDescriptor::number(self)
    }

    fn fill(&self, message: &mut DynamicMessage<'p>) -> Result<(), AllocError> {
        let default = default_of(message.allocator(), self)?;
        message.fill_field(self, default)?;
        Ok(())
    }
}

impl<'p> ExtensionOf<MessageDescriptor<'p>> for ExtensionDescriptor<'p> {
    ghost use Rattle.reflect_scalar.specs.FieldTypes.{extension_pool, extension_type};
    ghost use Rattle.reflect_message.specs.Shown.{IsHeldOrDefault};

    ghost number_of = { λ x. (extension_type x).number };

    ghost shows = { λ x. IsHeldOrDefault (extension_pool x) (extension_type x) };

    fn number(&self) -> u32 {
        ExtensionDescriptor::number(self)
    }

    fn fill(&self, message: &mut DynamicMessage<'p>) -> Result<(), AllocError> {
        let default = default_of(message.allocator(), self)?;
        message.fill_extension(self, default)?;
        Ok(())
    }
}
