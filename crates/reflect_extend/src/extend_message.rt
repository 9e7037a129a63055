ghost use Rattle.std.specs.Prelude.{◌≡◌, ◌≢◌, ◌||◌, ℕ, true, false, Some, OnOk, OnErr};
ghost use Rattle.reflect_pool.specs.FieldsLeft.{field_type};
ghost use Rattle.reflect_pool.specs.Shapes.{holds_list, holds_map};
ghost use Rattle.reflect_pool.specs.declared.message.MessageDescriptor.{MessageDescriptor};
ghost use Rattle.reflect_scalar.specs.FieldTypes.{field_pool, extension_pool, extension_type};
ghost use Rattle.reflect_entries.specs.Entries.{IsAscending, value_at};
ghost use Rattle.reflect_message.specs.Declares.{Declares, Owns};
ghost use Rattle.reflect_message.specs.Held.{fields_of, choices_of, extensions_of, unknown_of, Same};
ghost use Rattle.reflect_message.specs.Lists.{Lengthens, KeepsList};
ghost use Rattle.reflect_message.specs.Oneofs.{AreChosen, IsExclusive, sibling};
ghost use Rattle.reflect_extend.specs.Others.{KeepsOther, StaysUnset};
ghost use Rattle.reflect_extend.specs.Puts.{PutsEntries, PutsSome};
ghost use Rattle.reflect_extend.specs.Siblings.{KeepsRest, LacksSibling};

use crate::extend::extend;
use reflect_message::{DynamicMessage, MessageParts, Parts, Value};
use reflect_pool::{ExtensionDescriptor, FieldDescriptor};
use reflect_scalar::FieldDescriptorLike;
use std::alloc::{AllocError, Global};

/// Messages whose lists and maps take further values.
pub trait ExtendMessage<'p> {
    ghost use Rattle.reflect_message.specs.Names.{DynamicMessage};

    /// The message that it is.
    ghost message: { Self → DynamicMessage };

    /// Puts values that suit it behind those of the field, one of the message's type: of a list as
    /// its elements, and of a map as its entries, which are messages of the entries' type, each
    /// over what stood under its key. The other members of its oneof are unset. Of a field that
    /// holds one value nothing happens, nor to what stands under its number and is no list or map.
    ///
    /// A refusal leaves the other members, the values of a list, and nothing where nothing was
    /// held; a map that was held has then perhaps some of the entries more.
    fn extend_field(
        &mut self,
        field: &FieldDescriptor<'p>,
        values: Vec<Value<'p>>,
    ) -> Result<(), AllocError>
        requires { Declares (message self.old).descriptor field.now }
        ensures type_stays { (message self.new).descriptor ≡ (message self.old).descriptor }
        ensures list { holds_list (field_pool field.now) (field_type field.now) ≡ true
            → OnOk result (Lengthens (value_at (fields_of (message self.old))
            (field_type field.now).number)
            (value_at (fields_of (message self.new)) (field_type field.now).number)
            values.entry.items) }
        ensures left { holds_list (field_pool field.now) (field_type field.now) ≡ true
            → OnErr result (KeepsList (value_at (fields_of (message self.old))
            (field_type field.now).number)
            (value_at (fields_of (message self.new)) (field_type field.now).number)) }
        ensures other { holds_list (field_pool field.now) (field_type field.now) ≡ true
            → KeepsOther (value_at (fields_of (message self.old)) (field_type field.now).number)
            (value_at (fields_of (message self.new)) (field_type field.now).number) }
        ensures map { holds_map (field_pool field.now) (field_type field.now) ≡ true
            → OnOk result (PutsEntries (value_at (fields_of (message self.old))
            (field_type field.now).number)
            (value_at (fields_of (message self.new)) (field_type field.now).number)
            values.entry.items) }
        ensures part { holds_map (field_pool field.now) (field_type field.now) ≡ true
            → OnErr result (PutsSome (value_at (fields_of (message self.old))
            (field_type field.now).number)
            (value_at (fields_of (message self.new)) (field_type field.now).number)
            values.entry.items) }
        ensures absent { OnErr result (StaysUnset
            (value_at (fields_of (message self.old)) (field_type field.now).number)
            (value_at (fields_of (message self.new)) (field_type field.now).number)) }
        ensures neither { holds_list (field_pool field.now) (field_type field.now) ≡ false
            → holds_map (field_pool field.now) (field_type field.now) ≡ false
            → fields_of (message self.new) ≡ fields_of (message self.old) }
        ensures others { (n : ℕ) → n ≢ (field_type field.now).number
            → sibling field.now (choices_of (message self.old)) ≢ Some n
            → Same (fields_of (message self.old)) (fields_of (message self.new)) n }
        ensures unset { (holds_list (field_pool field.now) (field_type field.now)
            || holds_map (field_pool field.now) (field_type field.now)) ≡ true
            → OnOk result (LacksSibling field.now (choices_of (message self.old))
            (fields_of (message self.new))) }
        ensures rest { OnErr result (KeepsRest field.now (fields_of (message self.old))
            (fields_of (message self.new))) }
        ensures ascending { IsAscending (fields_of (message self.old))
            → IsAscending (fields_of (message self.new)) }
        ensures exclusive { Owns (message self.old).descriptor field.now
            → IsExclusive (message self.old) → IsExclusive (message self.new) }
        ensures extensions { extensions_of (message self.new) ≡ extensions_of (message self.old) }
        ensures unknown { unknown_of (message self.new) ≡ unknown_of (message self.old) };

    /// Puts values that suit it behind those of the extension, one of the message's type, as
    /// `extend_field` does.
    fn extend_extension(
        &mut self,
        extension: &ExtensionDescriptor<'p>,
        values: Vec<Value<'p>>,
    ) -> Result<(), AllocError>
        ensures type_stays { (message self.new).descriptor ≡ (message self.old).descriptor }
        ensures list { holds_list (extension_pool extension.now) (extension_type extension.now)
            ≡ true → OnOk result (Lengthens
            (value_at (extensions_of (message self.old)) (extension_type extension.now).number)
            (value_at (extensions_of (message self.new)) (extension_type extension.now).number)
            values.entry.items) }
        ensures left { holds_list (extension_pool extension.now) (extension_type extension.now)
            ≡ true → OnErr result (KeepsList
            (value_at (extensions_of (message self.old)) (extension_type extension.now).number)
            (value_at (extensions_of (message self.new)) (extension_type extension.now).number)) }
        ensures other { holds_list (extension_pool extension.now) (extension_type extension.now)
            ≡ true → KeepsOther
            (value_at (extensions_of (message self.old)) (extension_type extension.now).number)
            (value_at (extensions_of (message self.new)) (extension_type extension.now).number) }
        ensures map { holds_map (extension_pool extension.now) (extension_type extension.now)
            ≡ true → OnOk result (PutsEntries
            (value_at (extensions_of (message self.old)) (extension_type extension.now).number)
            (value_at (extensions_of (message self.new)) (extension_type extension.now).number)
            values.entry.items) }
        ensures part { holds_map (extension_pool extension.now) (extension_type extension.now)
            ≡ true → OnErr result (PutsSome
            (value_at (extensions_of (message self.old)) (extension_type extension.now).number)
            (value_at (extensions_of (message self.new)) (extension_type extension.now).number)
            values.entry.items) }
        ensures absent { OnErr result (StaysUnset
            (value_at (extensions_of (message self.old)) (extension_type extension.now).number)
            (value_at (extensions_of (message self.new)) (extension_type extension.now).number)) }
        ensures neither { holds_list (extension_pool extension.now) (extension_type extension.now)
            ≡ false → holds_map (extension_pool extension.now) (extension_type extension.now)
            ≡ false → extensions_of (message self.new) ≡ extensions_of (message self.old) }
        ensures others { (n : ℕ) → n ≢ (extension_type extension.now).number
            → Same (extensions_of (message self.old)) (extensions_of (message self.new)) n }
        ensures ascending { IsAscending (extensions_of (message self.old))
            → IsAscending (extensions_of (message self.new)) }
        ensures exclusive { IsExclusive (message self.old) → IsExclusive (message self.new) }
        ensures fields { fields_of (message self.new) ≡ fields_of (message self.old) }
        ensures unknown { unknown_of (message self.new) ≡ unknown_of (message self.old) };
}

impl<'p> ExtendMessage<'p> for DynamicMessage<'p> {
    ghost message = { λ m. m };

    fn extend_field(
        &mut self,
        field: &FieldDescriptor<'p>,
        values: Vec<Value<'p>>,
    ) -> Result<(), AllocError> {
        let alloc = self.allocator();
        let mut parts = self.take_block()?;
        let outcome = extend_parts(&mut parts, alloc, field, values);
        self.put_block(parts);
        outcome
    }

    fn extend_extension(
        &mut self,
        extension: &ExtensionDescriptor<'p>,
        values: Vec<Value<'p>>,
    ) -> Result<(), AllocError> {
        let alloc = self.allocator();
        let mut parts = self.take_block()?;
        let outcome = extend(alloc, &mut parts.extensions, extension, values);
        self.put_block(parts);
        outcome
    }
}

/// Puts values behind those of a list, or entries into a map, as `extend` does, and unsets the
/// other members of the field's oneof, which a refusal leaves. Of a field that is neither nothing
/// happens.
fn extend_parts<'p>(
    parts: &mut Parts<'p>,
    alloc: Global,
    field: &FieldDescriptor<'p>,
    values: Vec<Value<'p>>,
) -> Result<(), AllocError>
    ensures others { (n : ℕ) → n ≢ (field_type field.now).number
        → sibling field.now parts.old.choices.members ≢ Some n
        → Same parts.old.fields parts.new.fields n }
    ensures unset { (holds_list (field_pool field.now) (field_type field.now)
        || holds_map (field_pool field.now) (field_type field.now)) ≡ true
        → OnOk result (LacksSibling field.now parts.old.choices.members parts.new.fields) }
    ensures rest { OnErr result (KeepsRest field.now parts.old.fields parts.new.fields) }
    ensures ascending { IsAscending parts.old.fields → IsAscending parts.new.fields }
    ensures list { holds_list (field_pool field.now) (field_type field.now) ≡ true
        → OnOk result (Lengthens (value_at parts.old.fields (field_type field.now).number)
        (value_at parts.new.fields (field_type field.now).number) values.entry.items) }
    ensures left { holds_list (field_pool field.now) (field_type field.now) ≡ true
        → OnErr result (KeepsList (value_at parts.old.fields (field_type field.now).number)
        (value_at parts.new.fields (field_type field.now).number)) }
    ensures other { holds_list (field_pool field.now) (field_type field.now) ≡ true
        → KeepsOther (value_at parts.old.fields (field_type field.now).number)
        (value_at parts.new.fields (field_type field.now).number) }
    ensures map { holds_map (field_pool field.now) (field_type field.now) ≡ true
        → OnOk result (PutsEntries (value_at parts.old.fields (field_type field.now).number)
        (value_at parts.new.fields (field_type field.now).number) values.entry.items) }
    ensures part { holds_map (field_pool field.now) (field_type field.now) ≡ true
        → OnErr result (PutsSome (value_at parts.old.fields (field_type field.now).number)
        (value_at parts.new.fields (field_type field.now).number) values.entry.items) }
    ensures absent { OnErr result (StaysUnset
        (value_at parts.old.fields (field_type field.now).number)
        (value_at parts.new.fields (field_type field.now).number)) }
    ensures neither { holds_list (field_pool field.now) (field_type field.now) ≡ false
        → holds_map (field_pool field.now) (field_type field.now) ≡ false
        → parts.new.fields ≡ parts.old.fields }
    ensures chosen { (m : MessageDescriptor) → Owns m field.now
        → AreChosen m parts.old.choices.members parts.old.fields
        → AreChosen m parts.new.choices.members parts.new.fields }
    ensures extensions { parts.new.extensions ≡ parts.old.extensions }
    ensures unknown { parts.new.unknown ≡ parts.old.unknown }
{
    if !field.is_list() && !field.is_map() {
        return Ok(());
    }
    parts.choices.make_room(field)?;
    extend(alloc, &mut parts.fields, field, values)?;
    parts.clear_siblings(field);
    Ok(())
}
