//! Extensions by their descriptors.

ghost use Rattle.std.specs.Prelude.{◌≡◌, true, None, Some, IsTrue, IsSome, IfOk, IfSome, OnOk, OnErr};
ghost use Rattle.std.specs.Option.{unwrap_or};
ghost use Rattle.reflect_scalar.specs.FieldTypes.{extension_pool, extension_type};
ghost use Rattle.reflect_entries.specs.Entries.{value_at};
ghost use Rattle.reflect_message.specs.Held.{choices_of, extensions_of, fields_of, unknown_of, UpdatesExtension};
ghost use Rattle.reflect_message.specs.Present.{held_if_set, is_held};
ghost use Rattle.reflect_message.specs.Shown.{Shows};

use crate::content;
use crate::field_ref::FieldRef;
use crate::message::DynamicMessage;
use crate::message_parts::MessageParts;
use crate::value::Value;
use reflect_pool::ExtensionDescriptor;
use std::alloc::AllocError;

impl<'p> DynamicMessage<'p> {
    /// The extension, one of the message's type, is set. Takes no memory.
    pub fn has_extension(&self, extension: &ExtensionDescriptor<'p>) -> bool
        ensures held { IsTrue result → IsSome
            (value_at (extensions_of self.now) (extension_type extension.now).number) }
        ensures presence { (extension_type extension.now).presence ≡ true
            → IsSome (value_at (extensions_of self.now) (extension_type extension.now).number)
            → IsTrue result }
        ensures set { result ≡ is_held (extension_pool extension.now) (extension_type extension.now)
            (value_at (extensions_of self.now) (extension_type extension.now).number) }
    {
        content::is_set(self.extension_value(extension.number()), extension)
    }

    /// What the extension, one of the message's type, holds, or its default, which may take memory;
    /// what is held takes none.
    pub fn get_extension(
        &self,
        extension: &ExtensionDescriptor<'p>,
    ) -> Result<FieldRef<'_, 'p>, AllocError>
        ensures shows { IfOk result (Shows (extension_pool extension.now)
            (extension_type extension.now)
            (value_at (extensions_of self.now) (extension_type extension.now).number)) }
        ensures unset { OnErr result
            (value_at (extensions_of self.now) (extension_type extension.now).number ≡ None) }
    {
        content::lend(
            self.allocator(),
            self.extension_value(extension.number()),
            extension,
        )
    }

    /// Puts the default where the extension, one of the message's type, holds nothing: what
    /// `get_extension_mut` does before it lends the value. A refusal leaves the message.
    pub(crate) fn fill_extension(
        &mut self,
        extension: &ExtensionDescriptor<'p>,
        default: Value<'p>,
    ) -> Result<(), AllocError>
        ensures type_stays { self.new.descriptor ≡ self.old.descriptor }
        ensures ok { OnOk result (UpdatesExtension self.old self.new
            (extension_type extension.now).number
            (Some (unwrap_or (value_at (extensions_of self.old)
            (extension_type extension.now).number) default.entry))) }
        ensures err { OnErr result (extensions_of self.new ≡ extensions_of self.old) }
        ensures fields { fields_of self.new ≡ fields_of self.old }
        ensures choices { choices_of self.new ≡ choices_of self.old }
        ensures unknown { unknown_of self.new ≡ unknown_of self.old }
    {
        let mut parts = self.take_block()?;
        let outcome = parts.fill_extension(extension.number(), default);
        self.put_block(parts);
        outcome
    }

    /// Sets the extension, one of the message's type, to a value that suits it, over what it held.
    /// A refusal leaves the message.
    pub fn set_extension(
        &mut self,
        extension: &ExtensionDescriptor<'p>,
        value: Value<'p>,
    ) -> Result<(), AllocError>
        ensures type_stays { self.new.descriptor ≡ self.old.descriptor }
        ensures ok { OnOk result (UpdatesExtension self.old self.new
            (extension_type extension.now).number (Some value.entry)) }
        ensures err { OnErr result (extensions_of self.new ≡ extensions_of self.old) }
        ensures fields { fields_of self.new ≡ fields_of self.old }
        ensures choices { choices_of self.new ≡ choices_of self.old }
        ensures unknown { unknown_of self.new ≡ unknown_of self.old }
    {
        let mut parts = self.take_block()?;
        let outcome = parts.extensions.set(extension.number(), value);
        self.put_block(parts);
        outcome
    }

    /// Unsets the extension, one of the message's type. Takes no memory.
    pub fn clear_extension(&mut self, extension: &ExtensionDescriptor<'p>)
        ensures { UpdatesExtension self.old self.new (extension_type extension.now).number None }
    {
        if let Some(mut parts) = self.block() {
            parts.extensions.take(extension.number());
            self.put_block(parts);
        }
    }

    /// Unsets the extension, one of the message's type, and gives what it held, if it was set.
    /// Takes no memory.
    pub fn take_extension(&mut self, extension: &ExtensionDescriptor<'p>) -> Option<Value<'p>>
        ensures updates { UpdatesExtension self.old self.new
            (extension_type extension.now).number None }
        ensures held { IfSome result (λ v. value_at (extensions_of self.old)
            (extension_type extension.now).number ≡ Some v) }
        ensures presence { (extension_type extension.now).presence ≡ true → result
            ≡ value_at (extensions_of self.old) (extension_type extension.now).number }
        ensures taken { result ≡ held_if_set (extension_pool extension.now)
            (extension_type extension.now)
            (value_at (extensions_of self.old) (extension_type extension.now).number) }
    {
        match self.block() {
            Some(mut parts) => {
                let taken = content::take(&mut parts.extensions, extension);
                self.put_block(parts);
                taken
            }
            None => None,
        }
    }
}
