//! The options of declarations, read by the types that a pool has for them (protobuf.dev,
//! "Options").

ghost use Rattle.std.specs.Prelude.{◌≡◌, ℕ, List, Option, Some, IfErr, IfOk, codes, slice_get};
ghost use Rattle.descriptor_records.specs.declared.message.DescriptorProto.TheViews.{out-DescriptorProto};
ghost use Rattle.descriptor_records.specs.declared.options.Options.{Options};
ghost use Rattle.reflect_tables.specs.Types.{PoolType};
ghost use Rattle.reflect_link.specs.Lent.{
  IsMessageOf,
  IsFieldOf,
  IsExtensionOf,
  IsOneofOf,
  IsEnumOf,
  IsValueOf,
  IsServiceOf,
  IsMethodOf,
};
ghost use Rattle.reflect_dynamic.specs.StoredOptions.{
  HasOptions,
  IsReadBy,
  IsRefusedBy,
  OfItsOptions,
  stored_bytes,
};

use descriptor_records::Options;
use reflect_decode::DecodeMessage;
use reflect_link::{
    DescriptorPool, EnumDescriptor, EnumReaders, EnumValueDescriptor, EnumValueReaders,
    ExtensionDescriptor, FieldDescriptor, FieldReaders, FileDescriptor, MessageDescriptor,
    MessageReaders, MethodDescriptor, OneofDescriptor, OneofReaders, ServiceDescriptor,
};
use reflect_message::DynamicMessage;
use reflect_wire::WireError;
use std::alloc::Global;

/// A declaration whose options can be read.
pub trait ReadOptions<'p> {
    /// The pool that the declaration stands in.
    ghost pool: { Self → PoolType };

    /// The full name of the type for options of its sort.
    ghost type_name: { Self → List ℕ };

    /// These are the options of its record.
    ghost has: { Self → Option Options → Type 0 };

    /// The message that the declaration's stored options spell, empty where it has none; `None`
    /// where the pool has no type for options of its sort, as `google.protobuf.FieldOptions` is for
    /// fields and extensions.
    ///
    /// Refused as `DynamicMessage::decode` is.
    fn options(&self, alloc: Global) -> Result<Option<DynamicMessage<'p>>, WireError>
        ensures read { IfOk result (λ read. OfItsOptions (has self.now)
            (λ o. IsReadBy (pool self.now) (type_name self.now) o read)) }
        ensures fault { IfErr result (λ e. OfItsOptions (has self.now)
            (λ o. IsRefusedBy (pool self.now) (type_name self.now) o e)) };
}

/// The bytes of stored options, none where a declaration has none.
fn stored_bytes(options: &Option<Options>) -> &[u8]
    ensures { result.now ≡ stored_bytes options.now }
{
    match options {
        Some(options) => options.encoded.as_slice(),
        None => &[],
    }
}

/// The stored options as a message of a type of the pool.
fn read<'p>(
    alloc: Global,
    pool: &'p DescriptorPool,
    type_name: &str,
    options: &Option<Options>,
) -> Result<Option<DynamicMessage<'p>>, WireError>
    ensures read { IfOk result (IsReadBy pool.now type_name.now options.now) }
    ensures fault { IfErr result (IsRefusedBy pool.now type_name.now options.now) }
{
    match pool.get_message_by_name(type_name) {
        Some(descriptor) => {
            let message = DynamicMessage::decode(alloc, descriptor, stored_bytes(options))?;
            Ok(Some(message))
        }
        None => Ok(None),
    }
}

impl<'p> ReadOptions<'p> for FileDescriptor<'p> {
    ghost pool = { λ d. d.pool.now };

    ghost type_name = { λ _. codes "google.protobuf.FileOptions" };

    ghost has = { λ d. HasOptions (λ f. slice_get d.pool.now.records d.index ≡ Some f)
        (λ f. f.options) };

    fn options(&self, alloc: Global) -> Result<Option<DynamicMessage<'p>>, WireError> {
        let options = &self.file_descriptor_proto().options;
        read(
            alloc,
            self.parent_pool(),
            "google.protobuf.FileOptions",
            options,
        )
    }
}

impl<'p> ReadOptions<'p> for MessageDescriptor<'p> {
    ghost pool = { λ d. d.pool.now };

    ghost type_name = { λ _. codes "google.protobuf.MessageOptions" };

    ghost has = { λ d. HasOptions (IsMessageOf d.pool.now d.index)
        (λ m. (out-DescriptorProto m).options) };

    fn options(&self, alloc: Global) -> Result<Option<DynamicMessage<'p>>, WireError> {
        let options = &self.descriptor_proto().options;
        read(
            alloc,
            self.parent_pool(),
            "google.protobuf.MessageOptions",
            options,
        )
    }
}

impl<'p> ReadOptions<'p> for FieldDescriptor<'p> {
    ghost pool = { λ d. d.message.pool.now };

    ghost type_name = { λ _. codes "google.protobuf.FieldOptions" };

    ghost has = { λ d. HasOptions (IsFieldOf d.message.pool.now d.message.index d.index)
        (λ f. f.options) };

    fn options(&self, alloc: Global) -> Result<Option<DynamicMessage<'p>>, WireError> {
        let options = &self.field_descriptor_proto().options;
        read(
            alloc,
            self.parent_pool(),
            "google.protobuf.FieldOptions",
            options,
        )
    }
}

impl<'p> ReadOptions<'p> for ExtensionDescriptor<'p> {
    ghost pool = { λ d. d.pool.now };

    ghost type_name = { λ _. codes "google.protobuf.FieldOptions" };

    ghost has = { λ d. HasOptions (IsExtensionOf d.pool.now d.index) (λ x. x.options) };

    fn options(&self, alloc: Global) -> Result<Option<DynamicMessage<'p>>, WireError> {
        let options = &self.field_descriptor_proto().options;
        read(
            alloc,
            self.parent_pool(),
            "google.protobuf.FieldOptions",
            options,
        )
    }
}

impl<'p> ReadOptions<'p> for OneofDescriptor<'p> {
    ghost pool = { λ d. d.message.pool.now };

    ghost type_name = { λ _. codes "google.protobuf.OneofOptions" };

    ghost has = { λ d. HasOptions (IsOneofOf d.message.pool.now d.message.index d.index)
        (λ o. o.options) };

    fn options(&self, alloc: Global) -> Result<Option<DynamicMessage<'p>>, WireError> {
        let options = &self.oneof_descriptor_proto().options;
        read(
            alloc,
            self.parent_pool(),
            "google.protobuf.OneofOptions",
            options,
        )
    }
}

impl<'p> ReadOptions<'p> for EnumDescriptor<'p> {
    ghost pool = { λ d. d.pool.now };

    ghost type_name = { λ _. codes "google.protobuf.EnumOptions" };

    ghost has = { λ d. HasOptions (IsEnumOf d.pool.now d.index) (λ e. e.options) };

    fn options(&self, alloc: Global) -> Result<Option<DynamicMessage<'p>>, WireError> {
        let options = &self.enum_descriptor_proto().options;
        read(
            alloc,
            self.parent_pool(),
            "google.protobuf.EnumOptions",
            options,
        )
    }
}

impl<'p> ReadOptions<'p> for EnumValueDescriptor<'p> {
    ghost pool = { λ d. d.enumeration.pool.now };

    ghost type_name = { λ _. codes "google.protobuf.EnumValueOptions" };

    ghost has = { λ d. HasOptions (IsValueOf d.enumeration.pool.now d.enumeration.index d.index)
        (λ v. v.options) };

    fn options(&self, alloc: Global) -> Result<Option<DynamicMessage<'p>>, WireError> {
        let options = &self.enum_value_descriptor_proto().options;
        read(
            alloc,
            self.parent_pool(),
            "google.protobuf.EnumValueOptions",
            options,
        )
    }
}

impl<'p> ReadOptions<'p> for ServiceDescriptor<'p> {
    ghost pool = { λ d. d.pool.now };

    ghost type_name = { λ _. codes "google.protobuf.ServiceOptions" };

    ghost has = { λ d. HasOptions (IsServiceOf d.pool.now d.index) (λ s. s.options) };

    fn options(&self, alloc: Global) -> Result<Option<DynamicMessage<'p>>, WireError> {
        let options = &self.service_descriptor_proto().options;
        read(
            alloc,
            self.parent_pool(),
            "google.protobuf.ServiceOptions",
            options,
        )
    }
}

impl<'p> ReadOptions<'p> for MethodDescriptor<'p> {
    ghost pool = { λ d. d.service.pool.now };

    ghost type_name = { λ _. codes "google.protobuf.MethodOptions" };

    ghost has = { λ d. HasOptions (IsMethodOf d.service.pool.now d.service.index d.index)
        (λ m. m.options) };

    fn options(&self, alloc: Global) -> Result<Option<DynamicMessage<'p>>, WireError> {
        let options = &self.method_descriptor_proto().options;
        read(
            alloc,
            self.parent_pool(),
            "google.protobuf.MethodOptions",
            options,
        )
    }
}
