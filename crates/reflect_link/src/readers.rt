//! What the records say, and what stands in a type.

ghost use Rattle.std.specs.Prelude.{◌≡◌, ℕ, map, string_bytes};
ghost use Rattle.reflect_tables.specs.Types.{PoolType, type_at};
ghost use Rattle.descriptor_records.specs.declared.message.DescriptorProto.TheViews.{out-DescriptorProto};
ghost use Rattle.descriptor_records.specs.declared.enums.EnumDescriptorProto.{EnumDescriptorProto};
ghost use Rattle.descriptor_records.specs.declared.enums.EnumValueDescriptorProto.{EnumValueDescriptorProto};
ghost use Rattle.descriptor_records.specs.declared.field.FieldDescriptorProto.{FieldDescriptorProto};
ghost use Rattle.descriptor_records.specs.declared.field.OneofDescriptorProto.{OneofDescriptorProto};
ghost use Rattle.descriptor_records.specs.declared.message.DescriptorProto.{DescriptorProto};
ghost use Rattle.reflect_link.specs.Lent.{IsMessageOf, IsFieldOf, IsOneofOf, IsEnumOf, IsValueOf, IsExtensionOf};

use crate::in_file::InFile;
use crate::lists::{Enums, Extensions, Messages};
use crate::ranges::{EnumReservedRanges, ExtensionRanges, ReservedNames, ReservedRanges};
use crate::records::{
    enum_record, extension_record, field_record, message_record, oneof_record, value_record,
};
use descriptor_records::{
    DescriptorProto, EnumDescriptorProto, EnumValueDescriptorProto, FieldDescriptorProto,
    OneofDescriptorProto,
};
use reflect_pool::{
    EnumDescriptor, EnumValueDescriptor, ExtensionDescriptor, FieldDescriptor, MessageDescriptor,
    OneofDescriptor,
};

/// Further readers of a message type.
pub trait MessageReaders<'p> {
    ghost use Rattle.reflect_link.specs.ListsLeft.{messages_left, enums_left, extensions_left};
    ghost use Rattle.reflect_link.specs.Reserved.{reserved_bounds, extension_bounds, reserved_left, ranges_left, names_left};
    ghost use Rattle.reflect_pool.specs.PlacesLeft.{places_in};

    /// The pool that the type stands in.
    ghost in_pool: { Self → PoolType };

    /// Its place there.
    ghost place: { Self → ℕ };

    /// The record of the type, with full names in place of references.
    fn descriptor_proto(&self) -> &'p DescriptorProto
        ensures { IsMessageOf (in_pool self.now) (place self.now) result.now };

    /// The message types that are declared in the type, as they were declared.
    fn child_messages(&self) -> Messages<'p>
        ensures { messages_left result ≡ places_in (in_pool self.now)
            (type_at (in_pool self.now) (place self.now)).children.messages };

    /// The enum types that are declared in the type, as they were declared.
    fn child_enums(&self) -> Enums<'p>
        ensures { enums_left result ≡ places_in (in_pool self.now)
            (type_at (in_pool self.now) (place self.now)).children.enums };

    /// The extensions that are declared in the type, whatever they extend, as they were declared.
    fn child_extensions(&self) -> Extensions<'p>
        ensures { extensions_left result ≡ places_in (in_pool self.now)
            (type_at (in_pool self.now) (place self.now)).children.extensions };

    /// The numbers that no field may have.
    fn reserved_ranges(&self) -> ReservedRanges<'p>
        ensures { (m : DescriptorProto) × IsMessageOf (in_pool self.now) (place self.now) m
            × (reserved_left result ≡ map reserved_bounds
            (out-DescriptorProto m).reserved_range.items) };

    /// The names that no field may have.
    fn reserved_names(&self) -> ReservedNames<'p>
        ensures { (m : DescriptorProto) × IsMessageOf (in_pool self.now) (place self.now) m
            × (names_left result ≡ map string_bytes (out-DescriptorProto m).reserved_name.items) };

    /// The numbers that are kept for extensions.
    fn extension_ranges(&self) -> ExtensionRanges<'p>
        ensures { (m : DescriptorProto) × IsMessageOf (in_pool self.now) (place self.now) m
            × (ranges_left result ≡ map extension_bounds
            (out-DescriptorProto m).extension_range.items) };
}

impl<'p> MessageReaders<'p> for MessageDescriptor<'p> {
    ghost in_pool = { λ d. d.pool.now };

    ghost place = { λ d. d.index };

    fn descriptor_proto(&self) -> &'p DescriptorProto {
        self.parent_pool().has_records();
        message_record(self.parent_file_descriptor_proto(), self.path()).unwrap()
    }

    fn child_messages(&self) -> Messages<'p> {
        Messages {
            pool: self.parent_pool(),
            places: self.children().messages.as_slice(),
        }
    }

    fn child_enums(&self) -> Enums<'p> {
        Enums {
            pool: self.parent_pool(),
            places: self.children().enums.as_slice(),
        }
    }

    fn child_extensions(&self) -> Extensions<'p> {
        Extensions {
            pool: self.parent_pool(),
            places: self.children().extensions.as_slice(),
        }
    }

    fn reserved_ranges(&self) -> ReservedRanges<'p> {
        ReservedRanges {
            rest: self.descriptor_proto().reserved_range.as_slice(),
        }
    }

    fn reserved_names(&self) -> ReservedNames<'p> {
        ReservedNames {
            rest: self.descriptor_proto().reserved_name.as_slice(),
        }
    }

    fn extension_ranges(&self) -> ExtensionRanges<'p> {
        ExtensionRanges {
            rest: self.descriptor_proto().extension_range.as_slice(),
        }
    }
}

/// Further readers of a field or an extension.
pub trait FieldReaders<'p> {
    /// It is the record of the field in its file's record.
    ghost is_record: { Self → FieldDescriptorProto → Type 0 };

    /// The record of the field, with full names in place of references.
    fn field_descriptor_proto(&self) -> &'p FieldDescriptorProto
        ensures { is_record self.now result.now };
}

impl<'p> FieldReaders<'p> for FieldDescriptor<'p> {
    ghost is_record = { λ d f. IsFieldOf d.message.pool.now d.message.index d.index f };

    fn field_descriptor_proto(&self) -> &'p FieldDescriptorProto {
        self.parent_pool().has_records();
        field_record(self.parent_file_descriptor_proto(), self.path()).unwrap()
    }
}

impl<'p> FieldReaders<'p> for ExtensionDescriptor<'p> {
    ghost is_record = { λ d f. IsExtensionOf d.pool.now d.index f };

    fn field_descriptor_proto(&self) -> &'p FieldDescriptorProto {
        self.parent_pool().has_records();
        extension_record(self.parent_file_descriptor_proto(), self.path()).unwrap()
    }
}

/// Further readers of a oneof.
pub trait OneofReaders<'p> {
    /// It is the record of the oneof in its file's record.
    ghost is_record: { Self → OneofDescriptorProto → Type 0 };

    /// The record of the oneof.
    fn oneof_descriptor_proto(&self) -> &'p OneofDescriptorProto
        ensures { is_record self.now result.now };
}

impl<'p> OneofReaders<'p> for OneofDescriptor<'p> {
    ghost is_record = { λ d o. IsOneofOf d.message.pool.now d.message.index d.index o };

    fn oneof_descriptor_proto(&self) -> &'p OneofDescriptorProto {
        self.parent_pool().has_records();
        oneof_record(self.parent_file_descriptor_proto(), self.path()).unwrap()
    }
}

/// Further readers of an enum type.
pub trait EnumReaders<'p> {
    ghost use Rattle.reflect_link.specs.Reserved.{enum_bounds, enum_left, names_left};

    /// It is the record of the type in its file's record.
    ghost is_record: { Self → EnumDescriptorProto → Type 0 };

    /// The record of the type.
    fn enum_descriptor_proto(&self) -> &'p EnumDescriptorProto
        ensures { is_record self.now result.now };

    /// The numbers that no value may have.
    fn reserved_ranges(&self) -> EnumReservedRanges<'p>
        ensures { (e : EnumDescriptorProto) × is_record self.now e
            × (enum_left result ≡ map enum_bounds e.reserved_range.items) };

    /// The names that no value may have.
    fn reserved_names(&self) -> ReservedNames<'p>
        ensures { (e : EnumDescriptorProto) × is_record self.now e
            × (names_left result ≡ map string_bytes e.reserved_name.items) };
}

impl<'p> EnumReaders<'p> for EnumDescriptor<'p> {
    ghost is_record = { λ d e. IsEnumOf d.pool.now d.index e };

    fn enum_descriptor_proto(&self) -> &'p EnumDescriptorProto {
        self.parent_pool().has_records();
        enum_record(self.parent_file_descriptor_proto(), self.path()).unwrap()
    }

    fn reserved_ranges(&self) -> EnumReservedRanges<'p> {
        EnumReservedRanges {
            rest: self.enum_descriptor_proto().reserved_range.as_slice(),
        }
    }

    fn reserved_names(&self) -> ReservedNames<'p> {
        ReservedNames {
            rest: self.enum_descriptor_proto().reserved_name.as_slice(),
        }
    }
}

/// Further readers of an enum's value.
pub trait EnumValueReaders<'p> {
    /// It is the record of the value in its file's record.
    ghost is_record: { Self → EnumValueDescriptorProto → Type 0 };

    /// The record of the value.
    fn enum_value_descriptor_proto(&self) -> &'p EnumValueDescriptorProto
        ensures { is_record self.now result.now };
}

impl<'p> EnumValueReaders<'p> for EnumValueDescriptor<'p> {
    ghost is_record = { λ d v. IsValueOf d.enumeration.pool.now d.enumeration.index d.index v };

    fn enum_value_descriptor_proto(&self) -> &'p EnumValueDescriptorProto {
        self.parent_pool().has_records();
        value_record(self.parent_file_descriptor_proto(), self.path()).unwrap()
    }
}
