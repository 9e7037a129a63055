ghost use Rattle.std.specs.Prelude.{◌≡◌, ℕ, Some, slice_get};
ghost use Rattle.reflect_tables.specs.Types.{PoolType, type_at, enum_at, extension_at};
ghost use Rattle.reflect_tables.specs.Views.{record_file};
ghost use Rattle.reflect_link.specs.FileTypes.{file_type_at};

use crate::file::FileDescriptor;
use descriptor_records::FileDescriptorProto;
use reflect_pool::{
    EnumDescriptor, EnumValueDescriptor, ExtensionDescriptor, FieldDescriptor, MessageDescriptor,
    OneofDescriptor,
};

/// What is declared in a file.
pub trait InFile<'p> {
    /// The pool that the declaration stands in.
    ghost stands_in: { Self → PoolType };

    /// The place of its file.
    ghost file_of: { Self → ℕ };

    /// The file that the declaration stands in.
    fn parent_file(&self) -> FileDescriptor<'p>
        ensures pool { result.pool.now ≡ stands_in self.now }
        ensures file { result.index ≡ file_of self.now };

    /// The record of the file that the declaration stands in.
    fn parent_file_descriptor_proto(&self) -> &'p FileDescriptorProto
        ensures stands { slice_get (stands_in self.now).records (file_of self.now)
            ≡ Some result.now }
        ensures header { record_file result.now
            ≡ file_type_at (stands_in self.now) (file_of self.now) };

    /// The package of the file that the declaration stands in, empty where there is none.
    fn package_name(&self) -> &'p str
        ensures { result.now ≡ (file_type_at (stands_in self.now)
            (file_of self.now)).package_name };
}

impl<'p> InFile<'p> for MessageDescriptor<'p> {
    ghost stands_in = { λ d. d.pool.now };

    ghost file_of = { λ d. (type_at d.pool.now d.index).file };

    fn parent_file(&self) -> FileDescriptor<'p> {
        FileDescriptor::new(self.parent_pool(), self.file_index())
    }

    fn parent_file_descriptor_proto(&self) -> &'p FileDescriptorProto {
        self.parent_file().file_descriptor_proto()
    }

    fn package_name(&self) -> &'p str {
        self.parent_file().package_name()
    }
}

impl<'p> InFile<'p> for EnumDescriptor<'p> {
    ghost stands_in = { λ d. d.pool.now };

    ghost file_of = { λ d. (enum_at d.pool.now d.index).file };

    fn parent_file(&self) -> FileDescriptor<'p> {
        FileDescriptor::new(self.parent_pool(), self.file_index())
    }

    fn parent_file_descriptor_proto(&self) -> &'p FileDescriptorProto {
        self.parent_file().file_descriptor_proto()
    }

    fn package_name(&self) -> &'p str {
        self.parent_file().package_name()
    }
}

impl<'p> InFile<'p> for ExtensionDescriptor<'p> {
    ghost stands_in = { λ d. d.pool.now };

    ghost file_of = { λ d. (extension_at d.pool.now d.index).file };

    fn parent_file(&self) -> FileDescriptor<'p> {
        FileDescriptor::new(self.parent_pool(), self.file_index())
    }

    fn parent_file_descriptor_proto(&self) -> &'p FileDescriptorProto {
        self.parent_file().file_descriptor_proto()
    }

    fn package_name(&self) -> &'p str {
        self.parent_file().package_name()
    }
}

impl<'p> InFile<'p> for FieldDescriptor<'p> {
    ghost stands_in = { λ d. d.message.pool.now };

    ghost file_of = { λ d. (type_at d.message.pool.now d.message.index).file };

    fn parent_file(&self) -> FileDescriptor<'p> {
        self.parent_message().parent_file()
    }

    fn parent_file_descriptor_proto(&self) -> &'p FileDescriptorProto {
        self.parent_message().parent_file_descriptor_proto()
    }

    fn package_name(&self) -> &'p str {
        self.parent_message().package_name()
    }
}

impl<'p> InFile<'p> for OneofDescriptor<'p> {
    ghost stands_in = { λ d. d.message.pool.now };

    ghost file_of = { λ d. (type_at d.message.pool.now d.message.index).file };

    fn parent_file(&self) -> FileDescriptor<'p> {
        self.parent_message().parent_file()
    }

    fn parent_file_descriptor_proto(&self) -> &'p FileDescriptorProto {
        self.parent_message().parent_file_descriptor_proto()
    }

    fn package_name(&self) -> &'p str {
        self.parent_message().package_name()
    }
}

impl<'p> InFile<'p> for EnumValueDescriptor<'p> {
    ghost stands_in = { λ d. d.enumeration.pool.now };

    ghost file_of = { λ d. (enum_at d.enumeration.pool.now d.enumeration.index).file };

    fn parent_file(&self) -> FileDescriptor<'p> {
        self.parent_enum().parent_file()
    }

    fn parent_file_descriptor_proto(&self) -> &'p FileDescriptorProto {
        self.parent_enum().parent_file_descriptor_proto()
    }

    fn package_name(&self) -> &'p str {
        self.parent_enum().package_name()
    }
}
