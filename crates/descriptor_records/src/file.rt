ghost use Rattle.std.specs.Prelude.{◌≡◌};
ghost use Rattle.descriptor_records.specs.Content.{file_view, set_view};
ghost use Rattle.descriptor_records.specs.Empty.{empty_file};

use crate::enums::EnumDescriptorProto;
use crate::field::FieldDescriptorProto;
use crate::message::{DescriptorProto, clone_messages};
use crate::options::Options;
use crate::service::ServiceDescriptorProto;
use crate::source_info::SourceCodeInfo;
use std::alloc::{AllocError, Global};

/// Files that belong together, as `protoc --descriptor_set_out` writes them.
#[derive(PartialEq, Drop)]
pub struct FileDescriptorSet {
    pub file: Vec<FileDescriptorProto>,
}

/// One `.proto` file.
#[derive(PartialEq, Drop)]
pub struct FileDescriptorProto {
    /// The file's name, relative to the root of the sources.
    pub name: Option<String>,
    pub package: Option<String>,
    /// The names of the imported files.
    pub dependency: Vec<String>,
    /// Indexes into `dependency` of the public imports.
    pub public_dependency: Vec<i32>,
    /// Indexes into `dependency` of the weak imports.
    pub weak_dependency: Vec<i32>,
    pub message_type: Vec<DescriptorProto>,
    pub enum_type: Vec<EnumDescriptorProto>,
    pub service: Vec<ServiceDescriptorProto>,
    pub extension: Vec<FieldDescriptorProto>,
    pub options: Option<Options>,
    pub source_code_info: Option<SourceCodeInfo>,
    /// `proto2` (or nothing) or `proto3`.
    pub syntax: Option<String>,
}

impl FileDescriptorProto {
    /// A file without a name and without content. Takes no memory.
    pub fn new(alloc: Global) -> FileDescriptorProto
        ensures { file_view result ≡ empty_file }
    {
        FileDescriptorProto {
            name: None,
            package: None,
            dependency: Vec::new(alloc),
            public_dependency: Vec::new(alloc),
            weak_dependency: Vec::new(alloc),
            message_type: Vec::new(alloc),
            enum_type: Vec::new(alloc),
            service: Vec::new(alloc),
            extension: Vec::new(alloc),
            options: None,
            source_code_info: None,
            syntax: None,
        }
    }
}

impl Clone for FileDescriptorSet {
    ghost is_clone = { λ a b. set_view b ≡ set_view a };

    fn clone(&self) -> Result<FileDescriptorSet, AllocError> {
        Ok(FileDescriptorSet {
            file: self.file.clone()?,
        })
    }
}

impl Clone for FileDescriptorProto {
    ghost is_clone = { λ a b. file_view b ≡ file_view a };

    fn clone(&self) -> Result<FileDescriptorProto, AllocError> {
        Ok(FileDescriptorProto {
            name: self.name.clone()?,
            package: self.package.clone()?,
            dependency: self.dependency.clone()?,
            public_dependency: self.public_dependency.clone()?,
            weak_dependency: self.weak_dependency.clone()?,
            message_type: clone_messages(&self.message_type)?,
            enum_type: self.enum_type.clone()?,
            service: self.service.clone()?,
            extension: self.extension.clone()?,
            options: self.options.clone()?,
            source_code_info: self.source_code_info.clone()?,
            syntax: self.syntax.clone()?,
        })
    }
}
