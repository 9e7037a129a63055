//! What the readers of the crate above take from a pool.

ghost use Rattle.std.specs.Prelude.{◌≡◌, ◌<◌, All, HoldsAt, length, map};
ghost use Rattle.reflect_tables.specs.Types.{FileWithin, ChildrenWithin, counts_of, declared_at, type_at, enum_at, extension_at, service_at};
ghost use Rattle.reflect_tables.specs.Views.{children_of, declared_of, pool_of};
ghost use Rattle.reflect_tables.specs.Finding.{IsFirst};
ghost use Rattle.reflect_known.specs.KnownNames.{known_of_files};
ghost use Rattle.reflect_scope.specs.FileIndexes.{link_view};
ghost use Rattle.reflect_scope.specs.Known.{known_of};
ghost use Rattle.reflect_pool.specs.AtPaths.{HaveRecords};
ghost use Rattle.reflect_pool.specs.Dots.{without_dot};
ghost use Rattle.reflect_pool.specs.Imports.{import_name, imported, imported_places, imported_publicly, name_at, place_named};
ghost use Rattle.reflect_pool.specs.Parts.{type_of_method};

use crate::enums::EnumDescriptor;
use crate::extension::ExtensionDescriptor;
use crate::message::MessageDescriptor;
use crate::pool::{DescriptorPool, kind_of};
use name_table::NameTable;
use reflect_scope::{Definition, DefinitionKind, FileIndex, Links, MethodIndex, ServiceIndex};
use reflect_tables::{Children, Counts, Declared, Tables};

impl DescriptorPool {
    /// All that the pool keeps of its files' declarations.
    pub fn tables(&self) -> &Tables
        ensures { pool_of result.now ≡ self.now }
    {
        &self.tables
    }

    /// How many entries of each sort there are.
    pub fn counts(&self) -> Counts
        ensures { result ≡ counts_of self.now }
    {
        let tables = &self.tables;
        Counts {
            files: tables.files.len() as u32,
            messages: tables.messages.len() as u32,
            enums: tables.enums.len() as u32,
            extensions: tables.extensions.len() as u32,
            services: tables.services.len() as u32,
        }
    }

    /// How many files there are.
    pub fn mark(&self) -> u32
        ensures { result ≡ length self.now.files }
    {
        self.tables.files.len() as u32
    }

    /// How many methods a service has.
    pub fn method_count(&self, service: ServiceIndex) -> u32
        requires { service < length self.now.services }
        ensures { result ≡ length (service_at self.now service).methods }
    {
        self.tables.services[service as usize].methods.len() as u32
    }

    /// What the full names stand for, as the records of the files give them.
    pub fn names(&self) -> &NameTable<Definition>
        ensures { known_of result.now ≡ known_of_files self.now.records }
    {
        &self.names
    }

    /// What each file imports, by its place.
    pub fn links(&self) -> &[Links]
        ensures { map link_view result.now
            ≡ map (imported_places (place_named self.now)) self.now.files }
    {
        self.links.as_slice()
    }

    /// What a file declares.
    pub fn declared_in(&self, file: FileIndex) -> &Declared
        requires { file < length self.now.files }
        ensures inside { FileWithin (counts_of self.now) (declared_of result.now) }
        ensures places { declared_of result.now ≡ declared_at self.now file }
    {
        &self.tables.files[file as usize].declared
    }

    /// The place of the file that a service is declared in.
    pub fn file_of_service(&self, index: ServiceIndex) -> FileIndex
        requires { index < length self.now.services }
        ensures inside { result < length self.now.files }
        ensures file { result ≡ (service_at self.now index).file }
    {
        self.tables.services[index as usize].file
    }

    /// The places of the files that a file imports, in the order of its imports.
    pub fn imports_of(&self, file: FileIndex) -> &[FileIndex]
        requires { file < length self.now.files }
        ensures inside { All (λ place. place < length self.now.files) result.now }
        ensures places { HoldsAt (λ f. result.now ≡ imported (place_named self.now) f)
            self.now.files file }
        ensures names { HoldsAt (λ f. map (name_at self.now) result.now ≡ f.imports)
            self.now.files file }
    {
        self.links[file as usize].imports.as_slice()
    }

    /// The places of the files that a file imports publicly, in the order in which it names them.
    pub fn public_imports_of(&self, file: FileIndex) -> &[FileIndex]
        requires { file < length self.now.files }
        ensures inside { All (λ place. place < length self.now.files) result.now }
        ensures places { HoldsAt (λ f. result.now ≡ imported_publicly (place_named self.now) f)
            self.now.files file }
        ensures names { HoldsAt (λ f. map (name_at self.now) result.now
            ≡ map (import_name f.imports) f.public_imports) self.now.files file }
    {
        self.links[file as usize].public.as_slice()
    }

    /// The place of the file of a name.
    pub fn file_place(&self, name: &str) -> Option<FileIndex>
        ensures { IsFirst (λ f. f.name ≡ name.now) self.now.files result }
    {
        self.file_names.get(name).copied()
    }

    /// The place of the service of a full name, which may have one leading dot.
    pub fn service_place(&self, name: &str) -> Option<ServiceIndex>
        ensures { IsFirst (λ s. s.full_name ≡ without_dot name.now) self.now.services result }
    {
        match kind_of(&self.names, name)? {
            DefinitionKind::Service(index) => Some(index),
            _ => None,
        }
    }

    /// Each entry has a record of its name at its path in the record of its file. Does nothing: the
    /// readers that lend these records rest on it.
    pub fn has_records(&self)
        ensures { HaveRecords self.now }
    {
        let _tables = &self.tables;
    }

    /// The message type that a method takes.
    pub fn input_of(&self, service: ServiceIndex, method: MethodIndex) -> MessageDescriptor<'_>
        requires service { service < length self.now.services }
        requires method { method < length (service_at self.now service).methods }
        ensures pool { result.pool.now ≡ self.now }
        ensures input { result.index ≡ (type_of_method self.now service method).input }
    {
        MessageDescriptor {
            pool: self,
            index: self.tables.services[service as usize].methods[method as usize].input,
        }
    }

    /// The message type that a method answers.
    pub fn output_of(&self, service: ServiceIndex, method: MethodIndex) -> MessageDescriptor<'_>
        requires service { service < length self.now.services }
        requires method { method < length (service_at self.now service).methods }
        ensures pool { result.pool.now ≡ self.now }
        ensures output { result.index ≡ (type_of_method self.now service method).output }
    {
        MessageDescriptor {
            pool: self,
            index: self.tables.services[service as usize].methods[method as usize].output,
        }
    }
}

impl<'p> MessageDescriptor<'p> {
    /// The place of the file that the type is declared in.
    pub fn file_index(&self) -> FileIndex
        ensures inside { result < length self.now.pool.now.files }
        ensures file { result ≡ (type_at self.now.pool.now self.now.index).file }
    {
        let pool = self.pool;
        pool.tables.messages[self.index as usize].file
    }

    /// The places of what is declared in the type.
    pub fn children(&self) -> &'p Children
        ensures inside { ChildrenWithin (counts_of self.now.pool.now) (children_of result.now) }
        ensures places { children_of result.now
            ≡ (type_at self.now.pool.now self.now.index).children }
    {
        let pool = self.pool;
        &pool.tables.messages[self.index as usize].children
    }
}

impl<'p> EnumDescriptor<'p> {
    /// The place of the file that the type is declared in.
    pub fn file_index(&self) -> FileIndex
        ensures inside { result < length self.now.pool.now.files }
        ensures file { result ≡ (enum_at self.now.pool.now self.now.index).file }
    {
        let pool = self.pool;
        pool.tables.enums[self.index as usize].file
    }
}

impl<'p> ExtensionDescriptor<'p> {
    /// The place of the file that the extension is declared in.
    pub fn file_index(&self) -> FileIndex
        ensures inside { result < length self.now.pool.now.files }
        ensures file { result ≡ (extension_at self.now.pool.now self.now.index).file }
    {
        let pool = self.pool;
        pool.tables.extensions[self.index as usize].file
    }
}
