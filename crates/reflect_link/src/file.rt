ghost use Rattle.std.specs.Prelude.{◌≡◌, ◌<◌, All, Some, length, map, slice_get, IfSome, IsSome};
ghost use Rattle.std.proofs.Props.{props};
ghost use Rattle.reflect_tables.specs.Types.{declared_at};
ghost use Rattle.reflect_tables.specs.Views.{file_of, record_file, text_of};
ghost use Rattle.reflect_pool.specs.Imports.{import_name, imported, imported_publicly, place_named};
ghost use Rattle.reflect_link.specs.FileTypes.{file_in, file_type_at};
ghost use Rattle.reflect_pool.specs.PlacesLeft.{places_in};

use crate::lists::{Enums, Extensions, Messages};
use crate::service::Services;
use descriptor_records::FileDescriptorProto;
use reflect_pool::{DescriptorPool, Syntax};
use reflect_scope::FileIndex;
use reflect_tables::{StoredFile, syntax_of};

/// A file of a pool.
#[derive(Clone, Copy)]
pub struct FileDescriptor<'p> {
    pub(crate) pool: &'p DescriptorPool,
    pub(crate) index: FileIndex,
    ghost in_range: { index < length pool.now.files },
}

impl<'p> FileDescriptor<'p> {
    ghost use Rattle.reflect_link.specs.ListsLeft.{messages_left, enums_left, extensions_left, services_left, files_left};

    /// The file at a place of a pool.
    pub fn new(pool: &'p DescriptorPool, index: FileIndex) -> FileDescriptor<'p>
        requires { index < length pool.now.files }
        ensures pool { result.pool.now ≡ pool.now }
        ensures index { result.index ≡ index }
    {
        FileDescriptor { pool, index }
    }

    /// The pool that the file stands in.
    pub fn parent_pool(&self) -> &'p DescriptorPool
        ensures { result.now ≡ self.now.pool.now }
    {
        self.pool
    }

    /// The place in the pool.
    pub fn index(&self) -> FileIndex
        ensures { result ≡ self.now.index }
    {
        self.index
    }

    fn stored(&self) -> &'p StoredFile
        ensures file { file_of result.now ≡ file_type_at self.now.pool.now self.now.index }
        ensures stands { slice_get self.now.pool.now.records self.now.index
            ≡ Some result.now.«record» }
    {
        let tables = self.pool.tables();
        &tables.files[self.index as usize]
    }

    /// The name, relative to the root of the sources.
    pub fn name(&self) -> &'p str
        ensures { result.now ≡ (file_type_at self.now.pool.now self.now.index).name }
    {
        text(&self.stored().record.name)
    }

    /// The package, empty where there is none.
    pub fn package_name(&self) -> &'p str
        ensures { result.now ≡ (file_type_at self.now.pool.now self.now.index).package_name }
    {
        text(&self.stored().record.package)
    }

    /// The syntax that the file is written in.
    pub fn syntax(&self) -> Syntax
        ensures { result ≡ (file_type_at self.now.pool.now self.now.index).syntax }
    {
        syntax_of(&self.stored().record)
    }

    /// The record of the file, with full names in place of references.
    pub fn file_descriptor_proto(&self) -> &'p FileDescriptorProto
        ensures stands { slice_get self.now.pool.now.records self.now.index ≡ Some result.now }
        ensures header { record_file result.now ≡ file_type_at self.now.pool.now self.now.index }
    {
        &self.stored().record
    }

    /// The imported files, in the order of the imports; none is left out.
    pub fn dependencies(&self) -> Files<'p>
        ensures files { files_left result ≡ places_in self.now.pool.now
            (imported (place_named self.now.pool.now)
            (file_type_at self.now.pool.now self.now.index)) }
        ensures names { map (λ f. (file_in f).name) (files_left result)
            ≡ (file_type_at self.now.pool.now self.now.index).imports }
    {
        Files {
            pool: self.pool,
            places: self.pool.imports_of(self.index),
        }
    }

    /// The publicly imported files, in the order in which they are named; none is left out.
    pub fn public_dependencies(&self) -> Files<'p>
        ensures files { files_left result ≡ places_in self.now.pool.now
            (imported_publicly (place_named self.now.pool.now)
            (file_type_at self.now.pool.now self.now.index)) }
        ensures names { map (λ f. (file_in f).name) (files_left result)
            ≡ map (import_name (file_type_at self.now.pool.now self.now.index).imports)
            (file_type_at self.now.pool.now self.now.index).public_imports }
    {
        Files {
            pool: self.pool,
            places: self.pool.public_imports_of(self.index),
        }
    }

    /// The message types that stand in no message, as they were declared.
    pub fn messages(&self) -> Messages<'p>
        ensures { messages_left result ≡ places_in self.now.pool.now
            (declared_at self.now.pool.now self.now.index).children.messages }
    {
        Messages {
            pool: self.pool,
            places: self
                .pool
                .declared_in(self.index)
                .children
                .messages
                .as_slice(),
        }
    }

    /// The enum types that stand in no message, as they were declared.
    pub fn enums(&self) -> Enums<'p>
        ensures { enums_left result ≡ places_in self.now.pool.now
            (declared_at self.now.pool.now self.now.index).children.enums }
    {
        Enums {
            pool: self.pool,
            places: self.pool.declared_in(self.index).children.enums.as_slice(),
        }
    }

    /// The extensions that stand in no message, as they were declared.
    pub fn extensions(&self) -> Extensions<'p>
        ensures { extensions_left result ≡ places_in self.now.pool.now
            (declared_at self.now.pool.now self.now.index).children.extensions }
    {
        Extensions {
            pool: self.pool,
            places: self
                .pool
                .declared_in(self.index)
                .children
                .extensions
                .as_slice(),
        }
    }

    /// The services, as they were declared.
    pub fn services(&self) -> Services<'p>
        ensures { services_left result ≡ places_in self.now.pool.now
            (declared_at self.now.pool.now self.now.index).services }
    {
        Services {
            pool: self.pool,
            places: self.pool.declared_in(self.index).services.as_slice(),
        }
    }
}

fn text(text: &Option<String>) -> &str
    ensures { result.now ≡ text_of text.now }
{
    match text {
        Some(text) => text.as_str(),
        None => "",
    }
}

/// Files, by their places.
#[derive(Drop)]
pub struct Files<'p> {
    pool: &'p DescriptorPool,
    places: &'p [FileIndex],
    ghost inside: { All (λ place. place < length pool.now.files)
        places.now } by { Prim.hlevel props },
}

impl<'p> Iterator for Files<'p> {
    ghost use Rattle.std.specs.Iterator.{YieldsFirstBy, item_count};
    ghost use Rattle.reflect_link.specs.FilesLeft.{file_place};
    ghost use Rattle.reflect_link.specs.ListsLeft.{files_left};

    type Item = FileDescriptor<'p>;

    ghost next_gives = { YieldsFirstBy file_place files_left };

    ghost remaining = { item_count files_left };

    fn next(&mut self) -> Option<FileDescriptor<'p>> {
        let (place, others) = self.places.split_first()?;
        self.places = others;
        file_at(self.pool, *place)
    }

    fn size_hint(&self) -> (usize, Option<usize>) {
        let left = self.len();
        (left, Some(left))
    }
}

impl<'p> ExactSizeIterator for Files<'p> {
    fn len(&self) -> usize {
        self.places.len()
    }
}

/// The file at a place, if there is one.
pub fn file_at<'p>(pool: &'p DescriptorPool, index: FileIndex) -> Option<FileDescriptor<'p>>
    ensures pool { IfSome result (λ f. f.pool.now ≡ pool.now) }
    ensures index { IfSome result (λ f. f.index ≡ index) }
    ensures there { index < length pool.now.files → IsSome result }
{
    if (index as usize) < pool.tables().files.len() {
        Some(FileDescriptor { pool, index })
    } else {
        None
    }
}
