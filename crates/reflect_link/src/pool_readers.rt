ghost use Rattle.std.specs.Prelude.{◌≡◌, length, IfSome};
ghost use Rattle.reflect_tables.specs.Types.{PoolType};
ghost use Rattle.reflect_link.specs.FindsDeclared.{FindsFile, FindsService};

use crate::file::{FileDescriptor, file_at};
use crate::service::{ServiceDescriptor, service_in};
use descriptor_records::FileDescriptorProto;
use reflect_pool::{DescriptorPool, EnumDescriptor, ExtensionDescriptor, MessageDescriptor};
use reflect_scope::{EnumIndex, ExtensionIndex, MessageIndex, ServiceIndex};
use reflect_tables::StoredFile;

/// Further readers of a pool.
pub trait PoolReaders {
    ghost use Rattle.reflect_link.specs.FilesLeft.{files_left, records_left};
    ghost use Rattle.reflect_link.specs.TypesLeft.{messages_left, enums_left, extensions_left, services_left};
    ghost use Rattle.reflect_pool.specs.PlacesLeft.{places_from};

    /// What the pool holds.
    ghost holds: { Self → PoolType };

    /// The files, in the order in which they were added.
    fn files(&self) -> AllFiles<'_>
        ensures { files_left result
            ≡ places_from (holds self.now) 0 (length (holds self.now).files) };

    /// The records of the files, with full names in place of references.
    fn file_descriptor_protos(&self) -> FileRecords<'_>
        ensures { records_left result ≡ (holds self.now).records };

    /// All message types, of each file with those that stand in others, each before what stands in
    /// it.
    fn all_messages(&self) -> AllMessages<'_>
        ensures { messages_left result
            ≡ places_from (holds self.now) 0 (length (holds self.now).messages) };

    /// All enum types, of each file.
    fn all_enums(&self) -> AllEnums<'_>
        ensures { enums_left result
            ≡ places_from (holds self.now) 0 (length (holds self.now).enums) };

    /// All extensions, of each file.
    fn all_extensions(&self) -> AllExtensions<'_>
        ensures { extensions_left result
            ≡ places_from (holds self.now) 0 (length (holds self.now).extensions) };

    /// All services, of each file.
    fn services(&self) -> AllServices<'_>
        ensures { services_left result
            ≡ places_from (holds self.now) 0 (length (holds self.now).services) };

    /// The file of a name.
    fn get_file_by_name(&self, name: &str) -> Option<FileDescriptor<'_>>
        ensures pool { IfSome result (λ d. d.pool.now ≡ holds self.now) }
        ensures finds { FindsFile (holds self.now) name.now result };

    /// The service of a full name, which may have one leading dot.
    fn get_service_by_name(&self, name: &str) -> Option<ServiceDescriptor<'_>>
        ensures pool { IfSome result (λ d. d.pool.now ≡ holds self.now) }
        ensures finds { FindsService (holds self.now) name.now result };
}

impl PoolReaders for DescriptorPool {
    ghost holds = { λ p. p };

    fn files(&self) -> AllFiles<'_> {
        AllFiles {
            pool: self,
            next: 0,
            end: self.mark(),
        }
    }

    fn file_descriptor_protos(&self) -> FileRecords<'_> {
        FileRecords {
            rest: self.tables().files.as_slice(),
        }
    }

    fn all_messages(&self) -> AllMessages<'_> {
        AllMessages {
            pool: self,
            next: 0,
            end: self.counts().messages,
        }
    }

    fn all_enums(&self) -> AllEnums<'_> {
        AllEnums {
            pool: self,
            next: 0,
            end: self.counts().enums,
        }
    }

    fn all_extensions(&self) -> AllExtensions<'_> {
        AllExtensions {
            pool: self,
            next: 0,
            end: self.counts().extensions,
        }
    }

    fn services(&self) -> AllServices<'_> {
        AllServices {
            pool: self,
            next: 0,
            end: self.counts().services,
        }
    }

    fn get_file_by_name(&self, name: &str) -> Option<FileDescriptor<'_>> {
        file_at(self, self.file_place(name)?)
    }

    fn get_service_by_name(&self, name: &str) -> Option<ServiceDescriptor<'_>> {
        service_in(self, self.service_place(name)?)
    }
}

/// The files of a pool, by their places.
#[derive(Drop)]
pub struct AllFiles<'p> {
    pool: &'p DescriptorPool,
    next: u32,
    end: u32,
    ghost whole: { end ≡ length pool.now.files },
}

impl<'p> Iterator for AllFiles<'p> {
    ghost use Rattle.std.specs.Iterator.{YieldsFirstBy, item_count};
    ghost use Rattle.reflect_link.specs.FilesLeft.{file_place, files_left};

    type Item = FileDescriptor<'p>;

    ghost next_gives = { YieldsFirstBy file_place files_left };

    ghost remaining = { item_count files_left };

    fn next(&mut self) -> Option<FileDescriptor<'p>> {
        if self.next < self.end {
            let place = self.next;
            self.next += 1;
            file_at(self.pool, place)
        } else {
            None
        }
    }

    fn size_hint(&self) -> (usize, Option<usize>) {
        let left = self.len();
        (left, Some(left))
    }
}

impl<'p> ExactSizeIterator for AllFiles<'p> {
    fn len(&self) -> usize {
        self.end.saturating_sub(self.next) as usize
    }
}

/// The message types of a pool, by their places.
#[derive(Drop)]
pub struct AllMessages<'p> {
    pool: &'p DescriptorPool,
    next: MessageIndex,
    end: MessageIndex,
    ghost whole: { end ≡ length pool.now.messages },
}

impl<'p> Iterator for AllMessages<'p> {
    ghost use Rattle.std.specs.Iterator.{YieldsFirstBy, item_count};
    ghost use Rattle.reflect_link.specs.TypesLeft.{message_place, messages_left};

    type Item = MessageDescriptor<'p>;

    ghost next_gives = { YieldsFirstBy message_place messages_left };

    ghost remaining = { item_count messages_left };

    fn next(&mut self) -> Option<MessageDescriptor<'p>> {
        if self.next < self.end {
            let place = self.next;
            self.next += 1;
            self.pool.message_at(place)
        } else {
            None
        }
    }

    fn size_hint(&self) -> (usize, Option<usize>) {
        let left = self.len();
        (left, Some(left))
    }
}

impl<'p> ExactSizeIterator for AllMessages<'p> {
    fn len(&self) -> usize {
        self.end.saturating_sub(self.next) as usize
    }
}

/// The enum types of a pool, by their places.
#[derive(Drop)]
pub struct AllEnums<'p> {
    pool: &'p DescriptorPool,
    next: EnumIndex,
    end: EnumIndex,
    ghost whole: { end ≡ length pool.now.enums },
}

impl<'p> Iterator for AllEnums<'p> {
    ghost use Rattle.std.specs.Iterator.{YieldsFirstBy, item_count};
    ghost use Rattle.reflect_link.specs.TypesLeft.{enum_place, enums_left};

    type Item = EnumDescriptor<'p>;

    ghost next_gives = { YieldsFirstBy enum_place enums_left };

    ghost remaining = { item_count enums_left };

    fn next(&mut self) -> Option<EnumDescriptor<'p>> {
        if self.next < self.end {
            let place = self.next;
            self.next += 1;
            self.pool.enum_at(place)
        } else {
            None
        }
    }

    fn size_hint(&self) -> (usize, Option<usize>) {
        let left = self.len();
        (left, Some(left))
    }
}

impl<'p> ExactSizeIterator for AllEnums<'p> {
    fn len(&self) -> usize {
        self.end.saturating_sub(self.next) as usize
    }
}

/// The extensions of a pool, by their places.
#[derive(Drop)]
pub struct AllExtensions<'p> {
    pool: &'p DescriptorPool,
    next: ExtensionIndex,
    end: ExtensionIndex,
    ghost whole: { end ≡ length pool.now.extensions },
}

impl<'p> Iterator for AllExtensions<'p> {
    ghost use Rattle.std.specs.Iterator.{YieldsFirstBy, item_count};
    ghost use Rattle.reflect_link.specs.TypesLeft.{extensions_left};
    ghost use Rattle.reflect_pool.specs.ExtensionsLeft.{extension_place};

    type Item = ExtensionDescriptor<'p>;

    ghost next_gives = { YieldsFirstBy extension_place extensions_left };

    ghost remaining = { item_count extensions_left };

    fn next(&mut self) -> Option<ExtensionDescriptor<'p>> {
        if self.next < self.end {
            let place = self.next;
            self.next += 1;
            self.pool.extension_at(place)
        } else {
            None
        }
    }

    fn size_hint(&self) -> (usize, Option<usize>) {
        let left = self.len();
        (left, Some(left))
    }
}

impl<'p> ExactSizeIterator for AllExtensions<'p> {
    fn len(&self) -> usize {
        self.end.saturating_sub(self.next) as usize
    }
}

/// The services of a pool, by their places.
#[derive(Drop)]
pub struct AllServices<'p> {
    pool: &'p DescriptorPool,
    next: ServiceIndex,
    end: ServiceIndex,
    ghost whole: { end ≡ length pool.now.services },
}

impl<'p> Iterator for AllServices<'p> {
    ghost use Rattle.std.specs.Iterator.{YieldsFirstBy, item_count};
    ghost use Rattle.reflect_link.specs.TypesLeft.{service_place, services_left};

    type Item = ServiceDescriptor<'p>;

    ghost next_gives = { YieldsFirstBy service_place services_left };

    ghost remaining = { item_count services_left };

    fn next(&mut self) -> Option<ServiceDescriptor<'p>> {
        if self.next < self.end {
            let place = self.next;
            self.next += 1;
            service_in(self.pool, place)
        } else {
            None
        }
    }

    fn size_hint(&self) -> (usize, Option<usize>) {
        let left = self.len();
        (left, Some(left))
    }
}

impl<'p> ExactSizeIterator for AllServices<'p> {
    fn len(&self) -> usize {
        self.end.saturating_sub(self.next) as usize
    }
}

/// The records of a pool's files.
#[derive(Drop)]
pub struct FileRecords<'p> {
    rest: &'p [StoredFile],
}

impl<'p> Iterator for FileRecords<'p> {
    ghost use Rattle.std.specs.Iterator.{YieldsFirstBy, item_count};
    ghost use Rattle.reflect_link.specs.FilesLeft.{records_left};

    type Item = &'p FileDescriptorProto;

    ghost next_gives = { YieldsFirstBy (λ r. r.now) records_left };

    ghost remaining = { item_count records_left };

    fn next(&mut self) -> Option<&'p FileDescriptorProto> {
        let (file, others) = self.rest.split_first()?;
        self.rest = others;
        Some(&file.record)
    }

    fn size_hint(&self) -> (usize, Option<usize>) {
        let left = self.len();
        (left, Some(left))
    }
}

impl<'p> ExactSizeIterator for FileRecords<'p> {
    fn len(&self) -> usize {
        self.rest.len()
    }
}
