ghost use Rattle.std.specs.Prelude.{◌≡◌, map, IfOk};
ghost use Rattle.reflect_tables.specs.Views.{file_of, record_file, record_of, declared_of, places_of};

use descriptor_records::FileDescriptorProto;
use reflect_tables::{
    Declared, StoredEnum, StoredExtension, StoredFile, StoredMessage, StoredService, Tables,
};
use reflect_walk::VisitError;
use std::alloc::Global;

/// The entries of new files, which have no place in a pool yet.
#[derive(Drop)]
pub struct Batch {
    pub files: Vec<Declared>,
    pub messages: Vec<StoredMessage>,
    pub enums: Vec<StoredEnum>,
    pub extensions: Vec<StoredExtension>,
    pub services: Vec<StoredService>,
}

impl Batch {
    /// The entries with the records of their files, of which there is one for each file.
    pub fn with_records(
        self,
        alloc: Global,
        records: Vec<FileDescriptorProto>,
    ) -> Result<Tables, VisitError>
        ensures files { IfOk result (λ t. map file_of t.files.items
            ≡ map record_file records.items) }
        ensures records { IfOk result (λ t. map record_of t.files.items ≡ records.items) }
        ensures declared { IfOk result
            (λ t. map places_of t.files.items ≡ map declared_of self.files.items) }
        ensures messages { IfOk result (λ t. t.messages.items ≡ self.messages.items) }
        ensures enums { IfOk result (λ t. t.enums.items ≡ self.enums.items) }
        ensures extensions { IfOk result (λ t. t.extensions.items ≡ self.extensions.items) }
        ensures services { IfOk result (λ t. t.services.items ≡ self.services.items) }
    {
        let Batch {
            files,
            messages,
            enums,
            extensions,
            services,
        } = self;
        Ok(Tables {
            files: stored_files(alloc, records, files)?,
            messages,
            enums,
            extensions,
            services,
        })
    }
}

/// The files with what they declare, which is listed of each of them.
fn stored_files(
    alloc: Global,
    records: Vec<FileDescriptorProto>,
    declared: Vec<Declared>,
) -> Result<Vec<StoredFile>, VisitError>
    ensures files { IfOk result (λ v. map file_of v.items ≡ map record_file records.items) }
    ensures records { IfOk result (λ v. map record_of v.items ≡ records.items) }
    ensures declared { IfOk result (λ v. map places_of v.items ≡ map declared_of declared.items) }
{
    if declared.len() != records.len() {
        return Err(VisitError::TooMany);
    }
    let mut stored = Vec::with_capacity(alloc, records.len())?;
    let mut rest = declared.into_iter();
    for record in records {
        let declared = rest.next().ok_or(VisitError::TooMany)?;
        stored.push(StoredFile { record, declared })?;
    }
    Ok(stored)
}
