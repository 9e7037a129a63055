//! Laws of records that stay plain where their files are linked, each the contract of a function
//! that does nothing.
ghost use Rattle.std.specs.Prelude.{List, map};
ghost use Rattle.descriptor_records.specs.Content.{file_view};
ghost use Rattle.descriptor_records.specs.declared.file.FileDescriptorProto.{FileDescriptorProto};
ghost use Rattle.option_parts.specs.TypedOptions.{TypedFiles};
ghost use Rattle.plain_records.specs.PlainRecords.{ArePlainFiles};
ghost use Rattle.plain_records.specs.SaidOptions.{SaysOrWaits};
ghost use Rattle.plain_records.specs.SourceOptions.{AreGiven, AreOfSource};
ghost use Rattle.reflect_build.specs.Accepted.{FaultlessFiles};
ghost use Rattle.reflect_tables.specs.Types.{PoolType};

/// The options that linking reads, copied from what a source wrote, leave records plain.
pub fn typed_records_are_plain()
    ensures { (files typed : List FileDescriptorProto)
        → ArePlainFiles SaysOrWaits (map file_view files) → TypedFiles files typed
        → ArePlainFiles SaysOrWaits (map file_view typed) }
{}

/// Options that a source wrote are given to linking as they are, with those that it reads copied.
pub fn options_of_sources_are_given()
    ensures { (files typed : List FileDescriptorProto)
        → ArePlainFiles AreOfSource (map file_view files) → TypedFiles files typed
        → ArePlainFiles AreGiven (map file_view typed) }
{}

/// The records of a pool stay plain where files with plain records are linked into it.
pub fn linked_records_are_plain()
    ensures { (old new : PoolType) (files : List FileDescriptorProto)
        → ArePlainFiles SaysOrWaits (map file_view old.records)
        → ArePlainFiles SaysOrWaits (map file_view files)
        → FaultlessFiles old files new
        → ArePlainFiles SaysOrWaits (map file_view new.records) }
{}
