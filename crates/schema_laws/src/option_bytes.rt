//! Laws of the bytes that records store of options, each the contract of a function that does
//! nothing.
ghost use Rattle.std.specs.Prelude.{List, map};
ghost use Rattle.descriptor_records.specs.Content.{file_view};
ghost use Rattle.descriptor_records.specs.declared.file.FileDescriptorProto.{FileDescriptorProto};
ghost use Rattle.schema_laws.specs.StoredBytes.{SaysNothing, StoresBytes};
ghost use Rattle.plain_records.specs.PlainRecords.{ArePlainFiles, IsPlainFile};
ghost use Rattle.reflect_codec.specs.Fields.{records_field};
ghost use Rattle.reflect_codec.specs.Written.{file_bytes};
ghost use Rattle.reflect_wire.specs.Written.{AreBytes};

/// Where what a file's record is written in is bytes, so is what it stores of each of its options,
/// and of a set of files the same. That numbers and depths are those of plain records is given.
pub fn options_of_written_files_are_bytes()
    ensures one { (f : FileDescriptorProto) → IsPlainFile SaysNothing 99 (file_view f)
        → AreBytes (file_bytes f) → IsPlainFile StoresBytes 99 (file_view f) }
    ensures set { (fs : List FileDescriptorProto) → ArePlainFiles SaysNothing (map file_view fs)
        → AreBytes (records_field file_bytes 1 fs) → ArePlainFiles StoresBytes (map file_view fs) }
{}
