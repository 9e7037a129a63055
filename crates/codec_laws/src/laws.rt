//! Laws of files and sets, and of the bytes that are written of them, each the contract of a
//! function that does nothing.
ghost use Rattle.std.specs.Prelude.{◌≡◌, ◌<◌, ◌^◌, ℕ, List, length};
ghost use Rattle.descriptor_records.specs.Content.{set_view};
ghost use Rattle.descriptor_records.specs.declared.file.FileDescriptorProto.{FileDescriptorProto};
ghost use Rattle.descriptor_records.specs.declared.file.FileDescriptorSet.{FileDescriptorSet};
ghost use Rattle.reflect_codec.specs.Meaning.{IsFileBytes, IsSetBytes};
ghost use Rattle.reflect_codec.specs.Written.{file_bytes, set_bytes};
ghost use Rattle.codec_laws.specs.Plain.{IsPlainFile, IsPlainSet};

/// The bytes that are written of a plain file mean this file, if they are no more than a length can
/// say.
pub fn written_files_are_read()
    ensures { (f : FileDescriptorProto) → IsPlainFile 100 f → length (file_bytes f) < 2 ^ 64
        → IsFileBytes (file_bytes f) f }
{}

/// A file that bytes mean is plain.
pub fn read_files_are_plain()
    ensures { (bytes : List ℕ) (f : FileDescriptorProto) → IsFileBytes bytes f → IsPlainFile 100 f }
{}

/// The bytes that are written of a set of plain files mean this set.
pub fn written_sets_are_read()
    ensures { (s : FileDescriptorSet) → IsPlainSet s → length (set_bytes s) < 2 ^ 64
        → IsSetBytes (set_bytes s) s }
{}

/// The files of a set that bytes mean are plain.
pub fn read_sets_are_plain()
    ensures { (bytes : List ℕ) (s : FileDescriptorSet) → IsSetBytes bytes s → IsPlainSet s }
{}

/// What bytes that are written of such a set mean has its content, and nothing else.
pub fn written_sets_are_read_as_they_were()
    ensures { (s t : FileDescriptorSet) → IsPlainSet s → length (set_bytes s) < 2 ^ 64
        → IsSetBytes (set_bytes s) t → set_view t ≡ set_view s }
{}
