//! Laws of files and their bytes, each the contract of a function that does nothing.
ghost use Rattle.std.specs.Prelude.{◌≡◌, ℕ, List};
ghost use Rattle.descriptor_records.specs.declared.file.FileDescriptorProto.{FileDescriptorProto};
ghost use Rattle.descriptor_records.specs.declared.file.FileDescriptorSet.{FileDescriptorSet};
ghost use Rattle.descriptor_records.specs.Content.{file_view};
ghost use Rattle.reflect_wire.specs.declared.wire_error.WireError.{WireError};
ghost use Rattle.reflect_codec.specs.Faults.{FileBytesFault, SetBytesFault};
ghost use Rattle.reflect_codec.specs.Meaning.{IsFileBytes, IsSetBytes};

/// Bytes mean one file at most, but for where it lies in memory.
pub fn bytes_mean_one_file()
    ensures { (bytes : List ℕ) (f g : FileDescriptorProto) → IsFileBytes bytes f
        → IsFileBytes bytes g → file_view f ≡ file_view g }
{}

/// What is told of bytes that are refused is not so of any that mean a file, or a set.
pub fn told_faults_are_true()
    ensures file { (bytes : List ℕ) (e : WireError) (f : FileDescriptorProto)
        → FileBytesFault bytes e → IsFileBytes bytes f → ⊥ }
    ensures set { (bytes : List ℕ) (e : WireError) (s : FileDescriptorSet)
        → SetBytesFault bytes e → IsSetBytes bytes s → ⊥ }
{}
