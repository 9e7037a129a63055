//! The laws of known names, each the contract of a function that does nothing.

ghost use Rattle.std.specs.Prelude.{◌≡◌, ℕ, List, map};
ghost use Rattle.descriptor_records.specs.declared.file.FileDescriptorProto.{FileDescriptorProto};
ghost use Rattle.reflect_scope.specs.Known.{Known};
ghost use Rattle.reflect_declarations.specs.Batches.{batch_declarations, past_files};
ghost use Rattle.reflect_declarations.specs.declared.offsets.Offsets.{Offsets};
ghost use Rattle.reflect_tables.specs.Names.{Sort, FullName};
ghost use Rattle.reflect_known.specs.DeclaredNames.{with_names};
ghost use Rattle.reflect_known.specs.GivenNames.{names_of_file};
ghost use Rattle.reflect_known.specs.KnownNames.{known_behind};

/// Files that give the same names make the same known, declare the same names of each sort, and as
/// much of it.
pub fn given_names_tell_what_is_known()
    ensures known { (known : Known) (before : Offsets) (first : ℕ)
        (files others : List FileDescriptorProto)
        → map names_of_file files ≡ map names_of_file others
        → known_behind known (batch_declarations before first files)
        ≡ known_behind known (batch_declarations before first others) }
    ensures names { (s : Sort) (names : List FullName) (before : Offsets) (first : ℕ)
        (files others : List FileDescriptorProto)
        → map names_of_file files ≡ map names_of_file others
        → with_names s names (batch_declarations before first files)
        ≡ with_names s names (batch_declarations before first others) }
    ensures counts { (before : Offsets) (files others : List FileDescriptorProto)
        → map names_of_file files ≡ map names_of_file others
        → past_files before files ≡ past_files before others }
{}
