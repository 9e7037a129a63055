//! Laws of where refusals stand, each the contract of a function that does nothing.
ghost use Rattle.std.specs.List.{AllByRecursion};
ghost use Rattle.std.specs.Prelude.{◌≡◌, List, Some};
ghost use Rattle.descriptor_records.specs.declared.file.FileDescriptorProto.{FileDescriptorProto};
ghost use Rattle.option_parts.specs.TypedOptions.{TypedFiles};
ghost use Rattle.reflect_build.specs.Refusals.{IsOf, Linking, new_files};
ghost use Rattle.reflect_faults.specs.Faults.{Place};
ghost use Rattle.reflect_passes.specs.Errors.{faults_of, first_place};
ghost use Rattle.reflect_passes.specs.declared.error.DescriptorError.{DescriptorError};
ghost use Rattle.reflect_tables.specs.Types.{PoolType};
ghost use Rattle.schema_core.specs.Refusals.{FilesRefused};
ghost use Rattle.schema_core.specs.declared.error.SchemaError.TheVariants.{Link};
ghost use Rattle.schema_laws.specs.PlacedFaults.{StandsIn};

/// Where files are refused for how they link, and the first of the faults stands anywhere, each of
/// them stands in one of the files that the schema has not yet: under its name, and with a line and
/// a column exactly where that file has a location for the fault's path, which are that location's.
/// The files are those of sources, with the locations that the parser gave, or those of a set.
pub fn faults_of_linking_stand_in_their_files()
    ensures { (p : PoolType) (files : List FileDescriptorProto) (e : DescriptorError) (q : Place)
        → FilesRefused p files (Link e) → first_place e ≡ Some q
        → (typed : List FileDescriptorProto) × (w : Linking) × TypedFiles files typed × IsOf p w
        × AllByRecursion (StandsIn (new_files w.indexes typed) w.first) (faults_of e) }
{}
