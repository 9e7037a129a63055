//! The grammar and the rules at work, each the contract of a function that does nothing: what
//! sources come to, by their texts, as the language specification has it.
//!
//! What a text spells is defined by rules that read one token after another, as the code does.
//! These sources pin, apart from that, what they read.

ghost use Rattle.descriptor_records.specs.FieldNumbers.{type_number};
ghost use Rattle.descriptor_records.specs.declared.field.FieldType.TheVariants as types;
ghost use Rattle.protox_declaration_records.specs.EnumRecords.{enum_range_of};
ghost use Rattle.protox_declaration_records.specs.OptionRecords.{with_int};
ghost use Rattle.protox_declaration_records.specs.ServiceRecords.{method_of};
ghost use Rattle.protox_field_records.specs.FieldRecords.{default_text, entry_name_of};
ghost use Rattle.protox_field_records.specs.Places.{place_of};
ghost use Rattle.protox_file.specs.Sources.{RefusedBy, Spells};
ghost use Rattle.protox_laws.specs.WorkedFaults.{of_defaults, of_fields, of_numbers, of_other_fields};
ghost use Rattle.protox_laws.specs.WorkedGaps.{gaps};
ghost use Rattle.protox_laws.specs.WorkedPlaces.{HasPlaces, placed};
ghost use Rattle.protox_laws.specs.WorkedRecords.{IsTyped, bare, entry_names, enum_ranges, field_types, four_imports, int_defaults, int_options, list_places, message_ranges, odd_bytes, odd_text, of_type, presences, scalar_numbers, taking_stream, told_of_stream};
ghost use Rattle.protox_laws.specs.WorkedSources.{at_fault, braces, in_option, messages, read, refused};
ghost use Rattle.protox_locate.specs.Gap.{comments_in};
ghost use Rattle.protox_message_records.specs.MessageRecords.{reserved_range_of, tells_presence};
ghost use Rattle.protox_parse.specs.Answers.{AreAtFault};
ghost use Rattle.protox_record.specs.FileRecords.{places_from};
ghost use Rattle.protox_tree.specs.FileTree.{File};
ghost use Rattle.protox_tree.specs.Nest.{Group, MapType};
ghost use Rattle.protox_tree.specs.Scalar.{scalar_of};
ghost use Rattle.protox_tree.specs.View.{strings_view};
ghost use Rattle.protox_tree.specs.declared.file.ImportKind.TheVariants as imports;
ghost use Rattle.protox_tree.specs.declared.ident.Ident.{Ident};
ghost use Rattle.protox_tree.specs.declared.ident.TypeName.{TypeName};
ghost use Rattle.protox_tree.specs.declared.option.OptionValue.TheVariants as values;
ghost use Rattle.protox_tree.specs.declared.text.Strings.{Strings};
ghost use Rattle.std.specs.List.{AllByRecursion};
ghost use Rattle.std.specs.Option.{option_map};
ghost use Rattle.std.specs.Prelude.{◌≡◌, pos, [], ◌∷◌, Some};

/// Worked sources spell these trees, and messages and braces in one another some, as deep as they
/// may nest.
pub fn worked_sources_are_read()
    ensures trees { AllByRecursion (λ e. Spells e.0 e.1) read }
    ensures levels { (tree : File) × Spells (messages 31) tree }
    ensures braces { (tree : File) × Spells (in_option (braces 100)) tree }
{}

/// Other ones spell none, and these are their first faults.
pub fn worked_sources_are_refused()
    ensures { AllByRecursion (λ e. RefusedBy e.0 e.1) refused }
{}

/// Others spell trees that break a rule, and these are all their faults: one source for each rule.
pub fn worked_sources_are_at_fault()
    ensures { AllByRecursion (λ e. AreAtFault e.0 e.1) at_fault }
{}

/// And others, with several faults and with what is just none on both sides of each bound, have
/// these, in the order in which they stand.
pub fn worked_sources_have_all_their_faults()
    ensures numbers { AllByRecursion (λ e. AreAtFault e.0 e.1) of_numbers }
    ensures fields { AllByRecursion (λ e. AreAtFault e.0 e.1) of_fields }
    ensures defaults { AllByRecursion (λ e. AreAtFault e.0 e.1) of_defaults }
    ensures others { AllByRecursion (λ e. AreAtFault e.0 e.1) of_other_fields }
{}

/// In worked sources each statement, and each part of one, stands there, at its path, and has these
/// comments.
pub fn worked_sources_have_their_places()
    ensures { AllByRecursion (λ e. HasPlaces e.0 e.1) placed }
{}

/// Worked parts of sources are in their records so: names of maps' entries, ranges of messages and of
/// enums, integers and bytes as defaults, integers as options, places in lists, labels and types of
/// fields, which have a oneof of their own, kinds of imports, and streams of methods.
pub fn worked_parts_of_records_are_as_written()
    ensures entries { AllByRecursion (λ e. entry_name_of e.0 ≡ e.1) entry_names }
    ensures ranges { AllByRecursion (λ e. reserved_range_of e.0 ≡ e.1) message_ranges }
    ensures values { AllByRecursion (λ e. enum_range_of e.0 ≡ e.1) enum_ranges }
    ensures defaults { AllByRecursion (λ e. default_text e.0 (values.Int e.1) ≡ e.2) int_defaults }
    ensures bytes { (s : Strings) → strings_view s ≡ odd_bytes
        → default_text (of_type types.Bytes) (values.String s) ≡ odd_text }
    ensures options { AllByRecursion (λ e. with_int e.0 bare ≡ e.1) int_options }
    ensures places { AllByRecursion (λ e. place_of e.0 ≡ e.1) list_places }
    ensures types { AllByRecursion (λ e. option_map type_number (scalar_of e.0) ≡ Some e.1)
        scalar_numbers }
    ensures fields { (g : Group) (m : MapType) → AllByRecursion IsTyped (field_types g m) }
    ensures presences { AllByRecursion (λ e. tells_presence e.0 e.1 ≡ e.2) presences }
    ensures public { (a b c d : Strings)
        → places_from imports.Public 0 (four_imports a b c d) ≡ pos 1 ∷ pos 3 ∷ [] }
    ensures weak { (a b c d : Strings)
        → places_from imports.Weak 0 (four_imports a b c d) ≡ pos 2 ∷ [] }
    ensures methods { (name : Ident) (input output : TypeName)
        → method_of (taking_stream name input output) ≡ told_of_stream name input output }
{}

/// Worked gaps between tokens have these comments: the one of the statement in front, those that
/// stand apart, and the one of what follows.
pub fn worked_gaps_have_their_comments()
    ensures { AllByRecursion (λ g. comments_in g.text g.may_trail g.behind ≡ g.notes) gaps }
{}
