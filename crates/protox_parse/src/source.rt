//! From a source to its record.

ghost use Rattle.std.specs.Prelude.{◌≡◌, ◌⊎◌, ◌≤◌, ◌<◌, ◌^◌, ◌∷◌, [], Some, IfOk, IfErr, IsErrAnd, length, option_map, string_bytes};
ghost use Rattle.descriptor_records.specs.Content.{file_view};
ghost use Rattle.protox_check.specs.Faults as checks;
ghost use Rattle.protox_lex.specs.Lines.{feeds_of};
ghost use Rattle.protox_lex.specs.Resolver.{feeds};
ghost use Rattle.protox_parse.specs.Answers.{HasFaults, IsAnswered, IsRecordOf};
ghost use Rattle.protox_parse.specs.Refusals.{IsRefusalOf, faults_of};
ghost use Rattle.protox_tree.specs.FileView as trees;
ghost use Rattle.protox_tree.specs.declared.error.ParseErrorKind.TheVariants.{FileTooLarge};
ghost use Rattle.protox_parse.specs.declared.error.ParseError.TheVariants.{Memory};

use crate::error::{ParseError, Refusal};
use descriptor_records::FileDescriptorProto;
use protox_check::check_file;
use protox_file::tree;
use protox_lex::LineResolver;
use protox_locate::source_info;
use protox_record::file_record;
use protox_tokens::{Stop, one};
use protox_tree::{File, ParseErrorKind};
use std::alloc::Global;

/// The record of a source of proto2 or proto3, under this file name, with the places and the
/// comments of its declarations.
///
/// The grammar is that of the "Language Specification" of the two. A source that has it not is
/// refused with its first fault; one that has it and breaks other rules is refused with all its
/// faults, in source order. One of 2^31 bytes or more is refused as too large. A refusal names this
/// file, and tells where in this source its first fault begins.
#[tactic(auto, using(crate::proofs::Answered::spelled, crate::proofs::Answered::unspelled))]
pub fn parse(alloc: Global, name: &str, source: &str) -> Result<FileDescriptorProto, ParseError>
    ensures named { IfOk result (λ file. option_map string_bytes file.name ≡ Some name.now) }
    ensures refused { IfErr result (λ e. (e ≡ Memory) ⊎ IsRefusalOf name.now source.now e) }
    ensures too_large { 2 ^ 31 ≤ length source.now
        → IsErrAnd result (λ e. (e ≡ Memory) ⊎ (faults_of e ≡ FileTooLarge ∷ [])) }
    ensures answered { length source.now < 2 ^ 31 → IsAnswered name.now source.now result }
{
    if source.len() > i32::MAX as usize {
        let faults = one(alloc, ParseErrorKind::FileTooLarge)?;
        return Err(ParseError::Refused(Refusal::new(alloc, name, None, faults)?));
    }
    let lines = LineResolver::new(alloc, source)?;
    match tree(alloc, source) {
        Ok(file) => described(alloc, name, source, &lines, &file),
        Err(Stop::Memory) => Err(ParseError::Memory),
        Err(Stop::Refused(fault)) => {
            let kind = fault.to_kind(alloc)?;
            let faults = one(alloc, kind)?;
            Err(ParseError::Refused(Refusal::new(alloc, name, Some(&lines), faults)?))
        }
    }
}

/// The record of a tree, under this name, with the places that it has in this source, or the
/// refusal of a tree that has faults.
fn described(
    alloc: Global,
    name: &str,
    source: &str,
    lines: &LineResolver,
    file: &File,
) -> Result<FileDescriptorProto, ParseError>
    requires { feeds lines.now ≡ feeds_of source.now }
    ensures named { IfOk result (λ file. option_map string_bytes file.name ≡ Some name.now) }
    ensures refused { IfErr result (λ e. (e ≡ Memory) ⊎ IsRefusalOf name.now source.now e) }
    ensures recorded { IfOk result
        (λ made. IsRecordOf name.now source.now file.now (file_view made)) }
    ensures faultless { IfOk result (λ _. checks.faults_of (trees.file_view file.now) ≡ []) }
    ensures faulty { IfErr result (λ e. (e ≡ Memory)
        ⊎ HasFaults (trees.file_view file.now) (faults_of e)) }
{
    let faults = check_file(alloc, file)?;
    if !faults.is_empty() {
        return Err(ParseError::Refused(Refusal::new(alloc, name, Some(lines), faults)?));
    }
    let info = source_info(alloc, source, lines, file)?;
    let mut record = file_record(alloc, name, file)?;
    record.source_code_info = Some(info);
    Ok(record)
}
