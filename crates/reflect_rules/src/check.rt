ghost use Rattle.std.specs.Prelude.{IfOk, map};
ghost use Rattle.reflect_faults.specs.Faults.{fault_view};
ghost use Rattle.reflect_rules.specs.RulePass.{BatchFaults};

use crate::rule_visitor::RuleVisitor;
use crate::types::Types;
use crate::uses::UseVisitor;
use descriptor_records::FileDescriptorProto;
use reflect_faults::{DescriptorErrorKind, Faults};
use reflect_names::Reference;
use reflect_references::References;
use reflect_scope::FileIndex;
use reflect_walk::{Offsets, VisitError, visit_all};
use std::alloc::Global;

/// All that is wrong with the numbers, defaults, oneof indexes and map entries of the files.
///
/// `before` are the counts of what stands before the files, and `first` the index of the first of
/// them; `references` are what their references mean, in the order in which a walk meets them, and
/// `types` knows the types of the files and all older ones. `TooMany` and `Memory` end the walk
/// early.
pub fn check_rules<T: Types>(
    alloc: Global,
    before: Offsets,
    first: FileIndex,
    files: &[FileDescriptorProto],
    references: &[Reference],
    types: &T,
) -> Result<Vec<DescriptorErrorKind>, VisitError>
    ensures { IfOk result (λ found. BatchFaults (T.says types.now) (T.values types.now) before first
        files.now references.now (map fault_view found.items)) }
{
    let references = References::new(references);
    let mut visitor = UseVisitor::new(alloc, references, types);
    visit_all(alloc, before, first, files, &mut visitor)?;
    let uses = visitor.into_uses();
    let faults = Faults::new(alloc, files, first);
    let mut visitor = RuleVisitor::new(faults, references, types, &uses, before.messages);
    visit_all(alloc, before, first, files, &mut visitor)?;
    Ok(visitor.into_faults().into_list())
}
