ghost use Rattle.std.specs.Prelude.{◌≡◌, OnOk, IfOk, length};
ghost use Rattle.reflect_declarations.specs.Declarations.{Runs};
ghost use Rattle.reflect_declarations.specs.Batches.{KeptBy, batch_declarations, past_files};

use crate::visit_error::VisitError;
use crate::visit_parts::visit;
use crate::visitor::Visitor;
use descriptor_records::FileDescriptorProto;
use reflect_declarations::Offsets;
use reflect_scope::FileIndex;
use std::alloc::Global;

/// Calls the visitor at each declaration of the files, the first of which has the index `first`, as
/// `visit` does of one file.
///
/// `before` counts what is declared in the files before them; the answer counts what they declare
/// too.
pub fn visit_all<V: Visitor>(
    alloc: Global,
    before: Offsets,
    first: FileIndex,
    files: &[FileDescriptorProto],
    visitor: &mut V,
) -> Result<Offsets, VisitError>
    ensures runs { OnOk result (Runs V.steps visitor.old (batch_declarations before first files.now)
        visitor.new) }
    ensures counts { IfOk result (λ o. o ≡ past_files before files.now) }
    ensures keeps { KeptBy V.kept first (length files.now) visitor.old visitor.new }
{
    let mut offsets = before;
    let mut index = first;
    'turns: for file in files {
        offsets = visit(alloc, offsets, index, file, visitor)?;
        index = index.checked_add(1).ok_or(VisitError::TooMany)?;
    }
    Ok(offsets)
}
