ghost use Rattle.std.specs.Prelude.{◌≡◌, ◌++◌, IfOk};

use std::alloc::{AllocError, Global};

/// The path that goes along `a` and then along `b`. Refused only for want of memory.
pub fn join_path(alloc: Global, a: &[i32], b: &[i32]) -> Result<Vec<i32>, AllocError>
    ensures { IfOk result (λ path. path.items ≡ a.now ++ b.now) }
{
    let mut path = Vec::with_capacity(alloc, a.len().saturating_add(b.len()))?;
    path.extend_from_slice(a)?;
    path.extend_from_slice(b)?;
    Ok(path)
}
