//! What each pool has by its type.

ghost use Rattle.linked_view.specs.Pools.{IsPool};

use reflect_pool::DescriptorPool;

/// A pool's files are those of its records, and what they import is there. A full name stands for
/// an entry exactly where the entry has it. What entries name is there, no two messages have one
/// name, no two extensions of a message one number, and the numbers of enum values are numbers of
/// 32 bits.
///
/// Nothing is done: whoever calls this has then said of a pool what its type keeps of each, which
/// no reader of a pool says as a whole.
pub fn pools_are_whole(pool: &DescriptorPool)
    ensures { IsPool pool.now }
{}
