ghost use Rattle.std.specs.Prelude.{◌≡◌, [], IfOk};

use mk_base::{Items, Memory};
use std::alloc::Global;

/// An empty list with room for so many items.
pub(crate) fn room_for<T>(alloc: Global, count: usize) -> Result<Items<T>, Memory>
    ensures { IfOk result (λ list. list ≡ []) }
{
    Ok(Items::from_vec(Vec::with_capacity(alloc, count)?))
}
