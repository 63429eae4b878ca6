// Lists with room.
ghost use Rattle.std.specs.Prelude.{◌≡◌, ◌≤◌, [], vec_capacity, IfOk};

use crate::{Heap, Memory};

/// An empty list with room for so many.
pub fn room<T: Drop>(alloc: &Heap, count: usize) -> Result<Vec<T, Heap>, Memory>
    ensures items { IfOk result (λ room. room.items ≡ []) }
    ensures capacity { IfOk result (λ room. count ≤ vec_capacity room) }
{
    let room = Vec::with_capacity(alloc.clone()?, count)?;
    Ok(room)
}
