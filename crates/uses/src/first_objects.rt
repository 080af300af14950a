//! A first example, which places two values, links them into a list, walks over the list, and removes its first member.
//!
//! ```text
//! let (seen, taken, left) = first_objects(rt.alloc(), 10, 20)?; // [10, 20], 10, Some(20)
//! ```

ghost use Rattle.std.specs.Prelude.{◌≡◌, ◌↔◌, ◌∷◌, [], true, Some, IfOk};
ghost use Rattle.uses.specs.declared.first_objects.ObjectsError.TheVariants.{OutOfMemory, NoPlaceLeft};

use ic_link_ops::linked_list::LinkOps;
use ic_linked_list::LinkedList;
use ic_pool::{PlaceError, Pool};
use std::alloc::{AllocError, Allocator};
use thiserror::Error;

/// The reason why the example failed.
#[derive(Clone, Copy, PartialEq, Eq, Debug, Error)]
pub enum ObjectsError {
    /// There was not enough memory for the object, for its link or for the values that were read.
    #[error("OutOfMemory")]
    OutOfMemory,
    /// All places are in use.
    #[error("NoPlaceLeft")]
    NoPlaceLeft,
}

impl From<AllocError> for ObjectsError {
    ghost from_gives = { λ _ e. e ≡ OutOfMemory };

    fn from(_: AllocError) -> ObjectsError {
        ObjectsError::OutOfMemory
    }
}

impl<T: Drop> From<PlaceError<T>> for ObjectsError {
    ghost use Rattle.ic_pool.specs.Refusals.{lacks_place};

    ghost from_gives = { λ refused e. (lacks_place refused ≡ true) ↔ (e ≡ NoPlaceLeft) };

    fn from(refused: PlaceError<T>) -> ObjectsError {
        match refused {
            PlaceError::NoPlaceLeft(_) => ObjectsError::NoPlaceLeft,
            PlaceError::OutOfMemory(_) => ObjectsError::OutOfMemory,
        }
    }
}

/// Places two values and links them into a list. It returns the values that a walk over the list returns, the value that it then removes from the
/// front, and the value that is first afterwards.
///
/// It makes the objects, the table and the list, and drops them when it returns. If memory runs out or all places are in use, it returns the error,
/// and nothing that it made remains. No link is refused. O(1).
#[tactic(auto, using(ic_linked_list::proofs::ListedValues::has_placed))]
pub fn first_objects<A: Allocator + Copy>(
    alloc: A,
    first: u64,
    second: u64,
) -> Result<(Vec<u64, A>, u64, Option<u64>), ObjectsError>
    ensures seen { IfOk result (λ found. found.0.items ≡ first ∷ second ∷ []) }
    ensures taken { IfOk result (λ found. found.1 ≡ first) }
    ensures left { IfOk result (λ found. found.2 ≡ Some second) }
{
    let mut pool = Pool::new(alloc, LinkOps::new(alloc));
    let mut list = LinkedList::new();
    for value in [first, second] {
        let object = pool.place(value)?; // with room for its link
        list.push_back(&mut pool.links, object).unwrap(); // proved: a new object is not linked
    }
    let seen = list
        .iter(&pool.links, &pool.objects)
        .copied()
        .collect(alloc)?;
    let oldest = list.pop_front(&mut pool.links).unwrap(); // proved: there is one
    let taken = pool.remove(oldest);
    let left = list.front(&pool.links).get(&pool.objects).copied();
    Ok((seen, taken, left))
}
