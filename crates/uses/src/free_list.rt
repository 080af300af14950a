//! A free list of objects that are not in use. The object that was given back last is taken first.
//!
//! ```text
//! free_list::give_back(&mut free, &mut links, object)?;
//! let object = free_list::take(&mut free, &mut links); // that object
//! ```

ghost use Rattle.std.specs.Prelude.{◌≡◌, ◌∷◌, [], List, drop, Option, Some, OnOk, OnErr, IfOk, IfErr, IfSome, IfNone};
ghost use Rattle.ic_link_ops.specs.Prelude.{Place, first, IsDisjoint, IsCovered, ChangesOnlyIn, acquires, releases};
ghost use Rattle.ic_link_ops.specs.SinglyLinkedList.{Front, Represents, RepresentsSome};

use ic_link_ops::singly_linked_list::SinglyLinkedListOps;
use ic_link_ops::{AlreadyLinked, LinkOps};
use ic_singly_linked_list::SinglyLinkedList;
use ic_unsafe_ref::{Place, UnsafeRef};

/// Gives an object back to the list, so that it is the next object to be taken, unless its link is refused. O(1), and it takes no memory.
///
/// It requires that the table covers the object's place, and that the table represents a sequence for the list. If the link is refused, the caller
/// gets the object back, and the list has not changed. No other list of the table changes.
#[inline]
pub fn give_back<T, L: SinglyLinkedListOps>(
    free: &mut SinglyLinkedList<T>,
    links: &mut L,
    object: UnsafeRef<T>,
) -> Result<(), AlreadyLinked<T>>
    requires covered { IsCovered (L.table links.old) object }
    requires shown { RepresentsSome L.successor (L.table links.old) free.old }
    ensures given { (s : List Place) → Represents L.successor (L.table links.old) free.old s
        → OnOk result (Represents L.successor (L.table links.new) free.new (object ∷ s)) }
    ensures acquired { OnOk result (L.Trace links.old links.new (acquires object ∷ [])) }
    ensures refused { OnErr result (L.Refused links.old links.new object) }
    ensures unchanged { IfErr result (λ refused. (refused.0 ≡ object) × (free.new ≡ free.old)) }
    ensures others { (s t : List Place) (other : Front) → Represents L.successor (L.table links.old) free.old s
        → Represents L.successor (L.table links.old) other t → IsDisjoint t (object ∷ s) → Represents L.successor (L.table links.new) other t }
    ensures frame { (s : List Place) → Represents L.successor (L.table links.old) free.old s
        → ChangesOnlyIn (L.table links.old) (L.table links.new) (object ∷ s) }
{
    free.push_front(links, object)
}

/// Removes and returns the object that was given back last, or returns `None` if the list is empty. O(1), and it takes no memory.
///
/// It requires that the table represents a sequence for the list. If the list is empty, nothing has changed. No other list of the table changes.
#[inline]
pub fn take<T, L: SinglyLinkedListOps>(
    free: &mut SinglyLinkedList<T>,
    links: &mut L,
) -> Option<UnsafeRef<T>>
    requires shown { RepresentsSome L.successor (L.table links.old) free.old }
    ensures latest { (s : List Place) → Represents L.successor (L.table links.old) free.old s → result ≡ first s }
    ensures taken { (s : List Place) → Represents L.successor (L.table links.old) free.old s
        → Represents L.successor (L.table links.new) free.new (drop 1 s) }
    ensures released { IfSome result (λ object. L.Trace links.old links.new (releases object ∷ [])) }
    ensures empty { IfNone result ((free.new ≡ free.old) × (links.new ≡ links.old)) }
    ensures others { (s t : List Place) (other : Front) → Represents L.successor (L.table links.old) free.old s
        → Represents L.successor (L.table links.old) other t → IsDisjoint t s → Represents L.successor (L.table links.new) other t }
    ensures frame { (s : List Place) → Represents L.successor (L.table links.old) free.old s
        → ChangesOnlyIn (L.table links.old) (L.table links.new) s }
{
    free.pop_front(links)
}

/// Gives an object back and immediately takes an object. Unless the link is refused, it takes the object that it gave back, and the list has not
/// changed. O(1).
///
/// It requires what [`give_back`] requires. If the link is refused, the caller gets the object back.
pub fn give_and_take<T, L: SinglyLinkedListOps>(
    free: &mut SinglyLinkedList<T>,
    links: &mut L,
    object: UnsafeRef<T>,
) -> Result<Option<UnsafeRef<T>>, AlreadyLinked<T>>
    requires covered { IsCovered (L.table links.old) object }
    requires shown { RepresentsSome L.successor (L.table links.old) free.old }
    ensures same { IfOk result (λ taken. taken ≡ Some object) }
    ensures sequence { (s : List Place) → Represents L.successor (L.table links.old) free.old s
        → OnOk result (Represents L.successor (L.table links.new) free.new s) }
    ensures steps { OnOk result (L.Trace links.old links.new (acquires object ∷ releases object ∷ [])) }
    ensures refused { OnErr result (L.Refused links.old links.new object) }
    ensures unchanged { IfErr result (λ refused. (refused.0 ≡ object) × (free.new ≡ free.old)) }
    ensures frame { (s : List Place) → Represents L.successor (L.table links.old) free.old s
        → ChangesOnlyIn (L.table links.old) (L.table links.new) (object ∷ s) }
{
    give_back(free, links, object)?;
    Ok(take(free, links))
}
