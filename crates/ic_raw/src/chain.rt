//! The functions of this module walk along one chain of a hash table, in a view of the table. Each walk ends within as many steps as the table has
//! places.
//!
//! ```text
//! let before = place_before(&links, list.first(), member); // the place before the member, if the chain has it
//! ```

ghost use Rattle.std.specs.Prelude.{◌≡◌, ◌≢◌, ◌≤◌, ◌↔◌, ◌++◌, ◌∷◌, List, Option, Some, None, length, true};
ghost use Rattle.ic_link_ops.specs.Prelude.{Place, last, IsMember, IsLinked, list_from};
ghost use Rattle.ic_hash_table.specs.Searches.{Finds};
ghost use Rattle.ic_raw.specs.declared.status.TheConstants.{OK, NULL, BROKEN};
ghost use Rattle.ic_raw.specs.Answers.{HandsOut};
ghost use Rattle.ic_raw.specs.Gaps.{IsNoneOrLinked};
ghost use Rattle.ic_raw.specs.Hash.{has_key};
ghost use Rattle.ic_raw.specs.Singly.{LeadsFrom, Represents, lent_table, next_from};
ghost use Rattle.ic_raw.specs.Words.{is_linked_one, HasNumber};

use crate::number::number_of;
use crate::status::{BROKEN, NULL, OK};
use crate::table::RawTable;
use crate::words::RawOne;
use ic_link_ops::singly_linked_list::SinglyLinkedListOps;
use ic_unsafe_ref::Place;

// Returns the place before `member` in the chain that begins with `front`, or `Some(None)` if `member` is the first of the chain. The result is
// `None` if a walk from `front` does not come to `member`.
pub(crate) fn place_before(
    links: &RawTable<'_, RawOne>,
    front: Option<Place>,
    member: Place,
) -> Option<Option<Place>>
    ensures linked { (b : Option Place) → result ≡ Some b → IsLinked is_linked_one (lent_table links.now) member }
    ensures stands { (b : Option Place) → result ≡ Some b → IsNoneOrLinked is_linked_one (lent_table links.now) b }
    ensures first { (b : Option Place) → result ≡ Some b → (b ≡ None) ↔ (front ≡ Some member) }
    ensures leads { (b : Option Place) → result ≡ Some b → next_from (lent_table links.now) (list_from front) b ≡ Some member }
    ensures found { (ahead back : List Place) → Represents (lent_table links.now) (list_from front) (ahead ++ member ∷ back)
        → result ≡ Some (last ahead) }
    ensures member { (s : List Place) (b : Option Place) → Represents (lent_table links.now) (list_from front) s → result ≡ Some b
        → IsMember member s }
{
    let mut before = None;
    let mut current = front;
    let mut left = links.places();
    while left > 0 {
        let Some(place) = current else {
            return None;
        };
        if !links.is_linked(place) {
            return None;
        }
        if place == member {
            return Some(before);
        }
        before = current;
        current = links.next(place);
        left -= 1;
    }
    None
}

// Searches the members of a chain from the place `from` on, and stores in `found` the number of the first one with the key `key`. The function
// returns [`NULL`] if the chain ends without such a member. It returns [`BROKEN`] if the links lead to a place that is not linked, or to no end.
pub(crate) fn find_from(
    links: &RawTable<'_, RawOne>,
    keys: &[u64],
    key: u64,
    from: Option<Place>,
    found: &mut u32,
) -> u32
    requires keys { (lent_table links.now).extent.places ≤ length keys.now }
    ensures found { (s : List Place) → Represents (lent_table links.now) (list_from from) s
        → HandsOut (Finds (has_key keys.now key) s) result found.new }
    ensures linked { result ≡ OK → (q : Place) × IsLinked is_linked_one (lent_table links.now) q × (has_key keys.now key q ≡ true)
        × HasNumber q found.new × LeadsFrom (lent_table links.now) from q }
    ensures ended { result ≡ NULL → (s : List Place) × Represents (lent_table links.now) (list_from from) s }
    ensures refused { result ≢ OK → found.new ≡ found.old }
    ensures why { result ≢ OK → result ≢ NULL → result ≡ BROKEN }
{
    let mut current = from;
    let mut left = links.places();
    while left > 0 {
        let Some(place) = current else {
            return NULL;
        };
        if !links.is_linked(place) {
            return BROKEN;
        }
        if keys[place.index()] == key {
            *found = number_of(place);
            return OK;
        }
        current = links.next(place);
        left -= 1;
    }
    if current.is_none() { NULL } else { BROKEN }
}
