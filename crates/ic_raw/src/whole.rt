//! This module removes all members of a list at once.
//!
//! ```text
//! let made = clear_list(&mut links, &mut list);
//! ```

ghost use Rattle.std.specs.Prelude.{◌≡◌, List, None, true, false};
ghost use Rattle.ic_link_ops.specs.Prelude.{Place, no_members, list_from};
ghost use Rattle.ic_raw.specs.Calls.{Clears};
ghost use Rattle.ic_raw.specs.LinkWords.{lent_table};
ghost use Rattle.ic_raw.specs.Words.{is_linked_one};
ghost use Rattle.ic_raw.specs.Doubly as doubly;
ghost use Rattle.ic_raw.specs.Singly as singly;

use crate::list::{List, follows};
use crate::stack::{Stack, last_from};
use crate::table::RawTable;
use crate::words::{ListWords, RawOne};
use ic_link_ops::linked_list::LinkedListOps;
use ic_unsafe_ref::Place;

// Removes all members of a singly linked list and returns `true`, if its links lead to an end. Otherwise the function changes nothing and returns
// `false`.
pub(crate) fn clear_stack(links: &mut RawTable<'_, RawOne>, list: &mut Stack) -> bool
    ensures cleared { (s : List Place) → singly.Represents (singly.lent_table links.old) list.old s
        → (result ≡ true) × Clears is_linked_one (singly.lent_table links.old) (singly.lent_table links.new) s }
    ensures ended { result ≡ true → (s : List Place) × singly.Represents (singly.lent_table links.old) list.old s }
    ensures emptied { result ≡ true → list.new ≡ list_from None }
    ensures refused { result ≡ false → (links.new ≡ links.old) × (list.new ≡ list.old) }
    ensures extent { (singly.lent_table links.new).extent ≡ (singly.lent_table links.old).extent }
{
    let Some(front) = list.first() else {
        return true;
    };
    let Some(_) = last_from(&*links, front) else {
        return false;
    };
    list.clear(links);
    true
}

// Returns whether the links lead from the first member to the last within as many steps as the table has places, and each member names the member
// before it.
fn leads_to_last<W: ListWords>(links: &RawTable<'_, W>, list: &List) -> bool
    ensures ended { result ≡ true → (s : List Place) × doubly.Represents W.PrevPlace (lent_table W.PrevPlace links.now) list.now s }
    ensures shown { (s : List Place) → doubly.Represents W.PrevPlace (lent_table W.PrevPlace links.now) list.now s → result ≡ true }
{
    let Some(front) = list.first() else {
        return Place::to_word(list.last()) == Place::to_word(None);
    };
    let mut prev = None;
    let mut at = front;
    let mut left = links.places();
    while left > 0 {
        if !follows(links, list, Some(at), prev) {
            return false;
        }
        let Some(next) = links.next(at) else {
            return Place::to_word(list.last()) == Place::to_word(Some(at));
        };
        prev = Some(at);
        at = next;
        left -= 1;
    }
    false
}

// Removes all members of a doubly linked list and returns `true`, if its links lead from the first member to the last and back. Otherwise the
// function changes nothing and returns `false`.
pub(crate) fn clear_list<W: ListWords>(links: &mut RawTable<'_, W>, list: &mut List) -> bool
    ensures cleared { (s : List Place) → doubly.Represents W.PrevPlace (lent_table W.PrevPlace links.old) list.old s
        → (result ≡ true) × Clears W.is_linked (lent_table W.PrevPlace links.old) (lent_table W.PrevPlace links.new) s }
    ensures ended { result ≡ true → (s : List Place) × doubly.Represents W.PrevPlace (lent_table W.PrevPlace links.old) list.old s }
    ensures emptied { result ≡ true → list.new ≡ no_members }
    ensures refused { result ≡ false → (links.new ≡ links.old) × (list.new ≡ list.old) }
    ensures extent { (lent_table W.PrevPlace links.new).extent ≡ (lent_table W.PrevPlace links.old).extent }
{
    if !leads_to_last(&*links, &*list) {
        return false;
    }
    list.clear(links);
    true
}
