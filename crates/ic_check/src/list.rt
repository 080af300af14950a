//! The check of a list.
//!
//! ```text
//! check(&list, &links) // Some(3): the table represents three members for the list
//! ```

ghost use Rattle.std.specs.Prelude.{MatchOption};
ghost use Rattle.ic_link_ops.specs.Chains.{RepresentsChain};
ghost use Rattle.ic_check.specs.Checked.{IsRepresented, RepresentsNone};

use crate::kinds::NamesItsNext;
use crate::tells::TellsLinks;
use ic_chain::LinkList;

/// Returns the number of members that the table represents for the list, or `None` if it represents no sequence for the list.
///
/// The check requires nothing of the words. O(n) for n members, and at most as many steps as the table covers places. The check takes no memory.
pub fn check<K: NamesItsNext<L>, T, L: TellsLinks>(
    list: &LinkList<K, T>,
    links: &L,
) -> Option<usize>
    ensures { MatchOption result (RepresentsNone (RepresentsChain K.Between K.kept (L.table links.now) list.now))
        (IsRepresented (RepresentsChain K.Between K.kept (L.table links.now) list.now)) }
{
    let mut count: usize = 0;
    let mut before = None;
    let mut current = list.first();
    while let Some(member) = current {
        if count >= links.covered_places() {
            return None;
        }
        if !links.tells_linked(member) {
            return None;
        }
        if !K::names_prev(links, member, before) {
            return None;
        }
        let after = K::next(links, member, before);
        before = current;
        current = after;
        count += 1;
    }
    if K::ends_with(list, before) {
        Some(count)
    } else {
        None
    }
}
