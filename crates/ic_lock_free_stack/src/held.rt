//! The accounts of holders that a seat has. A thread makes steps on the words by a seat.

use crate::step::{History, Record};
use ic_unsafe_ref::Place;
use std::collections::LinkedList;

// The number of places, of stacks and of holders.
#[derive(Drop)]
pub(crate) struct Size {
    pub(crate) places: usize,
    pub(crate) stacks: usize,
    pub(crate) holders: usize,
}

// A place, and the word of this place that its holder knows, or 0 if the holder no longer knows the word.
pub(crate) struct Known {
    pub(crate) place: Place,
    pub(crate) word: u64,
}

// An account of a holder: its name and its steps, the history up to its last step or a later audit, and the words that the holder knows. The account also has
// the head that the holder saw last, with the number of steps on heads at that time.
pub(crate) struct Account {
    pub(crate) name: usize,
    pub(crate) steps: Record,
    pub(crate) seen: History,
    pub(crate) known: LinkedList<Known>,
    pub(crate) stack: usize,
    pub(crate) saw: u64,
    pub(crate) looked: usize,
}

// The accounts that a seat has. A holder's seat has one account, and a seat that has given its accounts away has none. No value of this type is made.
pub(crate) struct HeldAccounts {
    pub(crate) size: Size,
    pub(crate) accounts: LinkedList<Account>,
}
