//! The entries of a phone book, and their two orders.

ghost use Rattle.std.specs.Prelude.{◌≡◌};

use ic_rbtree::KeyAdapter;

/// An entry of a phone book.
#[derive(Drop, PartialEq, Eq, Debug)]
pub struct Entry {
    /// The phone number, which no other entry has.
    pub number: u64,
    /// The person who has the number. A person can have several numbers.
    pub person: u64,
}

/// The order of entries by their numbers.
#[derive(Clone, Copy)]
pub(crate) struct ByNumber;

impl KeyAdapter for ByNumber {
    type Value = Entry;

    type Key = u64;

    ghost key_of = { λ a entry. entry.number };

    #[inline]
    fn get_key<'v>(&self, entry: &'v Entry) -> &'v u64 {
        &entry.number
    }
}

/// The order of entries by their persons.
#[derive(Clone, Copy)]
pub(crate) struct ByPerson;

impl KeyAdapter for ByPerson {
    type Value = Entry;

    type Key = u64;

    ghost key_of = { λ a entry. entry.person };

    #[inline]
    fn get_key<'v>(&self, entry: &'v Entry) -> &'v u64 {
        &entry.person
    }
}
