//! A test of the phone book that makes each of its calls at least once.

use phone_book::{Entry, InsertError, PhoneBook};

const FIRST: Entry = Entry {
    number: 5550100,
    person: 7,
};

const SECOND: Entry = Entry {
    number: 5550123,
    person: 7,
};

const ANOTHER: Entry = Entry {
    number: 5550100,
    person: 8,
};

#[test]
fn no_number_twice(rt: HostRuntime) {
    let mut book = PhoneBook::new(rt.alloc());
    assert!(rt; book.insert(FIRST).is_ok() && book.insert(SECOND).is_ok());
    assert!(rt; matches!(book.insert(ANOTHER), Err(InsertError::NumberTaken(ANOTHER))));
    assert!(rt; book.with_number(5550123) == Some(&SECOND) && book.of_person(8).is_none());
    assert!(rt; book.remove(5550100) == Some(FIRST) && book.remove(5550100).is_none());
    assert!(rt; book.insert(ANOTHER).is_ok());
    assert!(rt; book.of_person(7) == Some(&SECOND) && book.of_person(8) == Some(&ANOTHER));
}
