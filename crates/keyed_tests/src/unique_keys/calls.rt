//! The calls of a container of pages, and their results, as values of two enums.

use ic_keyed::{HasKey, Index, InsertError, Keyed};
use std::alloc::Allocator;

/// A page, which is found by its number.
#[derive(Clone, Copy)]
pub(crate) struct Page {
    pub(crate) number: u64,
    pub(crate) size: u64,
}

impl HasKey for Page {
    ghost key_of = { λ page. page.number };

    fn key(&self) -> &u64 {
        &self.number
    }
}

/// A call of the container. `Put` and `PutOver` replace the page with the number. If no page has the number, `Put` inserts a page, and `PutOver`
/// replaces the oldest page.
#[derive(Clone, Copy)]
pub(crate) enum Call {
    Insert(u64, u64),
    Put(u64, u64),
    PutOver(u64, u64),
    Peek(u64),
    Get(u64),
    Touch(u64),
    Looks(u64),
    Remove(u64),
    First,
    Last,
    PopFirst,
    PopLast,
    RetainLarge,
    Clear,
}

/// The result of a call of the container.
#[derive(Clone, Copy, PartialEq)]
pub(crate) enum Answer {
    Nothing,
    Page(u64, u64),
    Truth(bool),
    Count(u64),
    Taken(u64, u64),
    NoRoom(u64, u64),
}

/// Makes the call on the container, and returns its result.
pub(crate) fn make<I: Index<Page, A>, A: Allocator>(
    pages: &mut Keyed<Page, I, A>,
    call: Call,
) -> Answer {
    match call {
        Call::Insert(number, size) => match pages.insert(Page { number, size }) {
            Ok(()) => Answer::Nothing,
            Err(InsertError::KeyTaken(page)) => Answer::Taken(page.number, page.size),
            Err(refused) => {
                let page = refused.into_value();
                Answer::NoRoom(page.number, page.size)
            }
        },
        Call::Put(number, size) => put(pages, Page { number, size }),
        Call::PutOver(number, size) => put_over(pages, Page { number, size }),
        Call::Peek(number) => shown(pages.peek(number).copied()),
        Call::Get(number) => shown(pages.get(number).copied()),
        Call::Touch(number) => Answer::Truth(pages.touch(number)),
        Call::Looks(number) => Answer::Count(pages.find(number).1),
        Call::Remove(number) => shown(pages.remove(number)),
        Call::First => shown(pages.first().copied()),
        Call::Last => shown(pages.last().copied()),
        Call::PopFirst => shown(pages.pop_first()),
        Call::PopLast => shown(pages.pop_last()),
        Call::RetainLarge => {
            pages.retain(|page: &Page| page.size > 20);
            Answer::Nothing
        }
        Call::Clear => {
            pages.clear();
            Answer::Nothing
        }
    }
}

fn put<I: Index<Page, A>, A: Allocator>(pages: &mut Keyed<Page, I, A>, new: Page) -> Answer {
    match pages.replace(new) {
        Ok(gone) => Answer::Page(gone.number, gone.size),
        Err(new) => match pages.insert_new(new) {
            Ok(()) => Answer::Nothing,
            Err(back) => Answer::NoRoom(back.number, back.size),
        },
    }
}

fn put_over<I: Index<Page, A>, A: Allocator>(pages: &mut Keyed<Page, I, A>, new: Page) -> Answer {
    match pages.replace(new) {
        Ok(gone) => Answer::Page(gone.number, gone.size),
        Err(new) => match pages.replace_last(new) {
            Ok(gone) => Answer::Page(gone.number, gone.size),
            Err(_) => Answer::Nothing,
        },
    }
}

fn shown(page: Option<Page>) -> Answer {
    match page {
        Some(page) => Answer::Page(page.number, page.size),
        None => Answer::Nothing,
    }
}

/// Returns whether the pages have these numbers in this order, as walks from both ends find them.
pub(crate) fn are<I: Index<Page, A>, A: Allocator>(
    pages: &Keyed<Page, I, A>,
    numbers: &[u64],
) -> bool {
    let mut forward = pages.iter();
    let mut backward = pages.iter();
    for (number, last) in numbers.iter().zip(numbers.iter().rev()) {
        let (Some(page), Some(after)) = (forward.next(), backward.next_back()) else {
            return false;
        };
        if page.number != *number || after.number != *last {
            return false;
        }
    }
    forward.next().is_none()
        && backward.next_back().is_none()
        && pages.len() == numbers.len()
        && pages.is_empty() == numbers.is_empty()
}
