//! The calls of a cache of numbers, and their results, as values of two enums.

use ic_indexed::Index;
use lru_cache::{Entry, InsertError, LruCache};
use std::alloc::Allocator;

/// A call of a cache of numbers.
#[derive(Clone, Copy)]
pub(crate) enum Call {
    Insert(u64, u64),
    Get(u64),
    Peek(u64),
    Looks(u64),
    Remove(u64),
    PeekOldest,
    PopOldest,
    Len,
    IsEmpty,
}

/// The result of a call of the cache.
#[derive(Clone, Copy, PartialEq)]
pub(crate) enum Answer {
    Nothing,
    Entry(u64, u64),
    Value(u64),
    Count(u64),
    Truth(bool),
    Refused(u64),
}

/// Makes the call on the cache, and returns its result.
pub(crate) fn make<I: Index<Entry<u64>, A>, A: Allocator>(
    cache: &mut LruCache<u64, I, A>,
    call: Call,
) -> Answer {
    match call {
        Call::Insert(key, value) => match cache.insert(key, value) {
            Ok(left) => entry(left),
            Err(InsertError(value)) => Answer::Refused(value),
        },
        Call::Get(key) => value(cache.get(key).copied()),
        Call::Peek(key) => value(cache.peek(key).copied()),
        Call::Looks(key) => Answer::Count(cache.find(key).1),
        Call::Remove(key) => value(cache.remove(key)),
        Call::PeekOldest => match cache.peek_oldest() {
            Some((key, value)) => Answer::Entry(key, *value),
            None => Answer::Nothing,
        },
        Call::PopOldest => entry(cache.pop_oldest()),
        Call::Len => Answer::Count(cache.len() as u64),
        Call::IsEmpty => Answer::Truth(cache.is_empty()),
    }
}

fn entry(entry: Option<(u64, u64)>) -> Answer {
    match entry {
        Some((key, value)) => Answer::Entry(key, value),
        None => Answer::Nothing,
    }
}

fn value(value: Option<u64>) -> Answer {
    match value {
        Some(value) => Answer::Value(value),
        None => Answer::Nothing,
    }
}
