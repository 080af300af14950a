//! Makes each call of a world by the method that has the name of the call. `World::answer` does not use these methods.

use ic_program::OwnKey;
use ic_test_support::rationed::Rationed;
use ic_world::{BulkEdit, Call, Command, Gap, Insertion, Neighbor, Search, Seek, World};

// Makes a call at a gap, or a call on all members, by its method. Any other call is made as a command.
fn call_list(world: &mut World<OwnKey, &Rationed>, collection: usize, call: Call<u64>) {
    match call {
        Call::Put(Gap::Front, object) => _ = world.push_front(collection, object),
        Call::Put(Gap::Back, object) => _ = world.push_back(collection, object),
        Call::Put(Gap::After, object) => _ = world.insert_after(collection, object),
        Call::Put(Gap::Before, object) => _ = world.insert_before(collection, object),
        Call::Take(Gap::Front) => _ = world.pop_front(collection),
        Call::Take(Gap::Back) => _ = world.pop_back(collection),
        Call::Take(Gap::Before) => _ = world.remove(collection),
        Call::Take(Gap::After) => _ = world.remove_next(collection),
        Call::Swap(Gap::Before, object) => _ = world.replace_with(collection, object),
        Call::Swap(Gap::After, object) => _ = world.replace_next_with(collection, object),
        Call::BulkEdit(BulkEdit::Clear) => _ = world.clear(collection),
        Call::BulkEdit(BulkEdit::Reverse) => _ = world.reverse(collection),
        other => drop(world.answer(Command::On(collection, other))),
    }
}

// Makes a call that moves a cursor by its method. Any other call is passed to `call_list`.
fn call_cursor(world: &mut World<OwnKey, &Rationed>, collection: usize, call: Call<u64>) {
    match call {
        Call::Move(Neighbor::Next) => _ = world.move_next(collection),
        Call::Move(Neighbor::Prev) => _ = world.move_prev(collection),
        Call::Seek(Seek::Null) => _ = world.go_null(collection),
        Call::Seek(Seek::On(object)) => _ = world.seek(collection, object),
        Call::Seek(Seek::With(Neighbor::Prev, object, prev)) => _ = world.seek_with_prev(
            collection, object, prev,
        ),
        Call::Seek(Seek::With(Neighbor::Next, object, next)) => _ = world.seek_with_next(
            collection, object, next,
        ),
        other => call_list(world, collection, other),
    }
}

// Makes a call that takes a key by its method. Any other call is passed to `call_cursor`.
fn call_on(world: &mut World<OwnKey, &Rationed>, collection: usize, call: Call<u64>) {
    match call {
        Call::Search(Search::Find(key)) => _ = world.find(collection, key),
        Call::Search(Search::LowerBound(bound)) => _ = world.lower_bound(collection, bound),
        Call::Search(Search::UpperBound(bound)) => _ = world.upper_bound(collection, bound),
        Call::Insertion(Insertion::Insert(object)) => _ = world.insert(collection, object),
        Call::Insertion(Insertion::CursorInsert(object)) => _ = world.cursor_insert(
            collection, object,
        ),
        Call::Enter(key, object) => _ = world.entry(collection, key, object),
        other => call_cursor(world, collection, other),
    }
}

/// Makes the call by its method, if it has one, or else as a command.
pub(crate) fn call(world: &mut World<OwnKey, &Rationed>, command: Command<u64, u64>) {
    match command {
        Command::On(collection, call) => call_on(world, collection, call),
        Command::FastClear(collection) => _ = world.fast_clear(collection),
        Command::Current(collection) => _ = world.current(collection),
        other => drop(world.answer(other)),
    }
}
