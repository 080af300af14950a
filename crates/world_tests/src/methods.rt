//! A test of the calls of a world by the methods that have the names of the calls. The program itself makes all calls as commands.

use ic_program::OwnKey;
use ic_unsafe_ref::Place;
use ic_world::{Bound, Kind, Refusal, World};

// Returns whether a search found this place with this many comparisons of keys.
fn is_found(
    found: Result<(Option<Place>, u64), Refusal>,
    place: Option<Place>,
    looks: u64,
) -> bool {
    matches!(found, Ok((at, looked)) if at == place && looked == looks)
}

// Returns whether the entry is at this place, and its first part, which says whether a member had the key before, is `had_key`.
fn is_entry(entry: Result<(bool, Place, u64), Refusal>, had_key: bool, place: Place) -> bool {
    matches!(entry, Ok((had, at, _)) if had == had_key && at == place)
}

// Inserts objects with the keys 3, 5, 5 and 8 at these places into a tree, and returns the first result that is wrong, or the empty text.
fn first_wrong_in_tree(world: &mut World<OwnKey>, tree: usize, places: [Place; 4]) -> &'static str {
    let [three, five, other_five, eight] = places;
    if world.insert(tree, three) != Ok(0) || world.insert(tree, five) != Ok(1) {
        return "an insert";
    }
    if world.cursor_insert(tree, other_five) != Ok(2) || world.current(tree) != Ok(Some(five)) {
        return "an insert that leaves the cursor";
    }
    // The root is the first 5, and 3 and the other 5 are its children.
    if !is_found(world.find(tree, 5), Some(five), 2) {
        return "the first of two equal keys";
    }
    if !is_found(world.lower_bound(tree, Bound::Included(4)), Some(five), 2) {
        return "a lower bound";
    }
    if !is_found(world.upper_bound(tree, Bound::Excluded(5)), Some(three), 2) {
        return "an upper bound";
    }
    if !is_entry(world.entry(tree, 8, eight), false, eight)
        || !is_entry(world.entry(tree, 3, eight), true, three)
    {
        return "an entry";
    }
    if world.seek(tree, other_five).is_err() || world.current(tree) != Ok(Some(other_five)) {
        return "a seek";
    }
    if world.clear(tree).is_err() || !is_found(world.find(tree, 5), None, 0) {
        return "a clear";
    }
    ""
}

// Inserts the first three of the objects into an XOR list, and returns the first result that is wrong, or the empty text.
fn first_wrong_in_xor(world: &mut World<OwnKey>, list: usize, places: [Place; 4]) -> &'static str {
    let [first, second, third, _] = places;
    for place in [first, second, third] {
        if world.push_back(list, place).is_err() {
            return "a push";
        }
    }
    if world.seek_with_prev(list, second, Some(first)).is_err()
        || world.current(list) != Ok(Some(second))
    {
        return "a seek with the member before";
    }
    if world.seek_with_next(list, third, None).is_err()
        || world.seek_with_next(list, first, None) != Err(Refusal::NotANeighbour)
        || world.current(list) != Ok(Some(third))
    {
        return "a seek with the member after";
    }
    if world.reverse(list).is_err()
        || world.current(list) != Ok(None)
        || world.pop_front(list) != Ok(Some(third))
    {
        return "a list turned round";
    }
    ""
}

#[test]
fn calls_by_their_methods(rt: HostRuntime) {
    let mut world = World::new(rt.alloc(), OwnKey);
    let mut places = [Place::new(0).expect(&rt, "a place"); 4];
    for (key, place) in [3, 5, 5, 8].into_iter().zip(places.iter_mut()) {
        *place = world.place(key).expect(&rt, "an object");
    }
    let keyed = world.add_field(Kind::Tree).expect(&rt, "a field");
    let listed = world.add_field(Kind::Xor).expect(&rt, "a field");
    let tree = world.open(keyed, Kind::Tree).expect(&rt, "a tree");
    let list = world.open(listed, Kind::Xor).expect(&rt, "a list");
    assert!(rt; first_wrong_in_tree(&mut world, tree, places).is_empty());
    assert!(rt; first_wrong_in_xor(&mut world, list, places).is_empty());
}
