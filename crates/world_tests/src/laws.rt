//! Functions that use the laws of a world. The proof of each function needs one of the laws.

ghost use Rattle.std.specs.Prelude.{◌≡◌, ◌≢◌, ◌≤◌, ◌++◌, [], ◌∷◌, List, true, Some, IfSome, IsTrue, length};
ghost use Rattle.std.specs.FinSet as set;
ghost use Rattle.ic_link_ops.specs.Prelude.{Place as AnyPlace, index_of, ArePlaced, IsDisjoint};
ghost use Rattle.ic_world.specs.Prelude.{reply_in, Step};
ghost use Rattle.ic_world.specs.Family.{Sequence, collection as collection_of, linked_of, objects_of};
ghost use Rattle.ic_world_laws.specs.InsertionOrder.{KeepsInsertionOrder};

use ic_program::OwnKey;
use ic_rbtree::KeyAdapter;
use ic_unsafe_ref::Place;
use ic_world::{Answer, Call, Command, Gap, Insertion, Kind, Refusal, Search, World};
use std::alloc::Allocator;

/// Makes a call, and makes it again if it is refused. The result is as if the refused call had not been made.
fn made_again<A: KeyAdapter, M: Allocator + Copy>(
    world: &mut World<A, M>,
    command: Command<A::Value, A::Key>,
) -> Answer<M>
where
    A::Value: Copy,
    A::Key: Copy,
    ensures { Step A.Key.cmp A.key_of world.old command (reply_in result) world.new }
{
    match ic_world_laws::answer(world, command) {
        Answer::Refused(_) => ic_world_laws::answer(world, command),
        answer => answer,
    }
}

/// Inserts an object after all members of a list. The result is `true` if the object was linked in the list's field already. Then nothing has changed.
fn was_linked<A: KeyAdapter, M: Allocator + Copy>(
    world: &mut World<A, M>,
    collection: usize,
    object: Place,
) -> bool
where
    A::Value: Copy,
    A::Key: Copy,
    ensures linked { IsTrue result → (s : Sequence) → collection_of world.old collection ≡ Some s
        → set.contains (linked_of world.old s.field) (index_of object) ≡ true }
    ensures unchanged { IsTrue result → world.new ≡ world.old }
{
    match ic_world_laws::answer(world, Command::On(collection, Call::Put(Gap::Back, object))) {
        Answer::Refused(Refusal::AlreadyLinked) => true,
        _ => false,
    }
}

/// Inserts an object into a tree by its key, and returns whether it was inserted. If it was, it comes after all members with the same key that were
/// inserted before.
fn put_last<A: KeyAdapter, M: Allocator + Copy>(
    world: &mut World<A, M>,
    tree: usize,
    object: Place,
) -> bool
where
    A::Value: Copy,
    A::Key: Copy,
    ensures { IsTrue result → (insertion_order : List AnyPlace) → KeepsInsertionOrder A.Key.cmp A.key_of world.old tree insertion_order
        → KeepsInsertionOrder A.Key.cmp A.key_of world.new tree (insertion_order ++ object ∷ []) }
{
    match ic_world_laws::answer(
        world,
        Command::On(tree, Call::Insertion(Insertion::Insert(object))),
    ) {
        Answer::Looked(_) => true,
        _ => false,
    }
}

/// Returns with how many members of a tree a `find` compares the key. By a law of the world, there are at most four comparisons in a tree of at most
/// three members.
fn looks_of_find<A: KeyAdapter, M: Allocator + Copy>(
    world: &mut World<A, M>,
    collection: usize,
    key: A::Key,
) -> Option<u64>
where
    A::Value: Copy,
    A::Key: Copy,
    ensures { (s : Sequence) → collection_of world.old collection ≡ Some s → length s.members ≤ 3 → IfSome result (λ looks. looks ≤ 4) }
{
    match ic_world_laws::answer(
        world,
        Command::On(collection, Call::Search(Search::Find(key))),
    ) {
        Answer::Found(_, looks) => Some(looks),
        _ => None,
    }
}

/// Returns the members of two collections. If both collections use the same field, they share no member.
fn both_represented<A: KeyAdapter, M: Allocator + Copy>(
    world: &World<A, M>,
    first: usize,
    second: usize,
) -> Option<(Vec<Place, M>, Vec<Place, M>)>
    ensures { first ≢ second → (s t : Sequence) → collection_of world.now first ≡ Some s → collection_of world.now second ≡ Some t
        → s.field ≡ t.field → IfSome result (λ shown. IsDisjoint shown.0.items shown.1.items) }
{
    world.no_member_is_shared();
    match (world.show(first), world.show(second)) {
        (Ok(front), Ok(back)) => Some((front, back)),
        _ => None,
    }
}

/// Returns the members of a collection. There is an object at each of these places.
fn members_placed<A: KeyAdapter, M: Allocator + Copy>(
    world: &World<A, M>,
    collection: usize,
) -> Option<Vec<Place, M>>
    ensures { (s : Sequence) → collection_of world.now collection ≡ Some s
        → IfSome result (λ shown. ArePlaced (objects_of world.now) shown.items) }
{
    world.every_member_is_placed();
    match world.show(collection) {
        Ok(shown) => Some(shown),
        Err(_) => None,
    }
}

// Returns whether the tree's members have the values from 0 on, in this order.
fn has_values_from_0(world: &World<OwnKey>, tree: usize) -> bool {
    let Some(members) = members_placed(world, tree) else {
        return false;
    };
    let mut as_wanted = true;
    for (value, place) in (0..).zip(members.iter()) {
        as_wanted &= world.objects().get(*place) == Some(&value);
    }
    as_wanted
}

// Adds three objects, a tree and a list to a new world. Returns the name of the first result that is wrong, or the empty text if all are right.
fn first_wrong(world: &mut World<OwnKey>) -> &'static str {
    let (Ok(field), Ok(keyed)) = (world.add_field(Kind::Tree), world.open(0, Kind::Tree)) else {
        return "the tree";
    };
    let Ok(list) = world.open(field, Kind::Doubly) else {
        return "the list";
    };
    for value in 0..3 {
        let Ok(object) = world.place(value) else {
            return "an object";
        };
        if !put_last(world, keyed, object) {
            return "an insert";
        }
        if !was_linked(world, list, object) {
            return "a second link of one field";
        }
    }
    let Answer::Refused(Refusal::NoSuchField) = made_again(world, Command::Open(1, Kind::Tree))
    else {
        return "a refused call, made again";
    };
    // The search compares two members, because it continues below the root, where the first member with the key may be.
    let Some(2) = looks_of_find(world, keyed, 1) else {
        return "a find of the root";
    };
    if !has_values_from_0(world, keyed) {
        return "the values";
    }
    match both_represented(world, keyed, list) {
        Some((members, others)) if members.len() == 3 && others.is_empty() => "",
        _ => "what is shown",
    }
}

#[test]
fn laws_are_of_use(rt: HostRuntime) {
    let mut world = World::new(rt.alloc(), OwnKey);
    assert!(rt; first_wrong(&mut world).is_empty());
}
