//! Functions that state what is known of a world after any list of calls. The proof of each function uses only the contract of `ic_world_laws::run`.

ghost use Rattle.std.specs.Prelude.{List, map as map_list, IfSome};
ghost use Rattle.ic_unsafe_ref.specs.declared.place.Place.{Place as AnyPlace};
ghost use Rattle.ic_world.specs.Answers.{reply_in};
ghost use Rattle.ic_world.specs.Apart.{AreApart};
ghost use Rattle.ic_world_laws.specs.InsertionOrder.{KeepsInsertionOrder, IsInOrderOf, AreOrderly, insertion_order_over};

use crate::listed::{commands_in, lines_of};
use ic_program::OwnKey;
use ic_rbtree::KeyAdapter;
use ic_unsafe_ref::Place;
use ic_world::{Answer, Command, World};
use std::alloc::{Allocator, Global};

/// Makes any calls, and returns their answers and the members of a tree afterwards. If the calls leave the order of the tree's members to their keys
/// (`AreOrderly`), the tree is sorted, and members with equal keys are in the order of their insertion.
fn represented_after<A: KeyAdapter, M: Allocator + Copy>(
    alloc: M,
    world: &mut World<A, M>,
    commands: &[Command<A::Value, A::Key>],
    tree: usize,
) -> Option<(Vec<Answer<M>, M>, Vec<Place, M>)>
where
    A::Value: Copy,
    A::Key: Copy,
    ensures { (insertion_order : List AnyPlace) → KeepsInsertionOrder A.Key.cmp A.key_of world.old tree insertion_order → IfSome result (λ told.
        AreOrderly A.Key.cmp A.key_of world.old tree commands.now (map_list reply_in told.0.items) insertion_order
        → IsInOrderOf A.Key.cmp A.key_of world.new (insertion_order_over tree commands.now (map_list reply_in told.0.items) insertion_order) told.1.items) }
{
    let mut answers = Vec::new(alloc);
    let Ok(()) = ic_world_laws::run(world, commands, &mut answers) else {
        return None;
    };
    let Ok(shown) = world.show(tree) else {
        return None;
    };
    Some((answers, shown))
}

/// Makes any calls. Afterwards no object is in two collections of one field, or twice in one collection, whatever the calls are. The result is whether
/// there was memory for the answers.
fn are_apart_after<A: KeyAdapter, M: Allocator + Copy>(
    world: &mut World<A, M>,
    commands: &[Command<A::Value, A::Key>],
    answers: &mut Vec<Answer<M>, M>,
) -> bool
where
    A::Value: Copy,
    A::Key: Copy,
    ensures { AreApart world.new }
{
    ic_world_laws::run(world, commands, answers).is_ok()
}

const OPENED: &str =
    "field tree; open 0 tree; open 0 doubly; place 5; place 3; place 5; place 5; push_back 1 3; insert 0 3";

const OPENED_ANSWERS: &str = "\
field 0\ncollection 0\ncollection 1\nobject 0\nobject 1\nobject 2\nobject 3\nok\nrefused 10 AlreadyLinked\n";

// The commands insert four objects, find and remove the first member with the key 5, and insert it again, so that it comes after the others with this
// key.
const INSERTED: &str = "\
pop_front 1; insert 0 0; insert 0 1; insert 0 2; insert 0 3; find 0 5; remove 0; insert 0 0; show 0";

const INSERTED_ANSWERS: &str = "\
object 3\nok looks 0\nok looks 1\nok looks 1\nok looks 2\nobject 0 looks 2\nobject 0\nok looks 2\nitems 1 2 3 0\n";

// Returns whether a new world gives the expected answers to both lists of commands, and its tree has four members afterwards.
fn is_right(alloc: Global) -> bool {
    let mut world = World::new(alloc, OwnKey);
    let mut answers = Vec::new(alloc);
    let ran = are_apart_after(&mut world, &commands_in(alloc, OPENED), &mut answers);
    if !ran || lines_of(alloc, &answers).as_slice() != OPENED_ANSWERS.as_bytes() {
        return false;
    }
    match represented_after(alloc, &mut world, &commands_in(alloc, INSERTED), 0) {
        None => false,
        Some((answers, shown)) => {
            lines_of(alloc, &answers).as_slice() == INSERTED_ANSWERS.as_bytes() && shown.len() == 4
        }
    }
}

#[test]
fn any_list_is_lawful(rt: HostRuntime) {
    assert!(rt; is_right(rt.alloc()));
}
