//! What holds of every call of a world, and of any list of calls. Each law is a field of the record `IsLawful`.
//!
//! ```text
//! ic_world_laws::answer(&mut world, command) // refused, it can be made again in the same world
//! ic_world_laws::run(&mut world, &commands, &mut answers)? // each answer is as if it were the only call
//! ```
#![tactic(auto)]

ghost use Rattle.std.specs.Prelude.{◌≡◌, ◌++◌, List, map as map_list, OnOk, OnErr};
ghost use Rattle.ic_world.specs.Prelude.{reply_in, IsSound};
ghost use Rattle.ic_world_laws.specs.InsertionOrder.{RunKeepsInsertionOrder};
ghost use Rattle.ic_world_laws.specs.Runs.{IsLawful, AreLawful};

use ic_rbtree::KeyAdapter;
use ic_world::{Answer, Command, World};
use std::alloc::{AllocError, Allocator};

/// Makes a call as [`World::answer`] does. Its contract states what users rely on, whatever the call is.
///
/// - If the call is refused, nothing has changed.
/// - If the call inserts an object into a collection, and no other refusal applies, it is refused exactly if the object is already
///   linked in the field. For the call `entry` this holds if no member has the key.
/// - If the call searches a tree of n members, it makes v looks (key comparisons), where `2^v <= (n + 1)^2`. It makes at least one
///   look if there is a member. A range returns the number of looks of each of its two searches. A search for `Unbounded` makes no
///   look.
/// - If the tree is sorted, `find` and `entry` return the first member with the key, if any member has the key. `lower_bound` and
///   `upper_bound` return the first and the last member within the bound, and `range` returns all members within both bounds.
/// - If the tree is sorted, an insert by key adds the object after all members whose keys are not greater than the object's key. An
///   `entry` that finds no member with its key adds the object after all members whose keys are not greater than this key.
/// - A sorted collection stays sorted, with members of equal keys in the order of their insertion. The exceptions are calls that
///   insert an object into the collection by position or by a key that is not the object's own. Calls that reverse, splice, split
///   or dispose of the collection, or that give a member another key, are exceptions, too.
/// - All members are linked, all linked places have objects, all objects are at places below 2^32, no member is shared, and each
///   cursor is null or on a member.
#[inline]
pub fn answer<A: KeyAdapter, M: Allocator + Copy>(
    world: &mut World<A, M>,
    command: Command<A::Value, A::Key>,
) -> Answer<M>
where
    A::Value: Copy,
    A::Key: Copy,
    ensures { IsLawful A.Key.cmp A.key_of world.old command (reply_in result) world.new }
{
    world.family_is_sound();
    world.answer(command)
}

/// Makes the calls in order as [`World::run`] does. Its contract states of each of these calls what the contract of [`answer`]
/// states of one call.
///
/// It appends the answers to `answers`. After any list of calls, every answer, sequence, cursor and linked place is the one that
/// the model defines. The model cuts and joins sequences without common members. An insert is refused exactly if its object is
/// already linked. If only inserts by key and removals have changed a tree, its members with equal keys are in the order of their
/// insertion.
///
/// If there is not enough memory for the answers, neither the world nor the answers have changed.
pub fn run<A: KeyAdapter, M: Allocator + Copy>(
    world: &mut World<A, M>,
    commands: &[Command<A::Value, A::Key>],
    answers: &mut Vec<Answer<M>, M>,
) -> Result<(), AllocError>
where
    A::Value: Copy,
    A::Key: Copy,
    ensures sound { IsSound world.old × IsSound world.new }
    ensures lawful { OnOk result ((given : List (Answer M)) × (answers.new.items ≡ answers.old.items ++ given)
        × AreLawful A.Key.cmp A.key_of world.old commands.now (map_list reply_in given) world.new
        × RunKeepsInsertionOrder A.Key.cmp A.key_of world.old commands.now (map_list reply_in given) world.new) }
    ensures refused { OnErr result ((world.new ≡ world.old) × (answers.new.items ≡ answers.old.items)) }
{
    world.family_is_sound();
    world.run(commands, answers)
}
