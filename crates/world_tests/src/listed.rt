//! A test of commands that a world runs as lists, one list after the other. Some requests for memory are refused.

use ic_program::{Line, OwnKey, push_answer};
use ic_test_support::rationed::Rationed;
use ic_unsafe_ref::Place;
use ic_world::{Answer, Command, Refusal, World};
use std::alloc::{Allocator, Global};

// The number of a request that never comes, so that no request is refused.
const NONE: u64 = u64::MAX;

// A row has the number of the request for memory that is refused in a run, the commands of the run, and the expected answers.
type List = (u64, &'static str, &'static str);

const COMMANDS: &str = "\
field doubly; open 0 doubly; place 1; place 2; place 3; push_front 0 0; show 0; push_front 0 1; show 0; push_back 0 2; show 0; \
pop_front 0; show 0; pop_back 0; show 0; pop_front 0; show 0; pop_front 0; pop_back 0; take 0";

const ANSWERS: &str = "\
field 0\ncollection 0\nobject 0\nobject 1\nobject 2\nok\nitems 0\nok\nitems 1 0\nok\nitems 1 0 2\nobject 1\nitems 0 2\nobject 2\n\
items 0\nobject 0\nitems\nnone\nnone\ncollection 1\n";

// The first request of a run is for its answers. If the first request is refused, the run must be refused and must change nothing.
const LISTS: &[List] = &[
    (0, COMMANDS, "no memory"),
    (NONE, COMMANDS, ANSWERS),
    (0, "push_back 1 0", "no memory"),
    (NONE, "show 0; show 1", "items\nitems\n"),
    (0, "", ""),
];

// Returns the commands of a text, which are separated by semicolons, as far as there is memory for them.
pub(crate) fn commands_in(alloc: Global, text: &str) -> Vec<Command<u64, u64>> {
    let mut commands = Vec::new(alloc);
    for line in text.split("; ") {
        if let Line::Call(command) = Line::of(line.as_bytes()) {
            let _ = commands.push(command);
        }
    }
    commands
}

// Returns the lines of the answers, as far as there is memory for them.
pub(crate) fn lines_of<M: Allocator>(alloc: Global, answers: &[Answer<M>]) -> Vec<u8> {
    let mut lines = Vec::new(alloc);
    for answer in answers {
        let _ = push_answer(&mut lines, answer);
    }
    lines
}

// Runs the commands of the row, and returns whether the world answers them as the row says.
fn is_answered<'r>(
    alloc: Global,
    rationed: &'r Rationed,
    world: &mut World<OwnKey, &'r Rationed>,
    list: &List,
) -> bool {
    let (refused, text, wanted) = *list;
    let commands = commands_in(alloc, text);
    let mut answers = Vec::new(rationed);
    rationed.refuse(refused);
    let ran = world.run(&commands, &mut answers);
    rationed.refuse(NONE);
    match ran {
        Ok(()) => lines_of(alloc, &answers).as_slice() == wanted.as_bytes(),
        Err(_) => answers.is_empty() && wanted == "no memory",
    }
}

// Runs the rows one after the other, and returns whether the world answers each of them as the row says.
fn are_answered<'r>(
    alloc: Global,
    rationed: &'r Rationed,
    world: &mut World<OwnKey, &'r Rationed>,
    lists: &[List],
) -> bool {
    let mut as_wanted = true;
    for list in lists {
        as_wanted &= is_answered(alloc, rationed, world, list);
    }
    as_wanted
}

// Returns the value of object 1, which is read from the objects that the world lends.
fn second_value(world: &World<OwnKey, &Rationed>) -> Option<u64> {
    world.objects().get(Place::new(1)?).copied()
}

// Returns whether a new world gives a value back that is refused for want of memory, and then answers the rows as they say.
fn is_right(alloc: Global, lists: &[List]) -> bool {
    let rationed = Rationed::new(alloc, 0);
    let mut world = World::new(&rationed, OwnKey);
    let is_back = matches!(world.place(10), Err((Refusal::OutOfMemory, 10)));
    is_back && are_answered(alloc, &rationed, &mut world, lists) && second_value(&world) == Some(2)
}

// The test runs lists of commands in a world. Each run must give the expected answers, or must be refused and change nothing if there is no memory.
// Promise: a list of calls as one, a run without memory, always-out-of-memory in a run.
#[test]
fn lists_of_commands(rt: HostRuntime) {
    assert!(rt; is_right(rt.alloc(), LISTS));
}
