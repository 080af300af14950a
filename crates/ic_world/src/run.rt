//! Runs any call, given as a command, or a list of calls.
//!
//! ```text
//! world.answer(Command::On(queue, Call::Take(Gap::Front))) // Answer::Object of the first member, or Answer::Nothing
//! world.run(&commands, &mut answers)?    // one answer a command
//! ```

ghost use Rattle.std.specs.Prelude.{◌≡◌, ◌++◌, List, map as map_list, OnOk, OnErr};
ghost use Rattle.ic_world.specs.Answers.{reply_in};
ghost use Rattle.ic_world.specs.Calls as state;
ghost use Rattle.ic_world.specs.Replies.{reply_of};

use crate::World;
use crate::call::{Answer, Command, Refusal};
use crate::calls::collection_call::Call;
use crate::calls::gaps::{Put, Swap, Take};
use crate::calls::insertion::EntryAt;
use crate::calls::seek::Move;
use ic_rbtree::KeyAdapter;
use ic_unsafe_ref::Place;
use std::alloc::{AllocError, Allocator};

// Returns the `Answer` for the result of a call that returns nothing.
#[inline]
fn done<M: Allocator>(answer: Result<(), Refusal>) -> Answer<M>
    ensures { reply_in result ≡ reply_of (λ _. state.done) answer }
{
    match answer {
        Ok(()) => Answer::Done,
        Err(refusal) => Answer::Refused(refusal),
    }
}

// Returns the `Answer` for the result of a call that returns an object, or none.
#[inline]
fn object<M: Allocator>(answer: Result<Option<Place>, Refusal>) -> Answer<M>
    ensures { reply_in result ≡ reply_of state.object_or_nothing answer }
{
    match answer {
        Ok(Some(place)) => Answer::Object(place),
        Ok(None) => Answer::Nothing,
        Err(refusal) => Answer::Refused(refusal),
    }
}

// Returns the `Answer` for the result of a call that returns the number of a collection.
#[inline]
fn opened<M: Allocator>(answer: Result<usize, Refusal>) -> Answer<M>
    ensures { reply_in result ≡ reply_of (λ c. state.opened c) answer }
{
    match answer {
        Ok(number) => Answer::Collection(number),
        Err(refusal) => Answer::Refused(refusal),
    }
}

// Returns the `Answer` for the result of a call that returns the members of a collection.
#[inline]
fn listed<M: Allocator>(answer: Result<Vec<Place, M>, Refusal>) -> Answer<M>
    ensures { reply_in result ≡ reply_of (λ places. state.items places.items) answer }
{
    match answer {
        Ok(places) => Answer::Items(places),
        Err(refusal) => Answer::Refused(refusal),
    }
}

impl<A: KeyAdapter, M: Allocator + Copy> World<A, M>
where
    A::Value: Copy,
    A::Key: Copy,
{
    ghost use Rattle.ic_world.specs.Step.{Step, StepOn, Runs};

    // Makes a call of one collection, and returns its answer.
    #[inline(always)]
    fn answer_on(&mut self, c: usize, call: Call<A::Key>) -> Answer<M>
        ensures { StepOn A.Key.cmp A.key_of self.old c call (reply_in result) self.new }
    {
        match call {
            Call::Put(at, object) => done(self.call(c, &Put(at, object))),
            Call::Seek(seek) => done(self.call(c, &seek)),
            Call::BulkEdit(whole) => done(self.call(c, &whole)),
            Call::Take(at) => object(self.call(c, &Take(at))),
            Call::Move(way) => object(self.call(c, &Move(way))),
            Call::Swap(at, object) => match self.call(c, &Swap(at, object)) {
                Ok(place) => Answer::Object(place),
                Err(refusal) => Answer::Refused(refusal),
            },
            Call::Search(search) => match self.call(c, &search) {
                Ok((place, looks)) => Answer::Found(place, looks),
                Err(refusal) => Answer::Refused(refusal),
            },
            Call::Insertion(insertion) => match self.call(c, &insertion) {
                Ok(looks) => Answer::Looked(looks),
                Err(refusal) => Answer::Refused(refusal),
            },
            Call::Enter(key, object) => match self.call(c, &EntryAt { key, object }) {
                Ok(Some((occupied, place, looks))) => Answer::Entry(occupied, place, looks),
                Ok(None) => Answer::Refused(Refusal::AlreadyLinked),
                Err(refusal) => Answer::Refused(refusal),
            },
        }
    }

    /// Makes the call of a command, and returns its answer. The value of an object that the call removes is dropped, and so is a value that the call
    /// replaces.
    pub fn answer(&mut self, command: Command<A::Value, A::Key>) -> Answer<M>
        ensures { Step A.Key.cmp A.key_of self.old command (reply_in result) self.new }
    {
        match command {
            Command::On(c, call) => self.answer_on(c, call),
            Command::Place(value) => match self.place(value) {
                Ok(place) => Answer::Object(place),
                Err((refusal, _)) => Answer::Refused(refusal),
            },
            Command::RemoveObject(o) => match self.remove_object(o) {
                Ok(_) => Answer::Done,
                Err(refusal) => Answer::Refused(refusal),
            },
            Command::SetValue(o, value) => match self.set_value(o, value) {
                Ok(_) => Answer::Done,
                Err((refusal, _)) => Answer::Refused(refusal),
            },
            Command::AddField(kind) => match self.add_field(kind) {
                Ok(number) => Answer::Field(number),
                Err(refusal) => Answer::Refused(refusal),
            },
            Command::IsLinked(field, o) => match self.is_linked(field, o) {
                Ok(linked) => Answer::Linked(linked),
                Err(refusal) => Answer::Refused(refusal),
            },
            Command::Range(c, min, max) => match self.range(c, min, max) {
                Ok((places, first, second)) => Answer::Range(places, first, second),
                Err(refusal) => Answer::Refused(refusal),
            },
            Command::Current(c) => object(self.current(c)),
            Command::ForceUnlink(field, o) => done(self.force_unlink(field, o)),
            Command::Dispose(c) => done(self.dispose(c)),
            Command::FastClear(c) => done(self.fast_clear(c)),
            Command::SpliceAfter(c, d) => done(self.splice_after(c, d)),
            Command::SpliceBefore(c, d) => done(self.splice_before(c, d)),
            Command::Open(field, kind) => opened(self.open(field, kind)),
            Command::Take(c) => opened(self.take(c)),
            Command::SplitAfter(c) => opened(self.split_after(c)),
            Command::SplitBefore(c) => opened(self.split_before(c)),
            Command::Show(c) => listed(self.show(c)),
            Command::ShowBack(c) => listed(self.show_back(c)),
        }
    }

    /// Makes the calls in order, and appends an answer for each call.
    ///
    /// It first reserves memory for the answers. If there is not enough memory, neither the world nor the answers have changed.
    pub fn run(
        &mut self,
        commands: &[Command<A::Value, A::Key>],
        answers: &mut Vec<Answer<M>, M>,
    ) -> Result<(), AllocError>
        ensures ran { OnOk result ((given : List (Answer M)) × (answers.new.items ≡ answers.old.items ++ given)
            × Runs A.Key.cmp A.key_of self.old commands.now (map_list reply_in given) self.new) }
        ensures refused { OnErr result ((self.new ≡ self.old) × (answers.new.items ≡ answers.old.items)) }
    {
        if let Err(error) = answers.try_reserve(commands.len()) {
            return Err(error);
        }
        for command in commands {
            let answer = self.answer(*command);
            let _ = answers.push(answer);
        }
        Ok(())
    }
}
