//! A mailbox: several threads send places, and one thread receives them. The places of each sender come in the order in which it sent them.
//!
//! ```text
//! // in a sender's thread, with its own holder
//! let is_sent = send(&stacks, &mut sender, 0, place); // to the mailbox 0, where nobody held the place
//! // in the receiver's
//! let mut receiver = Receiver::new(&stacks, holder, 0);
//! while let Some(place) = receiver.receive(&stacks) {
//!     receiver.give_up(&stacks, place);
//! }
//! ```
//!
//! A message is a place. The sender and the receiver agree where the content of the message is stored.

ghost use Rattle.std.specs.Prelude.{◌≡◌, ◌<◌, ◌≤◌, ◌+◌, ℕ, [], ◌∷◌, ◌++◌, reverse, List, IfSome, IfNone, OnOk, Contains};
ghost use Rattle.std.specs.Bool.{OnTrue, OnFalse};
ghost use Rattle.ic_unsafe_ref.specs.declared.place.Place.{Place};
ghost use Rattle.ic_unsafe_ref.specs.Places.{index_of};
ghost use Rattle.ic_lock_free_stack.specs.declared.step.Entry.{Entry};
ghost use Rattle.ic_lock_free_stack.specs.declared.step.Step.TheVariants.{TakeAll};
ghost use Rattle.ic_lock_free_stack.specs.Prelude.{stack_after, most_steps, GivesUp, Party, IsHistory, got, of_record, places_of, stacks_of, name_of, record_of, spent_by, IsOf, Steps};
ghost use Rattle.stack_uses.specs.Mail.{holder_of, box_of, sent_by, steps_to_send, HasReceived, HasOpened, IsOut, IsOnlyReceiver, IsMail};

use ic_lock_free_stack::{Chain, Holder, Stacks};
use ic_unsafe_ref::Place;
use std::alloc::{AllocError, Allocator};

/// The receiver of one mailbox. The mailbox is the stack with the number `mailbox`.
#[derive(Drop)]
pub struct Receiver {
    holder: Holder,
    mailbox: usize,
    opened: Chain,
}

/// Claims a place and sends it to the mailbox, and returns whether it was sent. It is not sent if somebody holds the place, or if the place was sent
/// and is not received yet.
///
/// It requires that the holder has made fewer than 281,474,976,710,656 pushes and calls that take all. It waits for nobody.
pub fn send<A: Allocator>(
    stacks: &Stacks<A>,
    sender: &mut Holder,
    mailbox: usize,
    place: Place,
) -> bool
    requires mailbox { mailbox < stacks_of stacks.now }
    requires place { index_of place < places_of stacks.now }
    requires made { IsOf stacks.now sender.old }
    requires room { spent_by sender.old < most_steps }
    ensures made { IsOf stacks.now sender.new }
    ensures name { name_of sender.new ≡ name_of sender.old }
    ensures steps { record_of sender.new ≡ record_of sender.old ++ steps_to_send mailbox place result }
    ensures sent { OnTrue result (sent_by mailbox sender.new ≡ sent_by mailbox sender.old ++ place ∷ []) }
    ensures refused { OnFalse result (sent_by mailbox sender.new ≡ sent_by mailbox sender.old) }
    ensures spent { spent_by sender.new ≤ spent_by sender.old + 1 }
{
    let is_claimed = stacks.claim(sender, place);
    if is_claimed {
        stacks.push(sender, mailbox, place);
    }
    is_claimed
}

impl Receiver {
    /// Makes a receiver for the mailbox with this number. The receiver has received the places that its holder has taken from the mailbox. If the holder
    /// has made no step, there are none.
    pub fn new<A: Allocator>(stacks: &Stacks<A>, holder: Holder, mailbox: usize) -> Receiver
        requires mailbox { mailbox < stacks_of stacks.now }
        requires made { IsOf stacks.now holder }
        ensures made { HasReceived stacks.now result (of_record (got mailbox) (record_of holder)) }
        ensures opened { HasOpened stacks.now result [] }
        ensures holder { holder_of result ≡ holder }
        ensures mailbox { box_of result ≡ mailbox }
    {
        let _ = stacks;
        Receiver {
            holder,
            mailbox,
            opened: Chain::new(),
        }
    }

    /// Returns the next place that was sent, which the receiver then holds, or returns `None` if no place had come. It waits for nobody.
    ///
    /// It requires that its holder has made fewer than 281,474,976,710,656 pushes and calls that take all. It makes one load. If it has already
    /// returned all places that it took, it makes a swap, and a load and a store for each place that had come. O(1) for each place.
    pub fn receive<A: Allocator>(&mut self, stacks: &Stacks<A>) -> Option<Place>
        requires kept { (ps : List Place) × HasReceived stacks.now self.old ps }
        requires room { spent_by (holder_of self.old) < most_steps }
        ensures kept { (ps : List Place) × HasReceived stacks.now self.new ps }
        ensures some { (ps : List Place) → HasReceived stacks.now self.old ps
            → IfSome result (λ p. HasReceived stacks.now self.new (ps ++ p ∷ []) × IsOut stacks.now self.new p) }
        ensures none { (ps : List Place) → HasReceived stacks.now self.old ps → IfNone result (HasReceived stacks.now self.new ps) }
        ensures empty { IfNone result (Steps (holder_of self.old) (holder_of self.new) (TakeAll (box_of self.old) [])) }
        ensures mailbox { box_of self.new ≡ box_of self.old }
        ensures spent { spent_by (holder_of self.new) ≤ spent_by (holder_of self.old) + 1 }
    {
        self.open(stacks);
        stacks.next(&mut self.holder, &mut self.opened)
    }

    /// Receives all places that had come at one moment of the call, and appends them to `came`. It waits for nobody.
    ///
    /// It requires that its holder has made fewer than 281,474,976,710,656 pushes and calls that take all. If memory runs out, a later call still
    /// receives the places that are not in `came`. It makes a swap, and two loads and a store for each place.
    pub fn receive_all<A: Allocator, B: Allocator>(
        &mut self,
        stacks: &Stacks<A>,
        came: &mut Vec<Place, B>,
    ) -> Result<(), AllocError>
        requires kept { (ps : List Place) × HasReceived stacks.now self.old ps }
        requires room { spent_by (holder_of self.old) < most_steps }
        ensures came { (ps : List Place) → HasReceived stacks.now self.old ps
            → (qs : List Place) × (came.new.items ≡ came.old.items ++ qs) × HasReceived stacks.now self.new (ps ++ qs) }
        ensures all { OnOk result (HasOpened stacks.now self.new []) }
        ensures took { OnOk result ((s : List Place) × Steps (holder_of self.old) (holder_of self.new) (TakeAll (box_of self.old) s)) }
        ensures mailbox { box_of self.new ≡ box_of self.old }
        ensures spent { spent_by (holder_of self.new) ≤ spent_by (holder_of self.old) + 1 }
    {
        self.receive_opened(stacks, came)?;
        self.open(stacks);
        self.receive_opened(stacks, came)
    }

    // Appends the places that the receiver has taken but not returned yet to `came`.
    fn receive_opened<A: Allocator, B: Allocator>(
        &mut self,
        stacks: &Stacks<A>,
        came: &mut Vec<Place, B>,
    ) -> Result<(), AllocError>
        requires kept { (ps : List Place) × HasReceived stacks.now self.old ps }
        ensures came { (ps : List Place) → HasReceived stacks.now self.old ps
            → (qs : List Place) × (came.new.items ≡ came.old.items ++ qs) × HasReceived stacks.now self.new (ps ++ qs) }
        ensures all { OnOk result (HasOpened stacks.now self.new []) }
        ensures holder { holder_of self.new ≡ holder_of self.old }
        ensures mailbox { box_of self.new ≡ box_of self.old }
    {
        while let Some(place) = self.opened.first() {
            came.push(place)?;
            let _ = stacks.next(&mut self.holder, &mut self.opened);
        }
        Ok(())
    }

    // Takes all places that are in the mailbox, if the receiver has returned all places that it took before.
    fn open<A: Allocator>(&mut self, stacks: &Stacks<A>)
        requires kept { (ps : List Place) × HasReceived stacks.now self.old ps }
        requires room { spent_by (holder_of self.old) < most_steps }
        ensures kept { (ps : List Place) → HasReceived stacks.now self.old ps → HasReceived stacks.now self.new ps }
        ensures opened { HasOpened stacks.now self.old [] → (s : List Place) × HasOpened stacks.now self.new (reverse s)
            × Steps (holder_of self.old) (holder_of self.new) (TakeAll (box_of self.old) s) }
        ensures same { (p : Place) (s : List Place) → HasOpened stacks.now self.old (p ∷ s) → self.new ≡ self.old }
        ensures mailbox { box_of self.new ≡ box_of self.old }
        ensures spent { spent_by (holder_of self.new) ≤ spent_by (holder_of self.old) + 1 }
    {
        if self.opened.is_empty() {
            let taken = stacks.take_all(&mut self.holder, self.mailbox);
            self.opened = stacks.reversed(&mut self.holder, taken);
        }
    }

    /// Gives up a received place, so that any holder can send it again. It makes one store.
    pub fn give_up<A: Allocator>(&mut self, stacks: &Stacks<A>, place: Place)
        requires kept { (ps : List Place) × HasReceived stacks.now self.old ps }
        requires out { IsOut stacks.now self.old place }
        ensures kept { (ps : List Place) → HasReceived stacks.now self.old ps → HasReceived stacks.now self.new ps }
        ensures given { GivesUp (record_of (holder_of self.old)) (record_of (holder_of self.new)) place }
        ensures mailbox { box_of self.new ≡ box_of self.old }
        ensures spent { spent_by (holder_of self.new) ≡ spent_by (holder_of self.old) }
    {
        stacks.release(&mut self.holder, place);
    }

    /// Consumes the receiver and returns its holder, for an audit.
    pub fn into_holder(self) -> Holder
        ensures { result ≡ holder_of self }
    {
        self.holder
    }
}

/// States, for use in a caller's proof, the law of a mailbox with one receiver. The places that the receiver got and those that are still in the
/// mailbox are the places that were sent, each once. The places of each sender are in the order in which it sent them.
///
/// An `audit` of all holders gives the history, to which this law applies.
pub fn mail_comes_in_order()
    ensures { (order : List Entry) (parties : List Party) (mailbox : ℕ) (x : Party) → IsHistory order parties
        → Contains parties x → IsOnlyReceiver mailbox x.name parties
        → IsMail mailbox parties (of_record (got mailbox) x.steps) (reverse (stack_after order mailbox)) }
{}
