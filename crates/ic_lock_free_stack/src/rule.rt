//! The rule of the words, and what a holder knows after each kind of step.

use crate::held::{HeldAccounts, Size};
use atomic_table::{Join, Play, Split, TableRule};

// The rule that holds between any two steps: the words and the accounts of all seats agree with one history.
pub(crate) struct OneHistory;

impl TableRule<(), HeldAccounts, Size> for OneHistory {
    ghost use Rattle.ic_lock_free_stack.specs.Held.{all_fresh};
    ghost use Rattle.ic_lock_free_stack.specs.Rule.{Rule};

    ghost holds = { Rule };

    ghost first = { all_fresh };
}

// The step of a claim: a compare-exchange of a place's word from 0 to 1.
pub(crate) struct Claimed;

impl Play<(), HeldAccounts> for Claimed {
    ghost use Rattle.ic_lock_free_stack.specs.Plays.{claimed};

    ghost then = { claimed };
}

// The step of a release: a store of 0 in a place's word.
pub(crate) struct Released;

impl Play<(), HeldAccounts> for Released {
    ghost use Rattle.ic_lock_free_stack.specs.Plays.{released};

    ghost then = { released };
}

// The step that reads a head before a push: a load of the head.
pub(crate) struct Looked;

impl Play<(), HeldAccounts> for Looked {
    ghost use Rattle.ic_lock_free_stack.specs.Plays.{looked};

    ghost then = { looked };
}

// The step that links a place that its holder holds: a store of a link to the next place, or of the head of a stack, in the place's word.
pub(crate) struct Linked;

impl Play<(), HeldAccounts> for Linked {
    ghost use Rattle.ic_lock_free_stack.specs.Plays.{linked};

    ghost then = { linked };
}

// The step of a push: a compare-exchange of a head from the value that was seen to a link to a place.
pub(crate) struct Tried;

impl Play<(), HeldAccounts> for Tried {
    ghost use Rattle.ic_lock_free_stack.specs.Plays.{tried};

    ghost then = { tried };
}

// The step that takes all members of a stack: a swap of its head with the word of an empty stack.
pub(crate) struct TookAll;

impl Play<(), HeldAccounts> for TookAll {
    ghost use Rattle.ic_lock_free_stack.specs.Plays.{took_all};

    ghost then = { took_all };
}

// A load of a head after which the holder knows the stack's members.
pub(crate) struct Peeked;

impl Play<(), HeldAccounts> for Peeked {
    ghost use Rattle.ic_lock_free_stack.specs.Plays.{peeked};

    ghost then = { peeked };
}

// A load of the word of a place, if the holder knows this word.
pub(crate) struct Followed;

impl Play<(), HeldAccounts> for Followed {
    ghost use Rattle.ic_lock_free_stack.specs.Plays.{followed};

    ghost then = { followed };
}

// The load by which a new seat is made. The new seat has no account.
pub(crate) struct Seated;

impl Play<(), HeldAccounts> for Seated {
    ghost use Rattle.ic_lock_free_stack.specs.Plays.{seated};

    ghost then = { seated };
}

// The load after which it is known that the accounts of all seats have one history.
pub(crate) struct Compared;

impl Play<(), HeldAccounts> for Compared {
    ghost use Rattle.ic_lock_free_stack.specs.Plays.{compared};

    ghost then = { compared };
}

// The first account of a seat moves to a new seat.
pub(crate) struct FirstOff;

impl Split<HeldAccounts> for FirstOff {
    ghost use Rattle.ic_lock_free_stack.specs.Held.{without_first, only_first};

    ghost left = { without_first };

    ghost right = { only_first };
}

// The accounts of another seat are appended to the accounts of a seat.
pub(crate) struct After;

impl Join<HeldAccounts> for After {
    ghost use Rattle.ic_lock_free_stack.specs.Held.{both_hands, nothing_left};

    ghost both = { both_hands };

    ghost spent = { nothing_left };
}
