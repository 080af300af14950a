//! Laws of histories, and what they imply for stacks.

ghost use Rattle.std.specs.Prelude.{◌≡◌, ℕ, ◌+◌, false, List, [], ◌∷◌, ◌++◌, reverse};
ghost use Rattle.ic_unsafe_ref.specs.declared.place.Place.{Place};
ghost use Rattle.ic_lock_free_stack.specs.declared.step.Step.{Step};
ghost use Rattle.ic_lock_free_stack.specs.declared.step.Step.TheVariants.{Push, TakeAll};
ghost use Rattle.ic_lock_free_stack.specs.declared.step.Entry.{Entry};
ghost use Rattle.ic_lock_free_stack.specs.OneHistory.{IsSeen, GoesOn, Party, IsHistory};
ghost use Rattle.ic_lock_free_stack.specs.Counts.{times, puts, takes_out, in_all, OneStepOn};
ghost use Rattle.ic_lock_free_stack.specs.Orders.{sent, got, of_history};
ghost use Rattle.ic_lock_free_stack.specs.Moments.{entry, at_first, is_in, is_stacked, IsOnce, IsLegal, is_on_stack, stack_after, place_after};

/// The law of the records of all holders: no place is lost, and no place is taken twice for one push.
///
/// A place was pushed to a stack as often as the place was taken from this stack, and once more if the place is in the stack.
pub fn nothing_is_lost()
    ensures { (order : List Entry) (parties : List Party) → IsHistory order parties → (k : ℕ) (p : Place)
        → in_all (puts k p) parties ≡ in_all (takes_out k p) parties + times p (stack_after order k) }
{}

/// The law of order: in the order of the pushes, the places pushed to a stack are the places taken from it, followed by the places left in it.
///
/// Of the places of one push, the last one counts as pushed first.
pub fn places_come_in_order()
    ensures { (order : List Entry) (k : ℕ) → IsLegal at_first order
        → of_history (sent k) order ≡ of_history (got k) order ++ reverse (stack_after order k) }
{}

/// The law of calls in turn: if a call makes one step and no other holder makes one, the history gains exactly this step.
///
/// For one thread that has all holders, the stacks are therefore plain lists: the laws of a history state how each call changes them.
pub fn calls_go_in_turn()
    ensures { (order new last : List Entry) (parties later : List Party) (h : ℕ) (e : Step) → IsHistory order parties
        → GoesOn h order e new → IsSeen new last → IsHistory last later → OneStepOn parties later h e
        → last ≡ order ++ entry h e ∷ [] }
{}

/// The laws of a history in which each step is possible at its moment.
///
/// A push adds its places at the front of its stack. A call that takes all returns exactly the members of the stack, and leaves it empty. Only pushes and these
/// calls change a stack. The members of a stack are the places that are in the stack, each once.
pub fn history_laws()
    ensures pushes { (order : List Entry) (h k : ℕ) (s : List Place)
        → stack_after (order ++ entry h (Push k s) ∷ []) k ≡ s ++ stack_after order k }
    ensures takes { (order : List Entry) (h k : ℕ) (s : List Place) → IsLegal at_first (order ++ entry h (TakeAll k s) ∷ [])
        → (s ≡ stack_after order k) × (stack_after (order ++ entry h (TakeAll k s) ∷ []) k ≡ []) }
    ensures others { (order : List Entry) (h k : ℕ) (e : Step) → is_on_stack k e ≡ false
        → stack_after (order ++ entry h e ∷ []) k ≡ stack_after order k }
    ensures members { (order : List Entry) (k : ℕ) (p : Place) → IsLegal at_first order
        → is_in p (stack_after order k) ≡ is_stacked k (place_after order p) }
    ensures once { (order : List Entry) (k : ℕ) → IsLegal at_first order → IsOnce (stack_after order k) }
{}
