//! The most frequent calls. A frequent call is made as soon as its name and its arguments are read.
//!
//! ```text
//! answer_fast(&mut world, b"push_back 0 3\n..") // the answer, and the text after the line
//! answer_fast(&mut world, b"show 0\n..")        // None: another line, which may be a call too
//! ```

ghost use Rattle.std.specs.Prelude.{◌≡◌, ℕ, false, Some, IfSome, IfNone, IsTrue};
ghost use Rattle.std.specs.Ordering.{nat_cmp};
ghost use Rattle.ic_world.specs.declared.call.Command.{Command};
ghost use Rattle.ic_world_laws.specs.Runs.{IsLawful};
ghost use Rattle.ic_program.specs.Grammar.{command_in};
ghost use Rattle.ic_program.specs.Played.{own_key};
ghost use Rattle.ic_program.specs.ShortAnswers.{reply_of_short};
ghost use Rattle.ic_program.specs.Slots.{is_fast, IsNoCallAt};
ghost use Rattle.ic_program.specs.Text.{after_line, begins_with, words_in};

use crate::line::{one, two};
use crate::own_key::OwnKey;
use crate::short_answer::{ShortAnswer, done, found, replaced};
use ic_world::{Call, Command, Gap, Neighbor, Seek, World};
use std::alloc::Allocator;

// A row of the table of calls, which is tried if the text may begin with the name in the row. With `read`, the row returns the command and the text
// after the line. With `make`, it makes the call, and returns the answer and the text after the line.
macro_rules! row {
    ((read $text:ident) $method:ident($first:ident) = $name:literal, $answer:ident, $command:expr) => {{
        let ($first, rest) = one($text, $name)?;
        Some(($command, rest))
    }};
    ((make $world:ident $text:ident) $method:ident($first:ident) = $name:literal, $answer:ident, $command:expr) => {{
        let ($first, rest) = one($text, $name)?;
        Some(($answer($world.$method($first)), rest))
    }};
    ((read $text:ident) $method:ident($first:ident, $second:ident) = $name:literal, $answer:ident, $command:expr) => {{
        let ($first, $second, rest) = two($text, $name)?;
        Some(($command, rest))
    }};
    ((make $world:ident $text:ident) $method:ident($first:ident, $second:ident) = $name:literal, $answer:ident, $command:expr) => {{
        let ($first, $second, rest) = two($text, $name)?;
        Some(($answer($world.$method($first, $second)), rest))
    }};
    // Two names that begin alike are in one row. If the text does not begin with the first name, it is compared with the second name.
    ((read $text:ident) $method:ident($first:ident, $second:ident) = $name:literal, $answer:ident, $command:expr; $($other:tt)*) => {
        match two($text, $name) {
            Some(($first, $second, rest)) => Some(($command, rest)),
            None => row!((read $text) $($other)*),
        }
    };
    ((make $world:ident $text:ident) $method:ident($first:ident, $second:ident) = $name:literal, $answer:ident, $command:expr; $($other:tt)*) => {
        match two($text, $name) {
            Some(($first, $second, rest)) => Some(($answer($world.$method($first, $second)), rest)),
            None => row!((make $world $text) $($other)*),
        }
    };
}

// The slot of a row. A row has one slot for reading the call (`read`), and another slot for making the call (`make`).
macro_rules! slot {
    ((read $text:ident) $slot:pat, $fast:pat) => {
        $slot
    };
    ((make $world:ident $text:ident) $slot:pat, $fast:pat) => {
        $fast
    };
}

// The command for a call of one collection.
macro_rules! on {
    ($collection:ident, $call:ident($($given:tt)*)) => {
        Command::On($collection, Call::$call($($given)*))
    };
}

// THE TABLE of the most frequent calls. Each row has the slot by `slot_of` and the slot by `fast_slot_of`, the method of a world, the arguments, the
// name, the kind of answer, and the command.
macro_rules! fast_calls {
    ($slot:expr, $way:tt) => {
        match $slot {
            slot!($way 13, 0) => row!($way push_front(collection, object) = b"push_front ", done, on!(collection, Put(Gap::Front, object))),
            slot!($way 47, 6) => row!($way push_back(collection, object) = b"push_back ", done, on!(collection, Put(Gap::Back, object))),
            slot!($way 6, 15) => row!($way pop_front(collection) = b"pop_front ", found, on!(collection, Take(Gap::Front))),
            slot!($way 11, 14) => row!($way pop_back(collection) = b"pop_back ", found, on!(collection, Take(Gap::Back))),
            slot!($way 39, 7) => row!($way move_next(collection) = b"move_next ", found, on!(collection, Move(Neighbor::Next))),
            slot!($way 53, 1) => row!($way move_prev(collection) = b"move_prev ", found, on!(collection, Move(Neighbor::Prev))),
            slot!($way 49, 9) => row!($way go_null(collection) = b"go_null ", done, on!(collection, Seek(Seek::Null))),
            slot!($way 20, 2) => row!($way current(collection) = b"current ", found, Command::Current(collection)),
            slot!($way 45, 13) => row!($way insert_after(collection, object) = b"insert_after ", done, on!(collection, Put(Gap::After, object))),
            slot!($way 41, 5) => row!($way insert_before(collection, object) = b"insert_before ", done, on!(collection, Put(Gap::Before, object))),
            slot!($way 48, 3 | 11) => row!($way remove(collection) = b"remove ", found, on!(collection, Take(Gap::Before))),
            slot!($way 61, 4) => row!($way remove_next(collection) = b"remove_next ", found, on!(collection, Take(Gap::After))),
            slot!($way 38, 8) => row!($way replace_with(collection, object) = b"replace_with ", replaced, on!(collection, Swap(Gap::Before, object));
                replace_next_with(collection, object) = b"replace_next_with ", replaced, on!(collection, Swap(Gap::After, object))),
            _ => None,
        }
    };
}

// The slot of a text that is shorter than any call.
const NO_SLOT: u64 = 12;

// Returns which of 16 slots the first eight bytes of a text have. Two names that begin alike share a slot. The name `remove` has two slots, because
// the eighth byte of its line is a digit. No proof depends on the slots: a call in a wrong slot would still be found, but later.
#[inline(always)]
fn fast_slot_of(text: &[u8]) -> u64 {
    let Some(bytes) = text.first_chunk::<8>() else {
        return NO_SLOT;
    };
    u64::from_le_bytes(*bytes).wrapping_mul(0x4696_eecd_d99b_1280) >> 60
}

/// Makes the call in the first line of a text, if the call is in the table. It returns the answer and the text after the line. If it returns `None`,
/// it has made no call, and the line may still be any call. It chooses a row by the first letters of the line, and compares the line with the names
/// of this row only. O(1), plus the cost of the call.
#[inline(always)]
pub(crate) fn answer_fast<'l, M: Allocator + Copy>(
    world: &mut World<OwnKey, M>,
    text: &'l [u8],
) -> Option<(ShortAnswer, &'l [u8])>
    ensures answered { IfSome result (λ made. (command : Command ℕ ℕ) × (command_in (words_in text.now) ≡ Some command)
        × IsLawful nat_cmp own_key world.old command (reply_of_short made.0) world.new × (made.1.now ≡ after_line text.now)) }
    ensures none { IfNone result (world.new ≡ world.old) }
{
    world.family_is_sound();
    fast_calls!(fast_slot_of(text), (make world text))
}

/// Reads the call in the first line of a text, if the call is in the table and has this slot. It returns the call and the text after the line.
pub(crate) fn fast_call_at<'l>(slot: u64, text: &'l [u8]) -> Option<(Command<u64, u64>, &'l [u8])>
    ensures said { IfSome result (λ read. (command_in (words_in text.now) ≡ Some read.0) × (read.1.now ≡ after_line text.now)) }
    ensures none { IfNone result (begins_with 32 text.now ≡ false → IsTrue (is_fast slot) → IsNoCallAt slot (words_in text.now)) }
{
    fast_calls!(slot, (read text))
}
