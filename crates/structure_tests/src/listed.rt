//! A test of objects that are all in one list. The caller keeps the numbers that it has met, the newest first, over links of 8-byte and of 4-byte
//! words.

ghost use Rattle.std.specs.Prelude.{◌≡◌, IfSome, Some};
ghost use Rattle.ic_unsafe_ref.specs.Objects.{object_at};

use crate::asserts::{assert_same, assert_true};
use ic_container::{Listed, NarrowListed};
use ic_link_ops::PrevPlace;
use ic_unsafe_ref::UnsafeRef;
use std::alloc::Allocator;
use std::process::Abort;

// Moves a number that was met before to the front, and replaces it by the new number. Returns the old number, or `None` if the number is no longer in
// the list.
fn renew<A: Allocator, W: PrevPlace>(
    numbers: &mut Listed<u64, A, W>,
    met: &UnsafeRef<u64>,
    number: u64,
) -> Option<u64>
    ensures there { IfSome result (λ old. object_at numbers.old.values met.now ≡ Some old) }
    ensures renewed { IfSome result (λ old. object_at numbers.new.values met.now ≡ Some number) }
{
    if !numbers.is_placed(met) {
        return None;
    }
    numbers.move_to_front(met.place());
    Some(numbers.replace(met.place(), number))
}

// Removes the oldest number, if there is one, and returns it.
fn forget_oldest<A: Allocator, W: PrevPlace>(numbers: &mut Listed<u64, A, W>) -> Option<u64> {
    let oldest = numbers.last()?;
    Some(numbers.remove(oldest))
}

// Moves the newest number to the back, then removes the first number and the last one, and returns both.
fn take_ends<A: Allocator, W: PrevPlace>(
    numbers: &mut Listed<u64, A, W>,
) -> (Option<u64>, Option<u64>) {
    if let Some(newest) = numbers.first() {
        numbers.move_to_back(newest);
    }
    (numbers.pop_first(), numbers.pop_last())
}

fn meet_numbers<A: Allocator, W: PrevPlace>(rt: &impl Abort, numbers: &mut Listed<u64, A, W>) {
    assert_same(rt, forget_oldest(numbers), None);
    let first = numbers.place_front(10).expect(rt, "memory");
    let second = numbers.place_front(20).expect(rt, "memory");
    assert_same(rt, numbers.first(), Some(second.place()));
    let _after = numbers.place_back(30).expect(rt, "memory");
    assert_same(rt, forget_oldest(numbers), Some(30));
    assert_same(rt, renew(numbers, &first, 11), Some(10));
    assert_same(rt, numbers.first(), Some(first.place()));
    assert_same(rt, forget_oldest(numbers), Some(20));
    assert_true(rt, numbers.get(&second).is_none());
    assert_same(rt, renew(numbers, &second, 21), None);
    assert_same(rt, forget_oldest(numbers), Some(11));
}

// Inserts at the front a number that the caller has met for the first time.
fn meet<A: Allocator, W: PrevPlace>(rt: &impl Abort, numbers: &mut Listed<u64, A, W>, number: u64) {
    assert_true(rt, numbers.place_front(number).is_ok());
}

// Returns whether `number` is the only number in the list.
fn is_only<A: Allocator, W: PrevPlace>(numbers: &Listed<u64, A, W>, number: u64) -> bool {
    let mut walk = numbers.iter();
    let is_first = walk.next().copied() == Some(number);
    is_first & walk.next().is_none()
}

// Inserts three numbers, and removes the second newest and then the newest one. The oldest number must be the only one left.
fn take_two<A: Allocator, W: PrevPlace>(rt: &impl Abort, numbers: &mut Listed<u64, A, W>) {
    assert_true(rt, numbers.is_empty());
    meet(rt, numbers, 10);
    meet(rt, numbers, 20);
    meet(rt, numbers, 30);
    let (second, newest) = take_ends(numbers);
    assert_same(rt, second, Some(20));
    assert_same(rt, newest, Some(30));
    assert_true(rt, is_only(numbers, 10));
}

#[test]
fn numbers_are_met(rt: HostRuntime) {
    let mut wide: Listed<u64> = Listed::new(rt.alloc());
    meet_numbers(&rt, &mut wide);
    take_two(&rt, &mut wide);
    let mut narrow: NarrowListed<u64> = Listed::with_words(rt.alloc());
    meet_numbers(&rt, &mut narrow);
    take_two(&rt, &mut narrow);
}
