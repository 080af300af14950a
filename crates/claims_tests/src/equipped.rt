//! Holders of claims, each together with the claims that all holders share, and the steps that a holder can make.

ghost use Rattle.std.specs.Prelude.{All};
ghost use Rattle.ic_atomic.specs.Holders.{IsOf, record_of};
ghost use Rattle.claims_tests.specs.Held.{Holds};

use ic_atomic::{Claims, Holder};
use ic_unsafe_ref::Place;
use std::alloc::Global;

/// What a step does with a place: it claims the place, gives it up, or checks whether anybody holds it.
#[derive(Clone, Copy)]
pub(crate) enum Act {
    Claim,
    Release,
    Look,
}

/// A holder together with the claims that all holders share.
#[derive(Drop)]
pub(crate) struct HolderWithClaims<'c> {
    claims: &'c Claims,
    holder: Holder,
    // The place that the holder claimed last, if the holder still holds this place.
    held: Option<Place>,
    ghost made: { IsOf claims.now holder },
    ghost holding: { Holds (record_of holder) held },
}

impl HolderWithClaims<'_> {
    /// Makes the step on the place with this index, and returns the result that a core would return. A release returns true if the holder still holds
    /// the place and claimed it last. If the claims do not have the place, the call makes no step and returns false.
    pub(crate) fn make(&mut self, act: Act, index: usize) -> bool {
        let HolderWithClaims {
            claims,
            holder,
            held,
        } = self;
        let Some(place) = Place::new(index) else {
            return false;
        };
        if index >= claims.places() {
            return false;
        }
        match act {
            Act::Claim => {
                let is_had = claims.claim(holder, place);
                if is_had {
                    *held = Some(place);
                }
                is_had
            }
            Act::Release => match *held {
                Some(last) if last.index() == index => {
                    claims.release(holder, last);
                    *held = None;
                    true
                }
                _ => false,
            },
            Act::Look => claims.look(holder, place),
        }
    }
}

/// Returns each holder together with the claims, the last holder first, as far as there is memory for them.
pub(crate) fn equipped<'c>(
    alloc: Global,
    claims: &'c Claims,
    mut holders: Vec<Holder>,
) -> Vec<HolderWithClaims<'c>>
    requires { All (λ h. IsOf claims.now h) holders.items }
{
    let mut equipped = Vec::new(alloc);
    while let Some(holder) = holders.pop() {
        let _ = equipped.push(HolderWithClaims {
            claims,
            holder,
            held: None,
        });
    }
    equipped
}
