//! What the tests of trees share: each number is its own key, and the keys are stored beside the links.

ghost use Rattle.std.specs.Prelude.{◌≡◌, ◌<◌, length};
ghost use Rattle.ic_rbtree.specs.KeyedTrees.{keyed_table};

use ic_link_ops::LinkValues;
use ic_link_ops::rbtree::LinkOpsWith;
use ic_rbtree::KeyAdapter;
use ic_test_support::objects::place_at;
use std::alloc::Global;
use std::process::Abort;

/// Says that a number is its own key.
#[derive(Clone, Copy)]
pub(crate) struct OwnKey;

impl KeyAdapter for OwnKey {
    type Value = u64;

    type Key = u64;

    ghost key_of = { λ _ value. value };

    fn get_key<'v>(&self, value: &'v u64) -> &'v u64 {
        value
    }
}

/// Makes a table of links that covers as many places as there are keys, and stores a key at each of these places.
pub(crate) fn keyed_links(rt: &impl Abort, alloc: Global, keys: &[u64]) -> LinkOpsWith<u64>
    requires { length keys.now < 4294967296 }
    ensures covers { (keyed_table result).extent.places ≡ length keys.now }
{
    let mut links: LinkOpsWith<u64> = LinkOpsWith::new(alloc);
    let _ = links.cover(keys.len());
    for index in 0..keys.len() {
        let place = place_at(index);
        if place.index() < links.covers() {
            links.set_value(place, keys[index]);
        }
    }
    assert!(rt; links.covers() == keys.len());
    links
}
