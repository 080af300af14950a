//! A tree is an index, which finds objects by their keys.

ghost use Rattle.std.specs.Prelude.{◌≡◌, None, length};
ghost use Rattle.ic_rbtree.specs.Prelude.{root_of, node_by};
ghost use Rattle.ic_link_ops.specs.PlainTables.{linked_by, table};
ghost use Rattle.ic_container.specs.Trees.{HasAllIn};
ghost use Rattle.ic_container.specs.TreeLaws.{all_grown, all_alike};
ghost use Rattle.ic_indexed.specs.Indexed.{WithinComparisonBound};

use crate::{ByKey, HasKey, Index};
use ic_link_ops::{NodeWords, PlainTable, PrevPlace};
use ic_rbtree::{KeyProbe, RBTree};
use ic_unsafe_ref::{Objects, Place, UnsafeRef};
use std::alloc::Allocator;

impl<T: HasKey, W: NodeWords, O: PrevPlace, A: Allocator> Index<T, A> for RBTree<ByKey<T, W, O>> {
    type Links = PlainTable<W, A>;

    type Order = O;

    ghost Has = { λ tree links objects. HasAllIn (node_by W.node) (linked_by W.is_linked) (table W.width W.unlinked) T.key_of links (root_of tree) objects };

    ghost IsNew = { λ tree. root_of tree ≡ None };

    ghost parts = { λ tree. 1 };

    ghost IsFew = { λ parts key values looks. WithinComparisonBound looks (length values) };

    fn new_links(&self, alloc: A) -> PlainTable<W, A> {
        PlainTable::new(alloc)
    }

    fn find_key(
        &self,
        links: &Self::Links,
        objects: &Objects<T, A>,
        key: u64,
    ) -> (Option<Place>, u64) {
        let mut probe = KeyProbe::new(ByKey::new(), &key);
        let place = self.find_by(links, objects, &mut probe).get_ptr();
        (place, probe.looks())
    }

    fn insert_place(&mut self, links: &mut Self::Links, objects: &Objects<T, A>, place: Place) {
        let _ = self.insert(links, objects, UnsafeRef::new(place)); // proved: it is not linked
    }

    fn remove_place(&mut self, links: &mut Self::Links, objects: &Objects<T, A>, place: Place) {
        let _ = objects;
        self.remove(links, &UnsafeRef::new(place));
    }

    ghost has_grown = { λ tree old new objects grows all. all_grown T.key_of objects all new grows };

    ghost has_alike = { λ tree links old new place out value there puts same all. all_alike T.key_of old all there puts same };
}
