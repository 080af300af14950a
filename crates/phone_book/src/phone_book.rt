//! The phone book, which has a pool of entries and two trees that contain all of them.
//!
//! ```text
//! book.insert(Entry { number: 5550100, person: 7 })?;
//! book.remove(5550100) // that entry
//! ```

ghost use Rattle.std.specs.Prelude.{◌≡◌, None, IfOk, IfErr, IfSome, IfNone};
ghost use Rattle.std.specs.Option.{option_copied};
ghost use Rattle.ic_link_ops.specs.Prelude.{Place, object_at};
ghost use Rattle.ic_container.specs.Trees.{IsFoundObject};
ghost use Rattle.phone_book.specs.Book.{number_of, person_of, Adds, Removes, IsRefused};

use crate::entry::{ByNumber, ByPerson};
use crate::{Entry, InsertError};
use ic_container::trees;
use ic_link_ops::rbtree::LinkOps;
use ic_pool::Pool;
use ic_rbtree::RBTree;
use ic_unsafe_ref::UnsafeRef;
use std::alloc::{Allocator, Global};
use std::marker::Model;

/// A phone book, whose entries are each in a tree by number and in a tree by person.
///
/// A contract sees the entries by their places.
#[derive(Drop)]
pub struct PhoneBook<A: Allocator = Global> {
    pool: Pool<Entry, (LinkOps<A>, LinkOps<A>), A>,
    by_number: RBTree<ByNumber>,
    by_person: RBTree<ByPerson>,
}

impl<A: Allocator> Model for PhoneBook<A> {
    ghost use Rattle.ic_unsafe_ref.specs.Objects.{Objects, objects_code};
    ghost use Rattle.ic_rbtree.specs.Tree.{root_of};
    ghost use Rattle.phone_book.specs.declared.entry.Entry.{Entry};
    ghost use Rattle.phone_book.specs.Book.{entry_code};
    ghost use Rattle.phone_book.specs.Kept.{IsKept};

    ghost Value = { Objects Entry };

    ghost coded = { objects_code entry_code };

    ghost view = { λ b. b.pool.objects };

    ghost invariant = { λ b. IsKept b.pool.objects b.pool.links.0 (root_of b.by_number) b.pool.links.1 (root_of b.by_person) };
}

impl<A: Allocator> PhoneBook<A> {
    /// Makes a book with no entry. It takes no memory.
    pub fn new(alloc: A) -> PhoneBook<A>
    where
        A: Copy,
        ensures { (place : Place) → object_at result place ≡ None }
    {
        let links = (LinkOps::new(alloc), LinkOps::new(alloc));
        PhoneBook {
            pool: Pool::new(alloc, links),
            by_number: RBTree::new(ByNumber),
            by_person: RBTree::new(ByPerson),
        }
    }

    /// Inserts an entry, and returns its place. It costs O(log n), and makes at most three requests for memory.
    ///
    /// If the entry is refused, the caller gets it back, and nothing has changed. The error is `NumberTaken` exactly if an entry of the book has the
    /// same number, else `NoPlaceLeft` exactly if all 4,294,967,296 places are in use, and otherwise `OutOfMemory`.
    pub fn insert(&mut self, entry: Entry) -> Result<UnsafeRef<Entry>, InsertError>
        ensures added { IfOk result (λ object. Adds object entry self.old self.new) }
        ensures refused { IfErr result (λ refused. IsRefused entry self.old refused × (self.new ≡ self.old)) }
    {
        if self.with_number(entry.number).is_some() {
            return Err(InsertError::NumberTaken(entry));
        }
        let object = match self.pool.place(entry) {
            Ok(object) => object,
            Err(refused) => return Err(InsertError::NotPlaced(refused)),
        };
        let (objects, links) = (&self.pool.objects, &mut self.pool.links);
        trees::insert(&mut self.by_number, &mut links.0, objects, object.place());
        trees::insert(&mut self.by_person, &mut links.1, objects, object.place());
        Ok(object)
    }

    /// Returns the entry with this number, or `None` if no entry has the number. O(log n).
    pub fn with_number(&self, number: u64) -> Option<&Entry>
        ensures { IsFoundObject number_of self.now number (option_copied result) }
    {
        let (objects, links) = (&self.pool.objects, &self.pool.links.0);
        trees::get(&self.by_number, links, objects, number)
    }

    /// Returns an entry of this person, or `None` if the person has no entry. O(log n).
    pub fn of_person(&self, person: u64) -> Option<&Entry>
        ensures { IsFoundObject person_of self.now person (option_copied result) }
    {
        let (objects, links) = (&self.pool.objects, &self.pool.links.1);
        trees::get(&self.by_person, links, objects, person)
    }

    /// Removes the entry with this number and returns it. If no entry has the number, the call returns `None`, and nothing has changed. O(log n), and
    /// it takes no memory.
    pub fn remove(&mut self, number: u64) -> Option<Entry>
        ensures removed { IfSome result (λ entry. Removes number entry self.old self.new) }
        ensures none { IfNone result (IsFoundObject number_of self.old number None × (self.new ≡ self.old)) }
    {
        let (objects, links) = (&self.pool.objects, &mut self.pool.links);
        let place = trees::find(&self.by_number, &links.0, objects, number)?;
        trees::remove(&mut self.by_number, &mut links.0, objects, place);
        trees::remove(&mut self.by_person, &mut links.1, objects, place);
        Some(self.pool.remove(UnsafeRef::new(place)))
    }
}
