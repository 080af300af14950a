//! A table that records each of its link steps, for a log, or to see what a collection does.
//!
//! ```text
//! let mut links = RecordedTable::new(links, recorder);
//! let popped = links.pop_front(&mut list); // one note: the object was released
//! ```

ghost use Rattle.std.specs.Prelude.{◌≡◌, List, [], ◌∷◌, ◌++◌, IfSome, IfNone, OnOk, OnErr, IfErr};
ghost use Rattle.ic_link_ops.specs.Prelude.{Place, first, insert, remove, at_front, at_back, IsCovered, releases_each, no_members};
ghost use Rattle.ic_link_ops.specs.LinkedList.{Represents, RepresentsSome};
ghost use Rattle.uses.specs.Notes.{noted};
ghost use Rattle.uses.specs.declared.recorded_table.Note.{Note};
ghost use Rattle.uses.specs.declared.recorded_table.Note.TheVariants.{Acquired, Refused, Released};

use ic_link_ops::linked_list::LinkedListOps;
use ic_link_ops::{AlreadyLinked, LinkOps};
use ic_linked_list::LinkedList;
use ic_unsafe_ref::{Place, UnsafeRef};

/// A note of a link step of a table, or of an attempt to link a place that was refused.
#[derive(Clone, Copy, PartialEq, Eq, Debug)]
pub enum Note {
    /// The place was linked.
    Acquired(Place),
    /// The place could not be linked.
    Refused(Place),
    /// The place was unlinked.
    Released(Place),
}

/// Something that stores notes.
pub trait Recorder {
    // The notes that the recorder has stored so far, in order.
    ghost notes: { Self → List Note };

    /// Adds a note after all stored notes.
    fn add(&mut self, note: Note)
        ensures { notes self.new ≡ notes self.old ++ note ∷ [] };
}

/// A table of links that records each link step, and each refused attempt to link a place, in order.
#[derive(Drop)]
pub struct RecordedTable<L, R> {
    links: L,
    recorder: R,
}

impl<L: LinkOps, R: Recorder> LinkOps for RecordedTable<L, R> {
    ghost use Rattle.uses.specs.Notes.{noted, noted_none, noted_on};
    ghost use Rattle.uses.specs.declared.recorded_table.Note.TheVariants.{Refused};

    type Entry = L::Entry;

    ghost table = { λ t. L.table t.links };

    ghost linked = { L.linked };

    ghost CanName = { L.CanName };

    ghost Trace = { λ old new s. L.Trace old.links new.links s
        × (R.notes new.recorder ≡ R.notes old.recorder ++ noted s) };

    ghost Refused = { λ old new p. L.Refused old.links new.links p
        × (R.notes new.recorder ≡ R.notes old.recorder ++ Refused p ∷ []) };

    fn acquire_link(&mut self, place: Place) -> bool {
        if self.links.acquire_link(place) {
            self.recorder.add(Note::Acquired(place));
            true
        } else {
            self.recorder.add(Note::Refused(place));
            false
        }
    }

    fn release_link(&mut self, place: Place) {
        self.links.release_link(place);
        self.recorder.add(Note::Released(place));
    }

    ghost linked_is_covered = { λ t p h. L.linked_is_covered t.links p h };

    ghost covered_has_name = { λ t p covered. L.covered_has_name t.links p covered };

    ghost does_nothing = { λ t. (L.does_nothing t.links, noted_none (R.notes t.recorder)) };

    ghost does_on = { λ a b c s t h k. (L.does_on a.links b.links c.links s t h.0 k.0, noted_on s t _ _ _ h.1 k.1) };

    ghost does_replay = { λ old new s h. L.does_replay old.links new.links s h.0 };

    ghost refused_keeps = { λ old new p h. L.refused_keeps old.links new.links p h.0 };
}

impl<L: LinkedListOps, R: Recorder> LinkedListOps for RecordedTable<L, R> {
    ghost neighbors = { L.neighbors };

    fn next(&self, place: Place) -> Option<Place> {
        self.links.next(place)
    }

    fn prev(&self, place: Place) -> Option<Place> {
        self.links.prev(place)
    }

    fn set_next(&mut self, place: Place, next: Option<Place>) {
        self.links.set_next(place, next);
    }

    fn set_prev(&mut self, place: Place, prev: Option<Place>) {
        self.links.set_prev(place, prev);
    }

    ghost linked_alike = { L.linked_alike };
}

impl<L: LinkedListOps, R: Recorder> RecordedTable<L, R> {
    ghost use Rattle.uses.specs.RecordedTables.{links_of, notes_of};

    /// Makes a recorded table over `links`, which adds a note of each of its link steps to `recorder` from now on.
    pub fn new(links: L, recorder: R) -> RecordedTable<L, R>
        ensures links { links_of result ≡ links }
        ensures notes { notes_of R.notes result ≡ R.notes recorder }
    {
        RecordedTable { links, recorder }
    }

    /// Returns the recorder, with its notes.
    pub fn recorder(&self) -> &R
        ensures { R.notes result.now ≡ notes_of R.notes self.now }
    {
        &self.recorder
    }

    /// Removes the first object of a list, and adds one note, which says that this object was released. If it returns `None`, it adds no note. O(1).
    ///
    /// It requires that the table represents a sequence for the list.
    pub fn pop_front<T>(&mut self, list: &mut LinkedList<T>) -> Option<UnsafeRef<T>>
        requires shown { RepresentsSome L.neighbors (L.table (links_of self.old)) list.old }
        ensures answer { (s : List Place) → Represents L.neighbors (L.table (links_of self.old)) list.old s → result ≡ first s }
        ensures removed { (s : List Place) → Represents L.neighbors (L.table (links_of self.old)) list.old s
            → Represents L.neighbors (L.table (links_of self.new)) list.new (remove (at_front s)) }
        ensures noted { IfSome result (λ object.
            notes_of R.notes self.new ≡ notes_of R.notes self.old ++ Released object ∷ []) }
        ensures empty { IfNone result ((list.new ≡ list.old) × (self.new ≡ self.old)) }
    {
        list.pop_front(self)
    }

    /// Inserts an object at the back of a list, and adds one note, which says whether its link was acquired or refused. O(1).
    ///
    /// It requires that the table covers the object's place and represents a sequence for the list.
    pub fn push_back<T>(
        &mut self,
        list: &mut LinkedList<T>,
        object: UnsafeRef<T>,
    ) -> Result<(), AlreadyLinked<T>>
        requires covered { IsCovered (L.table (links_of self.old)) object }
        requires shown { RepresentsSome L.neighbors (L.table (links_of self.old)) list.old }
        ensures inserted { (s : List Place) → Represents L.neighbors (L.table (links_of self.old)) list.old s
            → OnOk result (Represents L.neighbors (L.table (links_of self.new)) list.new (insert (at_back s) object)) }
        ensures noted { OnOk result (notes_of R.notes self.new ≡ notes_of R.notes self.old ++ Acquired object ∷ []) }
        ensures refused { OnErr result (L.Refused (links_of self.old) (links_of self.new) object
            × (notes_of R.notes self.new ≡ notes_of R.notes self.old ++ Refused object ∷ [])) }
        ensures unchanged { IfErr result (λ refused. (refused.0 ≡ object) × (list.new ≡ list.old)) }
    {
        list.push_back(self, object)
    }

    /// Clears a list, and adds one note for each member, in order, which says that the member was released. It adds no other note. It takes one step
    /// for each member.
    ///
    /// It requires that the table represents a sequence for the list.
    pub fn clear<T>(&mut self, list: &mut LinkedList<T>)
        requires shown { RepresentsSome L.neighbors (L.table (links_of self.old)) list.old }
        ensures empty { list.new ≡ no_members }
        ensures released { (s : List Place) → Represents L.neighbors (L.table (links_of self.old)) list.old s
            → L.Trace (links_of self.old) (links_of self.new) (releases_each s) }
        ensures noted { (s : List Place) → Represents L.neighbors (L.table (links_of self.old)) list.old s
            → notes_of R.notes self.new ≡ notes_of R.notes self.old ++ noted (releases_each s) }
    {
        list.clear(self);
    }
}
