//! The type `ConnectionTable` and its calls.
//!
//! ```text
//! let mut table = ConnectionTable::new(rt.alloc());
//! table.open(7)?;
//! table.advance_to(30);
//! table.touch(7); // true
//! table.expire(1, &mut gone)?; // the one that was idle for longest
//! ```

ghost use Rattle.std.specs.Prelude.{◌≡◌, ℕ, ◌<◌, ◌∷◌, ◌++◌, [], None, length, min, max, is_some, IfErr, OnOk, OnErr, MatchOption, MatchBool};
ghost use Rattle.std.specs.List.{AllByRecursion};
ghost use Rattle.std.specs.Option.{option_copied};

use crate::{Connection, OpenError};
use ic_keyed::{ByKey, Index, InsertError, Keyed};
use ic_rbtree::RBTree;
use std::alloc::{AllocError, Allocator, Global};
use std::marker::Model;

/// Connections that are open, and a clock.
///
/// A contract sees the connections, from the one that was touched last to the one that has been idle for longest. No two connections have the same id. Each
/// was touched no earlier than the connection after it, and no later than the clock's time (`IsSound`).
#[derive(Drop)]
pub struct ConnectionTable<I: Index<Connection, A>, A: Allocator = Global> {
    live: Keyed<Connection, I, A>,
    clock: u64,
}

/// A table whose index is a tree, so that it finds a connection in O(log n).
pub type TreeConnections<A = Global> = ConnectionTable<RBTree<ByKey<Connection>>, A>;

impl<I: Index<Connection, A>, A: Allocator> Model for ConnectionTable<I, A> {
    ghost use Rattle.connections.specs.Table.{Table, IsAged};

    ghost Value = { Table };

    ghost view = { λ t. record { live = t.live.values; clock = t.clock } };

    ghost invariant = { λ t. IsAged t.clock t.live.values };
}

impl<A: Allocator> ConnectionTable<RBTree<ByKey<Connection>>, A> {
    /// Makes a table without connections, with a tree as the index. It takes no memory.
    pub fn new(alloc: A) -> TreeConnections<A>
    where
        A: Copy,
        ensures live { result.live ≡ [] }
        ensures clock { result.clock ≡ 0 }
    {
        ConnectionTable {
            live: Keyed::new(alloc),
            clock: 0,
        }
    }
}

impl<I: Index<Connection, A>, A: Allocator> ConnectionTable<I, A> {
    ghost use Rattle.connections.specs.Table.{connection_with, others_than, with_live, seen_now, IsSound, IsActive, IsRefused, EndsIdle, Expires, ExpiresIdle};

    /// Makes a table without connections, with this index: `ConnectionTable::with_index(rt.alloc(), HashIndex::new(buckets))`. It takes no memory.
    ///
    /// It requires that the index is new.
    pub fn with_index(alloc: A, index: I) -> ConnectionTable<I, A>
    where
        A: Copy,
        requires new { I.IsNew index }
        ensures live { result.live ≡ [] }
        ensures clock { result.clock ≡ 0 }
    {
        ConnectionTable {
            live: Keyed::with_index(alloc, index),
            clock: 0,
        }
    }

    /// Returns the connection with the id, if it is open, without touching it.
    pub fn find(&self, id: u64) -> Option<&Connection>
        ensures found { option_copied result ≡ connection_with id self.now.live }
        ensures sound { IsSound self.now }
    {
        self.live.keys_differ();
        self.live.peek(id)
    }

    /// Opens a connection with the id, which is then the connection that was touched last.
    ///
    /// The call is refused if a connection with the id is open, or if there is no room for one more connection. Then nothing has changed.
    pub fn open(&mut self, id: u64) -> Result<(), OpenError>
        ensures opened { OnOk result ((connection_with id self.old.live ≡ None) × (self.new ≡ with_live self.old (seen_now id self.old ∷ self.old.live))) }
        ensures refused { IfErr result (λ error. IsRefused error id self.old.live × (self.new ≡ self.old)) }
    {
        let connection = Connection {
            id,
            seen: self.clock,
        };
        match self.live.insert(connection) {
            Ok(()) => {}
            Err(InsertError::KeyTaken(_)) => return Err(OpenError::AlreadyOpen),
            Err(InsertError::NoRoom(_)) => return Err(OpenError::NoRoom),
        }
        Ok(())
    }

    /// Touches the connection with the id, so that it is the one that was touched last, and returns whether there is one. It takes no memory.
    pub fn touch(&mut self, id: u64) -> bool
        ensures found { result ≡ is_some (connection_with id self.old.live) }
        ensures touched { MatchBool result (self.new ≡ with_live self.old (seen_now id self.old ∷ others_than id self.old.live)) (self.new ≡ self.old) }
    {
        let connection = Connection {
            id,
            seen: self.clock,
        };
        let Ok(_was) = self.live.replace(connection) else {
            return false;
        };
        true
    }

    /// Closes the connection with the id and returns it, if there is one. It takes no memory.
    pub fn close(&mut self, id: u64) -> Option<Connection>
        ensures value { result ≡ connection_with id self.old.live }
        ensures closed { self.new ≡ with_live self.old (others_than id self.old.live) }
    {
        self.live.remove(id)
    }

    /// Returns the time of the clock.
    #[inline]
    pub fn clock(&self) -> u64
        ensures { result ≡ self.now.clock }
    {
        self.clock
    }

    /// Moves the clock forward to the time. If the time is earlier than the clock's, the clock stays.
    pub fn advance_to(&mut self, time: u64)
        ensures clock { self.new.clock ≡ max self.old.clock time }
        ensures live { self.new.live ≡ self.old.live }
    {
        if self.clock < time {
            self.clock = time;
        }
    }

    /// Closes the connection that has been idle for longest and returns it, if there is one. It takes no memory.
    pub fn close_oldest(&mut self) -> Option<Connection>
        ensures { MatchOption result ((self.old.live ≡ []) × (self.new ≡ self.old)) (λ oldest. self.old ≡ with_live self.new (self.new.live ++ oldest ∷ [])) }
    {
        self.live.pop_last()
    }

    /// Closes the `count` connections that have been idle for longest, or all connections if there are fewer. It appends them to `gone`, beginning
    /// with the one that was idle for longest.
    ///
    /// If `gone` cannot grow, it contains the connections that were closed up to then, and all other connections are still open.
    pub fn expire<C: Allocator>(
        &mut self,
        count: u64,
        gone: &mut Vec<Connection, C>,
    ) -> Result<(), AllocError>
        ensures expired { OnOk result (Expires (min count (length self.old.live)) gone.old.items gone.new.items self.old self.new) }
        ensures refused { OnErr result ((k : ℕ) × (k < count) × Expires k gone.old.items gone.new.items self.old self.new) }
    {
        for _closed in 0..count {
            gone.reserve(1)?; // for the next one
            let Some(oldest) = self.close_oldest() else {
                return Ok(());
            };
            gone.push(oldest).unwrap(); // proved: there is room for it
        }
        Ok(())
    }

    /// Returns whether some connection has been idle for longer than `limit`.
    pub fn is_any_idle(&self, limit: u64) -> bool
        ensures { MatchBool result (EndsIdle limit self.now) (AllByRecursion (IsActive limit self.now.clock) self.now.live) }
    {
        match self.live.last() {
            Some(oldest) => self.clock - oldest.seen > limit,
            None => false,
        }
    }

    /// Closes all connections that have been idle for longer than `limit`. It appends them to `gone`, beginning with the one that was idle for longest.
    ///
    /// If `gone` cannot grow, it contains the connections that were closed up to then, and all other connections are still open.
    pub fn expire_idle<C: Allocator>(
        &mut self,
        limit: u64,
        gone: &mut Vec<Connection, C>,
    ) -> Result<(), AllocError>
        ensures expired { ExpiresIdle limit gone.old.items gone.new.items self.old self.new }
        ensures active { OnOk result (AllByRecursion (IsActive limit self.new.clock) self.new.live) }
    {
        while self.is_any_idle(limit) {
            gone.reserve(1)?;
            let oldest = self.close_oldest().unwrap(); // proved: there is one
            gone.push(oldest).unwrap(); // proved: there is room for it
        }
        Ok(())
    }
}
