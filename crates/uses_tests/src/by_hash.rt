//! A test of connections that are found by a hash table. The program with connections finds them by a tree instead.

use crate::fixtures::check;
use connections::{ConnectionTable, OpenError};
use ic_hash_index::{HashIndex, empty_buckets};
use ic_test_support::rationed::Rationed;

// Two connections are opened, and the oldest one is closed. An id that is already open must be refused, and a connection for which there is no memory
// must be refused.
#[test]
fn connections_by_a_hash_table(rt: HostRuntime) {
    let buckets = empty_buckets(rt.alloc(), 2).expect(&rt, "memory for buckets");
    let memory = Rationed::new(rt.alloc(), 0);
    let mut table = ConnectionTable::with_index(&memory, HashIndex::new(buckets));
    check(
        &rt,
        matches!(table.open(7), Err(OpenError::NoRoom)) && table.find(7).is_none(),
    );
    check(&rt, table.open(7).is_ok());
    table.advance_to(30);
    check(
        &rt,
        table.open(9).is_ok() && matches!(table.open(7), Err(OpenError::AlreadyOpen)),
    );
    let seen = table.find(9).map(|connection| connection.seen);
    check(&rt, seen == Some(30));
    let oldest = table.close_oldest().map(|connection| connection.id);
    check(&rt, oldest == Some(7) && table.find(7).is_none());
}
