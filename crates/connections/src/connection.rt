//! Open connections, which are the objects that a table contains.

use ic_keyed::HasKey;

/// A connection that is open.
#[derive(Clone, Copy, PartialEq, Eq, Debug)]
pub struct Connection {
    /// The id by which a search finds the connection.
    pub id: u64,
    /// The time when the connection was opened or last touched.
    pub seen: u64,
}

impl HasKey for Connection {
    ghost key_of = { λ connection. connection.id };

    #[inline]
    fn key(&self) -> &u64 {
        &self.id
    }
}
