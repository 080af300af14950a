//! Searches by a probe: the probe compares the searched key with the objects, and counts its comparisons.
//!
//! ```text
//! let mut probe = KeyProbe::new(ByDeadline, &5);
//! let cursor = tree.find_by(&links, &objects, &mut probe);
//! ```

pub use crate::keys::probe::{KeyProbe, Probe};
