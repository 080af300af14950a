//! Tests of the collections. The tests make the calls that no session of the program, no other test and no use makes. They are calls of cursors that
//! read or borrow their collection, walks and laws, and reads of the words of links, the shapes of trees, and printed texts. Each test makes its calls
//! one after the other, notes their results, and compares the notes with the expected text.
#![tactic(auto)]

#[cfg(test)]
mod doubly;
#[cfg(test)]
mod laws;
#[cfg(test)]
mod lent;
#[cfg(test)]
mod lists;
#[cfg(test)]
mod neighbors;
#[cfg(test)]
mod notes;
#[cfg(test)]
mod owning;
#[cfg(test)]
mod printed;
#[cfg(test)]
mod singly;
#[cfg(test)]
mod tree;
#[cfg(test)]
mod walks;
#[cfg(test)]
mod words;
#[cfg(test)]
mod xor;
