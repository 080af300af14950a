//! Tests of what no session of the program covers. The tests check faults of reading and writing, the texts of all refusals, lists of commands one
//! after the other, and uses of laws. The tests also check what is known after any list of calls, a key adapter, calls by their methods, and tables of
//! each kind.
#![tactic(auto)]

#[cfg(test)]
mod faults;
#[cfg(test)]
mod keys;
#[cfg(test)]
mod kinds;
#[cfg(test)]
mod laws;
#[cfg(test)]
mod listed;
#[cfg(test)]
mod methods;
#[cfg(test)]
mod runs;
#[cfg(test)]
mod texts;
