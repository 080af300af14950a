//! Tests of places, objects, references, tables, the words of links, and errors, which no session of the program tests. The tests make each call once,
//! on one kind of table, and compare its result with the expected result.
#![tactic(auto)]

#[cfg(test)]
mod errors;
#[cfg(test)]
mod fixture;
#[cfg(test)]
mod kinds;
#[cfg(test)]
mod objects;
#[cfg(test)]
mod places;
#[cfg(test)]
mod tables;
#[cfg(test)]
mod values;
#[cfg(test)]
mod words;
