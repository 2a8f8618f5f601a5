//! Tests of what neither a contract nor a row of data can say. The rows of `rows` and `rows_layers` have the rest.
//!
//! - `guards`: the encoding of names that a dropped guard restores;
//! - `iterators`: the labels of a name, taken from both ends;
//! - `memory`: calls that need no memory;
//! - `calls`: the link of a handle, which a program may use by itself;
//! - `plays`: a writer that fails in the middle of a report, or at its end;
//! - `zones`: a zone that is printed as a zone file;
//! - `examples`: the examples of the README.
#![tactic(auto)]

#[cfg(test)]
mod calls;
#[cfg(test)]
mod examples;
#[cfg(test)]
mod guards;
#[cfg(test)]
mod iterators;
#[cfg(test)]
mod memory;
#[cfg(test)]
mod plays;
#[cfg(test)]
mod zones;
