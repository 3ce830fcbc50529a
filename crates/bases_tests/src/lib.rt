//! Tests of the crates that find what is answered: names that are tried, pages of errors, servers and locations, the race
//! check, the bodies of pages, and the order in which their parts leave. What a definition answers is in rows
//! (`proofs/Rows.antt`), which the check computes; the tests run the code.
#![tactic(auto)]

#[cfg(test)]
mod bodies;
#[cfg(test)]
mod locations;
#[cfg(test)]
mod pages;
#[cfg(test)]
mod races;
#[cfg(test)]
mod samples;
#[cfg(test)]
mod servers;
#[cfg(test)]
mod sites;
#[cfg(test)]
mod tries;
#[cfg(test)]
mod written_order;
