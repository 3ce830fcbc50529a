//! Tests of the crates that check a configuration and make a site of it: faults, names of servers, lists, levels, patterns. What a
//! level has of those around it is in rows (`proofs/Rows.antt`), which the check computes.
#![tactic(auto)]

#[cfg(test)]
mod check;
#[cfg(test)]
mod hosts;
#[cfg(test)]
mod lists;
#[cfg(test)]
mod patterns;
#[cfg(test)]
mod site;
