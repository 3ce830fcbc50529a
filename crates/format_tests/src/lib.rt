//! Tests of the crates that read and write formats: requests, bodies, documents, values, scripts, reports and command lines. What a
//! definition answers is in rows (`proofs/Rows.antt`), which the check computes; the tests run the code.
#![tactic(auto)]

#[cfg(test)]
mod bodies;
#[cfg(test)]
mod commands;
#[cfg(test)]
mod reports;
#[cfg(test)]
mod request_heads;
#[cfg(test)]
mod response_bodies;
#[cfg(test)]
mod response_heads;
#[cfg(test)]
mod scripts;
#[cfg(test)]
mod targets;
#[cfg(test)]
mod values;
