//! Tests of the crates that read the words of a configuration: its text, its directives, the addresses of a server, values with
//! variables. What a word is as a value is in rows (`proofs/Rows.antt`, `proofs/ListRows.antt`), which the check computes.
#![tactic(auto)]

#[cfg(test)]
mod blocks;
#[cfg(test)]
mod table;
#[cfg(test)]
mod text;
#[cfg(test)]
mod variables;
