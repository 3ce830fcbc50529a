//! Tests of rewrite programs. What the definitions answer is in the rows of `meaning_rows`, and what words of directives say in
//! rows here (`proofs/Rows.antt`), and what levels make (`proofs/RowsOfPrograms.antt`); the tests run the code.
#![tactic(auto)]

#[cfg(test)]
mod levels;
#[cfg(test)]
mod programs;
#[cfg(test)]
mod samples;
#[cfg(test)]
mod words;
