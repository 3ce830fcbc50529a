//! Tests of the commands, over files, links and a clock in memory, and of what the program says of itself.
#![tactic(auto)]

#[cfg(test)]
mod commands;
#[cfg(test)]
mod usage;
