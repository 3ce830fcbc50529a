//! File jobs: what a request asks of the files, what they answer, and the trees that an answer comes from.
#![tactic(auto)]

mod job;

pub use job::{Ask, Found, JobAnswer, Node, is_fitting};
