//! The words of replay scripts: lines and their words, numbers, paths, sums of bytes, the ends of connections.
#![tactic(auto)]

mod addrs;
mod cuts;
mod escapes;
mod faults;
mod numbers;
mod sums;
mod words;

pub use addrs::addr_of;
pub use cuts::next_line;
pub use escapes::{path_word, unescaped};
pub use faults::{FaultKind, LineError};
pub use numbers::{id_of, moment_of, room_of};
pub use sums::{CountedWord, TermWords, bytes_within, counts_of, sum_of};
pub use words::{
    Keyword, Words, first_word, front, is_conf, is_dot, is_events, is_fail, is_tree, keyword_of,
    next_word, no_word, one_word, pieces_of, words_of,
};
