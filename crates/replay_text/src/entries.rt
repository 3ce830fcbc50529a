// The lines of the tree and of the events.
ghost use Rattle.std.specs.Prelude.{◌≡◌, ◌≤◌, IfOk, Result};
ghost use Rattle.replay_words.specs.Faults.{LineGives};
ghost use Rattle.replay_words.specs.Sums.{most_bytes};
ghost use Rattle.replay_words.specs.Steps.{term_views};
ghost use Rattle.replay_text.specs.Entries.{file_line, path_line, tree_line, open_line, some_term, some_byte, bytes_line, end_line, room_line, node_line, fails_of, answer_line, run_line, tick_line, drain_line, change_line, tree_event, alone, event_line};

use crate::{EventLine, TreeLine};
use byte_text::ByteText;
use replay_words::{
    FaultKind, Keyword, LineError, TermWords, Words, addr_of, bytes_within, counts_of, first_word,
    id_of, is_fail, keyword_of, moment_of, next_word, no_word, one_word, path_word, room_of,
    sum_of, unescaped,
};
use std::alloc::Global;

/// `file PATH DATE BYTES`, after the first word.
#[tactic(auto, unfolding(crate::specs::Entries::file_line))]
fn file_line(alloc: Global, used: u64, words: Words<'_>) -> Result<(TreeLine, u64), LineError>
    requires { used ≤ most_bytes }
    ensures value { LineGives (λ x. x) result (file_line used words.entry) }
    ensures within { IfOk result (λ x. x.1 ≤ most_bytes) }
{
    let (path, rest) = first_word(words)?;
    let path = path_word(path)?;
    let (date, rest) = first_word(rest)?;
    let terms = sum_of(alloc, rest)?;
    let date = moment_of(date)?;
    let counted = counts_of(alloc, &terms)?;
    let path = unescaped(alloc, path)?;
    let bytes = bytes_within(alloc, used, &counted)?;
    let used = used + bytes.len() as u64;
    Ok((TreeLine::File { path, date, bytes }, used))
}

/// A path alone.
#[tactic(auto, unfolding(crate::specs::Entries::path_line))]
pub fn path_line(alloc: Global, words: Words<'_>) -> Result<ByteText, LineError>
    ensures { LineGives (λ t. t) result (path_line words.entry) }
{
    let word = one_word(words)?;
    let path = path_word(word)?;
    unescaped(alloc, path)
}

/// A line of the tree by its first word, and how many bytes the sums have up to its end.
#[tactic(auto, unfolding(crate::specs::Entries::tree_line))]
pub fn tree_line(
    alloc: Global,
    used: u64,
    name: Keyword,
    words: Words<'_>,
) -> Result<(TreeLine, u64), LineError>
    requires { used ≤ most_bytes }
    ensures value { LineGives (λ x. x) result (tree_line used name words.entry) }
    ensures within { IfOk result (λ x. x.1 ≤ most_bytes) }
{
    match name {
        Keyword::File => file_line(alloc, used, words),
        Keyword::Folder => {
            let path = path_line(alloc, words)?;
            Ok((TreeLine::Folder { path }, used))
        }
        Keyword::Locked => {
            let path = path_line(alloc, words)?;
            Ok((TreeLine::Locked { path }, used))
        }
        _ => Err(LineError::Fault(FaultKind::Word)),
    }
}

/// `open CONN LOCAL PEER`, after the first word.
#[tactic(auto, unfolding(crate::specs::Entries::open_line))]
fn open_line(words: Words<'_>) -> Result<EventLine, LineError>
    ensures { LineGives (λ e. e) result (open_line words.entry) }
{
    let (conn, rest) = first_word(words)?;
    let (local, rest) = first_word(rest)?;
    let peer = one_word(rest)?;
    let local = addr_of(local)?;
    let peer = addr_of(peer)?;
    let conn = id_of(conn)?;
    Ok(EventLine::Open { conn, local, peer })
}

/// `bytes CONN BYTES`, after the first word.
#[tactic(auto, unfolding(crate::specs::Entries::bytes_line))]
fn bytes_line(alloc: Global, used: u64, words: Words<'_>) -> Result<(EventLine, u64), LineError>
    requires { used ≤ most_bytes }
    ensures value { LineGives (λ x. x) result (bytes_line used words.entry) }
    ensures within { IfOk result (λ x. x.1 ≤ most_bytes) }
{
    let (conn, rest) = first_word(words)?;
    let terms = sum_of(alloc, rest)?;
    some_term(&terms)?;
    let conn = id_of(conn)?;
    let counted = counts_of(alloc, &terms)?;
    let bytes = bytes_within(alloc, used, &counted)?;
    some_byte(&bytes)?;
    let used = used + bytes.len() as u64;
    Ok((EventLine::Bytes { conn, bytes }, used))
}

/// A sum has a term.
fn some_term(terms: &[TermWords<'_>]) -> Result<(), LineError>
    ensures { LineGives (λ _. term_views terms.now) result (some_term (term_views terms.now)) }
{
    match terms {
        [] => Err(LineError::Fault(FaultKind::Word)),
        [_, ..] => Ok(()),
    }
}

/// A text has a byte.
fn some_byte(bytes: &ByteText) -> Result<(), LineError>
    ensures { LineGives (λ _. bytes.now) result (some_byte bytes.now) }
{
    match bytes.as_slice() {
        [] => Err(LineError::Fault(FaultKind::Word)),
        [_, ..] => Ok(()),
    }
}

/// `end CONN`, after the first word.
#[tactic(auto, unfolding(crate::specs::Entries::end_line))]
fn end_line(words: Words<'_>) -> Result<EventLine, LineError>
    ensures { LineGives (λ e. e) result (end_line words.entry) }
{
    let conn = one_word(words)?;
    let conn = id_of(conn)?;
    Ok(EventLine::End { conn })
}

/// `room CONN COUNT`, after the first word.
#[tactic(auto, unfolding(crate::specs::Entries::room_line))]
fn room_line(words: Words<'_>) -> Result<EventLine, LineError>
    ensures { LineGives (λ e. e) result (room_line words.entry) }
{
    let (conn, rest) = first_word(words)?;
    let count = one_word(rest)?;
    let conn = id_of(conn)?;
    let count = room_of(count)?;
    Ok(EventLine::Room { conn, count })
}

/// A connection and a node.
#[tactic(auto, unfolding(crate::specs::Entries::node_line))]
fn node_line(conn: &[u8], node: &[u8]) -> Result<(u32, u32), LineError>
    ensures { LineGives (λ x. x) result (node_line conn.now node.now) }
{
    let conn = id_of(conn)?;
    let node = id_of(node)?;
    Ok((conn, node))
}

/// Whether the word `fail` is left, or no word.
#[tactic(auto, unfolding(crate::specs::Entries::fails_of))]
fn fails_of(words: Words<'_>) -> Result<bool, LineError>
    ensures { LineGives (λ b. b) result (fails_of words.entry) }
{
    match next_word(words) {
        None => Ok(false),
        Some((word, rest)) => match next_word(rest) {
            None => {
                if is_fail(word) {
                    Ok(true)
                } else {
                    Err(LineError::Fault(FaultKind::Word))
                }
            }
            Some((_next, _behind)) => Err(LineError::Fault(FaultKind::Word)),
        },
    }
}

/// `file CONN NODE` or `file CONN NODE fail`, after the first word.
#[tactic(auto, unfolding(crate::specs::Entries::answer_line))]
fn answer_line(words: Words<'_>) -> Result<EventLine, LineError>
    ensures { LineGives (λ e. e) result (answer_line words.entry) }
{
    let (conn, rest) = first_word(words)?;
    let (node, rest) = first_word(rest)?;
    let fails = fails_of(rest)?;
    let (conn, node) = node_line(conn, node)?;
    if fails {
        return Ok(EventLine::FileFails { conn, node });
    }
    Ok(EventLine::File { conn, node })
}

/// `run CONN NODE`, after the first word.
#[tactic(auto, unfolding(crate::specs::Entries::run_line))]
fn run_line(words: Words<'_>) -> Result<EventLine, LineError>
    ensures { LineGives (λ e. e) result (run_line words.entry) }
{
    let (conn, rest) = first_word(words)?;
    let node = one_word(rest)?;
    let (conn, node) = node_line(conn, node)?;
    Ok(EventLine::Run { conn, node })
}

/// `tick SECONDS`, after the first word.
#[tactic(auto, unfolding(crate::specs::Entries::tick_line))]
fn tick_line(words: Words<'_>) -> Result<EventLine, LineError>
    ensures { LineGives (λ e. e) result (tick_line words.entry) }
{
    let word = one_word(words)?;
    let now = moment_of(word)?;
    Ok(EventLine::Tick { now })
}

/// `drain`, after the first word.
#[tactic(auto, unfolding(crate::specs::Entries::drain_line))]
fn drain_line(words: Words<'_>) -> Result<EventLine, LineError>
    ensures { LineGives (λ e. e) result (drain_line words.entry) }
{
    no_word(words)?;
    Ok(EventLine::Drain)
}

/// A line of the tree as an event, or `gone PATH`, by its first word.
#[tactic(auto, unfolding(crate::specs::Entries::change_line))]
fn change_line(
    alloc: Global,
    used: u64,
    name: Keyword,
    words: Words<'_>,
) -> Result<(EventLine, u64), LineError>
    requires { used ≤ most_bytes }
    ensures value { LineGives (λ x. x) result (change_line used name words.entry) }
    ensures within { IfOk result (λ x. x.1 ≤ most_bytes) }
{
    match name {
        Keyword::Gone => {
            let path = path_line(alloc, words)?;
            Ok((EventLine::TreeGone { path }, used))
        }
        _ => {
            let (line, used) = tree_line(alloc, used, name, words)?;
            Ok((EventLine::Tree { line }, used))
        }
    }
}

/// A change of the tree, after the word `tree`.
#[tactic(auto, unfolding(crate::specs::Entries::tree_event))]
fn tree_event(alloc: Global, used: u64, words: Words<'_>) -> Result<(EventLine, u64), LineError>
    requires { used ≤ most_bytes }
    ensures value { LineGives (λ x. x) result (tree_event used words.entry) }
    ensures within { IfOk result (λ x. x.1 ≤ most_bytes) }
{
    let (name, rest) = first_word(words)?;
    change_line(alloc, used, keyword_of(name), rest)
}

/// An event whose line has no sum.
fn alone(used: u64, event: Result<EventLine, LineError>) -> Result<(EventLine, u64), LineError>
    requires { used ≤ most_bytes }
    ensures value { (read : Result EventLine FaultKind) → LineGives (λ e. e) event read
        → LineGives (λ x. x) result (alone used read) }
    ensures within { IfOk result (λ x. x.1 ≤ most_bytes) }
{
    let event = event?;
    Ok((event, used))
}

/// An event by its first word, and how many bytes the sums have up to its end.
#[tactic(auto, unfolding(crate::specs::Entries::event_line))]
pub fn event_line(
    alloc: Global,
    used: u64,
    name: Keyword,
    words: Words<'_>,
) -> Result<(EventLine, u64), LineError>
    requires { used ≤ most_bytes }
    ensures value { LineGives (λ x. x) result (event_line used name words.entry) }
    ensures within { IfOk result (λ x. x.1 ≤ most_bytes) }
{
    match name {
        Keyword::Open => alone(used, open_line(words)),
        Keyword::Bytes => bytes_line(alloc, used, words),
        Keyword::End => alone(used, end_line(words)),
        Keyword::Room => alone(used, room_line(words)),
        Keyword::File => alone(used, answer_line(words)),
        Keyword::Run => alone(used, run_line(words)),
        Keyword::Tick => alone(used, tick_line(words)),
        Keyword::Tree => tree_event(alloc, used, words),
        Keyword::Drain => alone(used, drain_line(words)),
        _ => Err(LineError::Fault(FaultKind::Word)),
    }
}
