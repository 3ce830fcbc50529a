// The lines that begin and end sections, and the lines within.
ghost use Rattle.std.specs.Prelude.{◌≡◌, ◌≤◌, IfOk};
ghost use Rattle.replay_words.specs.Faults.{LineGives};
ghost use Rattle.replay_words.specs.Lines.{pieces_of};
ghost use Rattle.replay_words.specs.Sums.{most_bytes};
ghost use Rattle.replay_text.specs.Grammar.{is_passed, is_path_among, conf_line, tree_head, head_of, is_section_in_tree, is_section_in_events, line_in_tree, line_in_events, events_head};

use crate::entries::{event_line, path_line, tree_line};
use crate::{Conf, EventLine, TreeLine};
use byte_text::ByteText;
use replay_words::{
    FaultKind, LineError, Words, first_word, front, is_conf, is_events, is_tree, keyword_of,
    next_word, pieces_of, words_of,
};
use std::alloc::Global;

/// Whether a line is empty or a comment.
pub fn is_passed(line: &[u8]) -> bool
    ensures { result ≡ is_passed line.now }
{
    match line {
        [] => true,
        [first, ..] => *first == b'#',
    }
}

/// Whether a text is the path of a configuration.
fn is_path_among(confs: &[Conf], path: &[u8]) -> bool
    ensures { result ≡ is_path_among confs.now path.now }
{
    confs.iter().any(|conf| conf.path.as_slice() == path)
}

/// The path of a `conf` line.
#[tactic(auto, unfolding(crate::specs::Grammar::conf_line))]
fn conf_line(alloc: Global, before: &[Conf], line: &[u8]) -> Result<ByteText, LineError>
    ensures { LineGives (λ t. t) result (conf_line before.now line.now) }
{
    let words = words_of(line)?;
    let (_name, rest) = first_word(words)?;
    let path = path_line(alloc, rest)?;
    if is_path_among(before, path.as_slice()) {
        return Err(LineError::Fault(FaultKind::Section));
    }
    Ok(path)
}

/// The line `tree`.
#[tactic(auto, unfolding(crate::specs::Grammar::tree_head))]
fn tree_head(before: &[Conf], line: &[u8]) -> Result<Option<ByteText>, LineError>
    ensures { LineGives (λ h. h) result (tree_head before.now line.now) }
{
    match before {
        [] => Err(LineError::Fault(FaultKind::Section)),
        [_, ..] => {
            if is_tree(line) {
                Ok(None)
            } else {
                Err(LineError::Fault(FaultKind::Word))
            }
        }
    }
}

/// What begins where a `conf` line or the `tree` line is due: the configuration of a path, or the tree.
#[tactic(auto, unfolding(crate::specs::Grammar::head_of))]
pub fn head_of(alloc: Global, before: &[Conf], line: &[u8]) -> Result<Option<ByteText>, LineError>
    ensures { LineGives (λ h. h) result (head_of before.now line.now) }
{
    let front = front(line);
    if is_conf(front) {
        let path = conf_line(alloc, before, line)?;
        return Ok(Some(path));
    }
    if is_tree(front) {
        return tree_head(before, line);
    }
    Err(LineError::Fault(FaultKind::Section))
}

/// Whether a line of these pieces begins or ends a section, and can't be in the tree.
fn is_section_in_tree(pieces: Words<'_>) -> bool
    ensures { result ≡ is_section_in_tree pieces.entry }
{
    match next_word(pieces) {
        None => false,
        Some((name, rest)) => match next_word(rest) {
            None => is_tree(name) || is_events(name),
            Some((_next, _behind)) => is_conf(name),
        },
    }
}

/// The same among the events, where `tree` begins an event.
fn is_section_in_events(pieces: Words<'_>) -> bool
    ensures { result ≡ is_section_in_events pieces.entry }
{
    match next_word(pieces) {
        None => false,
        Some((name, rest)) => match next_word(rest) {
            None => is_events(name),
            Some((_next, _behind)) => is_conf(name),
        },
    }
}

/// A line of the tree's section.
#[tactic(auto, unfolding(crate::specs::Grammar::line_in_tree))]
pub fn line_in_tree(alloc: Global, used: u64, line: &[u8]) -> Result<(TreeLine, u64), LineError>
    requires { used ≤ most_bytes }
    ensures value { LineGives (λ x. x) result (line_in_tree used line.now) }
    ensures within { IfOk result (λ x. x.1 ≤ most_bytes) }
{
    if is_section_in_tree(pieces_of(line)) {
        return Err(LineError::Fault(FaultKind::Section));
    }
    let words = words_of(line)?;
    let (name, rest) = first_word(words)?;
    tree_line(alloc, used, keyword_of(name), rest)
}

/// A line of the events' section.
#[tactic(auto, unfolding(crate::specs::Grammar::line_in_events))]
pub fn line_in_events(alloc: Global, used: u64, line: &[u8]) -> Result<(EventLine, u64), LineError>
    requires { used ≤ most_bytes }
    ensures value { LineGives (λ x. x) result (line_in_events used line.now) }
    ensures within { IfOk result (λ x. x.1 ≤ most_bytes) }
{
    if is_section_in_events(pieces_of(line)) {
        return Err(LineError::Fault(FaultKind::Section));
    }
    let words = words_of(line)?;
    let (name, rest) = first_word(words)?;
    event_line(alloc, used, keyword_of(name), rest)
}

/// The line `events`.
#[tactic(auto, unfolding(crate::specs::Grammar::events_head))]
pub fn events_head(line: &[u8]) -> Result<(), LineError>
    ensures { LineGives (λ x. x) result (events_head line.now) }
{
    if !is_events(front(line)) {
        return Err(LineError::Fault(FaultKind::Section));
    }
    if !is_events(line) {
        return Err(LineError::Fault(FaultKind::Word));
    }
    Ok(())
}
