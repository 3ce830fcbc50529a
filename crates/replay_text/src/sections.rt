// The sections of a script.
ghost use Rattle.std.specs.Prelude.{◌≡◌, ◌≤◌, [], IfOk};
ghost use Rattle.replay_text.specs.Faults.{Gives, script_error, at_line};
ghost use Rattle.replay_text.specs.Grammar.{head_of, line_in_tree, events_head, line_in_events, confs_of, tree_of, behind_events, events_of};
ghost use Rattle.replay_text.specs.Steps.{raw_at};
ghost use Rattle.replay_words.specs.Sums.{most_bytes};

use crate::heads::{events_head, head_of, is_passed, line_in_events, line_in_tree};
use crate::places::Spot;
use crate::{Conf, Confs, EventLine, EventLines, ScriptError, ScriptFault, TreeLine, TreeLines};
use byte_text::ByteText;
use replay_words::{FaultKind, LineError, is_dot};
use std::alloc::Global;

/// A fault of a line, with the line's number.
fn script_error(line: u64, error: LineError) -> ScriptError
    ensures { result ≡ script_error line error }
{
    match error {
        LineError::Fault(kind) => ScriptError::Fault(ScriptFault { kind, line }),
        LineError::OutOfMemory => ScriptError::OutOfMemory,
    }
}

/// The text ends where a line is due.
fn ends_at(line: u64) -> ScriptError
    ensures { result ≡ script_error line (LineError.Fault FaultKind.Section) }
{
    ScriptError::Fault(ScriptFault {
        kind: FaultKind::Section,
        line,
    })
}

/// The raw lines up to the line `.`, and the place after it.
fn raw_at<'a>(alloc: Global, spot: Spot<'a>) -> Result<(ByteText, Spot<'a>), ScriptError>
    ensures { Gives (λ x. x) result (raw_at spot.entry.number spot.entry.lines) }
{
    let mut text = ByteText::new(alloc);
    let mut spot = spot;
    'lines: loop {
        let number = spot.number();
        let Some((line, behind)) = spot.line() else {
            return Err(ends_at(number));
        };
        if is_dot(line) {
            return Ok((text, behind));
        }
        text.extend(line)?;
        text.push(b'\n')?;
        spot = behind;
    }
}

/// What begins in the line of this number.
fn head_at(
    alloc: Global,
    before: &[Conf],
    number: u64,
    line: &[u8],
) -> Result<Option<ByteText>, ScriptError>
    ensures { Gives (λ h. h) result (at_line number (head_of before.now line.now)) }
{
    match head_of(alloc, before, line) {
        Ok(head) => Ok(head),
        Err(error) => Err(script_error(number, error)),
    }
}

/// The `conf` sections and the line `tree`, and the place after it.
pub fn confs_of<'a>(alloc: Global, spot: Spot<'a>) -> Result<(Confs, Spot<'a>), ScriptError>
    ensures { Gives (λ x. x) result (confs_of [] spot.entry.number spot.entry.lines) }
{
    let mut confs = Confs::new(alloc);
    let mut spot = spot;
    'lines: loop {
        let number = spot.number();
        let Some((line, behind)) = spot.line() else {
            return Err(ends_at(number));
        };
        if is_passed(line) {
            spot = behind;
            continue;
        }
        let Some(path) = head_at(alloc, confs.as_slice(), number, line)? else {
            return Ok((confs, behind));
        };
        let (bytes, after) = raw_at(alloc, behind)?;
        confs.push(Conf { path, bytes })?;
        spot = after;
    }
}

/// The line of the tree of this number.
fn tree_at(
    alloc: Global,
    used: u64,
    number: u64,
    line: &[u8],
) -> Result<(TreeLine, u64), ScriptError>
    requires { used ≤ most_bytes }
    ensures value { Gives (λ x. x) result (at_line number (line_in_tree used line.now)) }
    ensures within { IfOk result (λ x. x.1 ≤ most_bytes) }
{
    match line_in_tree(alloc, used, line) {
        Ok(one) => Ok(one),
        Err(error) => Err(script_error(number, error)),
    }
}

/// The lines of the tree, how many bytes their sums have, and the place after the line `.`.
pub fn tree_of<'a>(alloc: Global, spot: Spot<'a>) -> Result<(TreeLines, u64, Spot<'a>), ScriptError>
    ensures value { Gives (λ x. x) result (tree_of 0 spot.entry.number spot.entry.lines) }
    ensures within { IfOk result (λ x. x.1 ≤ most_bytes) }
{
    let mut tree = TreeLines::new(alloc);
    let mut used: u64 = 0;
    let mut spot = spot;
    'lines: loop {
        let number = spot.number();
        let Some((line, behind)) = spot.line() else {
            return Err(ends_at(number));
        };
        if is_passed(line) {
            spot = behind;
            continue;
        }
        if is_dot(line) {
            return Ok((tree, used, behind));
        }
        let (one, after) = tree_at(alloc, used, number, line)?;
        tree.push(one)?;
        used = after;
        spot = behind;
    }
}

/// The line `events`, by this number.
fn events_at(number: u64, line: &[u8]) -> Result<(), ScriptError>
    ensures { Gives (λ x. x) result (at_line number (events_head line.now)) }
{
    match events_head(line) {
        Ok(()) => Ok(()),
        Err(error) => Err(script_error(number, error)),
    }
}

/// The place after the line `events`.
pub fn behind_events(spot: Spot<'_>) -> Result<Spot<'_>, ScriptError>
    ensures { Gives (λ x. x) result (behind_events spot.entry.number spot.entry.lines) }
{
    let mut spot = spot;
    'lines: loop {
        let number = spot.number();
        let Some((line, behind)) = spot.line() else {
            return Err(ends_at(number));
        };
        if is_passed(line) {
            spot = behind;
            continue;
        }
        events_at(number, line)?;
        return Ok(behind);
    }
}

/// The line of an event of this number.
fn event_at(
    alloc: Global,
    used: u64,
    number: u64,
    line: &[u8],
) -> Result<(EventLine, u64), ScriptError>
    requires { used ≤ most_bytes }
    ensures value { Gives (λ x. x) result (at_line number (line_in_events used line.now)) }
    ensures within { IfOk result (λ x. x.1 ≤ most_bytes) }
{
    match line_in_events(alloc, used, line) {
        Ok(one) => Ok(one),
        Err(error) => Err(script_error(number, error)),
    }
}

/// The events up to the end of the text, where the sums of the tree have `used` bytes.
pub fn events_of(alloc: Global, used: u64, spot: Spot<'_>) -> Result<EventLines, ScriptError>
    requires { used ≤ most_bytes }
    ensures { Gives (λ x. x) result (events_of used spot.entry.number spot.entry.lines) }
{
    let mut events = EventLines::new(alloc);
    let mut total = used;
    let mut spot = spot;
    'lines: loop {
        let number = spot.number();
        let Some((line, behind)) = spot.line() else {
            return Ok(events);
        };
        if is_passed(line) {
            spot = behind;
            continue;
        }
        let (one, after) = event_at(alloc, total, number, line)?;
        events.push(one)?;
        total = after;
        spot = behind;
    }
}
