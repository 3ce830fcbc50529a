// Reads a script whole.
ghost use Rattle.replay_text.specs.Faults.{Gives};
ghost use Rattle.replay_text.specs.Grammar.{script_of};

use crate::places::Spot;
use crate::sections::{behind_events, confs_of, events_of, tree_of};
use crate::{Script, ScriptError};
use std::alloc::Global;

/// Reads a script: its value, or its first fault.
///
/// A script has one `conf PATH` section or more, each with raw lines up to a line `.`; the first of them is the main
/// file. Then come a line `tree` and the lines of the tree up to a line `.`; and then a line `events` and the lines of
/// the events up to the end. Faults are found line by line, and in a line among its words first, then among its
/// numbers, then among its escapes.
#[tactic(auto, unfolding(crate::specs::Grammar::script_of))]
pub fn read(alloc: Global, bytes: &[u8]) -> Result<Script, ScriptError>
    ensures { Gives (λ script. script) result (script_of bytes.now) }
{
    let (confs, spot) = confs_of(alloc, Spot::new(bytes))?;
    let (tree, used, spot) = tree_of(alloc, spot)?;
    let spot = behind_events(spot)?;
    let events = events_of(alloc, used, spot)?;
    Ok(Script {
        confs,
        tree,
        events,
    })
}
