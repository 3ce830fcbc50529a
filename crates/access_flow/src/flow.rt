// A main request that asks a subrequest whether it is let in.
ghost use Rattle.std.specs.Prelude.{◌≡◌, not};
ghost use Rattle.access_flow.specs.Flows.{is_inner as inner_runs, waits as waits_for};

use file_tree::{Ask, Node};
use node_turn::request_phases::{Phases, Wait};
use request_flow::reply_out::InPhases;

/// How far the subrequest is.
#[derive(Drop)]
pub enum Stage {
    /// Its phases haven't begun.
    Begins,
    /// The files are asked what is at a path.
    Asked(Wait),
    /// They told it.
    Told { wait: Wait, node: Node },
    /// It has replied with this status: the main request goes on.
    Replied(u16),
}

/// A main request that asks a subrequest whether it is let in: what its variables mean is lent to the phases of the subrequest
/// meanwhile. The subrequest's job, the number of the tree, and how far it is.
#[derive(Drop)]
pub struct AccessFlow {
    pub request: Box<InPhases>,
    pub inner: Phases,
    pub ask: Ask,
    pub of: u64,
    pub stage: Stage,
}

/// Whether the subrequest's job waits for an answer.
pub fn waits(stage: &Stage) -> bool
    ensures { result ≡ waits_for stage.now }
{
    match stage {
        Stage::Asked(_) => true,
        Stage::Begins => false,
        Stage::Told { wait: _, node: _ } => false,
        Stage::Replied(_) => false,
    }
}

/// Whether one of the two can run on.
pub fn may_run(stage: &Stage) -> bool
    ensures { result ≡ not (waits_for stage.now) }
{
    !waits(stage)
}

/// Whether it is the subrequest that runs, and not the main request.
pub fn is_inner(stage: &Stage) -> bool
    ensures { result ≡ inner_runs stage.now }
{
    match stage {
        Stage::Replied(_) => false,
        Stage::Begins => true,
        Stage::Asked(_) => true,
        Stage::Told { wait: _, node: _ } => true,
    }
}
