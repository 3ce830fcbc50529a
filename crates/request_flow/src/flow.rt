// A request in flight.
ghost use Rattle.std.specs.Prelude.{◌≡◌, ◌≤◌};
ghost use Rattle.request_flow.specs.Flows.{waits as waits_for, may_run as can_run, shown_by as shown_at, stage_written, stage_server, stage_length};

use crate::blocks::Sending;
use file_tree::{Ask, Found};
use reply_out::InPhases;
use reply_out::request_phases::Wait;

/// No more bytes than these are shown as pending.
const SHOWN: usize = 65536;

/// No more bytes than these are placed for a peer: what is shown as pending, and a buffer of the
/// request's.
const PLACED: usize = 98304;

/// How far a request is.
#[derive(Drop)]
pub enum Stage {
    /// The files are asked what is at a path.
    Asked {
        request: Box<InPhases>,
        wait: Wait,
    },
    /// They told it.
    Told {
        request: Box<InPhases>,
        wait: Wait,
        found: Found,
    },
    /// A block of its file is asked; this many bytes are to come, with it.
    Reading {
        sending: Sending,
        left: u64,
    },
    /// A block came, after which this many bytes are to come. Of the bytes for the peer this many
    /// are placed.
    Came {
        sending: Sending,
        left: u64,
        placed: usize,
    },
}

/// A request in flight: its job, and how far it is.
#[derive(Drop)]
pub struct Flow {
    pub ask: Ask,
    pub stage: Stage,
}

/// What became of a request that went on: how it goes on, if it isn't over; whether the connection
/// closes after it; its status and the length of its body in bytes once it is over; and the number
/// of the level that answers where its head was put now.
#[derive(Drop)]
pub struct Onward {
    pub flow: Option<Box<Flow>>,
    pub closing: bool,
    pub log: Option<(u16, u64)>,
    pub level: Option<u32>,
}

/// Whether its job waits for an answer.
pub fn waits(stage: &Stage) -> bool
    ensures { result ≡ waits_for stage.now }
{
    match stage {
        Stage::Asked {
            request: _,
            wait: _,
        } => true,
        Stage::Told {
            request: _,
            wait: _,
            found: _,
        } => false,
        Stage::Reading {
            sending: _,
            left: _,
        } => true,
        Stage::Came {
            sending: _,
            left: _,
            placed: _,
        } => false,
    }
}

/// Whether it can run on.
#[tactic(auto, unfolding(crate::specs::Flows::placed_most))]
pub fn may_run(stage: &Stage) -> bool
    ensures { result ≡ can_run stage.now }
{
    match stage {
        Stage::Asked {
            request: _,
            wait: _,
        } => false,
        Stage::Told {
            request: _,
            wait: _,
            found: _,
        } => true,
        Stage::Reading {
            sending: _,
            left: _,
        } => false,
        Stage::Came {
            sending: _,
            left: _,
            placed,
        } => *placed < PLACED,
    }
}

/// The number of the server that answers a request within its phases; 0 after them, where it
/// doesn't matter.
pub fn server_of(stage: &Stage) -> u32
    ensures { result ≡ stage_server stage.now }
{
    match stage {
        Stage::Asked { request, wait: _ } => request.server,
        Stage::Told {
            request,
            wait: _,
            found: _,
        } => request.server,
        Stage::Reading {
            sending: _,
            left: _,
        } => 0,
        Stage::Came {
            sending: _,
            left: _,
            placed: _,
        } => 0,
    }
}

/// The length in bytes that the head of a request within its phases states of its own body; 0 after
/// them, where it doesn't matter.
pub fn length_of(stage: &Stage) -> u64
    ensures { result ≡ stage_length stage.now }
{
    match stage {
        Stage::Asked { request, wait: _ } => request.length,
        Stage::Told {
            request,
            wait: _,
            found: _,
        } => request.length,
        Stage::Reading {
            sending: _,
            left: _,
        } => 0,
        Stage::Came {
            sending: _,
            left: _,
            placed: _,
        } => 0,
    }
}

/// How many of the bytes that are kept for the peer are shown as pending.
#[tactic(auto, unfolding(crate::specs::Flows::shown_most))]
pub fn shown_by(stage: &Stage) -> usize
    ensures { result ≡ shown_at stage.now }
{
    match stage {
        Stage::Came {
            sending: _,
            left: _,
            placed,
        } => (*placed).min(SHOWN),
        Stage::Asked {
            request: _,
            wait: _,
        } => SHOWN,
        Stage::Told {
            request: _,
            wait: _,
            found: _,
        } => SHOWN,
        Stage::Reading {
            sending: _,
            left: _,
        } => SHOWN,
    }
}

/// The first of the bytes for the peer were written, of those that are placed.
pub fn wrote(flow: &mut Box<Flow>, count: usize)
    requires { count ≤ shown_at flow.old.value.stage }
    ensures { flow.new.value ≡ record flow.old.value {
      stage = stage_written flow.old.value.stage count;
    } }
{
    let flow = &mut **flow;
    match &mut flow.stage {
        Stage::Asked {
            request: _,
            wait: _,
        } => {}
        Stage::Told {
            request: _,
            wait: _,
            found: _,
        } => {}
        Stage::Reading {
            sending: _,
            left: _,
        } => {}
        Stage::Came {
            sending: _,
            left: _,
            placed,
        } => *placed -= count,
    }
}
