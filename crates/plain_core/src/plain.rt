// The core.

use crate::conn::Conn;
use crate::state::State;
use byte_text::ByteText;
use file_tree::Ask;
use ngx_outside::{Event, EventCore, StepAnswer, Want};
use ready_loop::TimedCore;
use std::alloc::Global;

/// A core that holds at most one connection. Each line that arrives on it is a request: a node, 0, can run where a whole
/// line is there and the response before has gone, and it answers by one fixed text. A connection on which nothing comes
/// or goes for 60 seconds is given up. It asks for no files.
#[derive(Drop)]
pub struct PlainCore {
    state: State,
}

impl PlainCore {
    ghost use Rattle.std.specs.Prelude.{◌≡◌, ℕ};
    ghost use Rattle.ngx_outside.specs.Views.{nobody};
    ghost use Rattle.plain_core.specs.Core.{view_at, reply_of, now_at};

    /// A core that holds no connection, at moment 0 and tree 0, and answers each line by this text.
    pub fn new(alloc: Global, reply: ByteText) -> Self
        ensures empty { (c : ℕ) → view_at result c ≡ nobody }
        ensures reply { reply_of result ≡ reply }
        ensures now { now_at result ≡ record { moment = 0; tree = 0 } }
    {
        let state = State {
            number: 0,
            conn: Conn::new(alloc, reply),
            moment: 0,
            tree: 0,
            refused: 0,
        };
        PlainCore { state }
    }
}

impl EventCore for PlainCore {
    ghost use Rattle.plain_core.specs.Core.{seen_at};

    ghost seen = { seen_at };

    fn step(&mut self, event: Event) -> StepAnswer {
        self.state.happen(event)
    }

    fn pending(&self, conn: u32) -> &[u8] {
        if conn == self.state.number {
            self.state.conn.pending()
        } else {
            &[]
        }
    }

    fn conns(&self) -> &[u32] {
        self.state.conns()
    }

    fn next_want(&self, conn: u32, due: bool, full: bool) -> Option<Want> {
        if conn == self.state.number {
            self.state.next_want(due, full)
        } else {
            None
        }
    }

    fn ask(&self, _conn: u32, _node: u32) -> Option<&Ask> {
        None
    }

    fn refused(&self) -> u64 {
        self.state.refused
    }
}

impl TimedCore for PlainCore {
    fn quiet_until(&self) -> u64 {
        self.state.conn.quiet_until()
    }
}
