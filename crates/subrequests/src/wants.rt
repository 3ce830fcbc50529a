// What a family waits for, and which of its nodes can run.
ghost use Rattle.std.specs.Prelude.{◌≡◌, option_copied};
ghost use Rattle.ngx_outside.specs.Views.{ask_in};
ghost use Rattle.subrequests.specs.Moved.{IsWhole};
ghost use Rattle.subrequests.specs.Wants.{first_job as job_first, first_of, is_among, jobs_of, ready_of};

use crate::family::Family;
use family_nodes::{can_run, is_waiting};
use file_tree::Ask;

impl Family {
    /// The job of a node; none where it has no job that waits.
    pub fn ask(&self, at: u32) -> Option<&Ask>
        ensures { option_copied result ≡ ask_in (jobs_of self.now) at }
    {
        let node = self.nodes.as_slice().get(at as usize)?;
        if is_waiting(node, self.tree) {
            return Some(&node.ask);
        }
        None
    }

    /// The first node, by its number, whose job waits for an answer.
    #[inline(always)]
    pub fn first_job(&self) -> Option<u32>
        requires { IsWhole self.now }
        ensures { result ≡ job_first (jobs_of self.now) }
    {
        let mut at = self.nodes.next_asking(0);
        while at < self.nodes.len() {
            if is_waiting(self.nodes.node_at(at), self.tree) {
                return Some(at as u32);
            }
            at = self.nodes.next_asking(at + 1);
        }
        None
    }

    /// The first node, by its number, that can run. One that has come to its answer runs once more
    /// when its last subrequest is over: then it is over too.
    #[inline(always)]
    pub fn first_ready(&self) -> Option<u32>
        requires { IsWhole self.now }
        ensures { result ≡ first_of (ready_of self.now) }
    {
        let mut at = self.nodes.next_awake(0);
        while at < self.nodes.len() {
            if can_run(&self.order, at as u32, self.nodes.node_at(at)) {
                return Some(at as u32);
            }
            at = self.nodes.next_awake(at + 1);
        }
        None
    }

    /// Whether a node can run.
    pub fn is_ready(&self, at: u32) -> bool
        ensures { result ≡ is_among at (ready_of self.now) }
    {
        match self.nodes.as_slice().get(at as usize) {
            Some(node) => can_run(&self.order, at, node),
            None => false,
        }
    }
}
